// Suprema that follow from those of finer members: where F is finer than F', and F' than the supremum of F and G, which are orthogonal,
// the supremum of F' and G is the same one, and they are orthogonal.
ghost use Rattle.std.specs.Prelude.{◌≡◌, true, ◌⊎◌, ℕ, Option, Some, None, ◌+◌, ◌*◌, ◌≤◌, ◌<◌, get_or};
ghost use Rattle.rules.specs.Limits.{most_members};
ghost use Rattle.rules.specs.Lists.{bit_at};
ghost use Rattle.design.specs.Crossing.{Join, Chosen};
ghost use Rattle.design.specs.Sides.{Crossing, plot_of, treatment_of};

use crate::crossing::Suprema;
use crate::entries::Entries;
use crate::nesting::{Sides, found_finer};
use families::member;
use limits::MEMBERS;

// Of two places, the one whose member has fewer classes.
fn fewer(counts: &[u8; MEMBERS], p: Option<u8>, q: Option<u8>) -> Option<u8>
    requires first { (k : ℕ) → p ≡ Some k → k < most_members }
    requires second { (k : ℕ) → q ≡ Some k → k < most_members }
    ensures { (result ≡ p) ⊎ (result ≡ q) }
{
    match (p, q) {
        (Some(a), Some(b)) if counts[b as usize] < counts[a as usize] => q,
        (None, _) => q,
        _ => p,
    }
}

// Of the entries that belong to the bits of a word, from bit `from` on, the place whose member has the fewest classes: no other can be
// the supremum.
fn coarsest(
    joins: &Entries,
    counts: &[u8; MEMBERS],
    at: usize,
    step: usize,
    word: u32,
    from: usize,
) -> Option<u8>
    requires { (at ≤ 1024) × (step ≤ most_members) × ((k : ℕ) → bit_at word k ≡ true → (at + step * k < 1024) × ((q : ℕ) → get_or joins.now (at + step * k) None ≡ Some q → q < most_members)) }
    ensures { (q : ℕ) → result ≡ Some q → Chosen joins.now at step word q }
{
    let mut best = None;
    for k in from..MEMBERS {
        let left = word >> k;
        if left == 0 {
            return best;
        }
        if left & 1 == 1 {
            best = fewer(counts, best, joins.get(at + step * k));
        }
    }
    best
}

// The place of the supremum of plot member `i` and treatment member `j`, where it follows from those of finer members.
pub fn following(sides: &Sides, i: usize, j: usize, found: &Suprema, joins: &Entries) -> Option<u8>
    requires { (i < sides.now.plot.size) × (j < sides.now.treatment.size) × Crossing sides.now found.now joins.now }
    ensures { (q : ℕ) → result ≡ Some q → Join sides.now.plot.plots (plot_of sides.now i) (treatment_of sides.now j) found.now.bytes found.now.size q }
{
    let plot = &sides.plot;
    let treatment = &sides.treatment;
    let n = plot.plots;
    let p = coarsest(joins, &found.counts, j, MEMBERS, plot.finer[i], i + 1);
    let q = coarsest(
        joins,
        &found.counts,
        MEMBERS * i,
        1,
        treatment.finer[j],
        j + 1,
    );
    if p == q {
        return p;
    }
    let place = fewer(&found.counts, p, q)?;
    let supremum = member(&found.bytes, place as usize, n);
    let count = found.counts[place as usize];
    let is_finer = if p == Some(place) {
        found_finer(member(plot.bytes, i, n), plot.counts[i], supremum, count)
    } else {
        found_finer(
            member(treatment.bytes, j, n),
            treatment.counts[j],
            supremum,
            count,
        )
    };
    is_finer.then_some(place)
}
