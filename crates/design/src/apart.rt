// The places of the first pair of a plot and a treatment member that are not orthogonal.
ghost use Rattle.std.specs.Prelude.{◌≡◌, ℕ, Option, ◌<◌, IfSome};
ghost use Rattle.rules.specs.Limits.{most_members};
ghost use Rattle.design.specs.Search.{cross_first, cross_second, first_of, second_of};
ghost use Rattle.design.specs.Sides.{test_of, TestedOf};

use crate::entries::Entries;
use crate::nesting::{Sides, known_finer};
use crate::questions::Places;
use families::member;
use limits::{MEMBERS, PLOTS};

// Whether plot member `i` and treatment member `j` are orthogonal, which may be known: by the table, by the pair `apart` that is not, or
// by the numbers of classes. Else a walk over the plots tells it.
fn pair_orthogonal(
    sides: &Sides,
    i: usize,
    j: usize,
    joins: &Entries,
    apart: (usize, usize),
) -> bool
    requires { (i < sides.now.plot.size) × (j < sides.now.treatment.size) × TestedOf sides.now joins.now apart.0 apart.1 i j }
    ensures { result ≡ test_of sides.now i j }
{
    if joins.get(MEMBERS * i + j).is_some() {
        return true;
    }
    if apart == (i, j) {
        return false;
    }
    let plot = &sides.plot;
    let treatment = &sides.treatment;
    let n = plot.plots;
    let f = plot.counts[i];
    let g = treatment.counts[j];
    let mut column = [0u8; PLOTS];
    known_finer(n, f, g)
        || known_finer(n, g, f)
        || standing::crossing_of(
            member(plot.bytes, i, n),
            member(treatment.bytes, j, n),
            &mut column,
        )
        .orthogonal
}

// The first pair that is not orthogonal, where `apart` is one.
pub fn first_crossed(sides: &Sides, joins: &Entries, apart: (usize, usize)) -> Option<Places>
    requires { (i j : ℕ) → i < most_members → j < most_members → TestedOf sides.now joins.now apart.0 apart.1 i j }
    ensures first { first_of result ≡ cross_first (test_of sides.now) sides.now.plot.size sides.now.treatment.size }
    ensures second { second_of result ≡ cross_second (test_of sides.now) sides.now.treatment.size (first_of result) }
    ensures some { IfSome result (λ pair. pair.first ≡ 0 → ⊥) }
{
    let mut found = None;
    'pairs: for i in 0..sides.plot.size {
        for j in 0..sides.treatment.size {
            if !pair_orthogonal(sides, i, j, joins, apart) {
                found = Some(Places {
                    first: i + 1,
                    second: j + 1,
                });
                break 'pairs;
            }
        }
    }
    found
}
