// The order of members, as numbers of classes or a walk over the plots tell it.
ghost use Rattle.std.specs.Prelude.{◌≡◌, true, ℕ, ◌≤◌, ◌<◌, length, get_or};
ghost use Rattle.rules.specs.Limits.{most_plots, most_members};
ghost use Rattle.rules.specs.Factor.{classes, finer};
ghost use Rattle.design.specs.State.{column_at};
ghost use Rattle.design.specs.Treatments.{known_finer, Numbered};
ghost use Rattle.design.specs.Crossing.{Counted, FinerBits, Ordered};

use factor::largest;
use families::member;
use limits::MEMBERS;

// Fewer members than these leave so little to follow from the order of the other family's members that it is not sought.
const SOME_MEMBERS: usize = 4;

// The members of a family on `plots` plots: its bytes, how many members there are, their numbers of classes, and words with a bit for each
// member that is finer, by place.
#[derive(Drop)]
pub struct Members<'a> {
    pub bytes: &'a [u8],
    pub plots: usize,
    pub size: usize,
    pub counts: [u8; MEMBERS],
    pub finer: [u32; MEMBERS],
    ghost ordered: { Ordered plots bytes.now counts finer size },
}

// The plot and the treatment members of a design, on the same plots.
#[derive(Drop)]
pub struct Sides<'a> {
    pub plot: Members<'a>,
    pub treatment: Members<'a>,
    ghost same_plots: { plot.plots ≡ treatment.plots },
}

// The members of a family; their order is known where the other family has members enough for it to be of use.
pub fn members_of<'a>(bytes: &'a [u8], plots: usize, size: usize, other: usize) -> Members<'a>
    requires { (1 ≤ plots) × (plots ≤ most_plots) × Numbered plots bytes.now size }
    ensures bytes { result.bytes.now ≡ bytes.now }
    ensures plots { result.plots ≡ plots }
    ensures size { result.size ≡ size }
{
    let counts = class_counts(bytes, plots, size);
    let finer = if other < SOME_MEMBERS {
        [0u32; MEMBERS]
    } else {
        finer_words(bytes, &counts, size, plots)
    };
    Members {
        bytes,
        plots,
        size,
        counts,
        finer,
    }
}

// Numbers of classes by place; 0 where there is no member. (Of `array::from_fn` the proof does not see what the calls return.)
fn class_counts(family: &[u8], n: usize, size: usize) -> [u8; MEMBERS]
    requires { (n ≤ most_plots) × Numbered n family.now size }
    ensures { Counted n family.now result size }
{
    let mut counts = [0u8; MEMBERS];
    for i in 0..size {
        counts[i] = largest(member(family, i, n));
    }
    counts
}

// Whether numbers of classes tell that a factor with `a` of them is finer than one with `b`: none is coarser than a factor with one
// class, and none is finer than one with a class for each plot.
pub fn known_finer(n: usize, a: u8, b: u8) -> bool
    ensures { result ≡ known_finer n a b }
{
    b == 1 || a as usize == n
}

// Whether a factor with `f` classes is found to be finer than one with `g`. None is walked that has fewer.
pub fn found_finer(a: &[u8], f: u8, b: &[u8], g: u8) -> bool
    requires { (1 ≤ length a.now) × (length a.now ≤ most_plots) × (length b.now ≡ length a.now) × (f ≡ classes a.now) × (g ≡ classes b.now) }
    ensures { result ≡ true → finer (length a.now) a.now b.now ≡ true }
{
    known_finer(a.len(), f, g) || (g <= f && factor::finer(a, b))
}

// A word with a bit for each member after `i` that is finer than it, where `words` has those of the members after it. Each member that is
// finer is noted with those finer than itself. Several tables are read at place `k`, so it is counted.
fn finer_word(
    family: &[u8],
    counts: &[u8; MEMBERS],
    words: &[u32; MEMBERS],
    size: usize,
    n: usize,
    i: usize,
) -> u32
    requires { (1 ≤ n) × (n ≤ most_plots) × (size ≤ most_members) × (i < size) × Counted n family.now counts.now size × ((k : ℕ) → FinerBits n family.now (get_or words.now k 0) k) }
    ensures { FinerBits n family.now result i }
{
    let mut word: u32 = 0;
    let column = member(family, i, n);
    for k in (i + 1)..size {
        if (word >> k) & 1 == 0 && found_finer(member(family, k, n), counts[k], column, counts[i]) {
            word |= words[k] | (1u32 << k);
        }
    }
    word
}

// Words with a bit for each member that is finer, by place.
fn finer_words(family: &[u8], counts: &[u8; MEMBERS], size: usize, n: usize) -> [u32; MEMBERS]
    requires { (1 ≤ n) × (n ≤ most_plots) × (size ≤ most_members) × Counted n family.now counts.now size }
    ensures { (k : ℕ) → FinerBits n family.now (get_or result k 0) k }
{
    let mut words = [0u32; MEMBERS];
    for i in (0..size).rev() {
        words[i] = finer_word(family, counts, &words, size, n, i);
    }
    words
}
