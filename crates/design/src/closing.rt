// Closing a family under supremum, and under infimum too where that is asked: each unordered pair is combined once, and marked.
ghost use Rattle.std.specs.Prelude.{◌≡◌, IfSome, true, false, List, ℕ, ◌+◌, ◌*◌, ◌≤◌, ◌<◌, eqb, length};
ghost use Rattle.rules.specs.Limits.{most_plots, most_members, family_bytes};
ghost use Rattle.rules.specs.Factor.{Column, classes, infimum, supremum, finer, orthogonal};
ghost use Rattle.factor.specs.Lent.{overlay};
ghost use Rattle.design.specs.State.{column_at, told_finer, noted, entry_of, NamesCoarser, Follows, Held, Known, Work, Kept, Advanced, Stepped, Closed, Grows};

use crate::store::{grown, try_place};
use families::member;
use limits::{MEMBERS, PLOTS};
use standing::{Bounds, Crossing};

// The cells of a table with a row of 32 places for each member.
pub const PAIRS: usize = 1024;

// Whether it is known that a factor with `a` classes is finer than one with `b`, which is member `j`: none is coarser than a factor
// with one class, none is finer than one with a class for each plot, and `word` has a bit for each member known to be coarser.
fn told_finer(n: usize, a: u8, b: u8, word: u32, j: usize) -> bool
    requires { j < most_members }
    ensures { result ≡ told_finer n a b word j }
{
    b == 1 || a as usize == n || (word >> j) & 1 == 1
}

// Notes that member `a` is finer than member `b`, and so than all that `b` is known to be finer than.
fn note_finer(above: &mut [u32; MEMBERS], a: usize, b: usize)
    requires { (length above.old ≡ most_members) × (a < most_members) × (b < most_members) }
    ensures { above.new ≡ noted above.old a b }
{
    let word = above[a];
    let more = above[b];
    above[a] = word | (more | (1u32 << b));
}

// Notes that member `q` is the supremum of members `i` and `j`.
fn note_supremum(above: &mut [u32; MEMBERS], i: usize, j: usize, q: usize)
    requires { (length above.old ≡ most_members) × (i < most_members) × (j < most_members) × (q < most_members) }
    ensures { above.new ≡ noted (noted above.old i q) j q }
{
    note_finer(above, i, q);
    note_finer(above, j, q);
}

// Notes that member `p` is the infimum of members `i` and `j`.
fn note_infimum(above: &mut [u32; MEMBERS], i: usize, j: usize, p: usize)
    requires { (length above.old ≡ most_members) × (i < most_members) × (j < most_members) × (p < most_members) }
    ensures { above.new ≡ noted (noted above.old p i) p j }
{
    note_finer(above, p, i);
    note_finer(above, p, j);
}

// Whether member `i` is finer than or equivalent to member `j`.
fn member_finer(store: &[u8], n: usize, i: usize, j: usize) -> bool
    requires { (n ≤ most_plots) × (length store.now ≡ family_bytes) × (i < most_members) × (j < most_members) }
    ensures { result ≡ finer n (column_at n store.now i) (column_at n store.now j) }
{
    factor::finer(member(store, i, n), member(store, j, n))
}

// Whether member `i` is found to be finer than member `j`: it is known, or a walk shows it, which is then noted. None is walked that has not
// more classes, nor where infima are formed too: these tell it as well.
fn found_finer(
    store: &[u8],
    counts: &[u8; MEMBERS],
    above: &mut [u32; MEMBERS],
    size: usize,
    n: usize,
    infima: bool,
    i: usize,
    j: usize,
) -> bool
    requires { Held n store.now counts.now size × (i < size) × (j < size) × Known n store.now above.old size }
    ensures finer { result ≡ true → finer n (column_at n store.now i) (column_at n store.now j) ≡ true }
    ensures known { Known n store.now above.new size }
{
    let a = counts[i];
    let b = counts[j];
    let word = above[i];
    if told_finer(n, a, b, word, j) {
        return true;
    }
    if !infima && b < a && member_finer(store, n, i, j) {
        note_finer(above, i, j);
        return true;
    }
    false
}

// Writes the supremum of two members; answers its number of classes, and whether they are orthogonal.
fn member_crossing(store: &[u8], n: usize, i: usize, j: usize, column: &mut [u8; PLOTS]) -> Crossing
    requires { (n ≤ most_plots) × (length store.now ≡ family_bytes) × (i < most_members) × (j < most_members) }
    ensures supremum { result.supremum ≡ classes (supremum (column_at n store.now i) (column_at n store.now j)) }
    ensures orthogonal { result.orthogonal ≡ orthogonal n (column_at n store.now i) (column_at n store.now j) }
    ensures above { column.new ≡ overlay column.old (supremum (column_at n store.now i) (column_at n store.now j)) }
{
    standing::crossing_of(member(store, i, n), member(store, j, n), column)
}

// Writes the infimum and the supremum of two members; answers their numbers of classes.
fn member_bounds(
    store: &[u8],
    n: usize,
    i: usize,
    j: usize,
    below: &mut [u8; PLOTS],
    above: &mut [u8; PLOTS],
) -> Bounds
    requires { (n ≤ most_plots) × (length store.now ≡ family_bytes) × (i < most_members) × (j < most_members) }
    ensures infimum { result.infimum ≡ classes (infimum (column_at n store.now i) (column_at n store.now j)) }
    ensures supremum { result.supremum ≡ classes (supremum (column_at n store.now i) (column_at n store.now j)) }
    ensures below { below.new ≡ overlay below.old (infimum (column_at n store.now i) (column_at n store.now j)) }
    ensures above { above.new ≡ overlay above.old (supremum (column_at n store.now i) (column_at n store.now j)) }
{
    standing::bounds_of(member(store, i, n), member(store, j, n), below, above)
}

// Whether two factors with `a` and `b` classes, whose infimum has `p` and whose supremum `q`, have the mark: those that are orthogonal
// and have classes of one size make the same product.
fn same_product(p: usize, q: usize, a: u8, b: u8) -> bool
    requires { (p ≤ most_plots) × (q ≤ most_plots) }
    ensures { result ≡ eqb (p * q) (a * b) }
{
    p * q == a as usize * b as usize
}

// The entry of a pair whose supremum is member `q`: 1 and its place where the pair has the mark.
fn entry(mark: bool, q: usize) -> u8
    requires { q < most_members }
    ensures { result ≡ entry_of mark q }
{
    if mark { q as u8 + 1 } else { 0 }
}

// Combines two members under both operations, with a mark where numbers of classes are as for two that are orthogonal.
fn combine_both(
    store: &mut [u8],
    counts: &mut [u8; MEMBERS],
    marks: &mut [u8; PAIRS],
    above: &mut [u32; MEMBERS],
    size: usize,
    n: usize,
    i: usize,
    j: usize,
) -> Option<usize>
    requires { Held n store.old counts.old size × (i < size) × (j < i) × Known n store.old above.old size }
    ensures kept { Advanced n store.new counts.new above.new size result }
    ensures step { (Gs : List Column) → Work n true Gs store.old counts.old marks.old size i j → Stepped n true Gs store.new counts.new marks.new result i (j + 1) }
{
    let mut infimum = [0u8; PLOTS];
    let mut supremum = [0u8; PLOTS];
    let bounds = member_bounds(store, n, i, j, &mut infimum, &mut supremum);
    let mark = same_product(bounds.infimum, bounds.supremum, counts[i], counts[j]);
    let p = try_place(store, counts, size, &infimum[..n], bounds.infimum as u8)?;
    let more = grown(size, p);
    let q = try_place(store, counts, more, &supremum[..n], bounds.supremum as u8)?;
    marks[MEMBERS * i + j] = entry(mark, q);
    note_supremum(above, i, j, q);
    note_infimum(above, i, j, p);
    Some(grown(more, q))
}

// Combines two members under supremum, with a mark where they are orthogonal.
fn combine_supremum(
    store: &mut [u8],
    counts: &mut [u8; MEMBERS],
    marks: &mut [u8; PAIRS],
    above: &mut [u32; MEMBERS],
    size: usize,
    n: usize,
    i: usize,
    j: usize,
) -> Option<usize>
    requires { Held n store.old counts.old size × (i < size) × (j < i) × Known n store.old above.old size }
    ensures kept { Advanced n store.new counts.new above.new size result }
    ensures step { (Gs : List Column) → Work n false Gs store.old counts.old marks.old size i j → Stepped n false Gs store.new counts.new marks.new result i (j + 1) }
{
    let mut column = [0u8; PLOTS];
    let crossing = member_crossing(store, n, i, j, &mut column);
    let q = try_place(store, counts, size, &column[..n], crossing.supremum as u8)?;
    marks[MEMBERS * i + j] = entry(crossing.orthogonal, q);
    note_supremum(above, i, j, q);
    Some(grown(size, q))
}

// Whether an entry of `marks` names a member that is known to be coarser than member `j`.
fn names_coarser(
    counts: &[u8; MEMBERS],
    above: &[u32; MEMBERS],
    size: usize,
    n: usize,
    j: usize,
    entry: u8,
) -> bool
    requires { (length counts.now ≡ most_members) × (length above.now ≡ most_members) × (size ≤ most_members) × (j < size) }
    ensures { result ≡ true → NamesCoarser n counts.now above.now size j entry }
{
    let Some(q) = (entry as usize).checked_sub(1) else {
        return false;
    };
    q < size && told_finer(n, counts[j], counts[q], above[j], q)
}

// The entry of members `i` and `j`, where it follows from that of `i` and a member finer than `j`: a factor between one of two orthogonal
// factors and their supremum is orthogonal to the other, with the same supremum.
fn known_entry(
    counts: &[u8; MEMBERS],
    marks: &[u8; PAIRS],
    above: &[u32; MEMBERS],
    size: usize,
    n: usize,
    i: usize,
    j: usize,
) -> Option<u8>
    requires { (length counts.now ≡ most_members) × (length above.now ≡ most_members) × (size ≤ most_members) × (i < size) × (j < i) }
    ensures { (store : List ℕ) → Held n store counts.now size → Known n store above.now size → IfSome result (Follows n store marks.now size i j) }
{
    for (y, &word) in above[..j].iter().enumerate() {
        let entry = marks[MEMBERS * i + y];
        if (word >> j) & 1 == 1 && names_coarser(counts, above, size, n, j, entry) {
            return Some(entry);
        }
    }
    None
}

// Combines two members under supremum, by a walk where it does not follow from what is known.
fn combine_join(
    store: &mut [u8],
    counts: &mut [u8; MEMBERS],
    marks: &mut [u8; PAIRS],
    above: &mut [u32; MEMBERS],
    size: usize,
    n: usize,
    i: usize,
    j: usize,
) -> Option<usize>
    requires { Held n store.old counts.old size × (i < size) × (j < i) × Known n store.old above.old size }
    ensures kept { Advanced n store.new counts.new above.new size result }
    ensures step { (Gs : List Column) → Work n false Gs store.old counts.old marks.old size i j → Stepped n false Gs store.new counts.new marks.new result i (j + 1) }
{
    if let Some(known) = known_entry(counts, marks, above, size, n, i, j) {
        marks[MEMBERS * i + j] = known;
        return Some(size);
    }
    combine_supremum(store, counts, marks, above, size, n, i, j)
}

// Combines members `i` and `j`; answers the new size; none where the family is too large. Two that are found to be nested make nothing new, and have the mark.
fn combine(
    store: &mut [u8],
    counts: &mut [u8; MEMBERS],
    marks: &mut [u8; PAIRS],
    above: &mut [u32; MEMBERS],
    size: usize,
    n: usize,
    infima: bool,
    i: usize,
    j: usize,
) -> Option<usize>
    requires { Held n store.old counts.old size × (i < size) × (j < i) × Known n store.old above.old size }
    ensures kept { Advanced n store.new counts.new above.new size result }
    ensures step { (Gs : List Column) → Work n infima Gs store.old counts.old marks.old size i j → Stepped n infima Gs store.new counts.new marks.new result i (j + 1) }
{
    let at = MEMBERS * i + j;
    if found_finer(store, counts, above, size, n, infima, i, j) {
        marks[at] = entry(true, j);
        return Some(size);
    }
    if found_finer(store, counts, above, size, n, infima, j, i) {
        marks[at] = entry(true, i);
        return Some(size);
    }
    if infima {
        return combine_both(store, counts, marks, above, size, n, i, j);
    }
    combine_join(store, counts, marks, above, size, n, i, j)
}

// Combines member `i` with each that was found before it; answers the new size; none where the family is too large.
fn combine_row(
    store: &mut [u8],
    counts: &mut [u8; MEMBERS],
    marks: &mut [u8; PAIRS],
    above: &mut [u32; MEMBERS],
    size: usize,
    n: usize,
    infima: bool,
    i: usize,
) -> Option<usize>
    requires { Held n store.old counts.old size × (i < size) × Known n store.old above.old size }
    ensures kept { Advanced n store.new counts.new above.new size result }
    ensures step { (Gs : List Column) → Work n infima Gs store.old counts.old marks.old size i 0 → Stepped n infima Gs store.new counts.new marks.new result i i }
{
    let mut now = size;
    // `j` is a member's place: what is combined is read from the store, which grows meanwhile, so that no slice of it can be lent to the loop.
    for j in 0..i {
        now = combine(store, counts, marks, above, now, n, infima, i, j)?;
    }
    Some(now)
}

// Closes the family, of which the members before place `from` are combined with each other; answers its size; none where it is too large.
pub fn close(
    store: &mut [u8],
    counts: &mut [u8; MEMBERS],
    marks: &mut [u8; PAIRS],
    size: usize,
    from: usize,
    n: usize,
    infima: bool,
) -> Option<usize>
    requires { Held n store.old counts.old size × (from ≤ size) }
    ensures kept { Kept n store.new counts.new size result }
    ensures closes { (Gs : List Column) → Work n infima Gs store.old counts.old marks.old size from 0 → Closed n infima Gs store.new counts.new marks.new result }
{
    let mut above = [0u32; MEMBERS];
    let mut now = size;
    let mut i = from;
    // Members that are added on the way have their turn too: no range that is fixed before the walk has them all.
    while i < now {
        now = combine_row(store, counts, marks, &mut above, now, n, infima, i)?;
        i += 1;
    }
    Some(now)
}

// Combines members under supremum up to the first row that adds one; answers the new size; none where the family is too large. Where
// it is as it was, they are closed.
pub fn close_or_grow(
    store: &mut [u8],
    counts: &mut [u8; MEMBERS],
    marks: &mut [u8; PAIRS],
    size: usize,
    n: usize,
) -> Option<usize>
    requires { Held n store.old counts.old size }
    ensures kept { Kept n store.new counts.new size result }
    ensures grows { (Gs : List Column) → Work n false Gs store.old counts.old marks.old size 0 0 → Grows n Gs store.new counts.new marks.new size result }
{
    let mut above = [0u32; MEMBERS];
    // As above, `i` is a place in a store that may grow.
    for i in 0..size {
        let now = combine_row(store, counts, marks, &mut above, size, n, false, i)?;
        if now != size {
            return Some(now);
        }
    }
    Some(size)
}
