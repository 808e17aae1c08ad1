// The infima of columns that a family starts from, and the first treatment family. (The final one: crossing.rt.)
ghost use Rattle.std.specs.Prelude.{◌≡◌, MatchOption, false, List, ◌++◌, ◌⊎◌, ◌+◌, ◌*◌, ◌≤◌, ◌<◌, length};
ghost use Rattle.std.proofs.Math.Seq.{paste};
ghost use Rattle.rules.specs.Limits.{most_plots, table_cells, family_bytes};
ghost use Rattle.rules.specs.Factor.{Column, number, infimum};
ghost use Rattle.rules.specs.Family.{◌∈◌, columns_from, members_of};
ghost use Rattle.rules.specs.Closing.{treatment_generators};
ghost use Rattle.design.specs.State.{column_at, Held, PlacedMember, NoRoom, Begun};
ghost use Rattle.design.specs.Judging.{Listing};
ghost use Rattle.design.specs.Treatments.{extended, Room, Infima, AllPlaced, with_choice};

use crate::closed::{ClosedFamily, close_family};
use crate::closing::PAIRS;
use crate::replicates::{few_combinations, first_points, meet_levels};
use crate::store::{grown, put, try_place};
use factor::largest;
use families::member;
use limits::{COLUMNS, Level, MEMBERS, PLOTS};

// The choices of at most 6 columns, the empty one among them.
const CHOICES: usize = 64;

// Bytes for an infimum of each choice.
const INFIMA: usize = 15360;

// Fewer columns than these, which most sheets have, make at most 8 choices.
const FEW_COLUMNS: usize = 4;

// Bytes for an infimum of each of these.
const FEW_INFIMA: usize = 1920;

// Writes the infimum of `column` with infimum `e` at place `total`.
fn add_infimum(infima: &mut [u8], total: usize, column: &[u8], e: usize)
    requires { (1 ≤ length column.now) × (length column.now ≤ most_plots) × (most_plots * total + most_plots ≤ length infima.old) × (most_plots * e + most_plots ≤ length infima.old) × (total < 64) × (e < 64) }
    ensures { infima.new ≡ paste infima.old (most_plots * total) (infimum column.now (column_at (length column.now) infima.old e)) (length column.now) }
{
    let n = column.len();
    let at = PLOTS * e;
    let end = at + n;
    let mut made = [0u8; PLOTS];
    standing::infimum(column, &infima[at..end], &mut made);
    put(infima, total, &made[..n]);
}

// Writes the infimum of `column` with infimum `e`, which is of `taken` columns, at place `total`: with that of none it is the column.
fn add_choice(infima: &mut [u8], total: usize, column: &[u8], e: usize, taken: u8)
    requires { (1 ≤ length column.now) × (length column.now ≤ most_plots) × (most_plots * total + most_plots ≤ length infima.old) × (most_plots * e + most_plots ≤ length infima.old) × (total < 64) × (e < 64) }
    ensures { infima.new ≡ paste infima.old (most_plots * total) (with_choice taken column.now (column_at (length column.now) infima.old e)) (length column.now) }
{
    if taken == 0 {
        put(infima, total, column);
        return;
    }
    add_infimum(infima, total, column, e);
}

// Adds the infima of `column` with each of the first `total` that is of fewer than `k` columns; answers how many there are then.
fn extend(
    infima: &mut [u8],
    lengths: &mut [u8; CHOICES],
    total: usize,
    column: &[u8],
    k: usize,
) -> usize
    requires { Room (length column.now) lengths.old × (2 * total ≤ 64) × (k ≤ 6) × (480 * total ≤ length infima.old) }
    ensures kept { Room (length column.now) lengths.new × (result ≤ 2 * total) }
    ensures extends { (T : Column) (Cs : List (List Column)) → number T ≡ column.now → Infima (length column.now) infima.old lengths.old total Cs → Infima (length column.now) infima.new lengths.new result (extended k T Cs) }
{
    let mut now = total;
    for e in 0..total {
        let length = lengths[e];
        if (length as usize) < k {
            add_choice(infima, now, column, e, length);
            lengths[now] = length + 1;
            now += 1;
        }
    }
    now
}

// Extends by column `c` of the level table, numbered.
fn extend_by(
    levels: &[Level],
    c: usize,
    infima: &mut [u8],
    lengths: &mut [u8; CHOICES],
    total: usize,
    n: usize,
    k: usize,
) -> usize
    requires { Room n lengths.old × (2 * total ≤ 64) × (k ≤ 6) × (most_plots * c + most_plots ≤ length levels.now) × (480 * total ≤ length infima.old) }
    ensures kept { Room n lengths.new × (result ≤ 2 * total) }
    ensures extends { (Cs : List (List Column)) → Infima n infima.old lengths.old total Cs → Infima n infima.new lengths.new result (extended k (column_at n levels.now c) Cs) }
{
    let mut column = [0u8; PLOTS];
    levels::column_numbers(levels, c, n, &mut column);
    extend(infima, lengths, total, &column[..n], k)
}

// Writes U and all infima of 1 to `k` different columns of the `d` from `first` on; answers how many they are.
fn fill_infima(
    levels: &[Level],
    n: usize,
    first: usize,
    d: usize,
    k: usize,
    infima: &mut [u8],
) -> usize
    requires { (1 ≤ n) × (n ≤ most_plots) × (d ≤ 6) × (1 ≤ k) × (k ≤ 6) × (first ≤ 6) × (table_cells ≤ length levels.now) × (((d ≤ 3) × (1920 ≤ length infima.old)) ⊎ (15360 ≤ length infima.old)) }
    ensures few { (result ≤ 64) × (most_plots * result ≤ length infima.new) }
    ensures columns { members_of n infima.new result ≡ treatment_generators n k (columns_from n levels.now first d) }
{
    let ones = [1u8; PLOTS];
    put(infima, 0, &ones[..n]);
    let mut lengths = [0u8; CHOICES];
    let mut total = 1;
    for c in (0..d).rev() {
        total = extend_by(levels, first + c, infima, &mut lengths, total, n, k);
    }
    total
}

// Places the column at place `e` of `infima`.
fn place_one(
    infima: &[u8],
    e: usize,
    n: usize,
    store: &mut [u8],
    counts: &mut [u8; MEMBERS],
    size: usize,
) -> Option<usize>
    requires { Held n store.old counts.old size × (most_plots * e + most_plots ≤ length infima.now) × (e < 64) × (number (column_at n infima.now e) ≡ column_at n infima.now e) }
    ensures { MatchOption result (NoRoom n (members_of n store.old size) (column_at n infima.now e) store.new counts.new) (λ r. PlacedMember n (members_of n store.old size) (column_at n infima.now e) r store.new counts.new) }
{
    let column = member(infima, e, n);
    let k = largest(column);
    try_place(store, counts, size, column, k)
}

// Places the first `total` columns beside the `size` members of a store; answers how many members there are then, unless too many. The last is
// placed first: infima of more columns, which are finer, come before those of fewer, so that closing can tell more suprema from others.
fn place_all(
    infima: &[u8],
    total: usize,
    n: usize,
    store: &mut [u8],
    counts: &mut [u8; MEMBERS],
    size: usize,
) -> Option<usize>
    requires { Begun n (members_of n store.old size) store.old counts.old size × (most_plots * total ≤ length infima.now) × (total ≤ 64) × ((F : Column) → F ∈ members_of n infima.now total → number F ≡ F) }
    ensures { AllPlaced n (members_of n infima.now total ++ members_of n store.old size) store.new counts.new result }
{
    let mut now = size;
    for e in (0..total).rev() {
        let p = place_one(infima, e, n, store, counts, now)?;
        now = grown(now, p);
    }
    Some(now)
}

// Places U and all infima of 1 to `k` different columns of the `d` from `first` on beside the members of a store, with so many bytes for
// the infima; answers how many members there are then, unless they are too many.
fn place_infima<const BYTES: usize>(
    levels: &[Level],
    n: usize,
    first: usize,
    d: usize,
    k: usize,
    store: &mut [u8],
    counts: &mut [u8; MEMBERS],
    size: usize,
) -> Option<usize>
    requires { (d ≤ 6) × (1 ≤ k) × (k ≤ 6) × (first ≤ 6) × (table_cells ≤ length levels.now) × (((d ≤ 3) × (1920 ≤ BYTES)) ⊎ (15360 ≤ BYTES)) × (BYTES ≤ 15360) × Begun n (members_of n store.old size) store.old counts.old size }
    ensures { AllPlaced n (treatment_generators n k (columns_from n levels.now first d) ++ members_of n store.old size) store.new counts.new result }
{
    let mut infima = [0u8; BYTES];
    let total = fill_infima(levels, n, first, d, k, &mut infima);
    place_all(&infima, total, n, store, counts, size)
}

// The same, with bytes as they are needed.
pub fn place_choices(
    levels: &[Level],
    n: usize,
    first: usize,
    d: usize,
    k: usize,
    store: &mut [u8],
    counts: &mut [u8; MEMBERS],
    size: usize,
) -> Option<usize>
    requires { (d ≤ 6) × (1 ≤ k) × (k ≤ 6) × (first ≤ 6) × (table_cells ≤ length levels.now) × Begun n (members_of n store.old size) store.old counts.old size }
    ensures { AllPlaced n (treatment_generators n k (columns_from n levels.now first d) ++ members_of n store.old size) store.new counts.new result }
{
    if d < FEW_COLUMNS {
        return place_infima::<FEW_INFIMA>(levels, n, first, d, k, store, counts, size);
    }
    place_infima::<INFIMA>(levels, n, first, d, k, store, counts, size)
}

// Closes the first treatment family on all plots.
fn first_whole(
    levels: &[Level],
    n: usize,
    d: usize,
    k: usize,
    store: &mut [u8],
    marks: &mut [u8; PAIRS],
    family: &mut [u8],
) -> Option<ClosedFamily>
    requires { (1 ≤ n) × (n ≤ most_plots) × (d ≤ 6) × (1 ≤ k) × (k ≤ 6) × (table_cells ≤ length levels.now) × (family_bytes ≤ length family.old) × (length store.old ≡ family_bytes) × (length marks.old ≡ 1024) }
    ensures { Listing n false (treatment_generators n k (columns_from n levels.now 6 d)) family.old family.new marks.new result }
{
    let mut counts = [0u8; MEMBERS];
    let start = place_choices(levels, n, COLUMNS, d, k, store, &mut counts, 0)?;
    close_family(store, &mut counts, marks, start, 0, n, false, family)
}

// Closes the first treatment family and writes it in its order, where it is not too large.
pub fn first_family(
    levels: &[Level],
    n: usize,
    d: usize,
    k: usize,
    store: &mut [u8],
    marks: &mut [u8; PAIRS],
    family: &mut [u8],
) -> Option<ClosedFamily>
    requires { (1 ≤ n) × (n ≤ most_plots) × (d ≤ 6) × (1 ≤ k) × (k ≤ 6) × (table_cells ≤ length levels.now) × (family_bytes ≤ length family.old) × (length store.old ≡ family_bytes) × (length marks.old ≡ 1024) }
    ensures { Listing n false (treatment_generators n k (columns_from n levels.now 6 d)) family.old family.new marks.new result }
{
    if !few_combinations(levels, n, d) {
        return first_whole(levels, n, d, k, store, marks, family);
    }
    let mut points = [1u8; PLOTS];
    let m = meet_levels(levels, n, d, &mut points);
    if !factor::uniform(&points[..n]) {
        return first_whole(levels, n, d, k, store, marks, family);
    }
    first_points(levels, n, d, k, &points, m, store, marks, family)
}
