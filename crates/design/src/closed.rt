// The closing step: a family that grows in a store is closed, and written in its order.
ghost use Rattle.std.specs.Prelude.{◌≡◌, true, List, [], ◌∷◌, ◌++◌, ◌≤◌, length};
ghost use Rattle.rules.specs.Limits.{most_plots, most_members, table_cells, family_bytes};
ghost use Rattle.rules.specs.Factor.{Column, equality};
ghost use Rattle.rules.specs.Family.{◌∈◌, columns_from, members_of};
ghost use Rattle.rules.specs.Closing.{plot_family, treatment_generators};
ghost use Rattle.rules.specs.Design.{question8, plot_buffer};
ghost use Rattle.design.specs.State.{Begun, Work};
ghost use Rattle.design.specs.Judging.{Listing, PlotListing};
ghost use Rattle.design.specs.Treatments.{AllPlaced};
ghost use Rattle.design.specs.Closings.{closed_in, Ready};

use crate::closing::{PAIRS, close, close_or_grow};
use crate::columns::{equality, place_plot_columns};
use crate::points::{close_points, meet_members};
use crate::sorting::{sort, write};
use crate::store::place;
use crate::treatments::place_choices;
use limits::{COLUMNS, Level, MEMBERS, PLOTS};

// U, E and three columns: fewer make one pair at most.
const CROSSED: usize = 5;

// U, E and four columns: fewer make a family that is closed in less time than points take.
const PARTED: usize = 6;

// A closed family: its size, and where its members were found, in their order.
#[derive(Clone, Copy)]
pub struct ClosedFamily {
    pub size: usize,
    pub order: [u8; MEMBERS],
}

// Closes the family that starts from the first `start` members of a store, of which those before place `from` are combined with each
// other; marks its pairs, and writes it in its order; none where it is too large.
pub fn close_family(
    store: &mut [u8],
    counts: &mut [u8; MEMBERS],
    marks: &mut [u8; PAIRS],
    start: usize,
    from: usize,
    n: usize,
    infima: bool,
    family: &mut [u8],
) -> Option<ClosedFamily>
    requires { Work n infima (members_of n store.old start) store.old counts.old marks.old start from 0 × (from ≤ start) × (family_bytes ≤ length family.old) }
    ensures { (Gs : List Column) → Work n infima Gs store.old counts.old marks.old start from 0 → Listing n infima Gs family.old family.new marks.new result }
{
    let size = close(store, counts, marks, start, from, n, infima)?;
    let order = sort(store, counts, n, size);
    write(store, &order, n, size, family);
    Some(ClosedFamily { size, order })
}

// Places E and the infima of all choices of plot columns; answers how many members they make, unless these are too many.
fn place_plot_infima(
    levels: &[Level],
    n: usize,
    c: usize,
    store: &mut [u8],
    counts: &mut [u8; MEMBERS],
) -> Option<usize>
    requires { (1 ≤ n) × (n ≤ most_plots) × (c ≤ 6) × (table_cells ≤ length levels.now) × (length store.old ≡ family_bytes) × (length counts.old ≡ most_members) }
    ensures { AllPlaced n (treatment_generators n 6 (columns_from n levels.now 0 c) ++ equality n ∷ []) store.new counts.new result }
{
    let column = equality(n);
    place(store, counts, 0, &column[..n], n as u8);
    place_choices(levels, n, 0, c, COLUMNS, store, counts, 1)
}

// Closes the plot family by the infima of its columns: these make no other infima, so that they are the family where no two of them
// have another supremum. Else it is closed under both operations.
fn close_by_infima(
    levels: &[Level],
    n: usize,
    columns: usize,
    store: &mut [u8],
    counts: &mut [u8; MEMBERS],
    marks: &mut [u8; PAIRS],
    plot: &mut [u8],
) -> Option<ClosedFamily>
    requires { (1 ≤ n) × (n ≤ most_plots) × (columns ≤ 6) × (table_cells ≤ length levels.now) × (family_bytes ≤ length plot.old) × (length store.old ≡ family_bytes) × (length counts.old ≡ most_members) × (length marks.old ≡ 1024) }
    ensures { PlotListing n (columns_from n levels.now 0 columns) plot.old plot.new marks.new result }
{
    let start = place_plot_infima(levels, n, columns, store, counts)?;
    let size = close_or_grow(store, counts, marks, start, n)?;
    if size == start {
        let order = sort(store, counts, n, size);
        write(store, &order, n, size, plot);
        return Some(ClosedFamily { size, order });
    }
    close_family(store, counts, marks, size, 0, n, true, plot)
}

// The product of a number and a number of classes.
pub fn times(a: usize, b: u8) -> usize
    requires { a ≤ most_plots }
{
    a * b as usize
}

// Whether three plot columns or more, placed after U and E, look crossed: there are as many plots as combinations of their classes, at
// least. Then their infima are likely to be the family. Any answer is right; this one is quick.
fn look_crossed(counts: &[u8; MEMBERS], size: usize, n: usize) -> bool
    requires { (size ≤ most_members) × (n ≤ most_plots) }
{
    if size < CROSSED {
        return false;
    }
    let mut combinations: usize = 1;
    for &k in &counts[2..size] {
        combinations = times(combinations, k);
        if n < combinations {
            return false;
        }
    }
    true
}

// Whether four plot columns or more, placed after U and E, have few classes: there may be few points then. Any answer is right; this one
// is quick.
fn few_classes(counts: &[u8; MEMBERS], size: usize, n: usize) -> bool
    requires { (size ≤ most_members) × (n ≤ most_plots) }
{
    PARTED <= size && counts[2..size].iter().all(|&k| times(4, k) < n)
}

// Closes the plot family that starts from U, E and columns, on the points of these where there are few.
fn close_columns(
    store: &mut [u8],
    counts: &mut [u8; MEMBERS],
    marks: &mut [u8; PAIRS],
    start: usize,
    n: usize,
    family: &mut [u8],
) -> Option<ClosedFamily>
    requires { Begun n (members_of n store.old start) store.old counts.old start × (equality n ∈ members_of n store.old start) × (length marks.old ≡ 1024) × (family_bytes ≤ length family.old) }
    ensures { (Gs : List Column) → Begun n Gs store.old counts.old start → Listing n true Gs family.old family.new marks.new result }
{
    if !few_classes(counts, start, n) {
        return close_family(store, counts, marks, start, 0, n, true, family);
    }
    let mut points = [1u8; PLOTS];
    let m = meet_members(store, counts, start, n, &mut points);
    if n < 2 * m {
        return close_family(store, counts, marks, start, 0, n, true, family);
    }
    close_points(store, counts, marks, start, n, &points, m, family)
}

// Closes the plot family and writes it in its order, where it is not too large.
pub fn close_plot_family(
    levels: &[Level],
    n: usize,
    columns: usize,
    store: &mut [u8],
    marks: &mut [u8; PAIRS],
    plot: &mut [u8],
) -> Option<ClosedFamily>
    requires { (1 ≤ n) × (n ≤ most_plots) × (columns ≤ 6) × (table_cells ≤ length levels.now) × (family_bytes ≤ length plot.old) × (length store.old ≡ family_bytes) × (length marks.old ≡ 1024) }
    ensures family { closed_in n plot.new result ≡ plot_family n (columns_from n levels.now 0 columns) }
    ensures buffer { plot.new ≡ plot_buffer plot.old (question8 n (plot_family n (columns_from n levels.now 0 columns))) }
    ensures tables { Ready n plot.new marks.new result }
{
    let mut counts = [0u8; MEMBERS];
    let start = place_plot_columns(levels, columns, store, &mut counts, n);
    if look_crossed(&counts, start, n) {
        return close_by_infima(levels, n, columns, store, &mut counts, marks, plot);
    }
    close_columns(store, &mut counts, marks, start, n, plot)
}
