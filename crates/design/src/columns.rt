// The columns that a plot family starts from: U, E and the plot columns.
ghost use Rattle.std.specs.Prelude.{◌≡◌, List, [], ◌∷◌, ◌++◌, ◌+◌, ◌*◌, ◌≤◌, ◌<◌, length, take};
ghost use Rattle.rules.specs.Limits.{most_plots, most_members, table_cells, family_bytes};
ghost use Rattle.rules.specs.Factor.{Column, number, universal, equality};
ghost use Rattle.rules.specs.Family.{columns_from};
ghost use Rattle.rules.specs.Closing.{plot_generators};
ghost use Rattle.design.specs.State.{column_at, Held, Begun};

use crate::store::{grown, place};
use limits::{Level, MEMBERS, PLOTS};

// The equality factor on `n` plots.
pub fn equality(n: usize) -> [u8; PLOTS]
    requires { n ≤ most_plots }
    ensures { take n result ≡ equality n }
{
    factor::equality(n)
}

// Places U and E as the first members; answers how many they are.
fn place_extremes(store: &mut [u8], counts: &mut [u8; MEMBERS], n: usize) -> usize
    requires { (1 ≤ n) × (n ≤ most_plots) × (length store.old ≡ family_bytes) × (length counts.old ≡ most_members) }
    ensures { Begun n (universal n ∷ equality n ∷ []) store.new counts.new result }
{
    let ones = [1u8; PLOTS];
    place(store, counts, 0, &ones[..n], 1);
    let column = equality(n);
    let p = place(store, counts, 1, &column[..n], n as u8);
    grown(1, p)
}

// Places a column of the level table, numbered.
fn place_column(
    levels: &[Level],
    c: usize,
    store: &mut [u8],
    counts: &mut [u8; MEMBERS],
    size: usize,
    n: usize,
) -> usize
    requires { Held n store.old counts.old size × (size < most_members) × (most_plots * c + most_plots ≤ length levels.now) }
    ensures kept { Held n store.new counts.new result × (result ≤ size + 1) }
    ensures begun { (As : List Column) → Begun n As store.old counts.old size → Begun n (As ++ number (column_at n levels.now c) ∷ []) store.new counts.new result }
{
    let mut column = [0u8; PLOTS];
    let k = levels::column_numbers(levels, c, n, &mut column);
    let p = place(store, counts, size, &column[..n], k as u8);
    grown(size, p)
}

// Places U, E and the plot columns, numbered; answers how many members they make.
pub fn place_plot_columns(
    levels: &[Level],
    c: usize,
    store: &mut [u8],
    counts: &mut [u8; MEMBERS],
    n: usize,
) -> usize
    requires { (1 ≤ n) × (n ≤ most_plots) × (c ≤ 6) × (table_cells ≤ length levels.now) × (length store.old ≡ family_bytes) × (length counts.old ≡ most_members) }
    ensures { Begun n (plot_generators n (columns_from n levels.now 0 c)) store.new counts.new result }
{
    let mut size = place_extremes(store, counts, n);
    // `j` is the number of a column of the level table, which is lent whole.
    for j in 0..c {
        size = place_column(levels, j, store, counts, size, n);
    }
    size
}
