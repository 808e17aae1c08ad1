// The first treatment family on points: plots with the same treatments are taken together. Where there are few such points, with as many
// plots each, members are orthogonal on the points exactly when they are on the plots.
ghost use Rattle.std.specs.Prelude.{◌≡◌, false, ℕ, ◌+◌, ◌*◌, ◌≤◌, ◌<◌, length, take};
ghost use Rattle.std.proofs.Math.Seq.{paste};
ghost use Rattle.rules.specs.Limits.{most_plots, table_cells, family_bytes};
ghost use Rattle.rules.specs.Factor.{Uniform, Finer, classes, infimum, universal};
ghost use Rattle.rules.specs.Family.{columns_from};
ghost use Rattle.rules.specs.Closing.{treatment_generators};
ghost use Rattle.design.specs.State.{column_at};
ghost use Rattle.design.specs.Judging.{Listing};
ghost use Rattle.design.specs.Points.{Points, Ranged, points_on_plots};

use crate::closed::{ClosedFamily, close_family};
use crate::closing::{PAIRS, close};
use crate::points::{meet, spread_all};
use crate::treatments::place_choices;
use limits::{COLUMNS, FAMILY, LEVELS, Level, MEMBERS, PLOTS};

// Fewer treatment columns make a family that is closed in no time.
const SOME_COLUMNS: usize = 4;

// How many classes column `c` of the level table has.
fn column_classes(levels: &[Level], c: usize, n: usize) -> usize {
    levels::column_numbers(levels, c, n, &mut [0u8; PLOTS])
}

// Whether four treatment columns or more have few combinations of classes, half as many as there are plots, at most: then there are few
// points. Columns of two classes or more have two to the power of their number, at least, and none is numbered after the first that makes
// too many. Any answer is right; this one is quick.
pub fn few_combinations(levels: &[Level], n: usize, d: usize) -> bool
    requires { d ≤ 6 }
{
    SOME_COLUMNS <= d
        && 2 <= n >> d
        && (COLUMNS..COLUMNS + d)
            .try_fold(2, |product: usize, c| {
                let combinations = product.saturating_mul(column_classes(levels, c, n));
                (combinations <= n).then_some(combinations)
            })
            .is_some()
}

// Meets column `c` of the level table with what was met before it, in the first `n` bytes; answers how many classes there are.
fn meet_level(levels: &[Level], c: usize, n: usize, points: &mut [u8; PLOTS]) -> usize
    requires { (n ≤ most_plots) × (most_plots * c + most_plots ≤ length levels.now) }
    ensures answer { result ≡ classes (infimum (column_at n levels.now c) (take n points.old)) }
    ensures met { take n points.new ≡ infimum (column_at n levels.now c) (take n points.old) }
{
    let mut column = [0u8; PLOTS];
    levels::column_numbers(levels, c, n, &mut column);
    meet(&column[..n], points)
}

// Numbers the points of the treatment columns, in the first `n` bytes of `points`, which are 1 before; answers how many there are.
pub fn meet_levels(levels: &[Level], n: usize, d: usize, points: &mut [u8; PLOTS]) -> usize
    requires { (1 ≤ n) × (n ≤ most_plots) × (d ≤ 6) × (table_cells ≤ length levels.now) × (take n points.old ≡ universal n) }
    ensures points { Points n result (take n points.new) }
    ensures coarser { (c : ℕ) → c < d → Finer n (take n points.new) (column_at n levels.now (6 + c)) }
{
    let mut m = 1;
    for c in 0..d {
        m = meet_level(levels, COLUMNS + c, n, points);
    }
    m
}

// Column `c` of the level table as a column of points.
fn gathered_level(levels: &[Level], c: usize, n: usize, points: &[u8; PLOTS]) -> [Level; PLOTS]
    requires { (n ≤ most_plots) × (most_plots * c + most_plots ≤ length levels.now) × (c < 12) × Ranged n (take n points.now) × Finer n (take n points.now) (column_at n levels.now c) }
    ensures { (length result ≡ most_plots) × (points_on_plots (take n points.now) result ≡ column_at n levels.now c) }
{
    let start = PLOTS * c;
    let mut column: [Level; PLOTS] = [0; PLOTS];
    for (u, &level) in levels[start..start + n].iter().enumerate() {
        column[points[u] as usize - 1] = level;
    }
    column
}

// Copies a column to column `c` of a level table, by a walk as in `store::put`.
fn put_level(own: &mut [Level], c: usize, column: &[Level; PLOTS])
    requires { (length column.now ≡ most_plots) × (c < 12) × (most_plots * c + most_plots ≤ length own.old) }
    ensures { own.new ≡ paste own.old (most_plots * c) column.now most_plots }
{
    let start = PLOTS * c;
    for (u, &level) in column.iter().enumerate() {
        own[start + u] = level;
    }
}

// Gathers the treatment columns in a level table of their own, from its first column on.
fn gather_levels(levels: &[Level], n: usize, d: usize, points: &[u8; PLOTS], own: &mut [Level])
    requires { (n ≤ most_plots) × (d ≤ 6) × (table_cells ≤ length levels.now) × (length own.old ≡ table_cells) × Ranged n (take n points.now) × ((c : ℕ) → c < d → Finer n (take n points.now) (column_at n levels.now (6 + c))) }
    ensures room { length own.new ≡ table_cells }
    ensures columns { (c : ℕ) → c < d → points_on_plots (take n points.now) (column_at most_plots own.new c) ≡ column_at n levels.now (6 + c) }
{
    for c in 0..d {
        let column = gathered_level(levels, COLUMNS + c, n, points);
        put_level(own, c, &column);
    }
}

// Closes the first treatment family on `m` points with as many plots each, and writes it in its order, where it is not too large.
pub fn first_points(
    levels: &[Level],
    n: usize,
    d: usize,
    k: usize,
    points: &[u8; PLOTS],
    m: usize,
    store: &mut [u8],
    marks: &mut [u8; PAIRS],
    family: &mut [u8],
) -> Option<ClosedFamily>
    requires { (1 ≤ n) × (n ≤ most_plots) × (d ≤ 6) × (1 ≤ k) × (k ≤ 6) × (table_cells ≤ length levels.now) × (family_bytes ≤ length family.old) × (length store.old ≡ family_bytes) × (length marks.old ≡ 1024) × Points n m (take n points.now) × Uniform n (take n points.now) × ((c : ℕ) → c < d → Finer n (take n points.now) (column_at n levels.now (6 + c))) }
    ensures { Listing n false (treatment_generators n k (columns_from n levels.now 6 d)) family.old family.new marks.new result }
{
    let mut own_levels: [Level; LEVELS] = [0; LEVELS];
    gather_levels(levels, n, d, points, &mut own_levels);
    let mut own = [0u8; FAMILY];
    let mut counts = [0u8; MEMBERS];
    let start = place_choices(&own_levels, m, 0, d, k, &mut own, &mut counts, 0)?;
    let size = close(&mut own, &mut counts, marks, start, 0, m, false)?;
    spread_all(&own, size, n, points, store);
    close_family(store, &mut counts, marks, size, size, n, false, family)
}
