// Points: plots that no column parts are taken together. Where there are few, the plot family is closed on one plot of each point:
// infimum, supremum and numbers of classes are the same there. Only E is not a column of points.
ghost use Rattle.std.specs.Prelude.{◌≡◌, true, List, ℕ, ◌≤◌, ◌<◌, length, get_or, take};
ghost use Rattle.rules.specs.Limits.{most_plots, most_members, family_bytes};
ghost use Rattle.rules.specs.Factor.{Column, Finer, number, classes, infimum, universal, equality};
ghost use Rattle.rules.specs.Family.{◌∈◌, Distinct, members_of};
ghost use Rattle.design.specs.State.{column_at, Held, Begun};
ghost use Rattle.design.specs.Judging.{Listing};
ghost use Rattle.design.specs.Points.{Points, Ranged, points_on_plots, Gathered};

use crate::closed::{ClosedFamily, close_family};
use crate::closing::{PAIRS, close};
use crate::columns::equality;
use crate::store::{grown, place, put, try_place};
use families::member;
use limits::{FAMILY, MEMBERS, PLOTS};

// Meets a column with what was met before it, in as many first bytes; answers how many classes there are.
pub fn meet(column: &[u8], points: &mut [u8; PLOTS]) -> usize
    requires { length column.now ≤ most_plots }
    ensures answer { result ≡ classes (infimum column.now (take (length column.now) points.old)) }
    ensures met { take (length column.now) points.new ≡ infimum column.now (take (length column.now) points.old) }
{
    let mut next = [0u8; PLOTS];
    let m = standing::infimum(column, points, &mut next);
    *points = next;
    m
}

// Numbers the points of all members but E, in the first `n` bytes of `points`, which are 1 before; answers how many there are.
pub fn meet_members(
    store: &[u8],
    counts: &[u8; MEMBERS],
    size: usize,
    n: usize,
    points: &mut [u8; PLOTS],
) -> usize
    requires { Held n store.now counts.now size × (take n points.old ≡ universal n) }
    ensures points { Points n result (take n points.new) }
    ensures coarser { (i : ℕ) → i < size → (get_or counts.now i 0 ≡ n → ⊥) → Finer n (take n points.new) (column_at n store.now i) }
{
    let mut m = 1;
    for (i, &k) in counts[..size].iter().enumerate() {
        if k as usize != n {
            m = meet(member(store, i, n), points);
        }
    }
    m
}

// Member `i` as a column of points.
fn gathered(store: &[u8], i: usize, n: usize, points: &[u8; PLOTS]) -> [u8; PLOTS]
    requires { (n ≤ most_plots) × (length store.now ≡ family_bytes) × (i < most_members) × Ranged n (take n points.now) × Finer n (take n points.now) (column_at n store.now i) }
    ensures { (length result ≡ most_plots) × (points_on_plots (take n points.now) result ≡ column_at n store.now i) }
{
    let mut column = [0u8; PLOTS];
    for (u, &label) in member(store, i, n).iter().enumerate() {
        let x = points[u] as usize - 1;
        column[x] = label;
    }
    column
}

// Member `i` of points as a column of plots.
fn spread(own: &[u8], i: usize, n: usize, points: &[u8; PLOTS]) -> [u8; PLOTS]
    requires { (n ≤ most_plots) × (length own.now ≡ family_bytes) × (i < most_members) × Ranged n (take n points.now) }
    ensures { take n result ≡ points_on_plots (take n points.now) (column_at most_plots own.now i) }
{
    let at = PLOTS * i;
    let mut column = [0u8; PLOTS];
    for (u, &point) in points[..n].iter().enumerate() {
        let x = point as usize - 1;
        column[u] = own[at + x];
    }
    column
}

// Writes the members of points as columns of plots.
pub fn spread_all(own: &[u8], size: usize, n: usize, points: &[u8; PLOTS], store: &mut [u8])
    requires { (n ≤ most_plots) × (length own.now ≡ family_bytes) × (length store.old ≡ family_bytes) × (size ≤ most_members) × Ranged n (take n points.now) }
    ensures room { length store.new ≡ family_bytes }
    ensures members { (i : ℕ) → i < size → column_at n store.new i ≡ points_on_plots (take n points.now) (column_at most_plots own.now i) }
{
    // `i` is a member's place in both stores.
    for i in 0..size {
        let column = spread(own, i, n, points);
        put(store, i, &column[..n]);
    }
}

// Gathers the members but E in a store of their own; answers how many they are.
pub fn gather_all(
    store: &[u8],
    counts: &[u8; MEMBERS],
    size: usize,
    n: usize,
    points: &[u8; PLOTS],
    m: usize,
    own: &mut [u8],
    own_counts: &mut [u8; MEMBERS],
) -> usize
    requires { Held n store.now counts.now size × Points n m (take n points.now) × Distinct (members_of n store.now size) × ((F : Column) → F ∈ members_of n store.now size → number F ≡ F) × ((i : ℕ) → i < size → (get_or counts.now i 0 ≡ n → ⊥) → Finer n (take n points.now) (column_at n store.now i)) × (length own.old ≡ family_bytes) × (length own_counts.old ≡ most_members) }
    ensures { Gathered n m (take n points.now) (members_of n store.now size) own.new own_counts.new result }
{
    let mut some = 0;
    for (i, &k) in counts[..size].iter().enumerate() {
        if k as usize != n {
            let column = gathered(store, i, n, points);
            let p = place(own, own_counts, some, &column[..m], k);
            some = grown(some, p);
        }
    }
    some
}

// Closes the plot family that starts from the first `start` members of a store, with E among them, on their `m` points, marks its pairs,
// and writes it in its order; none where it is too large.
pub fn close_points(
    store: &mut [u8],
    counts: &[u8; MEMBERS],
    marks: &mut [u8; PAIRS],
    start: usize,
    n: usize,
    points: &[u8; PLOTS],
    m: usize,
    family: &mut [u8],
) -> Option<ClosedFamily>
    requires { Begun n (members_of n store.old start) store.old counts.now start × (equality n ∈ members_of n store.old start) × Points n m (take n points.now) × (m < n) × ((i : ℕ) → i < start → (get_or counts.now i 0 ≡ n → ⊥) → Finer n (take n points.now) (column_at n store.old i)) × (length marks.old ≡ 1024) × (family_bytes ≤ length family.old) }
    ensures { (Gs : List Column) → Begun n Gs store.old counts.now start → Listing n true Gs family.old family.new marks.new result }
{
    let mut own = [0u8; FAMILY];
    let mut own_counts = [0u8; MEMBERS];
    let some = gather_all(
        store,
        counts,
        start,
        n,
        points,
        m,
        &mut own,
        &mut own_counts,
    );
    let size = close(&mut own, &mut own_counts, marks, some, 0, m, true)?;
    spread_all(&own, size, n, points, store);
    let column = equality(n);
    let p = try_place(store, &mut own_counts, size, &column[..n], n as u8)?;
    close_family(
        store,
        &mut own_counts,
        marks,
        grown(size, p),
        size,
        n,
        true,
        family,
    )
}
