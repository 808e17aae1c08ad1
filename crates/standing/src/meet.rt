// The infimum of two factors.
ghost use Rattle.std.specs.Prelude.{◌≡◌, ◌*◌, ◌≤◌, length, take};
ghost use Rattle.rules.specs.Factor.{classes, infimum};
ghost use Rattle.factor.specs.Lent.{on_common, overlay};
ghost use Rattle.standing.specs.Cells.{Cover, Listed};

use crate::cells::Cells;
use crate::columns::Columns;
use crate::many::infimum_many;
use crate::numbers::Numbers;
use limits::PLOTS;

// Labels x of the one factor and y of the other, below w, make cell w × x + y. A small table is cleared in less time, and most pairs of
// factors have few cells.
const FEW_CELLS: usize = 256;

// The cells of two factors of 44 classes each. A longer table would not pay: its memory, which is more than a page, is touched by
// every call, whatever table is used.
const CELLS: usize = 2048;

// Numbers the classes of the infimum of two columns over their common plots; answers how many there are.
pub fn infimum(f: &[u8], g: &[u8], out: &mut [u8; PLOTS]) -> usize
    ensures answer { result ≡ classes (on_common infimum f.now g.now) }
    ensures numbers { out.new ≡ overlay out.old (on_common infimum f.now g.now) }
{
    number_infimum(Columns::common(f, g), out)
}

// The same for two columns of one length.
fn number_infimum(columns: Columns, out: &mut [u8; PLOTS]) -> usize
    ensures answer { result ≡ classes (infimum columns.entry.f.now columns.entry.g.now) }
    ensures numbers { out.new ≡ overlay out.old (infimum columns.entry.f.now columns.entry.g.now) }
{
    let cells = columns.past_f * columns.past_g;
    if cells <= FEW_CELLS {
        return number_cells::<FEW_CELLS>(columns, out);
    }
    if cells <= CELLS {
        return number_cells::<CELLS>(columns, out);
    }
    infimum_many(columns, out)
}

// The same with a table that has the number of each cell, of which there are at most `N`.
fn number_cells<const N: usize>(columns: Columns, out: &mut [u8; PLOTS]) -> usize
    requires inside { columns.past_f * columns.past_g ≤ N }
    requires fits { N ≤ 65536 }
    ensures answer { result ≡ classes (infimum columns.entry.f.now columns.entry.g.now) }
    ensures numbers { out.new ≡ overlay out.old (infimum columns.entry.f.now columns.entry.g.now) }
{
    let mut numbers = Numbers::<N>::new();
    for (u, &x) in columns.f.iter().enumerate() {
        let y = columns.g[u];
        let cell = columns.past_g * x as usize + y as usize;
        out[u] = numbers.number(cell);
    }
    numbers.count
}

// Numbers the classes of the infimum and lists the cells that have a plot: that at place i is the class i + 1 of the infimum.
pub(crate) fn infimum_listed(columns: Columns, out: &mut [u8; PLOTS]) -> Cells
    ensures answer { result.count ≡ classes (infimum columns.entry.f.now columns.entry.g.now) }
    ensures list { Listed columns.entry.f.now columns.entry.g.now (take result.count result.f) (take result.count result.g) }
    ensures numbers { out.new ≡ overlay out.old (infimum columns.entry.f.now columns.entry.g.now) }
{
    let most = columns.past_f * columns.past_g;
    let mut cells = Cells::new();
    if most <= FEW_CELLS {
        number_listed::<FEW_CELLS>(columns, out, &mut cells);
        return cells;
    }
    if most <= CELLS {
        number_listed::<CELLS>(columns, out, &mut cells);
        return cells;
    }
    number_infimum(columns, out);
    list_cells(columns, out)
}

// The same in one walk, with a table that has the number of each cell, of which there are at most `N`.
fn number_listed<const N: usize>(columns: Columns, out: &mut [u8; PLOTS], cells: &mut Cells)
    requires inside { columns.past_f * columns.past_g ≤ N }
    requires fits { N ≤ 65536 }
    requires none { Cover 0 columns.f.now columns.g.now cells.old.f cells.old.g cells.old.count }
    ensures answer { cells.new.count ≡ classes (infimum columns.entry.f.now columns.entry.g.now) }
    ensures list { Listed columns.entry.f.now columns.entry.g.now (take cells.new.count cells.new.f) (take cells.new.count cells.new.g) }
    ensures numbers { out.new ≡ overlay out.old (infimum columns.entry.f.now columns.entry.g.now) }
{
    let mut numbers = Numbers::<N>::new();
    for (u, &x) in columns.f.iter().enumerate() {
        let y = columns.g[u];
        let met = numbers.count;
        out[u] = numbers.number(columns.past_g * x as usize + y as usize);
        if numbers.count != met {
            cells.push(x, y);
        }
    }
}

// Lists the labels of the cells by the numbers of the infimum: a cell is met first where the number is new.
fn list_cells(columns: Columns, below: &[u8; PLOTS]) -> Cells
    requires { take (length columns.f.now) below.now ≡ infimum columns.f.now columns.g.now }
    ensures answer { result.count ≡ classes (infimum columns.entry.f.now columns.entry.g.now) }
    ensures list { Listed columns.entry.f.now columns.entry.g.now (take result.count result.f) (take result.count result.g) }
{
    let mut cells = Cells::new();
    for (u, &x) in columns.f.iter().enumerate() {
        if cells.count < below[u] as usize {
            cells.push(x, columns.g[u]);
        }
    }
    cells
}
