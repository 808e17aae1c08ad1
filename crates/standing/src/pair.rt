// What two factors make together: their infimum with their supremum, and their supremum with whether they are orthogonal.
ghost use Rattle.std.specs.Prelude.{◌≡◌, length, take};
ghost use Rattle.rules.specs.Factor.{classes, infimum, supremum, orthogonal};
ghost use Rattle.rules.specs.Comparison.{pair_passes};
ghost use Rattle.factor.specs.Lent.{on_common, test_common, overlay};
ghost use Rattle.standing.specs.Cells.{LabelSizes, Listed};

use crate::cells::{Cells, even_cells, sum_cells};
use crate::columns::Columns;
use crate::join::{join_labels, number_joins};
use crate::many::infimum_many;
use crate::meet::infimum_listed;
use factor::{finer, label_sizes};
use limits::PLOTS;

// Numbers of classes: of the infimum of two factors and of their supremum.
#[derive(Clone, Copy)]
pub struct Bounds {
    pub infimum: usize,
    pub supremum: usize,
}

// The number of classes of the supremum of two factors, and whether they are orthogonal: both are said of any two factors.
#[derive(Clone, Copy)]
pub struct Crossing {
    pub supremum: usize,
    pub orthogonal: bool,
}

// Numbers the classes of the infimum and of the supremum of two columns over their common plots; answers how many there are.
pub fn bounds_of(f: &[u8], g: &[u8], below: &mut [u8; PLOTS], above: &mut [u8; PLOTS]) -> Bounds
    ensures infimum { result.infimum ≡ classes (on_common infimum f.now g.now) }
    ensures supremum { result.supremum ≡ classes (on_common supremum f.now g.now) }
    ensures below { below.new ≡ overlay below.old (on_common infimum f.now g.now) }
    ensures above { above.new ≡ overlay above.old (on_common supremum f.now g.now) }
{
    bounds_whole(Columns::common(f, g).smaller_first(), below, above)
}

// The same for two columns of one length. Plots of one cell have the same labels, so the supremum is told by the cells.
fn bounds_whole(columns: Columns, below: &mut [u8; PLOTS], above: &mut [u8; PLOTS]) -> Bounds
    ensures infimum { result.infimum ≡ classes (infimum columns.entry.f.now columns.entry.g.now) }
    ensures supremum { result.supremum ≡ classes (supremum columns.entry.f.now columns.entry.g.now) }
    ensures below { below.new ≡ overlay below.old (infimum columns.entry.f.now columns.entry.g.now) }
    ensures above { above.new ≡ overlay above.old (supremum columns.entry.f.now columns.entry.g.now) }
{
    let cells = infimum_listed(columns, below);
    let supremum = supremum_listed(columns, &cells, above);
    Bounds {
        infimum: cells.count,
        supremum,
    }
}

// Numbers the classes of the supremum by the cells that have a plot; answers how many there are.
fn supremum_listed(columns: Columns, cells: &Cells, above: &mut [u8; PLOTS]) -> usize
    requires { Listed columns.f.now columns.g.now (take cells.now.count cells.now.f) (take cells.now.count cells.now.g) }
    ensures supremum { result ≡ classes (supremum columns.entry.f.now columns.entry.g.now) }
    ensures above { above.new ≡ overlay above.old (supremum columns.entry.f.now columns.entry.g.now) }
{
    let x = cells.first();
    let y = cells.second();
    let joins = join_labels(x, y, columns.past_f);
    number_joins(&joins, columns.f, x, above)
}

// Numbers the classes of the supremum of two columns over their common plots; answers how many there are, and whether the
// columns are orthogonal, which `compare` says of all but `NotOrthogonal`.
pub fn crossing_of(f: &[u8], g: &[u8], above: &mut [u8; PLOTS]) -> Crossing
    ensures supremum { result.supremum ≡ classes (on_common supremum f.now g.now) }
    ensures orthogonal { result.orthogonal ≡ test_common pair_passes f.now g.now }
    ensures above { above.new ≡ overlay above.old (on_common supremum f.now g.now) }
{
    crossing_whole(Columns::common(f, g).smaller_first(), above)
}

// The same for two columns of one length. Of nested factors the one with more labels is the finer, unless labels are left out; that it is finer
// a walk tells which ends at the first plot that denies it. The supremum is then `f`, numbered: its infimum with itself.
fn crossing_whole(columns: Columns, above: &mut [u8; PLOTS]) -> Crossing
    ensures supremum { result.supremum ≡ classes (supremum columns.entry.f.now columns.entry.g.now) }
    ensures orthogonal { result.orthogonal ≡ orthogonal (length columns.entry.f.now) columns.entry.f.now columns.entry.g.now }
    ensures above { above.new ≡ overlay above.old (supremum columns.entry.f.now columns.entry.g.now) }
{
    if finer(columns.g, columns.f) {
        let twice = Columns {
            f: columns.f,
            g: columns.f,
            past_f: columns.past_f,
            past_g: columns.past_f,
        };
        let supremum = infimum_many(twice, above);
        return Crossing {
            supremum,
            orthogonal: true,
        };
    }
    crossing_cells(columns, above)
}

// The same for columns of which the second need not be finer: by the cells and their sizes, which are those of the infimum's classes.
fn crossing_cells(columns: Columns, above: &mut [u8; PLOTS]) -> Crossing
    ensures supremum { result.supremum ≡ classes (supremum columns.entry.f.now columns.entry.g.now) }
    ensures orthogonal { result.orthogonal ≡ orthogonal (length columns.entry.f.now) columns.entry.f.now columns.entry.g.now }
    ensures above { above.new ≡ overlay above.old (supremum columns.entry.f.now columns.entry.g.now) }
{
    let mut below = [0u8; PLOTS];
    let cells = infimum_listed(columns, &mut below);
    let n = columns.f.len();
    let sizes = label_sizes(&below[..n]);
    crossing_listed(columns, &sizes, &cells, above)
}

// The same by the cells that have a plot and the sizes of the infimum's classes: the cell at place i is the class i + 1.
fn crossing_listed(
    columns: Columns,
    sizes: &[u8; 256],
    cells: &Cells,
    above: &mut [u8; PLOTS],
) -> Crossing
    requires sizes { LabelSizes (infimum columns.f.now columns.g.now) sizes.now }
    requires listed { Listed columns.f.now columns.g.now (take cells.now.count cells.now.f) (take cells.now.count cells.now.g) }
    ensures supremum { result.supremum ≡ classes (supremum columns.entry.f.now columns.entry.g.now) }
    ensures orthogonal { result.orthogonal ≡ orthogonal (length columns.entry.f.now) columns.entry.f.now columns.entry.g.now }
    ensures above { above.new ≡ overlay above.old (supremum columns.entry.f.now columns.entry.g.now) }
{
    let x = cells.first();
    let y = cells.second();
    let joins = join_labels(x, y, columns.past_f);
    let in_f = sum_cells(sizes, x);
    let in_g = sum_cells(sizes, y);
    let in_k = joins.entry_sizes(columns.f, &in_f);
    let orthogonal = even_cells(sizes, &joins, &in_k, &in_f, &in_g, cells);
    let supremum = number_joins(&joins, columns.f, x, above);
    Crossing {
        supremum,
        orthogonal,
    }
}
