// After questions 6 and 7: a family is closed, then judged; the plot family first, then the treatments. Each grows in one store.
ghost use Rattle.std.specs.Prelude.{◌≡◌, ◌≤◌, length};
ghost use Rattle.rules.specs.Limits.{most_plots, table_cells, family_bytes};
ghost use Rattle.rules.specs.Factor.{equality};
ghost use Rattle.rules.specs.Family.{◌∈◌, columns_from, members_of};
ghost use Rattle.rules.specs.Closing.{plot_family as closed_plot_family, first_treatment_family};
ghost use Rattle.rules.specs.Design.{question8, plot_buffer, question11, with_treatments, treatment_buffer};
ghost use Rattle.design.specs.Treatments.{Numbered};
ghost use Rattle.design.specs.Answers.{plot_numbers, plot_numbers_of, full_numbers, full_numbers_of};

use crate::closed::close_plot_family;
use crate::closing::PAIRS;
use crate::treatments::first_family;
use crate::verdict::{judge_plots, judge_treatments};
use crate::{FullRefusal, PlotRefusal, Sizes};
use limits::{FAMILY, Level};

// Questions 8 to 10.
pub fn plot_from_8(
    levels: &[Level],
    n: usize,
    columns: usize,
    family: &mut [u8],
) -> Result<usize, PlotRefusal>
    requires { (1 ≤ n) × (n ≤ most_plots) × (columns ≤ 6) × (table_cells ≤ length levels.now) × (family_bytes ≤ length family.old) }
    ensures answer { plot_numbers result ≡ plot_numbers_of (question8 n (closed_plot_family n (columns_from n levels.now 0 columns))) }
    ensures buffer { family.new ≡ plot_buffer family.old (question8 n (closed_plot_family n (columns_from n levels.now 0 columns))) }
{
    let mut store = [0u8; FAMILY];
    let mut marks = [0u8; PAIRS];
    let closed = close_plot_family(levels, n, columns, &mut store, &mut marks, family);
    judge_plots(family, closed, &marks, n)
}

// Questions 8 to 14. The treatments are closed only for a plot family that is accepted.
pub fn full_from_8(
    levels: &[Level],
    n: usize,
    c: usize,
    d: usize,
    k: usize,
    plot_family: &mut [u8],
    treatment_family: &mut [u8],
) -> Result<Sizes, FullRefusal>
    requires { (1 ≤ n) × (n ≤ most_plots) × (c ≤ 6) × (d ≤ 6) × (1 ≤ k) × (k ≤ 6) × (table_cells ≤ length levels.now) × (family_bytes ≤ length plot_family.old) × (family_bytes ≤ length treatment_family.old) }
    ensures answer { full_numbers result ≡ full_numbers_of (with_treatments n k (columns_from n levels.now 6 d) (question8 n (closed_plot_family n (columns_from n levels.now 0 c)))) }
    ensures plots { plot_family.new ≡ plot_buffer plot_family.old (with_treatments n k (columns_from n levels.now 6 d) (question8 n (closed_plot_family n (columns_from n levels.now 0 c)))) }
    ensures treatments { treatment_family.new ≡ treatment_buffer treatment_family.old (with_treatments n k (columns_from n levels.now 6 d) (question8 n (closed_plot_family n (columns_from n levels.now 0 c)))) }
{
    let mut store = [0u8; FAMILY];
    let mut marks = [0u8; PAIRS];
    let closed = close_plot_family(levels, n, c, &mut store, &mut marks, plot_family);
    let held = judge_plots(plot_family, closed, &marks, n)?;
    full_from_11(
        levels,
        n,
        d,
        k,
        plot_family,
        held,
        &mut store,
        treatment_family,
    )
}

// Questions 11 to 14, with the plot family accepted.
fn full_from_11(
    levels: &[Level],
    n: usize,
    d: usize,
    k: usize,
    plot: &[u8],
    held: usize,
    store: &mut [u8],
    treatment_family: &mut [u8],
) -> Result<Sizes, FullRefusal>
    requires { (1 ≤ n) × (n ≤ most_plots) × (d ≤ 6) × (1 ≤ k) × (k ≤ 6) × (table_cells ≤ length levels.now) × Numbered n plot.now held × (equality n ∈ members_of n plot.now held) × (family_bytes ≤ length treatment_family.old) × (length store.old ≡ family_bytes) }
    ensures answer { full_numbers result ≡ full_numbers_of (question11 n (members_of n plot.now held) (first_treatment_family n k (columns_from n levels.now 6 d))) }
    ensures buffer { treatment_family.new ≡ treatment_buffer treatment_family.old (question11 n (members_of n plot.now held) (first_treatment_family n k (columns_from n levels.now 6 d))) }
{
    let mut marks = [0u8; PAIRS];
    let closed = first_family(levels, n, d, k, store, &mut marks, treatment_family);
    judge_treatments(plot, held, closed, &marks, n, treatment_family)
}
