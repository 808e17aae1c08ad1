// Designs: families closed from the columns of a level table, and questions 6 to 14.

#![tactic(auto)]

ghost use Rattle.std.specs.Prelude.{◌≡◌, length};
ghost use Rattle.rules.specs.Family.{columns_from, members_of, AtMost};
ghost use Rattle.rules.specs.Closing.{InPlotFamily};
ghost use Rattle.rules.specs.Design.{plot_design, plot_buffer, full_design, treatment_buffer};
ghost use Rattle.rules.specs.Asking.{plot_design_by, full_design_by};
ghost use Rattle.rules.specs.Comparison.{pair_passes};
ghost use Rattle.rules.specs.Structure.{Lent, Demand3};
ghost use Rattle.rules.specs.Demand2.{Demand2};
ghost use Rattle.design.specs.Answers.{plot_numbers, plot_numbers_of, PlotTrusted, full_numbers, full_numbers_of, full_left, FullTrusted};

mod apart;
mod closed;
mod closing;
mod columns;
mod crossing;
mod entries;
mod following;
mod nesting;
mod points;
mod questions;
mod replicates;
mod sorting;
mod steps;
mod store;
mod treatments;
mod verdict;

use limits::{COLUMNS, Level};
use refusal::Refusal;

// Why a plot design is refused: the question, the places it fails at, and the size of the family written.
#[derive(Clone, Copy)]
pub struct PlotRefusal {
    pub question: Refusal,
    pub first: usize,
    pub second: usize,
    pub size: usize,
}

// Questions 6 to 10 of the plot columns of a level table; answers the size of the family, which is written where 8 is passed.
pub fn plot_design(
    levels: &[Level],
    plots: usize,
    columns: usize,
    family: &mut [u8],
) -> Result<usize, PlotRefusal>
    ensures answer { plot_numbers result ≡ plot_numbers_of (plot_design plots columns levels.now (length family.old)) }
    ensures buffer { family.new ≡ plot_buffer family.old (plot_design plots columns levels.now (length family.old)) }
    ensures demand { Lent plots columns levels.now family.old → AtMost 32 (InPlotFamily plots (columns_from plots levels.now 0 columns)) → Demand3 plots (columns_from plots levels.now 0 columns) (plot_numbers result).refusal (members_of plots family.new (plot_numbers result).size) }
    ensures trusted { PlotTrusted plots (plot_numbers result) family.new }
    ensures compared { plot_numbers result ≡ plot_numbers_of (plot_design_by (pair_passes plots) plots columns levels.now (length family.old)) }
{
    if !questions::within(plots, columns, levels.len(), family.len()) {
        return verdict::refused(Refusal::Limits);
    }
    if !levels::all_nonzero(levels, plots, 0, columns) {
        return verdict::refused(Refusal::MissingLevel);
    }
    steps::plot_from_8(levels, plots, columns, family)
}

// The sizes of the plot and the treatment family written.
#[derive(Clone, Copy)]
pub struct Sizes {
    pub plot: usize,
    pub treatment: usize,
}

// Why a full design is refused: the question, the places it fails at, and the sizes of the families written.
#[derive(Clone, Copy)]
pub struct FullRefusal {
    pub question: Refusal,
    pub first: usize,
    pub second: usize,
    pub plot: usize,
    pub treatment: usize,
}

// A plot design's refusal, as one of the full design: no treatment family is written.
impl From<PlotRefusal> for FullRefusal {
    ghost from_gives = { λ r e. e ≡ record { question = r.question; first = r.first; second = r.second; plot = r.size; treatment = 0 } };

    fn from(plots: PlotRefusal) -> FullRefusal {
        FullRefusal {
            question: plots.question,
            first: plots.first,
            second: plots.second,
            plot: plots.size,
            treatment: 0,
        }
    }
}

// Questions 6 to 14 of the plot and treatment columns of a level table.
pub fn full_design(
    levels: &[Level],
    plots: usize,
    plot_columns: usize,
    treatment_columns: usize,
    k: usize,
    plot_family: &mut [u8],
    treatment_family: &mut [u8],
) -> Result<Sizes, FullRefusal>
    ensures answer { full_numbers result ≡ full_numbers_of (full_design plots plot_columns treatment_columns k levels.now (length plot_family.old) (length treatment_family.old)) }
    ensures plots { plot_family.new ≡ plot_buffer plot_family.old (full_design plots plot_columns treatment_columns k levels.now (length plot_family.old) (length treatment_family.old)) }
    ensures treatments { treatment_family.new ≡ treatment_buffer treatment_family.old (full_design plots plot_columns treatment_columns k levels.now (length plot_family.old) (length treatment_family.old)) }
    ensures demand { Demand2 plots plot_columns treatment_columns k levels.now plot_family.old treatment_family.old (full_left plots (full_numbers result) plot_family.new treatment_family.new) }
    ensures trusted { FullTrusted plots (full_numbers result) plot_family.new treatment_family.new }
    ensures compared { full_numbers result ≡ full_numbers_of (full_design_by (pair_passes plots) plots plot_columns treatment_columns k levels.now (length plot_family.old) (length treatment_family.old)) }
{
    if !questions::full_within(
        plots,
        plot_columns,
        treatment_columns,
        k,
        levels.len(),
        plot_family.len(),
        treatment_family.len(),
    ) {
        return verdict::full_refused(Refusal::Limits);
    }
    if !levels::all_nonzero(levels, plots, 0, plot_columns) {
        return verdict::full_refused(Refusal::MissingLevel);
    }
    if !levels::all_nonzero(levels, plots, COLUMNS, treatment_columns) {
        return verdict::full_refused(Refusal::MissingLevel);
    }
    steps::full_from_8(
        levels,
        plots,
        plot_columns,
        treatment_columns,
        k,
        plot_family,
        treatment_family,
    )
}
