// Relation, degrees of freedom and strata of families already made. Each entry asks 6, then 15; strata then ask 16. The entries take the
// bytes, the plots and the sizes apart, as the functions for C lend them.
#![tactic(auto)]

ghost use Rattle.std.specs.Prelude.{◌≡◌};
ghost use Rattle.rules.specs.Relation.{relation};
ghost use Rattle.rules.specs.Degrees.{degrees_of_freedom};
ghost use Rattle.rules.specs.Strata.{strata};
ghost use Rattle.strata.specs.Answers.{relation_in, RelationCompared, degrees_in, strata_in, analysis_in, strata_analysis};

use family::{Family, Pair};
use limits::MEMBERS;
pub use order::Relation;
use refusal::Refusal;
pub use stratum::{Analysis, Strata};

mod degrees;
mod family;
mod order;
mod stratum;

// The relation of a family. A bit is set exactly where its member compares as finer.
pub fn relation(family: &[u8], plots: usize, size: usize) -> Result<Relation, Refusal>
    ensures answer { relation_in result ≡ relation plots family.now size }
    ensures compared { RelationCompared plots family.now size (relation_in result) }
{
    let family = Family::accepted(family, plots, size)?;
    Ok(order::of_family(&family))
}

// The degrees of freedom of each member of a family, closed or not. All 0 past the size.
pub fn degrees_of_freedom(
    family: &[u8],
    plots: usize,
    size: usize,
) -> Result<[i64; MEMBERS], Refusal>
    ensures { degrees_in result ≡ degrees_of_freedom plots family.now size }
{
    let family = Family::accepted(family, plots, size)?;
    Ok(degrees::of_family(&family))
}

// The strata of a treatment family in a plot family, and the residuals.
pub fn strata(
    plot_family: &[u8],
    plot_size: usize,
    treatment_family: &[u8],
    treatment_size: usize,
    plots: usize,
) -> Result<Strata, Refusal>
    ensures { strata_in result ≡ strata plots plot_family.now plot_size treatment_family.now treatment_size }
{
    let found = analysis(
        plot_family,
        plot_size,
        treatment_family,
        treatment_size,
        plots,
    )?;
    Ok(found.strata)
}

// The same, with the degrees of freedom of each plot member and of each treatment member.
pub fn analysis(
    plot_family: &[u8],
    plot_size: usize,
    treatment_family: &[u8],
    treatment_size: usize,
    plots: usize,
) -> Result<Analysis, Refusal>
    ensures { analysis_in result ≡ strata_analysis plots plot_family.now plot_size treatment_family.now treatment_size }
{
    if !families::within(plots, plot_family.len())
        || !families::within(plots, treatment_family.len())
    {
        return Err(Refusal::Limits);
    }
    let plot = Family::new(plot_family, plots, plot_size)?;
    let treatment = Family::new(treatment_family, plots, treatment_size)?;
    stratum::from_16(&Pair { plot, treatment })
}
