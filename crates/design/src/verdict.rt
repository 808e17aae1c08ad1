// The judging step: questions 8 to 14 of families that are closed, in turn, and what is written.
ghost use Rattle.std.specs.Prelude.{◌≡◌, IfSome, ◌≤◌, ◌<◌, length};
ghost use Rattle.rules.specs.Limits.{most_plots, family_bytes};
ghost use Rattle.rules.specs.Factor.{uniform, orthogonal};
ghost use Rattle.rules.specs.Family.{members_of};
ghost use Rattle.rules.specs.Design.{refused, question8, question9, first_failing, question11, question12, question13, first_pair, first_cross, treatment_buffer};
ghost use Rattle.refusal.specs.Numbers.{number_of};
ghost use Rattle.design.specs.Judging.{MarksTell, Judging};
ghost use Rattle.design.specs.Closings.{closed_in, Ready};
ghost use Rattle.design.specs.Treatments.{Numbered};
ghost use Rattle.design.specs.Answers.{plot_numbers, plot_numbers_of, full_numbers, full_numbers_of, full_refusing};

use crate::closed::ClosedFamily;
use crate::closing::PAIRS;
use crate::crossing::{Crossed, Suprema, cross};
use crate::questions::{Places, first_apart, first_unequal};
use crate::sorting::{sort, write};
use crate::{FullRefusal, PlotRefusal, Sizes};
use limits::{FAMILY, MEMBERS};
use refusal::Refusal;

// A refusal that writes nothing.
pub fn refused(question: Refusal) -> Result<usize, PlotRefusal>
    ensures { plot_numbers result ≡ plot_numbers_of (refused (number_of question)) }
{
    Err(PlotRefusal {
        question,
        first: 0,
        second: 0,
        size: 0,
    })
}

// A refusal that writes nothing.
pub fn full_refused(question: Refusal) -> Result<Sizes, FullRefusal>
    ensures { full_numbers result ≡ full_numbers_of (refused (number_of question)) }
{
    Err(FullRefusal {
        question,
        first: 0,
        second: 0,
        plot: 0,
        treatment: 0,
    })
}

// Questions 8 to 10 of a closed plot family.
pub fn judge_plots(
    plot: &[u8],
    closed: Option<ClosedFamily>,
    marks: &[u8; PAIRS],
    n: usize,
) -> Result<usize, PlotRefusal>
    requires { Ready n plot.now marks.now closed }
    ensures { plot_numbers result ≡ plot_numbers_of (question8 n (closed_in n plot.now closed)) }
{
    let Some(closed) = closed else {
        return refused(Refusal::PlotFamilySize);
    };
    from_9(&closed.order, marks, n, closed.size, plot)
}

// Questions 9 and 10 of a family that is written.
fn from_9(
    order: &[u8; MEMBERS],
    marks: &[u8; PAIRS],
    n: usize,
    size: usize,
    family: &[u8],
) -> Result<usize, PlotRefusal>
    requires { Judging n size family.now order.now marks.now }
    ensures { plot_numbers result ≡ plot_numbers_of (question9 n (members_of n family.now size) (first_failing (uniform n) 1 (members_of n family.now size))) }
{
    if let Some(unequal) = first_unequal(family, n, size) {
        return Err(PlotRefusal {
            question: Refusal::ClassSizes,
            first: unequal,
            second: 0,
            size,
        });
    }
    let apart = first_apart(order, marks, size);
    let first = apart.first;
    if first != 0 {
        return Err(PlotRefusal {
            question: Refusal::PlotPair,
            first,
            second: apart.second,
            size,
        });
    }
    Ok(size)
}

// A refusal by 11 to 14, with the sizes of the families written.
fn treatments_refused(
    question: Refusal,
    i: usize,
    j: usize,
    plot: usize,
    treatment: usize,
) -> Result<Sizes, FullRefusal>
    ensures { full_numbers result ≡ full_refusing (number_of question) i j plot treatment }
{
    Err(FullRefusal {
        question,
        first: i,
        second: j,
        plot,
        treatment,
    })
}

// Questions 11 to 14, with the plot family accepted. The treatment buffer has the first family, which stays there unless all are
// passed: then the final one is written over it.
pub fn judge_treatments(
    plot_family: &[u8],
    plot: usize,
    closed: Option<ClosedFamily>,
    marks: &[u8; PAIRS],
    n: usize,
    treatment_family: &mut [u8],
) -> Result<Sizes, FullRefusal>
    requires { (1 ≤ n) × (n ≤ most_plots) × Numbered n plot_family.now plot × IfSome closed (λ c. Numbered n treatment_family.old c.size × MarksTell (orthogonal n) (members_of n treatment_family.old c.size) c.order marks.now c.size) }
    ensures answer { full_numbers result ≡ full_numbers_of (question11 n (members_of n plot_family.now plot) (closed_in n treatment_family.old closed)) }
    ensures buffer { treatment_family.new ≡ treatment_buffer treatment_family.old (question11 n (members_of n plot_family.now plot) (closed_in n treatment_family.old closed)) }
{
    let Some(closed) = closed else {
        return treatments_refused(Refusal::TreatmentFamilySize, 0, 0, plot, 0);
    };
    let size = closed.size;
    let pair = first_apart(&closed.order, marks, size);
    from_12(plot_family, plot, pair, size, n, treatment_family)
}

// Questions 12 to 14, with the first pair of treatment members that are not orthogonal.
fn from_12(
    plot_family: &[u8],
    plot: usize,
    pair: Places,
    size: usize,
    n: usize,
    treatment_family: &mut [u8],
) -> Result<Sizes, FullRefusal>
    requires { (1 ≤ n) × (n ≤ most_plots) × Numbered n plot_family.now plot × Numbered n treatment_family.old size × (pair.first ≡ (first_pair (orthogonal n) 1 (members_of n treatment_family.old size)).first) × (pair.second ≡ (first_pair (orthogonal n) 1 (members_of n treatment_family.old size)).second) }
    ensures answer { full_numbers result ≡ full_numbers_of (question12 n (members_of n plot_family.now plot) (members_of n treatment_family.old size) (first_pair (orthogonal n) 1 (members_of n treatment_family.old size))) }
    ensures buffer { treatment_family.new ≡ treatment_buffer treatment_family.old (question12 n (members_of n plot_family.now plot) (members_of n treatment_family.old size) (first_pair (orthogonal n) 1 (members_of n treatment_family.old size))) }
{
    let at = pair.first;
    if at != 0 {
        return treatments_refused(Refusal::TreatmentPair, at, pair.second, plot, size);
    }
    from_13(plot_family, plot, size, n, treatment_family)
}

// Questions 13 and 14.
fn from_13(
    plot_family: &[u8],
    plot: usize,
    size: usize,
    n: usize,
    treatment_family: &mut [u8],
) -> Result<Sizes, FullRefusal>
    requires { (1 ≤ n) × (n ≤ most_plots) × Numbered n plot_family.now plot × Numbered n treatment_family.old size }
    ensures answer { full_numbers result ≡ full_numbers_of (question13 (members_of n plot_family.now plot) (members_of n treatment_family.old size) (first_cross (orthogonal n) 1 (members_of n plot_family.now plot) (members_of n treatment_family.old size))) }
    ensures buffer { treatment_family.new ≡ treatment_buffer treatment_family.old (question13 (members_of n plot_family.now plot) (members_of n treatment_family.old size) (first_cross (orthogonal n) 1 (members_of n plot_family.now plot) (members_of n treatment_family.old size))) }
{
    let mut found = Suprema {
        bytes: [0; FAMILY],
        counts: [0; MEMBERS],
        size: 0,
        over: false,
    };
    match cross(plot_family, plot, treatment_family, size, n, &mut found) {
        Err(Crossed::Apart(pair)) => {
            treatments_refused(Refusal::CrossedPair, pair.first, pair.second, plot, size)
        }
        Err(Crossed::TooMany) => treatments_refused(Refusal::FinalFamilySize, 0, 0, plot, size),
        Ok(()) => {
            let order = sort(&found.bytes, &found.counts, n, found.size);
            write(&found.bytes, &order, n, found.size, treatment_family);
            Ok(Sizes {
                plot,
                treatment: found.size,
            })
        }
    }
}
