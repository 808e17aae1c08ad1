// What the entries answer, in lines.
use limits::MEMBERS;
use refusal::Refusal;
use std::fmt::Display;
use std::io;

// The relation and the degrees of freedom of a family.
pub fn family(rt: &impl Print, family: &[u8], plots: usize, size: usize) -> io::Result<()> {
    match strata::relation(family, plots, size) {
        Ok(relation) => {
            line(rt, "coarser", relation.coarser, size)?;
            line(rt, "direct", relation.direct, size)?;
            line(rt, "counts", relation.counts, size)?;
        }
        Err(question) => refused(rt, question)?,
    }
    match strata::degrees_of_freedom(family, plots, size) {
        Ok(degrees) => line(rt, "degrees", degrees, size),
        Err(question) => refused(rt, question),
    }
}

// Both families, and the strata and residuals.
pub fn design(
    rt: &impl Print,
    plot: &[u8],
    plot_size: usize,
    treatment: &[u8],
    treatment_size: usize,
    plots: usize,
) -> io::Result<()> {
    match strata::strata(plot, plot_size, treatment, treatment_size, plots) {
        Ok(strata) => {
            family(rt, plot, plots, plot_size)?;
            family(rt, treatment, plots, treatment_size)?;
            line(rt, "strata", strata.places, treatment_size)?;
            line(rt, "residuals", strata.residuals, plot_size)
        }
        Err(question) => refused(rt, question),
    }
}

fn refused(rt: &impl Print, question: Refusal) -> io::Result<()> {
    println!(rt; "refused {}", question.number())
}

// The first `size` numbers after a title; a mark for each other that is not 0.
fn line<T: Copy + Default + PartialEq + Display>(
    rt: &impl Print,
    title: &str,
    numbers: [T; MEMBERS],
    size: usize,
) -> io::Result<()> {
    print!(rt; "{title}")?;
    for (i, number) in numbers.iter().enumerate() {
        if i < size {
            print!(rt; " {number}")?;
        } else if *number != T::default() {
            print!(rt; " !")?;
        }
    }
    println!(rt;)
}
