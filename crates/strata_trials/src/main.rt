// Prints relation, degrees of freedom, strata and residuals of small trials and of worked examples.
#![tactic(auto)]

ghost use Rattle.std.specs.Prelude.{◌<◌};

use limits::FAMILY;
use std::io;
use trial_families::Trial;

mod show;
mod trial_families;

fn main(rt: HostRuntime) -> io::Result<()> {
    trial(&rt, "one plot", 1, 1, b"1")?;
    trial(&rt, "two plots", 2, 2, b"1112")?;
    trial(
        &rt,
        "three columns of four plots",
        4,
        5,
        b"11111122121212211234",
    )?;
    trial(
        &rt,
        "two columns of eight plots",
        8,
        5,
        b"1111111111112222112233441212343412345678",
    )?;
    treatment_column(&rt)?;
    trial(
        &rt,
        "a family that is not closed",
        4,
        9,
        b"111111121121112212111212122112221234",
    )?;
    example(&rt, "Example 1", Trial::Trees, 3, 4, 30)?;
    example(&rt, "Example 2", Trial::Subjects, 3, 8, 40)?;
    example(&rt, "Example 3", Trial::Benches, 4, 4, 40)?;
    example(&rt, "Example 4", Trial::Rootstocks, 6, 4, 100)?;
    example(&rt, "Example 4, extension", Trial::Composting, 6, 8, 100)?;
    refusals(&rt)?;
    no_stratum(&rt)
}

// A family, its members one after the other.
fn trial(rt: &impl Print, title: &str, plots: usize, size: usize, digits: &[u8]) -> io::Result<()>
    requires { 0 < plots }
{
    let mut family = [0u8; FAMILY];
    println!(rt; "{title}")?;
    trial_families::columns(&mut family, plots, digits);
    show::family(rt, &family, plots, size)
}

// A plot family and a treatment family.
fn pair(
    rt: &impl Print,
    title: &str,
    plots: usize,
    plot_size: usize,
    plot_digits: &[u8],
    treatment_size: usize,
    treatment_digits: &[u8],
) -> io::Result<()>
    requires { 0 < plots }
{
    let mut plot = [0u8; FAMILY];
    let mut treatment = [0u8; FAMILY];
    println!(rt; "{title}")?;
    trial_families::columns(&mut plot, plots, plot_digits);
    trial_families::columns(&mut treatment, plots, treatment_digits);
    show::design(rt, &plot, plot_size, &treatment, treatment_size, plots)
}

// One plot column and one treatment column.
fn treatment_column(rt: &impl Print) -> io::Result<()> {
    pair(
        rt,
        "a plot column and a treatment column of eight plots",
        8,
        3,
        b"111111111122334412345678",
        3,
        b"111111111111222212123434",
    )
}

// A worked example.
fn example(
    rt: &impl Print,
    title: &str,
    trial: Trial,
    plot_size: usize,
    treatment_size: usize,
    plots: usize,
) -> io::Result<()> {
    let mut plot = [0u8; FAMILY];
    let mut treatment = [0u8; FAMILY];
    println!(rt; "{title}")?;
    trial.fill(plots, &mut plot, &mut treatment);
    show::design(rt, &plot, plot_size, &treatment, treatment_size, plots)
}

// Questions 6 and 15: plots and lengths out of range; sizes 0 and 33; a member twice; a wrong order; a wrong number.
fn refusals(rt: &impl Print) -> io::Result<()> {
    let family = [1u8; FAMILY];
    println!(rt; "refusals")?;
    show::family(rt, &family, 0, 1)?;
    show::family(rt, &family, 241, 1)?;
    show::family(rt, &family[..FAMILY - 1], 4, 1)?;
    show::family(rt, &family[..FAMILY - 1], 4, 0)?;
    show::family(rt, &family, 4, 0)?;
    show::family(rt, &family, 4, 33)?;
    trial(rt, "twice", 4, 3, b"111111221122")?;
    trial(rt, "unsorted", 4, 3, b"111111221112")?;
    trial(rt, "numbers", 4, 3, b"111111221131")
}

// Question 16: incomparable candidates; then one candidate.
fn no_stratum(rt: &impl Print) -> io::Result<()> {
    pair(rt, "two candidates", 4, 2, b"11221212", 1, b"1111")?;
    pair(rt, "three candidates", 4, 3, b"112212121221", 1, b"1111")?;
    pair(rt, "one candidate", 4, 1, b"1122", 1, b"1111")
}
