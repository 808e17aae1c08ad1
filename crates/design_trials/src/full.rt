// Full designs with known outcome: the last marked trial, two-level treatments, and the worked examples of the theory.
// Each line: the number of the refusal or 0, its two places, the two sizes, then the numbers of classes of the plot and of the treatment members.
ghost use Rattle.std.specs.Prelude.{◌≤◌, ◌<◌};

use crate::plots::put;
use crate::show::print_classes;
use design::Sizes;
use limits::{FAMILY, LEVELS, Level, PLOTS};
use std::io;

// As many classes: no level comes again.
const NEW: usize = 256;

// Prints what a full design answers, and what it leaves.
fn show(
    rt: &impl Print,
    levels: &[Level; LEVELS],
    plots: usize,
    plot_columns: usize,
    treatment_columns: usize,
    k: usize,
) -> io::Result<()> {
    let mut plot_family = [0u8; FAMILY];
    let mut treatment_family = [0u8; FAMILY];
    let answer = design::full_design(
        levels,
        plots,
        plot_columns,
        treatment_columns,
        k,
        &mut plot_family,
        &mut treatment_family,
    );
    let Sizes { plot, treatment } = match answer {
        Ok(sizes) => {
            print!(rt; "0 0 0")?;
            sizes
        }
        Err(refusal) => {
            let question = refusal.question.number();
            print!(rt; "{question} {} {}", refusal.first, refusal.second)?;
            Sizes {
                plot: refusal.plot,
                treatment: refusal.treatment,
            }
        }
    };
    print!(rt; " {plot} {treatment}")?;
    rt.write_all(b" |")?;
    print_classes(rt, &plot_family, plots, plot)?;
    rt.write_all(b" |")?;
    print_classes(rt, &treatment_family, plots, treatment)?;
    rt.write_all(b"\n")
}

// Writes a level of each plot of column `c`: it is the same for `run` plots, then the next, and of `classes` levels the first comes again.
fn fill(levels: &mut [Level; LEVELS], c: usize, plots: usize, run: usize, classes: usize)
    requires { (c < 12) × (plots ≤ 240) × (0 < run) × (0 < classes) }
{
    let start = PLOTS * c;
    for (u, level) in levels[start..start + plots].iter_mut().enumerate() {
        let x = u / run % classes;
        *level = (x % NEW + 1) as Level;
    }
}

// Eight plots in pairs, the treatments crossed with the pairs in each half.
pub(crate) fn halves(rt: &impl Print) -> io::Result<()> {
    let mut levels: [Level; LEVELS] = [0; LEVELS];
    fill(&mut levels, 0, 8, 2, NEW);
    put(&mut levels, 6, b"12123434");
    show(rt, &levels, 8, 1, 1, 6)?;
    show(rt, &levels, 8, 1, 1, 0)?;
    show(rt, &levels, 8, 1, 1, 7)?;
    show(rt, &levels, 8, 1, 2, 6)
}

// Six two-level treatments fully crossed, with no plot column.
pub(crate) fn crossed(rt: &impl Print) -> io::Result<()> {
    let mut levels: [Level; LEVELS] = [0; LEVELS];
    fill(&mut levels, 6, 64, 1, 2);
    fill(&mut levels, 7, 64, 2, 2);
    fill(&mut levels, 8, 64, 4, 2);
    fill(&mut levels, 9, 64, 8, 2);
    fill(&mut levels, 10, 64, 16, 2);
    fill(&mut levels, 11, 64, 32, 2);
    show(rt, &levels, 64, 0, 6, 6)?;
    show(rt, &levels, 64, 0, 6, 1)?;
    show(rt, &levels, 64, 0, 0, 6)
}

// Thirty trees in six blocks of five: three sprays on two whole blocks each, five prunings in each block.
pub(crate) fn trees(rt: &impl Print) -> io::Result<()> {
    let mut levels: [Level; LEVELS] = [0; LEVELS];
    fill(&mut levels, 0, 30, 5, NEW);
    fill(&mut levels, 6, 30, 5, 3);
    fill(&mut levels, 7, 30, 1, 5);
    show(rt, &levels, 30, 1, 2, 6)
}

// Twenty subjects read two descriptions each; age and gender vary between subjects.
pub(crate) fn subjects(rt: &impl Print) -> io::Result<()> {
    let mut levels: [Level; LEVELS] = [0; LEVELS];
    fill(&mut levels, 0, 40, 2, NEW);
    fill(&mut levels, 6, 40, 2, 2);
    fill(&mut levels, 7, 40, 4, 2);
    fill(&mut levels, 8, 40, 1, 2);
    show(rt, &levels, 40, 1, 3, 6)
}

// Five benches of four sections with two plants each: doses on sections, varieties on plants.
pub(crate) fn benches(rt: &impl Print) -> io::Result<()> {
    let mut levels: [Level; LEVELS] = [0; LEVELS];
    fill(&mut levels, 0, 40, 8, NEW);
    fill(&mut levels, 1, 40, 2, NEW);
    fill(&mut levels, 6, 40, 2, 4);
    fill(&mut levels, 7, 40, 1, 2);
    show(rt, &levels, 40, 2, 2, 6)
}

// A 5 × 5 Latin square of rootstocks, row by row, whose columns are divided into four sub-columns.
fn latin(levels: &mut [Level; LEVELS]) {
    fill(levels, 0, 100, 20, NEW);
    fill(levels, 1, 100, 4, 5);
    fill(levels, 2, 100, 4, NEW);
    fill(levels, 3, 100, 1, 20);
    put(
        levels,
        6,
        b"1111222233334444555522223333444455551111333344445555111122224444555511112222333355551111222233334444",
    );
}

// The square with four soil treatments on the sub-columns.
pub(crate) fn square(rt: &impl Print) -> io::Result<()> {
    let mut levels: [Level; LEVELS] = [0; LEVELS];
    latin(&mut levels);
    fill(&mut levels, 7, 100, 1, 4);
    show(rt, &levels, 100, 4, 2, 6)
}

// The same with soil as fumigation and composting.
pub(crate) fn extended_square(rt: &impl Print) -> io::Result<()> {
    let mut levels: [Level; LEVELS] = [0; LEVELS];
    latin(&mut levels);
    fill(&mut levels, 7, 100, 1, 2);
    fill(&mut levels, 8, 100, 2, 2);
    show(rt, &levels, 100, 4, 3, 6)
}
