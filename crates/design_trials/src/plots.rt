// The plot designs among the small trials with known outcome, and bad input.
// Each line: the number of the refusal or 0, its two places, the size, and the number of classes of each member written.

ghost use Rattle.std.specs.Prelude.{◌<◌};

use crate::show::print_classes;
use limits::{FAMILY, LEVELS, Level, PLOTS};
use std::io;

// Prints what a plot design answers, and what it leaves in a buffer of the right length.
fn show_slice(rt: &impl Print, levels: &[Level], plots: usize, columns: usize) -> io::Result<()> {
    let mut family = [0u8; FAMILY];
    let size = match design::plot_design(levels, plots, columns, &mut family) {
        Ok(size) => {
            print!(rt; "0 0 0 {size}")?;
            size
        }
        Err(refusal) => {
            let question = refusal.question.number();
            print!(rt;
                "{question} {} {} {}",
                refusal.first, refusal.second, refusal.size
            )?;
            refusal.size
        }
    };
    print_classes(rt, &family, plots, size)?;
    rt.write_all(b"\n")
}

// The same of a level table of the right length.
fn show(rt: &impl Print, levels: &[Level; LEVELS], plots: usize, columns: usize) -> io::Result<()> {
    show_slice(rt, levels, plots, columns)
}

// The same of a level table that is one number short.
fn show_short(rt: &impl Print) -> io::Result<()> {
    let levels: [Level; LEVELS - 1] = [1; LEVELS - 1];
    show_slice(rt, &levels, 64, 1)
}

// Writes a column of one-digit levels.
pub(crate) fn put(levels: &mut [Level; LEVELS], c: usize, digits: &[u8])
    requires { c < 12 }
{
    for (level, &digit) in levels[PLOTS * c..].iter_mut().zip(digits) {
        *level = Level::from(digit.saturating_sub(b'0'));
    }
}

// Six two-level columns fully crossed on 64 plots.
fn cross(levels: &mut [Level; LEVELS]) {
    for c in 0..6 {
        let start = PLOTS * c;
        for (u, level) in levels[start..start + 64].iter_mut().enumerate() {
            *level = ((u >> c) % 2 + 1) as Level;
        }
    }
}

// The marked trials.
pub(crate) fn marked(rt: &impl Print) -> io::Result<()> {
    let mut levels: [Level; LEVELS] = [0; LEVELS];
    show(rt, &levels, 1, 0)?;
    show(rt, &levels, 2, 0)?;
    put(&mut levels, 0, b"112");
    show(rt, &levels, 3, 1)?;
    put(&mut levels, 0, b"1122");
    put(&mut levels, 1, b"1212");
    put(&mut levels, 2, b"1221");
    show(rt, &levels, 4, 3)?;
    put(&mut levels, 0, b"112233");
    put(&mut levels, 1, b"121323");
    show(rt, &levels, 6, 2)?;
    put(&mut levels, 0, b"111222");
    put(&mut levels, 1, b"112122");
    show(rt, &levels, 6, 2)?;
    put(&mut levels, 0, b"11223344");
    put(&mut levels, 1, b"12123434");
    show(rt, &levels, 8, 2)
}

// Two-level columns fully crossed: five on 32 plots, six on 64.
pub(crate) fn crossed(rt: &impl Print) -> io::Result<()> {
    let mut levels: [Level; LEVELS] = [0; LEVELS];
    cross(&mut levels);
    show(rt, &levels, 32, 5)?;
    show(rt, &levels, 64, 6)
}

// Counts and slices out of range, zeros in used and unused cells, equivalent columns, columns equal to U and E, large levels.
pub(crate) fn odd(rt: &impl Print) -> io::Result<()> {
    let mut levels: [Level; LEVELS] = [0; LEVELS];
    cross(&mut levels);
    show(rt, &levels, 0, 1)?;
    show(rt, &levels, 241, 1)?;
    show(rt, &levels, 64, 7)?;
    show(rt, &levels, 18446744073709551615, 18446744073709551615)?;
    show_short(rt)?;
    show(rt, &levels, 65, 1)?;
    put(&mut levels, 0, b"1122");
    put(&mut levels, 1, b"2211");
    put(&mut levels, 2, b"5555");
    put(&mut levels, 3, b"4321");
    show(rt, &levels, 4, 4)
}

// The largest level, and that of its lower 16 bits.
pub(crate) fn large(rt: &impl Print) -> io::Result<()> {
    let mut levels: [Level; LEVELS] = [0; LEVELS];
    levels[0] = 4294967295;
    levels[1] = 4294967295;
    levels[2] = 65535;
    levels[3] = 65535;
    show(rt, &levels, 4, 1)?;
    show(rt, &levels, 1, 1)
}
