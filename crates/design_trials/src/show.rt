// What is printed of the members that a design leaves.

use std::io;

// Prints the number of classes of each member written: its largest number.
pub(crate) fn print_classes(
    rt: &impl Print,
    family: &[u8],
    plots: usize,
    size: usize,
) -> io::Result<()> {
    for i in 0..size {
        let classes = factor::largest(families::member(family, i, plots));
        print!(rt; " {classes}")?;
    }
    Ok(())
}
