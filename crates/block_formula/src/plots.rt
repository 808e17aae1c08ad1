// The plots of a formula: all combinations of the counts, the first name slowest, and their levels.
ghost use Rattle.std.specs.Prelude.{◌≡◌, ◌<◌, length};
ghost use Rattle.rules.specs.Family.{members_of};
ghost use Rattle.block_formula.specs.Plots.{code_of, Counted, in_set, levels_by, Placed, columns_in};

use crate::nesting;
use limits::{COLUMNS, Level, PLOTS};

// The counts of a formula within the limits, and how many plots they make.
#[derive(Clone, Copy)]
pub struct Plots<'a> {
    counts: &'a [u8],
    plots: usize,
    ghost counted: { Counted counts.now plots },
}

impl<'a> Plots<'a> {
    pub fn new(counts: &'a [u8], plots: usize) -> Plots<'a>
        requires { Counted counts.now plots }
        ensures { (result.counts.now ≡ counts.now) × (result.plots ≡ plots) }
    {
        Plots { counts, plots }
    }

    // The place, from 0, of plot `u`'s combination of the names seen among all combinations of these.
    fn code(&self, seen: [bool; COLUMNS], u: usize) -> usize
        requires { u < self.now.plots }
        ensures { result ≡ code_of self.now.counts.now (in_set seen) u }
    {
        let mut code = 0;
        let mut rest = u;
        let mut size = self.plots;
        for (&count, &is_seen) in self.counts.iter().zip(&seen) {
            let count = usize::from(count);
            size /= count;
            if is_seen {
                code = code * count + rest / size;
            }
            rest %= size;
        }
        code
    }

    // Writes the levels of a column, one for each plot.
    fn write_column(&self, seen: [bool; COLUMNS], column: &mut [Level])
        requires { length column.old ≡ self.now.plots }
        ensures { column.new ≡ levels_by self.now.counts.now seen self.now.plots }
    {
        for (u, level) in column.iter_mut().enumerate() {
            *level = (self.code(seen, u) + 1) as Level;
        }
    }

    // Writes the columns of all names.
    pub fn write_columns(&self, text: &[u8], levels: &mut [Level])
        requires { Placed text.now levels.old }
        ensures { members_of self.now.plots levels.new (length self.now.counts.now) ≡ columns_in text.now self.now.counts.now self.now.plots }
    {
        for i in 0..self.counts.len() {
            let seen = nesting::seen_names(text, i);
            let start = PLOTS * i;
            self.write_column(seen, &mut levels[start..start + self.plots]);
        }
    }
}
