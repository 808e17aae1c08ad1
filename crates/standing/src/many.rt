// The infimum of two columns with many labels. A table of all cells would be long; the two labels of a plot make one number, and the column of
// these numbers is numbered like levels.
ghost use Rattle.std.specs.Prelude.{◌≡◌, ℕ, ◌+◌, ◌*◌, ◌<◌, length};
ghost use Rattle.rules.specs.Limits.{most_plots};
ghost use Rattle.rules.specs.Factor.{at, classes, infimum};
ghost use Rattle.factor.specs.Lent.{overlay};

use crate::columns::Columns;
use limits::{PLOTS, PairCode};

// One number for the two labels of each plot: labels `x` and `y`, the second below w, make w × x + y.
fn coded(columns: Columns) -> [PairCode; PLOTS]
    ensures long { length result ≡ most_plots }
    ensures codes { (u : ℕ) → u < length columns.entry.f.now → at result u ≡ columns.entry.past_g * at columns.entry.f.now u + at columns.entry.g.now u }
{
    let mut codes: [PairCode; PLOTS] = [0; PLOTS];
    for (u, &x) in columns.f.iter().enumerate() {
        let y = columns.g[u];
        codes[u] = (columns.past_g * x as usize + y as usize) as PairCode;
    }
    codes
}

// Numbers the classes of the infimum of two columns; answers how many there are.
pub(crate) fn infimum_many(columns: Columns, out: &mut [u8; PLOTS]) -> usize
    ensures answer { result ≡ classes (infimum columns.entry.f.now columns.entry.g.now) }
    ensures numbers { out.new ≡ overlay out.old (infimum columns.entry.f.now columns.entry.g.now) }
{
    numbering::number_levels(&coded(columns), columns.f.len(), out)
}
