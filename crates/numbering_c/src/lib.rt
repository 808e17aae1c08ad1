// Numbering as a static library: it has the one entry `number_levels`, so that numbering is called from C, compared and timed alone.
#![tactic(auto)]

ghost use Rattle.std.specs.Prelude.{◌≡◌, take};
ghost use Rattle.rules.specs.Factor.{number, classes};
ghost use Rattle.factor.specs.Lent.{plots_of, overlay};

use limits::{Level, PLOTS};

// `number_levels` of the crate numbering, for C: numbers the first `stop` plots of a column of levels by first appearance and answers how
// many classes there are.
#[unsafe(no_mangle)]
pub extern "C" fn number_levels(levels: &[Level], stop: usize, out: &mut [u8; PLOTS]) -> usize
    ensures answer { result ≡ classes (take stop (plots_of levels.now)) }
    ensures numbers { out.new ≡ overlay out.old (number (take stop (plots_of levels.now))) }
{
    numbering::number_levels(levels, stop, out)
}
