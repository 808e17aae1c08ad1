// The equality factor.
ghost use Rattle.std.specs.Prelude.{◌≡◌};
ghost use Rattle.factor.specs.Lent.{equality_in};

use crate::plots::numbered_plots;
use limits::PLOTS;

// The equality factor on `n` plots, on 240 at most; the bytes past them are 0.
pub fn equality(n: usize) -> [u8; PLOTS]
    ensures { result ≡ equality_in n }
{
    let mut column = [0u8; PLOTS];
    for (u, label) in column[..numbered_plots(n)].iter_mut().enumerate() {
        *label = u as u8 + 1;
    }
    column
}
