// How two factors stand.
ghost use Rattle.std.specs.Prelude.{◌≡◌};
ghost use Rattle.rules.specs.Comparison.{comparison};
ghost use Rattle.factor.specs.Lent.{test_common};
ghost use Rattle.standing.specs.Cases.{case_of};

use crate::pair::crossing_of;
use factor::finer;
use limits::PLOTS;

// The five cases, each said of the first factor; of those that fit the first. `Orthogonal` is said where neither is finer.
#[derive(Clone, Copy, Debug, PartialEq, Eq)]
pub enum Comparison {
    Equivalent,
    Finer,
    Coarser,
    Orthogonal,
    NotOrthogonal,
}

// How two columns stand over their common plots.
pub fn compare(f: &[u8], g: &[u8]) -> Comparison
    ensures { case_of result ≡ test_common comparison f.now g.now }
{
    match (finer(f, g), finer(g, f)) {
        (true, true) => Comparison::Equivalent,
        (true, false) => Comparison::Finer,
        (false, true) => Comparison::Coarser,
        (false, false) => {
            let mut supremum = [0u8; PLOTS];
            if crossing_of(f, g, &mut supremum).orthogonal {
                Comparison::Orthogonal
            } else {
                Comparison::NotOrthogonal
            }
        }
    }
}
