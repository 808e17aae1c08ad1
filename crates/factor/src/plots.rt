// How much of a lent column is looked at.
ghost use Rattle.std.specs.Prelude.{◌≡◌, min};
ghost use Rattle.rules.specs.Limits.{most_plots};

use limits::PLOTS;

// How many of `n` plots are numbered.
pub(crate) fn numbered_plots(n: usize) -> usize
    ensures { result ≡ min most_plots n }
{
    n.min(PLOTS)
}

// How many plots two columns have in common.
pub fn common_plots(a: usize, b: usize) -> usize
    ensures { result ≡ min most_plots (min a b) }
{
    numbered_plots(a.min(b))
}
