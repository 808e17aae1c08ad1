// Sizes of the classes of a column.
ghost use Rattle.std.specs.Prelude.{◌≡◌, ◌≤◌, ◌<◌, length};
ghost use Rattle.rules.specs.Limits.{most_plots};
ghost use Rattle.rules.specs.Factor.{uniform};
ghost use Rattle.factor.specs.Lent.{plots_of};
ghost use Rattle.factor.specs.Sizes.{sizes};

use crate::plots::numbered_plots;

// How many plots have each label, in one walk.
fn sizes(f: &[u8]) -> [u8; 256]
    requires { length f.now ≤ most_plots }
    ensures { result ≡ sizes f.now }
{
    let mut table = [0u8; 256];
    for &x in f {
        table[x as usize] += 1;
    }
    table
}

// How many plots have each label that a byte holds.
pub fn label_sizes(f: &[u8]) -> [u8; 256]
    ensures { result ≡ sizes (plots_of f.now) }
{
    let n = numbered_plots(f.len());
    sizes(&f[..n])
}

// Whether all classes have one size.
pub fn uniform(f: &[u8]) -> bool
    ensures { result ≡ uniform (length (plots_of f.now)) (plots_of f.now) }
{
    let n = numbered_plots(f.len());
    n == 0 || one_size(&f[..n])
}

// The same for a column that has a plot: the class of each plot has as many as that of the first. The walk goes to the end, so that many
// labels are compared at a time.
fn one_size(f: &[u8]) -> bool
    requires { (0 < length f.now) × (length f.now ≤ most_plots) }
    ensures { result ≡ uniform (length f.now) f.now }
{
    let table = sizes(f);
    let first = table[f[0] as usize];
    !table
        .iter()
        .fold(false, |other, &size| other | (size != 0 && size != first))
}
