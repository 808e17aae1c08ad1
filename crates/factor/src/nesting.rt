// The order of two columns.
ghost use Rattle.std.specs.Prelude.{◌≡◌, length};
ghost use Rattle.rules.specs.Factor.{finer};
ghost use Rattle.factor.specs.Lent.{test_common};

use crate::plots::common_plots;

// Whether plots that share a class of `f` always share a class of `g`, over the common plots.
pub fn finer(f: &[u8], g: &[u8]) -> bool
    ensures { result ≡ test_common finer f.now g.now }
{
    let n = common_plots(f.len(), g.len());
    agrees(&f[..n], &g[..n])
}

// `finer` for two columns of one length, in one walk: the table has the label in `g` of each class of `f` that was met.
fn agrees(f: &[u8], g: &[u8]) -> bool
    requires { length g.now ≡ length f.now }
    ensures { result ≡ finer (length f.now) f.now g.now }
{
    let mut table = [None; 256];
    for (u, &x) in f.iter().enumerate() {
        let y = g[u];
        match table[x as usize] {
            None => table[x as usize] = Some(y),
            Some(z) => {
                if z != y {
                    return false;
                }
            }
        }
    }
    true
}
