// The columns on one side of a member: those coarser than it, with their infimum, or those finer than or equivalent to it, with their supremum.
ghost use Rattle.std.specs.Prelude.{◌≡◌, ◌≤◌, length, take};
ghost use Rattle.rules.specs.Limits.{most_plots};
ghost use Rattle.factor.specs.Lent.{on_common, overlay};
ghost use Rattle.naming.specs.Columns.{side_of};
ghost use Rattle.naming.specs.Members.{letter_of};

use limits::PLOTS;

// Which side.
#[derive(Clone, Copy)]
pub enum Side {
    Coarser,
    Finer,
}

impl Side {
    // Whether `g` lies on this side of `f`.
    pub fn towards(self, f: &[u8], g: &[u8]) -> bool
        requires { (length f.now ≤ most_plots) × (length g.now ≡ length f.now) }
        ensures { result ≡ (side_of (length f.now) self).towards f.now g.now }
    {
        match self {
            Side::Coarser => factor::finer(f, g),
            Side::Finer => factor::finer(g, f),
        }
    }

    // What two columns make on this side, over their common plots.
    pub fn join(self, f: &[u8], g: &[u8], out: &mut [u8; PLOTS])
        ensures { out.new ≡ overlay out.old (on_common (side_of 0 self).join f.now g.now) }
    {
        match self {
            Side::Coarser => {
                standing::infimum(f, g, out);
            }
            Side::Finer => {
                let mut below = [0u8; PLOTS];
                standing::bounds_of(f, g, &mut below, out);
            }
        }
    }

    // What no column makes: U of the coarser ones, E of the finer ones.
    pub fn none(self, n: usize) -> [u8; PLOTS]
        requires { n ≤ most_plots }
        ensures { take n result ≡ (side_of n self).none }
    {
        match self {
            Side::Coarser => [1u8; PLOTS],
            Side::Finer => factor::equality(n),
        }
    }

    // The letter that a list of columns on this side has before it.
    pub fn letter(self) -> u8
        ensures { result ≡ letter_of self }
    {
        match self {
            Side::Coarser => b'I',
            Side::Finer => b'S',
        }
    }
}
