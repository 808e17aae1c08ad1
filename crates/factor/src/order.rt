// The order of members.
ghost use Rattle.std.specs.Prelude.{◌≡◌};
ghost use Rattle.rules.specs.Family.{alike, smaller};

// Whether two columns are equal.
pub fn alike(f: &[u8], g: &[u8]) -> bool
    ensures { result ≡ alike f.now g.now }
{
    f == g
}

// Whether `f` has the smaller number at the first plot where the columns differ.
pub fn smaller(f: &[u8], g: &[u8]) -> bool
    ensures { result ≡ smaller f.now g.now }
{
    for (u, &x) in f.iter().enumerate() {
        let Some(&y) = g.get(u) else {
            return false;
        };
        if x != y {
            return x < y;
        }
    }
    f.len() < g.len()
}
