// Whether a column has one class or a class for each plot. Each walk ends at the first plot that tells.
ghost use Rattle.std.specs.Prelude.{◌≡◌, ◌≤◌, eqb, length};
ghost use Rattle.rules.specs.Factor.{classes};
ghost use Rattle.rules.specs.Limits.{most_plots};

// Whether there is one class.
pub fn one_class(column: &[u8]) -> bool
    ensures { result ≡ eqb (classes column.now) 1 }
{
    let Some(&first) = column.first() else {
        return false;
    };
    column.iter().all(|&label| label == first)
}

// Whether each plot is a class. `places` keeps for each label the place of its plot, from 1; 0 for a label not met, so that the table
// is 256 bytes.
pub fn each_apart(column: &[u8]) -> bool
    requires { length column.now ≤ most_plots }
    ensures { result ≡ eqb (classes column.now) (length column.now) }
{
    let mut places = [0u8; 256];
    for (u, &label) in column.iter().enumerate() {
        let x = usize::from(label);
        if places[x] != 0 {
            return false;
        }
        places[x] = (u + 1) as u8;
    }
    true
}
