// The range of the labels of a column.
ghost use Rattle.std.specs.Prelude.{◌≡◌};
ghost use Rattle.factor.specs.Labels.{largest};

// The largest label; 0 for a column without a plot.
pub fn largest(column: &[u8]) -> u8
    ensures { result ≡ largest column.now }
{
    column.iter().fold(0, |most, &x| most.max(x))
}
