// The range of the labels of a column.
ghost use Rattle.std.specs.Prelude.{◌≤◌, ◌<◌};
ghost use Rattle.standing.specs.Joining.{Below, NotBelow};

// One more than the largest label; 1 for a column without a plot.
pub fn past_labels(f: &[u8]) -> usize
    ensures some { 0 < result }
    ensures few { result ≤ 256 }
    ensures below { Below result f.now }
{
    f.iter().copied().max().map_or(1, |x| x as usize + 1)
}

// The smallest label; 255 for a column without a plot.
pub fn least_label(f: &[u8]) -> u8
    ensures { NotBelow result f.now }
{
    f.iter().copied().min().unwrap_or(u8::MAX)
}
