// Columns of a buffer.
ghost use Rattle.std.specs.Prelude.{◌≡◌};
ghost use Rattle.factor.specs.Lent.{part_at};

use limits::PLOTS;

// Column `i`, from 0, of a buffer of columns on `n` plots, or as much of it as the slice has: a level table or a family.
pub fn part<T>(buffer: &[T], i: usize, n: usize) -> &[T]
    ensures { result.now ≡ part_at n buffer.now i }
{
    let start = PLOTS.saturating_mul(i).min(buffer.len());
    let rest = &buffer[start..];
    &rest[..n.min(rest.len())]
}
