// Columns of the level table, converted in place.
ghost use Rattle.std.specs.Prelude.{◌≡◌, ◌+◌, ◌*◌, ◌≤◌, length, take};
ghost use Rattle.std.proofs.Math.Seq.{paste};
ghost use Rattle.rules.specs.Limits.{most_plots};
ghost use Rattle.rules.specs.Factor.{infimum};
ghost use Rattle.factor.specs.Lent.{column_at};
ghost use Rattle.conversion.specs.Table.{Inside, within_column, Convertible, ConvertedTo};

use limits::{Level, PLOTS};

// Numbers the classes of the infimum of columns `c` and `parent`.
fn number_infimum(levels: &[Level], plots: usize, c: usize, parent: usize, out: &mut [u8; PLOTS])
    requires { Inside plots c parent (length levels.now) }
    ensures { take plots out.new ≡ infimum (column_at plots levels.now c) (column_at plots levels.now parent) }
{
    let mut own = [0u8; PLOTS];
    levels::column_numbers(levels, c, plots, &mut own);
    let mut above = [0u8; PLOTS];
    levels::column_numbers(levels, parent, plots, &mut above);
    standing::infimum(&own[..plots], &above[..plots], out);
}

// Writes numbers as the levels of column `c`.
fn write_column(levels: &mut [Level], c: usize, numbers: &[u8])
    requires { most_plots * c + length numbers.now ≤ length levels.old }
    ensures { levels.new ≡ paste levels.old (most_plots * c) numbers.now (length numbers.now) }
{
    for (u, &number) in numbers.iter().enumerate() {
        levels[PLOTS * c + u] = Level::from(number);
    }
}

// Column `c` becomes the infimum of itself and column `parent`.
fn within_parent(levels: &mut [Level], plots: usize, c: usize, parent: usize)
    requires { Inside plots c parent (length levels.old) }
    ensures { levels.new ≡ within_column plots levels.old c parent }
{
    let mut numbers = [0u8; PLOTS];
    number_infimum(levels, plots, c, parent, &mut numbers);
    write_column(levels, c, &numbers[..plots]);
}

// Converts the columns of the fields, from left to right: each has the place of its parent, if it has one.
pub fn convert_columns(columns: &[u8], parents: &[Option<u8>], plots: usize, levels: &mut [Level])
    requires { Convertible columns.now parents.now (length parents.now) plots (length levels.old) }
    ensures { ConvertedTo columns.now parents.now (length parents.now) plots levels.old levels.new }
{
    for (i, &parent) in parents.iter().enumerate() {
        if let Some(parent) = parent {
            within_parent(
                levels,
                plots,
                usize::from(columns[i]),
                usize::from(columns[usize::from(parent)]),
            );
        }
    }
}
