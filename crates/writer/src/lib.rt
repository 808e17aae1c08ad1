// Sheets written from a level table: the first line as it is given, then a line for each plot.
#![tactic(auto)]

ghost use Rattle.rules.specs.Lists.{decimal_of};
ghost use Rattle.decimal.specs.Writing.{Wrote};
ghost use Rattle.writer.specs.Rows.{columns_at, line_bytes, field_bytes, table_sheet};

use decimal::{write_byte, write_bytes, write_decimal};
use limits::Level;

// Writes a level, with a tab before it unless it is the first of its line.
fn write_level(level: Level, i: usize, out: &mut [u8], at: usize) -> usize
    ensures { Wrote out.old at (field_bytes i (decimal_of level)) out.new result }
{
    if i == 0 {
        return write_decimal(level as usize, out, at);
    }
    let next = write_byte(b'\t', out, at);
    write_decimal(level as usize, out, next)
}

// Writes the line of plot `u`.
fn write_row(
    columns: &[u8],
    plots: usize,
    u: usize,
    levels: &[Level],
    out: &mut [u8],
    at: usize,
) -> usize
    ensures { Wrote out.old at (line_bytes (columns_at plots levels.now columns.now) u) out.new result }
{
    let mut next = at;
    for (i, &column) in columns.iter().enumerate() {
        let level = levels::level(levels, column as usize, plots, u);
        next = write_level(level, i, out, next);
    }
    write_byte(b'\n', out, next)
}

// Writes a sheet of so many plots: the first line, and for each plot its levels in these columns of the level table, in this order. Writes as
// much as there is room for; answers the place after it.
pub fn write_sheet(
    first_line: &[u8],
    columns: &[u8],
    plots: usize,
    levels: &[Level],
    out: &mut [u8],
) -> usize
    ensures { Wrote out.old 0 (table_sheet first_line.now plots levels.now columns.now) out.new result }
{
    let line = write_bytes(first_line, out, 0);
    let mut at = write_byte(b'\n', out, line);
    // The plots are counted, as many as are asked for: past the table's end a level is 0.
    for u in 0..plots {
        at = write_row(columns, plots, u, levels, out, at);
    }
    at
}
