// The names of a formula: the first line of its sheet, and whether they differ.
ghost use Rattle.std.specs.Prelude.{◌≡◌, [], map, ◌<◌, length, get_or};
ghost use Rattle.rules.specs.Sheet.{names_differ};
ghost use Rattle.rules.specs.SheetText.{plot_heading};
ghost use Rattle.decimal.specs.Writing.{Wrote};
ghost use Rattle.block_formula.specs.Text.{in_count, heading_part, headings, names_in, new_at};

use decimal::{write_byte, write_bytes};

// Whether a byte belongs to a count, where the one before it did or not.
fn in_count(counting: bool, x: u8) -> bool
    ensures { result ≡ in_count counting x }
{
    x == b'=' || sheet::letter_or_digit(x) && counting
}

// Writes what a byte adds to the headings. Whether it belongs to a count is what the walk over the text knows of it.
fn write_part(counting: bool, x: u8, out: &mut [u8], at: usize) -> usize
    ensures { Wrote out.old at (heading_part counting x) out.new result }
{
    if x == b'=' {
        return write_bytes(b"\tp:", out, at);
    }
    if counting {
        return at;
    }
    if !sheet::letter_or_digit(x) {
        return at;
    }
    write_byte(x, out, at)
}

// Writes the headings of all names, each with a tab after it, and the start of one more.
pub fn write_headings(text: &[u8], out: &mut [u8]) -> usize
    ensures { Wrote out.old 0 (headings text.now) out.new result }
{
    let mut next = write_bytes(b"p:", out, 0);
    let mut counting = false;
    for &x in text {
        next = write_part(counting, x, out, next);
        counting = in_count(counting, x);
    }
    next
}

// The name of plot column `i`, from 0, of a first line; no bytes where there is none.
fn name(line: &[u8], i: usize) -> &[u8]
    ensures { result.now ≡ get_or (names_in line.now) i [] }
{
    match sheet::column_name(line, b'p', i) {
        Some(span) => &line[span.start..span.end],
        None => &[],
    }
}

// Whether no name after name `i` of so many is the same.
fn new_name(line: &[u8], i: usize, names: usize) -> bool
    requires { (names ≡ length (names_in line.now)) × (i < names) }
    ensures { result ≡ new_at (names_in line.now) i }
{
    // a range, since names are parts of the line; of `(i + 1..names).all(..)` the proof does not learn which names were compared
    for j in i + 1..names {
        if name(line, i) == name(line, j) {
            return false;
        }
    }
    true
}

// Whether no two names of a first line of so many plot columns are the same.
pub fn names_differ(line: &[u8], names: usize) -> bool
    requires { names ≡ length (names_in line.now) }
    ensures { result ≡ names_differ (map plot_heading (names_in line.now)) }
{
    // a range, as in `new_name`
    for i in 0..names {
        if !new_name(line, i, names) {
            return false;
        }
    }
    true
}
