// Old sheets, which number a column within another one, are converted: questions 6, 2 to 5 and 23.
#![tactic(auto)]

ghost use Rattle.std.specs.Prelude.{◌≡◌, length};
ghost use Rattle.rules.specs.SheetText.{sheet_buffer};
ghost use Rattle.rules.specs.Parents.{conversion, conversion_from3};
ghost use Rattle.writer.specs.Answers.{writing_numbers, answer_numbers};
ghost use Rattle.conversion.specs.Answers.{HoldsConverted};
ghost use Rattle.conversion.specs.Plain.{Formed, PlainRead};

mod columns;
mod first_line;
mod parents;

use limits::{LEVELS, Level, TEXT};
use refusal::Refusal;
use sheet::Counts;

// Writes the sheet that an old one is converted to. A refusal writes nothing.
pub fn convert(old: &[u8], out: &mut [u8]) -> Result<usize, Refusal>
    ensures answer { writing_numbers result ≡ answer_numbers (conversion old.now (length out.old)) }
    ensures sheet { out.new ≡ sheet_buffer out.old (conversion old.now (length out.old)) }
    ensures converted { HoldsConverted old.now (length out.old) out.new }
{
    if out.len() < TEXT {
        return Err(Refusal::Limits);
    }
    if !(1..=TEXT).contains(&old.len()) {
        return Err(Refusal::TextLength);
    }
    if !first_line::slashes_formed(old) {
        return Err(Refusal::FirstLine);
    }
    convert_formed(old, out)
}

// The same where the slash parts have their form: the sheet without these is read as any other.
fn convert_formed(old: &[u8], out: &mut [u8]) -> Result<usize, Refusal>
    requires { Formed old.now (length out.old) }
    ensures answer { writing_numbers result ≡ answer_numbers (conversion_from3 old.now) }
    ensures sheet { out.new ≡ sheet_buffer out.old (conversion_from3 old.now) }
{
    let mut text = [0u8; TEXT];
    let size = first_line::write_plain(old, &mut text);
    let plain = &text[..size];
    let mut levels: [Level; LEVELS] = [0; LEVELS];
    let counts = sheet::read_sheet(plain, &mut levels)?;
    convert_read(old, plain, counts, &mut levels, out)
}

// The same for a sheet that was read into the level table.
fn convert_read(
    old: &[u8],
    plain: &[u8],
    counts: Counts,
    levels: &mut [Level],
    out: &mut [u8],
) -> Result<usize, Refusal>
    requires { PlainRead old.now plain.now counts levels.old (length out.old) }
    ensures answer { writing_numbers result ≡ answer_numbers (conversion_from3 old.now) }
    ensures sheet { out.new ≡ sheet_buffer out.old (conversion_from3 old.now) }
{
    let parents = parents::parent_places(old, plain)?;
    // the text was read, so its first line has the form
    let header = sheet::read_header(plain).unwrap();
    let columns = header.columns;
    let n = counts.plot_columns + counts.treatment_columns;
    columns::convert_columns(&columns, &parents[..n], counts.plots, levels);
    let line = &plain[..header.end - 1];
    Ok(writer::write_sheet(line, &columns[..n], counts.plots, levels, out))
}
