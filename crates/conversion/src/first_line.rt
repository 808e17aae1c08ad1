// The first line of an old sheet: the form of its slash parts, and the sheet without them.
ghost use Rattle.std.specs.Prelude.{◌≡◌, ◌==◌, true, ◌&&◌, option_copied};
ghost use Rattle.std.specs.List.{position};
ghost use Rattle.rules.specs.Sheet.{newline, has, all, header};
ghost use Rattle.rules.specs.Parents.{slash, without_parent, slash_form};
ghost use Rattle.decimal.specs.Writing.{Wrote};
ghost use Rattle.conversion.specs.Plain.{plain_text, named_parent};

use decimal::{write_byte, write_bytes};

// The place of a field's slash.
fn slash_place(field: &[u8]) -> Option<usize>
    ensures { result ≡ position (λ x. x == slash) field.now }
{
    field.iter().position(|&x| x == b'/')
}

// The name after a field's slash: that of its parent.
pub fn parent_name(field: &[u8]) -> Option<&[u8]>
    ensures { option_copied result ≡ named_parent field.now }
{
    let place = slash_place(field)?;
    Some(&field[place + 1..])
}

// Whether a field has no slash, or is a plot column's and has a name after it.
fn slash_form(field: &[u8]) -> bool
    ensures { result ≡ slash_form field.now }
{
    let Some(name) = parent_name(field) else {
        return true;
    };
    field.starts_with(b"p") && sheet::is_name(name)
}

// Whether the first line ends, and each field of it has that form.
pub fn slashes_formed(text: &[u8]) -> bool
    ensures { result ≡ has newline text.now && all slash_form (header text.now) }
{
    let mut at = 0;
    loop {
        let e = sheet::end_of(text, at);
        if text.len() <= e {
            return false;
        }
        if !slash_form(&text[at..e]) {
            return false;
        }
        if text[e] == b'\n' {
            return true;
        }
        at = e + 1;
    }
}

// Writes a field without its slash part.
fn write_field(field: &[u8], out: &mut [u8], at: usize) -> usize
    ensures { Wrote out.old at (without_parent field.now) out.new result }
{
    let end = slash_place(field).unwrap_or(field.len());
    write_bytes(&field[..end], out, at)
}

// Writes the text without the slash parts of its first line, which ends.
pub fn write_plain(text: &[u8], out: &mut [u8]) -> usize
    requires { has newline text.now ≡ true }
    ensures { Wrote out.old 0 (plain_text text.now) out.new result }
{
    let mut at = 0;
    let mut next = 0;
    loop {
        let e = sheet::end_of(text, at);
        next = write_field(&text[at..e], out, next);
        if text[e] == b'\n' {
            return write_bytes(&text[e..], out, next);
        }
        next = write_byte(b'\t', out, next);
        at = e + 1;
    }
}
