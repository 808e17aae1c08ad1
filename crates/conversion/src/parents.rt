// Parents: the plot columns that slash parts name, and question 23.
ghost use Rattle.std.specs.Prelude.{◌≡◌, ◌≤◌, ◌<◌, length};
ghost use Rattle.rules.specs.Limits.{most_fields, most_text};
ghost use Rattle.rules.specs.Sheet.{same_bytes, header};
ghost use Rattle.rules.specs.SheetText.{plot_heading};
ghost use Rattle.conversion.specs.Plain.{heading_in, ParentFound, ParentsFound, Searchable};

use crate::first_line;
use limits::FIELDS;
use refusal::Refusal;

// Whether a field of the first line is that of the plot column with this name.
fn is_heading(field: &[u8], name: &[u8]) -> bool
    ensures { result ≡ same_bytes field.now (plot_heading name.now) }
{
    field.starts_with(b"p:") && &field[2..] == name
}

// The place, from 0, of the plot column with this name among the fields of the first line, if there is one.
fn heading_place(text: &[u8], name: &[u8]) -> Option<usize>
    requires { length text.now ≤ most_text }
    ensures { result ≡ heading_in (header text.now) name.now }
{
    let mut at = 0;
    let mut i = 0;
    loop {
        let e = sheet::end_of(text, at);
        if is_heading(&text[at..e], name) {
            return Some(i);
        }
        if text.len() <= e || text[e] == b'\n' {
            return None;
        }
        at = e + 1;
        i += 1;
    }
}

// The place in the plain first line of the parent of field `i` of the old one, if the field has a parent. It must stand further left.
fn parent_of(plain: &[u8], field: &[u8], i: usize) -> Result<Option<u8>, Refusal>
    requires { (length plain.now ≤ most_text) × (i < most_fields) × (i ≤ length (header plain.now)) }
    ensures { ParentFound result (header plain.now) field.now i }
{
    let Some(name) = first_line::parent_name(field) else {
        return Ok(None);
    };
    match heading_place(plain, name) {
        Some(place) if place < i => Ok(Some(place as u8)),
        _ => Err(Refusal::Parent),
    }
}

// Question 23 of the old first line: each parent stands further left. Then these are the places of the fields' parents.
pub fn parent_places(old: &[u8], plain: &[u8]) -> Result<[Option<u8>; FIELDS], Refusal>
    requires { Searchable old.now plain.now }
    ensures { ParentsFound result old.now plain.now }
{
    let mut parents = [None; FIELDS];
    let mut at = 0;
    let mut i = 0;
    loop {
        let e = sheet::end_of(old, at);
        parents[i] = parent_of(plain, &old[at..e], i)?;
        if old[e] == b'\n' {
            return Ok(parents);
        }
        at = e + 1;
        i += 1;
    }
}
