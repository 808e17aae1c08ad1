// Fields: where one ends, whether it is a level, and of which bytes it is made.
ghost use Rattle.std.specs.Prelude.{◌≡◌, ◌||◌, ◌+◌, eqb, length, drop};
ghost use Rattle.rules.specs.Sheet.{tab, newline, up_to, letter_or_digit, same_bytes, is_name};
ghost use Rattle.sheet.specs.Walk.{field_of, level_then, is_mark};

use limits::{LEVEL, Level, NAME_TAIL};

// Whether a byte ends a field: a tab or a newline.
fn ends_field(x: u8) -> bool
    ensures { result ≡ (eqb x tab || eqb x newline) }
{
    matches!(x, b'\t' | b'\n')
}

// The end of the field that starts at `start`: the place of the next byte 9 or 10, or the text's length.
pub fn end_of(text: &[u8], start: usize) -> usize
    ensures { result ≡ start + length (field_of (drop start text.now)) }
{
    let Some(rest) = text.get(start..) else {
        return start;
    };
    for (i, &x) in rest.iter().enumerate() {
        if ends_field(x) {
            return start + i;
        }
    }
    text.len()
}

// How many bytes of a text stand before the first such byte; all where there is none.
pub fn place_of(text: &[u8], byte: u8) -> usize
    ensures { result ≡ length (up_to byte text.now) }
{
    for (i, &x) in text.iter().enumerate() {
        if x == byte {
            return i;
        }
    }
    text.len()
}

// A level, and the place after the byte that follows it.
#[derive(Clone, Copy)]
pub struct FieldLevel {
    pub end: usize,
    pub level: Level,
}

// Reads the level that starts at `start` and the byte `stop`, which ends its field, or nothing: it goes no further than the first byte
// that shows that they are not there. A level is a decimal number from 1 on, without leading zeros.
pub fn level_then(text: &[u8], start: usize, stop: u8) -> Option<FieldLevel>
    ensures { result ≡ level_then stop start (drop start text.now) }
{
    let [first, rest @ ..] = text.get(start..)? else {
        return None;
    };
    if !(b'1'..=b'9').contains(first) {
        return None;
    }
    let mut level = (*first - b'0') as u64;
    for (i, &x) in rest.iter().enumerate() {
        if x == stop {
            if !ends_field(stop) {
                return None;
            }
            return Some(FieldLevel {
                end: start + i + 2,
                level: level as Level,
            });
        }
        if !x.is_ascii_digit() {
            return None;
        }
        level = 10 * level + (x - b'0') as u64;
        // Too large already.
        if LEVEL < level {
            return None;
        }
    }
    None
}

// Whether a byte is a letter or a digit.
pub fn letter_or_digit(x: u8) -> bool
    ensures { result ≡ letter_or_digit x }
{
    x.is_ascii_alphanumeric()
}

// Whether a byte tells a column's kind: `p` or `t`.
pub fn is_mark(x: u8) -> bool
    ensures { result ≡ is_mark x }
{
    matches!(x, b'p' | b't')
}

// Whether two texts have the same bytes.
#[tactic(auto, using(crate::proofs::Walk::pairs_same))]
pub fn same_bytes(a: &[u8], b: &[u8]) -> bool
    ensures { result ≡ same_bytes a.now b.now }
{
    a == b
}

// Whether a text has the form of a name: a letter and then 1 to 11 letters or digits.
pub fn is_name(name: &[u8]) -> bool
    ensures { result ≡ is_name name.now }
{
    match name {
        [first, rest @ ..] => {
            first.is_ascii_alphabetic()
                && (1..=NAME_TAIL).contains(&rest.len())
                && rest.iter().all(|&x| letter_or_digit(x))
        }
        [] => false,
    }
}
