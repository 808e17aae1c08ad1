// The first line.
ghost use Rattle.std.specs.Prelude.{◌≡◌, [], ◌+◌, ◌<◌, ◌≤◌, length, drop};
ghost use Rattle.std.proofs.Math.Seq.{slice};
ghost use Rattle.rules.specs.Sheet.{is_column, is_kind, new_name, names_differ, header};
ghost use Rattle.sheet.specs.Walk.{column_end, OfColumns};
ghost use Rattle.sheet.specs.Answers.{past_mark, marked, headed, column_span};

use crate::field;
use limits::{COLUMNS, FIELDS};

// A column has at most 14 bytes, and a byte follows.
const PAST_COLUMN: usize = 15;

// The first line of a sheet: where the next one starts, the columns of each kind, and the column of the level table that each field
// takes, 0 past the fields.
#[derive(Clone, Copy)]
pub struct Header {
    pub end: usize,
    pub plot_columns: usize,
    pub treatment_columns: usize,
    pub columns: [u8; FIELDS],
}

// Where bytes of a text stand: from `start` on, those before `end`.
#[derive(Clone, Copy, Debug, PartialEq, Eq)]
pub struct Span {
    pub start: usize,
    pub end: usize,
}

// Question 3.
pub fn read_header(text: &[u8]) -> Option<Header>
    ensures { result ≡ headed text.now }
{
    let header = marks(text)?;
    if !names_differ(text) {
        return None;
    }
    Some(header)
}

// Whether a field is a column: the mark of its kind, a colon and a name.
fn is_column(field: &[u8]) -> bool
    ensures { result ≡ is_column field.now }
{
    match field {
        [mark, colon, name @ ..] => {
            field::is_mark(*mark) && *colon == b':' && field::is_name(name)
        }
        _ => false,
    }
}

// The end of the field that starts at `start`, where it is a column and a tab or newline ends it.
fn column_end(text: &[u8], start: usize) -> Option<usize>
    requires { start ≤ length text.now }
    ensures { result ≡ column_end start (drop start text.now) }
{
    let near = &text[..text.len().min(start + PAST_COLUMN)];
    let end = field::end_of(near, start);
    (end < near.len() && is_column(&near[start..end])).then_some(end)
}

// The first line but for its names: the fields one by one, each counted and given its column of the level table.
fn marks(text: &[u8]) -> Option<Header>
    ensures { result ≡ marked 0 0 0 [] text.now }
{
    let mut at = 0;
    let mut p = 0;
    let mut t = 0;
    let mut columns = [0u8; FIELDS];
    loop {
        let e = column_end(text, at)?;
        if text[at] == b'p' {
            if COLUMNS <= p {
                return None;
            }
            columns[p + t] = p as u8;
            p += 1;
        } else {
            if COLUMNS <= t {
                return None;
            }
            columns[p + t] = (COLUMNS + t) as u8;
            t += 1;
        }
        at = e + 1;
        if text[e] == b'\n' {
            return Some(Header {
                end: at,
                plot_columns: p,
                treatment_columns: t,
                columns,
            });
        }
    }
}

// Whether no two names of the first line are equal.
fn names_differ(text: &[u8]) -> bool
    requires { OfColumns text.now }
    ensures { result ≡ names_differ (header text.now) }
{
    let mut at = 0;
    loop {
        let e = field::end_of(text, at);
        if text[e] == b'\n' {
            return true;
        }
        if !new_name(text, at, e) {
            return false;
        }
        at = e + 1;
    }
}

// Whether no field after the one from `start` to `stop` has its name.
fn new_name(text: &[u8], start: usize, stop: usize) -> bool
    requires { (start + 2 ≤ stop) × (stop < length text.now) × OfColumns (drop (stop + 1) text.now) }
    ensures { result ≡ new_name (slice start stop text.now) (header (drop (stop + 1) text.now)) }
{
    let mut at = stop + 1;
    loop {
        let e = field::end_of(text, at);
        if field::same_bytes(&text[start + 2..stop], &text[at + 2..e]) {
            return false;
        }
        if text[e] == b'\n' {
            return true;
        }
        at = e + 1;
    }
}

// Whether the field from `start` to `stop` starts with the byte that marks a kind.
fn is_kind(text: &[u8], start: usize, stop: usize, mark: u8) -> bool
    requires { stop ≤ length text.now }
    ensures { result ≡ is_kind mark (slice start stop text.now) }
{
    if stop <= start {
        return false;
    }
    text[start] == mark
}

// Where the name in the field from `start` to `stop` stands: past the two bytes of its kind.
fn name_in(start: usize, stop: usize) -> Span
    requires { start ≤ stop }
    ensures { result ≡ past_mark start stop }
{
    Span {
        start: start + (stop - start).min(2),
        end: stop,
    }
}

// Where the name of column `c`, from 0, of those that the first line marks with the byte `mark` stands.
pub fn column_name(text: &[u8], mark: u8, c: usize) -> Option<Span>
    ensures { result ≡ column_span mark c text.now }
{
    let mut at = 0;
    let mut left = c;
    loop {
        let e = field::end_of(text, at);
        if is_kind(text, at, e, mark) {
            if left == 0 {
                return Some(name_in(at, e));
            }
            left -= 1;
        }
        if text.len() <= e || text[e] == b'\n' {
            return None;
        }
        at = e + 1;
    }
}
