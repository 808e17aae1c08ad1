// Which names of a formula a name is nested in.
ghost use Rattle.std.specs.Prelude.{◌≡◌, ◌<◌, ◌≤◌, length, get_or, false};
ghost use Rattle.rules.specs.Limits.{most_formula};
ghost use Rattle.block_formula.specs.Text.{after_name, depth_after, nests_after, later_nested, sees, seen_text};

use limits::COLUMNS;

// The bytes after the `=` of name `j`, from 0; none where there is no such name.
fn after_name(text: &[u8], j: usize) -> &[u8]
    ensures bytes { result.now ≡ after_name j text.now }
    ensures inside { length result.now ≤ length text.now }
{
    let mut left = j;
    for (i, &x) in text.iter().enumerate() {
        if x == b'=' {
            if left == 0 {
                return &text[i + 1..];
            }
            left -= 1;
        }
    }
    &[]
}

// How many brackets are open after a byte, where `depth` were before it.
fn depth_after(depth: usize, x: u8) -> usize
    requires { depth < most_formula }
    ensures { result ≡ depth_after depth x }
{
    match x {
        b'(' => depth + 1,
        b')' => depth.saturating_sub(1),
        _ => depth,
    }
}

// Whether the last operator outside of brackets is `/` after a byte, where it was so or not before it.
fn nests_after(depth: usize, nests: bool, x: u8) -> bool
    ensures { result ≡ nests_after depth nests x }
{
    if depth == 0 {
        x == b'/' || x != b'*' && nests
    } else {
        nests
    }
}

// Whether name `later`, from 0, of those in a text is nested in the name before the text.
fn later_nested(text: &[u8], later: usize) -> bool
    requires { length text.now ≤ most_formula }
    ensures { result ≡ get_or (later_nested 0 false text.now) later false }
{
    let mut left = later;
    let mut depth = 0;
    let mut nests = false;
    for &x in text {
        if x == b'=' {
            if left == 0 {
                return nests;
            }
            left -= 1;
        } else {
            nests = nests_after(depth, nests, x);
            depth = depth_after(depth, x);
        }
    }
    false
}

// Whether plots must agree in name `j` to share a level of name `i`: it is that name, or that name is nested in it.
#[tactic(auto, using(crate::proofs::NestingLaws::sees_nested))]
fn sees(text: &[u8], i: usize, j: usize) -> bool
    requires { length text.now ≤ most_formula }
    ensures { result ≡ sees text.now i j }
{
    i == j || j < i && later_nested(after_name(text, j), i - j - 1)
}

// The names in which plots must agree to share a level of name `i`: itself, and those it is nested in.
pub fn seen_names(text: &[u8], i: usize) -> [bool; COLUMNS]
    requires { length text.now ≤ most_formula }
    ensures { result ≡ seen_text text.now i }
{
    let mut seen = [false; COLUMNS];
    for (j, mark) in seen.iter_mut().enumerate() {
        *mark = sees(text, i, j);
    }
    seen
}
