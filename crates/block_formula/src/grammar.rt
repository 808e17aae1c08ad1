// Whether a text is written as a formula is: what follows each part that it begins with.
ghost use Rattle.std.specs.Prelude.{◌≡◌, ◌==◌, option_copied};
ghost use Rattle.std.specs.List.{position};
ghost use Rattle.rules.specs.Sheet.{has};
ghost use Rattle.rules.specs.Formula.{equals, operators, named, item_by, formula_at};
ghost use Rattle.block_formula.specs.Text.{rest_of, allowed, readable};

use crate::counts;
use limits::FORMULA;

// The place of the first `=`.
fn equals_place(text: &[u8]) -> Option<usize>
    ensures { result ≡ position (λ x. x == equals) text.now }
{
    text.iter().position(|&x| x == b'=')
}

// What follows the name, `=` and count that a text begins with.
fn after_named(text: &[u8]) -> Option<&[u8]>
    ensures { option_copied result ≡ rest_of (named text.now) }
{
    let end = equals_place(text)?;
    if !sheet::is_name(&text[..end]) {
        return None;
    }
    let rest = &text[end + 1..];
    let digits = counts::digits(rest);
    counts::count(digits)?;
    Some(&rest[digits.len()..])
}

// Whether a byte is an operator that may follow an item: any, or only the one named.
fn may_follow(x: u8, only: Option<u8>) -> bool
    ensures { result ≡ has x (allowed only) }
{
    match only {
        Some(operator) => x == operator,
        None => x == b'/' || x == b'*',
    }
}

// What follows the item that a text begins with. Formulas in brackets are read in so many steps.
#[cycle(after_formula_after_item)]
fn after_item(text: &[u8], steps: usize) -> Option<&[u8]>
    ensures { option_copied result ≡ rest_of (item_by (formula_at steps operators) text.now) }
{
    let (&first, inner) = text.split_first()?;
    if first != b'(' {
        return after_named(text);
    }
    let (&last, rest) = after_formula(inner, None, steps)?.split_first()?;
    (last == b')').then_some(rest)
}

// What follows the formula that a text begins with, whose operators are all `only`, if one is named. Each item and each bracket takes a step, and
// so many may be taken.
#[cycle(after_formula_after_item)]
fn after_formula(text: &[u8], only: Option<u8>, steps: usize) -> Option<&[u8]>
    ensures { option_copied result ≡ rest_of (formula_at steps (allowed only) text.now) }
{
    let left = steps.checked_sub(1)?;
    let rest = after_item(text, left)?;
    match rest.split_first() {
        Some((&x, later)) if may_follow(x, only) => after_formula(later, Some(x), left),
        _ => Some(rest),
    }
}

// Whether a text is a formula but for its names, which may be alike.
pub fn is_readable(text: &[u8]) -> bool
    ensures { result ≡ readable text.now }
{
    let n = text.len();
    (1..=FORMULA).contains(&n)
        && after_formula(text, None, n + 1).is_some_and(|rest| rest.is_empty())
}
