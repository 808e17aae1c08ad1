// The counts of a formula, and its number of plots.
ghost use Rattle.std.specs.Prelude.{◌≡◌, true, not, suc, ◌≤◌, min, length};
ghost use Rattle.std.specs.List.{position};
ghost use Rattle.rules.specs.Limits.{most_plots};
ghost use Rattle.rules.specs.Sheet.{all, digit};
ghost use Rattle.rules.specs.Formula.{leading, plot_count};
ghost use Rattle.block_formula.specs.Text.{count_of, counts_in};

use limits::{LEAST_COUNT, MOST_COUNT, PLOTS};

// The place of the first byte that is no digit.
fn digits_end(text: &[u8]) -> Option<usize>
    ensures { result ≡ position (λ x. not (digit x)) text.now }
{
    text.iter().position(|x| !x.is_ascii_digit())
}

// The digits that a text begins with.
pub fn digits(text: &[u8]) -> &[u8]
    ensures { result.now ≡ leading text.now }
{
    match digits_end(text) {
        Some(end) => &text[..end],
        None => text,
    }
}

// The count that digits write, if they write one.
pub fn count(digits: &[u8]) -> Option<usize>
    requires { all digit digits.now ≡ true }
    ensures { result ≡ count_of digits.now }
{
    if digits.starts_with(b"0") {
        return None;
    }
    let mut count = 0;
    for &x in digits {
        count = 10 * count + usize::from(x - b'0');
        if MOST_COUNT < count {
            return None;
        }
    }
    (LEAST_COUNT <= count).then_some(count)
}

// Lists the counts, one after each `=`, with 0 where none is written.
pub fn read_counts<'a>(text: &[u8], counts: &'a mut [u8]) -> &'a [u8]
    requires { length text.now ≤ length counts.old }
    ensures { result.now ≡ counts_in text.now }
{
    let mut n = 0;
    for (i, &x) in text.iter().enumerate() {
        if x == b'=' {
            counts[n] = count(digits(&text[i + 1..])).unwrap_or(0) as u8;
            n += 1;
        }
    }
    &counts[..n]
}

// How many combinations the counts have, up to 241.
pub fn plot_count(counts: &[u8]) -> usize
    ensures { result ≡ min (suc most_plots) (plot_count counts.now) }
{
    let mut plots = 1;
    for &count in counts {
        plots = (plots * usize::from(count)).min(PLOTS + 1);
    }
    plots
}
