// The later lines.
ghost use Rattle.std.specs.Prelude.{◌≡◌, true, suc, ◌+◌, ◌-◌, ◌≤◌, ◌<◌, length, drop};
ghost use Rattle.rules.specs.Limits.{most_plots};
ghost use Rattle.rules.specs.Sheet.{newline, up_to, fields, lines, with_plot, with_plots};
ghost use Rattle.sheet.specs.Walk.{stop_before, row_there, row_end, Store, PlotLines};
ghost use Rattle.sheet.specs.Answers.{judged};

use crate::field;
use limits::{Level, PLOTS};

// Question 4, asked of every line from `start` on: how many lines there are, where all have the form.
pub fn judge(text: &[u8], start: usize, n: usize) -> Option<usize>
    requires { 1 ≤ n }
    ensures { result ≡ judged 0 n (lines (drop start text.now)) }
{
    let mut at = start;
    let mut count = 0;
    while at < text.len() {
        at = row_end(text, at, n)?;
        count += 1;
    }
    Some(count)
}

// The byte after field `i`, from 0, of a line of `n`.
fn stop_after(i: usize, n: usize) -> u8
    requires { i < n }
    ensures { result ≡ stop_before (n - (i + 1)) }
{
    if i + 1 < n {
        return b'\t';
    }
    b'\n'
}

// The place after the line of `n` levels that starts at `start`.
fn row_end(text: &[u8], start: usize, n: usize) -> Option<usize>
    requires { 1 ≤ n }
    ensures { result ≡ row_end n start (drop start text.now) }
{
    let mut at = start;
    for _ in 1..n {
        let found = field::level_then(text, at, b'\t')?;
        at = found.end;
    }
    let last = field::level_then(text, at, b'\n')?;
    Some(last.end)
}

// Writes the levels of the line that starts at `start`, which has the form, as those of plot `u`, each in the column of the level
// table that is listed for its field; answers where the next line starts.
fn store_row(text: &[u8], start: usize, columns: &[u8], u: usize, levels: &mut [Level]) -> usize
    requires { Store columns.now (length levels.old) × (u < most_plots) × (row_there (length columns.now) (drop start text.now) ≡ true) }
    ensures next { result ≡ start + suc (length (up_to newline (drop start text.now))) }
    ensures table { levels.new ≡ with_plot columns.now u (fields (up_to newline (drop start text.now))) levels.old }
{
    let mut at = start;
    for (i, &column) in columns.iter().enumerate() {
        let found = field::level_then(text, at, stop_after(i, columns.len())).unwrap();
        at = found.end;
        levels[PLOTS * column as usize + u] = found.level;
    }
    at
}

// Writes the levels of the lines from `start` on, which have the form: a line for each of so many plots.
pub fn store(text: &[u8], start: usize, columns: &[u8], plots: usize, levels: &mut [Level])
    requires { Store columns.now (length levels.old) × PlotLines text.now start (length columns.now) plots }
    ensures { levels.new ≡ with_plots columns.now 0 (lines (drop start text.now)) levels.old }
{
    let mut at = start;
    // The number of the plot is no place in the text: a line's end tells where the next one starts.
    for u in 0..plots {
        at = store_row(text, at, columns, u, levels);
    }
}
