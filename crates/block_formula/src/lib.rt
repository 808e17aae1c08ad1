// Block formulas become sheets: questions 6, 17 and 18.
#![tactic(auto)]

ghost use Rattle.std.specs.Prelude.{◌≡◌, true, ◌≤◌, length};
ghost use Rattle.rules.specs.Limits.{most_text};
ghost use Rattle.rules.specs.SheetText.{sheet_buffer};
ghost use Rattle.rules.specs.Formula.{formula_sheet};
ghost use Rattle.writer.specs.Answers.{writing_numbers, answer_numbers};
ghost use Rattle.block_formula.specs.Text.{readable};
ghost use Rattle.block_formula.specs.Answers.{HoldsPlanned, Within};

mod counts;
mod grammar;
mod names;
mod nesting;
mod plots;

use crate::plots::Plots;
use limits::{COLUMNS, FORMULA, LEVELS, Level, PLOTS, TEXT};
use refusal::Refusal;

// The start of a heading and, for each byte of a formula, the three that an `=` adds to the first line.
const HEADINGS: usize = 2 + 3 * FORMULA;

// The columns of the level table that the names take.
const NUMBERS: [u8; COLUMNS] = [0, 1, 2, 3, 4, 5];

// Writes the sheet of a formula. A refusal writes nothing.
#[tactic(auto, using(crate::proofs::AnswerLaws::short_numbers, crate::proofs::AnswerLaws::short_sheet, crate::proofs::AnswerLaws::short_planned))]
pub fn expand(formula: &[u8], out: &mut [u8]) -> Result<usize, Refusal>
    ensures answer { writing_numbers result ≡ answer_numbers (formula_sheet formula.now (length out.old)) }
    ensures sheet { out.new ≡ sheet_buffer out.old (formula_sheet formula.now (length out.old)) }
    ensures planned { HoldsPlanned formula.now (length out.old) out.new }
{
    if out.len() < TEXT {
        return Err(Refusal::Limits);
    }
    if !grammar::is_readable(formula) {
        return Err(Refusal::Formula);
    }
    expand_readable(formula, out)
}

// The same of a text that is a formula but for its names, which may be alike.
fn expand_readable(formula: &[u8], out: &mut [u8]) -> Result<usize, Refusal>
    requires { (most_text ≤ length out.old) × (readable formula.now ≡ true) }
    ensures answer { writing_numbers result ≡ answer_numbers (formula_sheet formula.now (length out.old)) }
    ensures sheet { out.new ≡ sheet_buffer out.old (formula_sheet formula.now (length out.old)) }
{
    let mut buffer = [0u8; FORMULA];
    let counts = counts::read_counts(formula, &mut buffer);
    let mut headings = [0u8; HEADINGS];
    // the start of one more heading, and the tab before it, are left out
    let end = names::write_headings(formula, &mut headings) - 3;
    let line = &headings[..end];
    if !names::names_differ(line, counts.len()) {
        return Err(Refusal::Formula);
    }
    if COLUMNS < counts.len() {
        return Err(Refusal::FormulaLimits);
    }
    let plots = counts::plot_count(counts);
    if PLOTS < plots {
        return Err(Refusal::FormulaLimits);
    }
    write_plots(formula, line, counts, plots, out)
}

// The same of a formula within the limits.
fn write_plots(
    formula: &[u8],
    line: &[u8],
    counts: &[u8],
    plots: usize,
    out: &mut [u8],
) -> Result<usize, Refusal>
    requires { Within formula.now line.now counts.now plots (length out.old) }
    ensures answer { writing_numbers result ≡ answer_numbers (formula_sheet formula.now (length out.old)) }
    ensures sheet { out.new ≡ sheet_buffer out.old (formula_sheet formula.now (length out.old)) }
{
    let mut levels: [Level; LEVELS] = [0; LEVELS];
    Plots::new(counts, plots).write_columns(formula, &mut levels);
    let columns = &NUMBERS[..counts.len()];
    Ok(writer::write_sheet(line, columns, plots, &levels, out))
}
