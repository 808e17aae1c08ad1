// The sheet reader: the only way from text to a level table.
#![tactic(auto)]

ghost use Rattle.std.specs.Prelude.{◌≡◌};
ghost use Rattle.rules.specs.Sheet.{reading, levels_after, OlderKept};
ghost use Rattle.sheet.specs.Answers.{outcome_of};

mod field;
mod header;
mod questions;
mod rows;

pub use field::{end_of, is_name, letter_or_digit, place_of, same_bytes};
pub use header::{Header, Span, column_name, read_header};
use limits::{LEVELS, Level, TEXT};
use refusal::Refusal;

// How many plots, plot columns and treatment columns a sheet has.
#[derive(Clone, Copy)]
pub struct Counts {
    pub plots: usize,
    pub plot_columns: usize,
    pub treatment_columns: usize,
}

// Reads a sheet into the level table: questions 1 to 5. A refused reading writes nothing.
pub fn read_sheet(text: &[u8], levels: &mut [Level]) -> Result<Counts, Refusal>
    ensures answer { outcome_of result ≡ reading text.now levels.old }
    ensures table { levels.new ≡ levels_after (reading text.now levels.old) text.now levels.old }
    ensures older { OlderKept text.now levels.old (outcome_of result) levels.new }
{
    if levels.len() < LEVELS {
        return Err(Refusal::LevelTable);
    }
    if !(1..=TEXT).contains(&text.len()) {
        return Err(Refusal::TextLength);
    }
    questions::from_3(text, levels)
}
