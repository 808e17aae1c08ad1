// Questions 3 to 5, and the writing after them.
ghost use Rattle.std.specs.Prelude.{◌≡◌, ◌≤◌, length};
ghost use Rattle.rules.specs.Limits.{most_level, table_cells};
ghost use Rattle.rules.specs.Sheet.{reading_from3, levels_after};
ghost use Rattle.sheet.specs.Answers.{outcome_of};

use crate::{Counts, header, rows};
use limits::{Level, PLOTS};
use refusal::Refusal;

// Asks questions 3 to 5 of the text, and writes where the answers are yes. The table is as long as question 1 asks.
pub fn from_3(text: &[u8], levels: &mut [Level]) -> Result<Counts, Refusal>
    requires { table_cells ≤ length levels.old }
    ensures answer { outcome_of result ≡ reading_from3 most_level text.now }
    ensures table { levels.new ≡ levels_after (reading_from3 most_level text.now) text.now levels.old }
{
    let header = header::read_header(text).ok_or(Refusal::FirstLine)?;
    let n = header.plot_columns + header.treatment_columns;
    let plots = rows::judge(text, header.end, n).ok_or(Refusal::LaterLine)?;
    if !(1..=PLOTS).contains(&plots) {
        return Err(Refusal::PlotCount);
    }
    rows::store(text, header.end, &header.columns[..n], plots, levels);
    Ok(Counts {
        plots,
        plot_columns: header.plot_columns,
        treatment_columns: header.treatment_columns,
    })
}
