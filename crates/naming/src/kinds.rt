// What the sheet and the level table have for members of a kind.
ghost use Rattle.std.specs.Prelude.{◌≡◌};
ghost use Rattle.rules.specs.Design.{all_nonzero};
ghost use Rattle.naming.specs.Answers.{look_of};
ghost use Rattle.naming.specs.Columns.{looked_of};

use crate::Kind;
use crate::columns::Look;
use limits::{COLUMNS, Level};
use sheet::Counts;

// The columns that a member of the kind looks at.
pub fn look(kind: Kind, counts: Counts) -> Look
    ensures { result ≡ look_of kind counts }
{
    match kind {
        Kind::Plot => Look {
            mark: b'p',
            plots: counts.plots,
            before: 0,
            first: 0,
            count: counts.plot_columns,
        },
        Kind::Treatment => Look {
            mark: b't',
            plots: counts.plots,
            before: counts.plot_columns,
            first: COLUMNS,
            count: counts.treatment_columns,
        },
    }
}

// 7: is every level of the columns looked at nonzero?
pub fn all_nonzero(levels: &[Level], look: Look) -> bool
    ensures { result ≡ all_nonzero (looked_of look levels.now) }
{
    levels::all_nonzero(levels, look.plots, 0, look.before)
        && levels::all_nonzero(levels, look.plots, look.first, look.count)
}
