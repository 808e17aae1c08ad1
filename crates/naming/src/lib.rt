// Names for the members of a family, by the column names of a sheet's first line.
#![tactic(auto)]

ghost use Rattle.std.specs.Prelude.{◌≡◌};
ghost use Rattle.rules.specs.Naming.{name_buffer};
ghost use Rattle.naming.specs.Answers.{name_numbers, name_numbers_of, member_naming, counted_naming, Asked, naming_of};
ghost use Rattle.naming.specs.Members.{family_fits, answer6, names_after, lengths_after};

mod columns;
mod compose;
mod extremes;
mod kinds;
mod questions;
mod sides;

use columns::COLUMN_BYTES;
use compose::Looked;
use limits::{Level, TEXT};
use refusal::Refusal;
use sheet::Counts;

// A family's kind, which the caller states.
#[derive(Clone, Copy, Debug, PartialEq, Eq)]
pub enum Kind {
    Plot,
    Treatment,
}

// Where names come from: the text whose first line has the column names, the level table of these columns, and how many there are.
#[derive(Clone, Copy)]
pub struct Source<'a> {
    pub text: &'a [u8],
    pub levels: &'a [Level],
    pub counts: Counts,
}

// Names one member, whatever its family and whatever the first line, by as many columns as are counted, as far as the buffer
// holds the name. 6: a count or a length is out of range, or the member is not on these plots. The columns are numbered only where the
// member is neither U nor E.
pub fn name_counted(
    source: Source<'_>,
    kind: Kind,
    member: &[u8],
    place: usize,
    name: &mut [u8],
) -> Result<usize, Refusal>
    ensures answer { name_numbers result ≡ name_numbers_of (counted_naming kind source.entry.counts place source.entry.text.now source.entry.levels.now member.now name.old) }
    ensures buffer { name.new ≡ name_buffer name.old (counted_naming kind source.entry.counts place source.entry.text.now source.entry.levels.now member.now name.old) }
{
    let look = kinds::look(kind, source.counts);
    if !questions::member_fits(look, source.levels.len(), name.len(), member.len()) {
        return Err(Refusal::Limits);
    }
    if let Some(end) = compose::put_extreme(member, name) {
        return Ok(end);
    }
    let mut table = [0u8; COLUMN_BYTES];
    columns::number_looked(source.levels, look, &mut table);
    let looked = Looked {
        text: source.text,
        look,
        table: &table,
    };
    Ok(looked.by_columns(member, place, name))
}

// Names each of the first `size` members, whatever the family and whatever the first line, by as many columns as are counted. The names
// and their lengths are two buffers of the caller:
// member i, from 0, from byte 160 × i on, as far as these bytes hold the name, and its length at place i. 6: a count or a length is out of
// range; nothing is written.
pub fn name_members(
    source: Source<'_>,
    kind: Kind,
    family: &[u8],
    size: usize,
    names: &mut [u8],
    lengths: &mut [usize],
) -> Result<(), Refusal>
    ensures answer { result ≡ answer6 (family_fits kind source.entry.counts size source.entry.levels.now family.now names.old lengths.old) }
    ensures names { names.new ≡ names_after kind source.entry.counts size source.entry.text.now source.entry.levels.now family.now names.old lengths.old }
    ensures lengths { lengths.new ≡ lengths_after kind source.entry.counts size source.entry.text.now source.entry.levels.now family.now names.old lengths.old }
{
    let look = kinds::look(kind, source.counts);
    if questions::members_fit(
        look,
        size,
        source.levels.len(),
        family.len(),
        names.len(),
        lengths.len(),
    ) {
        let mut table = [0u8; COLUMN_BYTES];
        columns::number_looked(source.levels, look, &mut table);
        let looked = Looked {
            text: source.text,
            look,
            table: &table,
        };
        looked.put_names(family, size, names, lengths);
        Ok(())
    } else {
        Err(Refusal::Limits)
    }
}

// Names the member at a place of a family: questions 2, 3, 6, 7 and 15. A refusal writes nothing. The parameters are those of the C function
// `rachdoum_name`, each of which is judged here.
pub fn member_name(
    text: &[u8],
    levels: &[Level],
    family: &[u8],
    plots: usize,
    size: usize,
    kind: Kind,
    place: usize,
    name: &mut [u8],
) -> Result<usize, Refusal>
    ensures answer { name_numbers result ≡ name_numbers_of (member_naming kind plots size place text.now levels.now family.now name.old) }
    ensures buffer { name.new ≡ name_buffer name.old (member_naming kind plots size place text.now levels.now family.now name.old) }
{
    if !(1..=TEXT).contains(&text.len()) {
        return Err(Refusal::TextLength);
    }
    let header = sheet::read_header(text).ok_or(Refusal::FirstLine)?;
    if !questions::within(plots, size, place, levels.len(), family.len(), name.len()) {
        return Err(Refusal::Limits);
    }
    let counts = Counts {
        plots,
        plot_columns: header.plot_columns,
        treatment_columns: header.treatment_columns,
    };
    let source = Source {
        text,
        levels,
        counts,
    };
    from_7(source, family, size, kind, place, name)
}

// Questions 7 and 15, once 2, 3 and 6 are answered.
fn from_7(
    source: Source<'_>,
    family: &[u8],
    size: usize,
    kind: Kind,
    place: usize,
    name: &mut [u8],
) -> Result<usize, Refusal>
    requires { Asked source.counts size place source.text.now source.levels.now family.now name.old }
    ensures answer { name_numbers result ≡ name_numbers_of (naming_of kind source.entry.counts size place source.entry.text.now source.entry.levels.now family.now) }
    ensures buffer { name.new ≡ name_buffer name.old (naming_of kind source.entry.counts size place source.entry.text.now source.entry.levels.now family.now) }
{
    let plots = source.counts.plots;
    if !kinds::all_nonzero(source.levels, kinds::look(kind, source.counts)) {
        return Err(Refusal::MissingLevel);
    }
    if !families::well_formed(family, plots, size) {
        return Err(Refusal::Family);
    }
    let member = families::member(family, place - 1, plots);
    name_counted(source, kind, member, place, name)
}
