// The printed table of a sheet.
#![tactic(auto)]

ghost use Rattle.std.specs.Prelude.{◌≡◌, ◌≤◌, length};
ghost use Rattle.rules.specs.Limits.{most_members};
ghost use Rattle.rules.specs.Table.{table_text, skeleton_table, table_buffer, first_kind, second_kind};
ghost use Rattle.refusal.specs.Numbers.{number_of};
ghost use Rattle.naming.specs.Answers.{kind_of};
ghost use Rattle.decimal.specs.Writing.{Wrote};
ghost use Rattle.sheet.specs.Answers.{outcome_of};
ghost use Rattle.table.specs.Answers.{print_numbers, print_numbers_of, refused_number};
ghost use Rattle.table.specs.Designs.{WasRead, BothNameable, AcceptedSheet, buffer_for, design_text, refusal_text, accepted_text};

mod names;
mod rows;
mod skeletons;

use design::{FullRefusal, Sizes};
use limits::{FAMILY, INTERACTION, LEVELS, Level};
use names::{Name, Names};
use naming::{Kind, Source};
use refusal::Refusal;
pub use rows::{put_answer, put_refused};
use sheet::Counts;
use skeletons::Skeleton;

// Bytes of a buffer for the printed text.
const TABLE: usize = 32768;

// Writes what is printed for a sheet's text: the skeleton table, or the line of a refusal; answers how many bytes it has. 6: the buffer is too short.
#[tactic(auto, using(crate::proofs::TableLaws::short_numbers, crate::proofs::TableLaws::short_buffer))]
pub fn skeleton_table(text: &[u8], out: &mut [u8]) -> Result<usize, Refusal>
    ensures answer { print_numbers result ≡ print_numbers_of (skeleton_table text.now (length out.old)) }
    ensures buffer { out.new ≡ table_buffer out.old (skeleton_table text.now (length out.old)) }
{
    if out.len() < TABLE {
        return Err(Refusal::Limits);
    }
    Ok(print(text, out))
}

// Writes the whole text: questions 1 to 5 by the reader, whose answer has the counts or the refusal.
fn print(text: &[u8], out: &mut [u8]) -> usize
    ensures { Wrote out.old 0 (table_text text.now) out.new result }
{
    let mut levels: [Level; LEVELS] = [0; LEVELS];
    let reading = sheet::read_sheet(text, &mut levels);
    let Ok(counts) = reading else {
        return rows::put_refused(reading_refusal(reading), b"-", b"-", out);
    };
    let source = Source {
        text,
        levels: &levels,
        counts,
    };
    print_design(source, out)
}

// The number of a refused reading, 0 for a sheet that was read.
fn reading_refusal(reading: Result<Counts, Refusal>) -> usize
    ensures { result ≡ refused_number (outcome_of reading) }
{
    match reading {
        Ok(_) => 0,
        Err(refusal) => refusal.number() as usize,
    }
}

// Writes the text of a sheet that was read.
fn print_design(source: Source<'_>, out: &mut [u8]) -> usize
    requires { WasRead source }
    ensures { Wrote out.old 0 (design_text source.entry) out.new result }
{
    let counts = source.counts;
    let mut plot_family = [0u8; FAMILY];
    let mut treatment_family = [0u8; FAMILY];
    let design = design::full_design(
        source.levels,
        counts.plots,
        counts.plot_columns,
        counts.treatment_columns,
        INTERACTION,
        &mut plot_family,
        &mut treatment_family,
    );
    match design {
        Ok(sizes) => print_accepted(source, sizes, &plot_family, &treatment_family, out),
        Err(refusal) => print_refusal(source, refusal, &plot_family, &treatment_family, out),
    }
}

// The kinds of the members that a refusal names: at both places a plot member in 10, a treatment member in 12, else one of each.
fn kinds_at_fault(question: Refusal) -> (Kind, Kind)
    ensures first { kind_of result.0 ≡ first_kind (number_of question) }
    ensures second { kind_of result.1 ≡ second_kind (number_of question) }
{
    match question {
        Refusal::PlotPair => (Kind::Plot, Kind::Plot),
        Refusal::TreatmentPair => (Kind::Treatment, Kind::Treatment),
        _ => (Kind::Plot, Kind::Treatment),
    }
}

// The family of a kind.
fn family_for<'a>(kind: Kind, plot_family: &'a [u8], treatment_family: &'a [u8]) -> &'a [u8]
    ensures { result.now ≡ buffer_for (kind_of kind) plot_family.now treatment_family.now }
{
    match kind {
        Kind::Plot => plot_family,
        Kind::Treatment => treatment_family,
    }
}

// Writes the line of a refused design.
fn print_refusal(
    source: Source<'_>,
    refusal: FullRefusal,
    plot_family: &[u8],
    treatment_family: &[u8],
    out: &mut [u8],
) -> usize
    requires { BothNameable source plot_family.now treatment_family.now × (refusal.first ≤ most_members) × (refusal.second ≤ most_members) }
    ensures { Wrote out.old 0 (refusal_text source.entry refusal plot_family.now treatment_family.now) out.new result }
{
    let kinds = kinds_at_fault(refusal.question);
    let family = family_for(kinds.0, plot_family, treatment_family);
    let first = Name::at_place(source, kinds.0, family, refusal.first);
    let other = family_for(kinds.1, plot_family, treatment_family);
    let second = Name::at_place(source, kinds.1, other, refusal.second);
    let number = refusal.question.number() as usize;
    rows::put_refused(number, first.bytes(), second.bytes(), out)
}

// Names the members of both families of an accepted design, works out degrees of freedom, strata and residuals, and writes its table.
fn print_accepted(
    source: Source<'_>,
    sizes: Sizes,
    plot_family: &[u8],
    treatment_family: &[u8],
    out: &mut [u8],
) -> usize
    requires { AcceptedSheet source sizes plot_family.now treatment_family.now }
    ensures { Wrote out.old 0 (accepted_text source.entry sizes plot_family.now treatment_family.now) out.new result }
{
    let plots = source.counts.plots;
    let strata = Names::of_family(source, Kind::Plot, plot_family, sizes.plot);
    let sources = Names::of_family(source, Kind::Treatment, treatment_family, sizes.treatment);
    let found = strata::analysis(
        plot_family,
        sizes.plot,
        treatment_family,
        sizes.treatment,
        plots,
    )
    .unwrap();
    rows::put_table(
        &Skeleton {
            plots,
            strata: &strata,
            sources: &sources,
            found: &found,
        },
        out,
    )
}
