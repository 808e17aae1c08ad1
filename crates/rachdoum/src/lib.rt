// The entries as functions that C, Rust and Python call. Each answers the number of the refusal, 0 for none, and writes its
// numbers whole into `answer`, 0 where there is none.
#![tactic(auto)]

ghost use Rattle.std.specs.Prelude.{◌≡◌, [], ◌∷◌, length};
ghost use Rattle.rules.specs.Sheet.{reading, levels_after};
ghost use Rattle.rules.specs.Design.{plot_design, plot_buffer, full_design, treatment_buffer};
ghost use Rattle.rules.specs.Relation.{relation};
ghost use Rattle.rules.specs.Comparison.{case_number, comparing};
ghost use Rattle.rules.specs.Degrees.{degrees_of_freedom};
ghost use Rattle.rules.specs.Strata.{strata};
ghost use Rattle.rules.specs.Naming.{naming, name_buffer};
ghost use Rattle.rules.specs.Table.{skeleton_table, table_buffer};
ghost use Rattle.rules.specs.SheetText.{sheet_buffer};
ghost use Rattle.rules.specs.Parents.{conversion};
ghost use Rattle.rules.specs.Formula.{formula_sheet};
ghost use Rattle.standing.specs.Cases.{case_of};
ghost use Rattle.naming.specs.Answers.{kind_of};
ghost use Rattle.rachdoum.specs.Numbers.{reading_refusal, reading_numbers, plot_design_numbers, full_design_numbers, relation_numbers, comparison_numbers, strata_numbers, stated_kind, naming_numbers, text_numbers, sheet_numbers, refusal_of, size_of};

mod gather;

use comparison::Place;
use limits::Level;
use naming::Kind;
use refusal::Refusal;
use standing::Comparison;

// Questions 1 to 5. The answer: plots, plot columns, treatment columns.
#[unsafe(no_mangle)]
pub extern "C" fn rachdoum_read_sheet(
    text: &[u8],
    levels: &mut [Level],
    answer: &mut [u64; 3],
) -> u32
    ensures refusal { result ≡ reading_refusal (reading text.now levels.old) }
    ensures table { levels.new ≡ levels_after (reading text.now levels.old) text.now levels.old }
    ensures numbers { answer.new ≡ reading_numbers (reading text.now levels.old) }
{
    match sheet::read_sheet(text, levels) {
        Ok(counts) => {
            *answer = [
                counts.plots as u64,
                counts.plot_columns as u64,
                counts.treatment_columns as u64,
            ];
            0
        }
        Err(refusal) => {
            *answer = [0; 3];
            refusal.number()
        }
    }
}

// Questions 6 to 10. The answer: the first place, the second place, the size of the family written.
#[unsafe(no_mangle)]
pub extern "C" fn rachdoum_plot_design(
    levels: &[Level],
    plots: usize,
    columns: usize,
    family: &mut [u8],
    answer: &mut [u64; 3],
) -> u32
    ensures refusal { result ≡ (plot_design plots columns levels.now (length family.old)).refusal }
    ensures buffer { family.new ≡ plot_buffer family.old (plot_design plots columns levels.now (length family.old)) }
    ensures numbers { answer.new ≡ plot_design_numbers (plot_design plots columns levels.now (length family.old)) }
{
    match design::plot_design(levels, plots, columns, family) {
        Ok(size) => {
            *answer = [0, 0, size as u64];
            0
        }
        Err(r) => {
            *answer = [r.first as u64, r.second as u64, r.size as u64];
            r.question.number()
        }
    }
}

// Questions 6 to 14. The answer: the first place, the second place, the sizes of the plot and the treatment family written.
#[unsafe(no_mangle)]
pub extern "C" fn rachdoum_full_design(
    levels: &[Level],
    plots: usize,
    plot_columns: usize,
    treatment_columns: usize,
    k: usize,
    plot_family: &mut [u8],
    treatment_family: &mut [u8],
    answer: &mut [u64; 4],
) -> u32
    ensures refusal { result ≡ (full_design plots plot_columns treatment_columns k levels.now (length plot_family.old) (length treatment_family.old)).refusal }
    ensures plots { plot_family.new ≡ plot_buffer plot_family.old (full_design plots plot_columns treatment_columns k levels.now (length plot_family.old) (length treatment_family.old)) }
    ensures treatments { treatment_family.new ≡ treatment_buffer treatment_family.old (full_design plots plot_columns treatment_columns k levels.now (length plot_family.old) (length treatment_family.old)) }
    ensures numbers { answer.new ≡ full_design_numbers (full_design plots plot_columns treatment_columns k levels.now (length plot_family.old) (length treatment_family.old)) }
{
    let found = design::full_design(
        levels,
        plots,
        plot_columns,
        treatment_columns,
        k,
        plot_family,
        treatment_family,
    );
    match found {
        Ok(sizes) => {
            *answer = [0, 0, sizes.plot as u64, sizes.treatment as u64];
            0
        }
        Err(r) => {
            *answer = [
                r.first as u64,
                r.second as u64,
                r.plot as u64,
                r.treatment as u64,
            ];
            r.question.number()
        }
    }
}

// Questions 6 and 15. The answer: the size, the words of the strictly coarser members, those of the neighbours directly above,
// how many neighbours each has directly above.
#[unsafe(no_mangle)]
pub extern "C" fn rachdoum_relation(
    family: &[u8],
    plots: usize,
    size: usize,
    answer: &mut [u32; 97],
) -> u32
    ensures refusal { result ≡ (relation plots family.now size).refusal }
    ensures numbers { answer.new ≡ relation_numbers (relation plots family.now size) }
{
    match strata::relation(family, plots, size) {
        Ok(found) => {
            let size = found.size as u32;
            *answer = gather::words(size, found.coarser, found.direct, found.counts);
            0
        }
        Err(refusal) => {
            *answer = [0; 97];
            refusal.number()
        }
    }
}

// Questions 6 and 15. The answer: the degrees of freedom of each member.
#[unsafe(no_mangle)]
pub extern "C" fn rachdoum_degrees(
    family: &[u8],
    plots: usize,
    size: usize,
    answer: &mut [i64; 32],
) -> u32
    ensures refusal { result ≡ (degrees_of_freedom plots family.now size).refusal }
    ensures numbers { answer.new ≡ (degrees_of_freedom plots family.now size).degrees }
{
    match strata::degrees_of_freedom(family, plots, size) {
        Ok(degrees) => {
            *answer = degrees;
            0
        }
        Err(refusal) => {
            *answer = [0; 32];
            refusal.number()
        }
    }
}

// Questions 6, 15 and 16. The answer: the places of the treatment members' strata, the residuals of the plot members.
#[unsafe(no_mangle)]
pub extern "C" fn rachdoum_strata(
    plot_family: &[u8],
    plot_size: usize,
    treatment_family: &[u8],
    treatment_size: usize,
    plots: usize,
    answer: &mut [i64; 64],
) -> u32
    ensures refusal { result ≡ (strata plots plot_family.now plot_size treatment_family.now treatment_size).refusal }
    ensures numbers { answer.new ≡ strata_numbers (strata plots plot_family.now plot_size treatment_family.now treatment_size) }
{
    let found = strata::strata(
        plot_family,
        plot_size,
        treatment_family,
        treatment_size,
        plots,
    );
    match found {
        Ok(found) => {
            *answer = gather::numbers(gather::signed(found.places), found.residuals);
            0
        }
        Err(refusal) => {
            *answer = [0; 64];
            refusal.number()
        }
    }
}

// The number of a case: 1 equivalent, 2 finer, 3 coarser, 4 orthogonal, 5 not orthogonal. A function: the type is from elsewhere, so that no `From` can stand here.
fn case_number(case: Comparison) -> u64
    ensures { result ≡ case_number (case_of case) }
{
    match case {
        Comparison::Equivalent => 1,
        Comparison::Finer => 2,
        Comparison::Coarser => 3,
        Comparison::Orthogonal => 4,
        Comparison::NotOrthogonal => 5,
    }
}

// Questions 6 and 15. The answer: the number of the case, which is said of the first member.
#[unsafe(no_mangle)]
pub extern "C" fn rachdoum_compare(
    first_family: &[u8],
    first_size: usize,
    first_place: usize,
    second_family: &[u8],
    second_size: usize,
    second_place: usize,
    plots: usize,
    answer: &mut [u64; 1],
) -> u32
    ensures refusal { result ≡ (comparing plots first_family.now first_size first_place second_family.now second_size second_place).refusal }
    ensures numbers { answer.new ≡ comparison_numbers (comparing plots first_family.now first_size first_place second_family.now second_size second_place) }
{
    let first = Place {
        family: first_family,
        size: first_size,
        number: first_place,
    };
    let second = Place {
        family: second_family,
        size: second_size,
        number: second_place,
    };
    match comparison::compare_members(first, second, plots) {
        Ok(case) => {
            *answer = [case_number(case)];
            0
        }
        Err(refusal) => {
            *answer = [0];
            refusal.number()
        }
    }
}

// The kind that a number states: 0 plot, any other treatment. A function: both types are from elsewhere, so that no `From` can stand here.
fn stated_kind(kind: u32) -> Kind
    ensures { kind_of result ≡ stated_kind kind }
{
    match kind {
        0 => Kind::Plot,
        _ => Kind::Treatment,
    }
}

// Questions 2, 3, 6, 7 and 15. The answer: how many bytes the name has.
#[unsafe(no_mangle)]
pub extern "C" fn rachdoum_name(
    text: &[u8],
    levels: &[Level],
    family: &[u8],
    plots: usize,
    size: usize,
    kind: u32,
    place: usize,
    name: &mut [u8],
    answer: &mut [u64; 1],
) -> u32
    ensures refusal { result ≡ (naming (stated_kind kind) text.now levels.now family.now plots size place (length name.old)).refusal }
    ensures buffer { name.new ≡ name_buffer name.old (naming (stated_kind kind) text.now levels.now family.now plots size place (length name.old)) }
    ensures numbers { answer.new ≡ naming_numbers (naming (stated_kind kind) text.now levels.now family.now plots size place (length name.old)) }
{
    let kind = stated_kind(kind);
    let found = naming::member_name(text, levels, family, plots, size, kind, place, name);
    put_size(found, answer)
}

// The whole printed text. The answer: how many bytes it has. 6: the buffer is too short.
#[unsafe(no_mangle)]
pub extern "C" fn rachdoum_skeleton(text: &[u8], out: &mut [u8], answer: &mut [u64; 1]) -> u32
    ensures refusal { result ≡ (skeleton_table text.now (length out.old)).refusal }
    ensures buffer { out.new ≡ table_buffer out.old (skeleton_table text.now (length out.old)) }
    ensures numbers { answer.new ≡ text_numbers (skeleton_table text.now (length out.old)) }
{
    put_size(table::skeleton_table(text, out), answer)
}

// Hands over what an entry that writes bytes answered: the number of the refusal, and how many bytes there are.
fn put_size(found: Result<usize, Refusal>, answer: &mut [u64; 1]) -> u32
    ensures refusal { result ≡ refusal_of found }
    ensures numbers { answer.new ≡ size_of found ∷ [] }
{
    *answer = [found.unwrap_or(0) as u64];
    match found {
        Ok(_) => 0,
        Err(refusal) => refusal.number(),
    }
}

// Questions 6, 2 to 5 and 23 of an old sheet, numbered within a parent. The answer: how many bytes the converted sheet has.
#[unsafe(no_mangle)]
pub extern "C" fn rachdoum_convert(old: &[u8], sheet: &mut [u8], answer: &mut [u64; 1]) -> u32
    ensures refusal { result ≡ (conversion old.now (length sheet.old)).refusal }
    ensures buffer { sheet.new ≡ sheet_buffer sheet.old (conversion old.now (length sheet.old)) }
    ensures numbers { answer.new ≡ sheet_numbers (conversion old.now (length sheet.old)) }
{
    put_size(conversion::convert(old, sheet), answer)
}

// Questions 6, 17 and 18 of a block formula. The answer: how many bytes its sheet has.
#[unsafe(no_mangle)]
pub extern "C" fn rachdoum_formula(formula: &[u8], sheet: &mut [u8], answer: &mut [u64; 1]) -> u32
    ensures refusal { result ≡ (formula_sheet formula.now (length sheet.old)).refusal }
    ensures buffer { sheet.new ≡ sheet_buffer sheet.old (formula_sheet formula.now (length sheet.old)) }
    ensures numbers { answer.new ≡ sheet_numbers (formula_sheet formula.now (length sheet.old)) }
{
    put_size(block_formula::expand(formula, sheet), answer)
}
