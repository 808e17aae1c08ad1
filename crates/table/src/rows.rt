// The lines of the printed table, each written from a place on.
ghost use Rattle.std.specs.Prelude.{[], ◌∷◌, ◌++◌, ◌<◌};
ghost use Rattle.rules.specs.Table.{row_bytes, rows_bytes, signed, refused_row, word_all, word_total};
ghost use Rattle.rules.specs.Lists.{decimal_of};
ghost use Rattle.decimal.specs.Writing.{Wrote};
ghost use Rattle.table.specs.Answers.{Printed};
ghost use Rattle.table.specs.Names.{among, residual_of, table_of};
ghost use Rattle.table.specs.Skeletons.{places_of, source_at, sources_in, stratum_at, strata_in};

use crate::skeletons::Skeleton;
use decimal::{write_byte, write_bytes, write_decimal, write_signed};

// Writes a field and the tab after it.
fn put_field(field: &[u8], out: &mut [u8], at: usize) -> usize
    ensures { Wrote out.old at (field.now ++ 9 ∷ []) out.new result }
{
    let next = write_bytes(field, out, at);
    write_byte(b'\t', out, next)
}

// Writes a number and the end of the line after it.
fn put_last(d: i64, out: &mut [u8], at: usize) -> usize
    ensures { Wrote out.old at (signed d ++ 10 ∷ []) out.new result }
{
    let next = write_signed(d, out, at);
    write_byte(b'\n', out, next)
}

// Writes a line: stratum, source, degrees of freedom.
pub fn put_row(stratum: &[u8], source: &[u8], d: i64, out: &mut [u8], at: usize) -> usize
    ensures { Wrote out.old at (row_bytes (stratum.now ∷ source.now ∷ signed d ∷ [])) out.new result }
{
    let second = put_field(stratum, out, at);
    let third = put_field(source, out, second);
    put_last(d, out, third)
}

// Writes the lines of the treatment members in the stratum at place `place`, in their order.
fn put_sources(table: &Skeleton, stratum: &[u8], place: usize, out: &mut [u8], at: usize) -> usize
    ensures { Wrote out.old at (rows_bytes (sources_in stratum.now place table.now)) out.new result }
{
    let mut next = at;
    for j in 0..table.sources.size() {
        next = put_source(table, stratum, place, j, out, next);
    }
    next
}

// Writes the line of treatment member `j`, from 0, if its stratum is the one at place `place`.
fn put_source(
    table: &Skeleton,
    stratum: &[u8],
    place: usize,
    j: usize,
    out: &mut [u8],
    at: usize,
) -> usize
    requires { j < table.now.sources.now.size }
    ensures { Wrote out.old at (rows_bytes (source_at stratum.now place table.now j)) out.new result }
{
    if table.found.strata.places[j] != place {
        return at;
    }
    let degrees = table.found.degrees[j];
    put_row(stratum, table.sources.name(j), degrees, out, at)
}

// Writes the residual's line, if the stratum at place `place` has a treatment member and the residual is not 0.
fn put_residual(
    table: &Skeleton,
    stratum: &[u8],
    place: usize,
    residual: i64,
    out: &mut [u8],
    at: usize,
) -> usize
    ensures { Wrote out.old at (rows_bytes (residual_of stratum.now (among place (places_of table.now)) residual)) out.new result }
{
    let sources = table.sources.size();
    if residual != 0 && table.found.strata.places[..sources].contains(&place) {
        return put_row(stratum, b"=residual", residual, out, at);
    }
    at
}

// Writes the lines of the stratum of plot member `i`, from 0: its treatment members, its residual, its total.
fn put_stratum(table: &Skeleton, i: usize, out: &mut [u8], at: usize) -> usize
    requires { i < table.now.strata.now.size }
    ensures { Wrote out.old at (rows_bytes (stratum_at table.now i)) out.new result }
{
    let stratum = table.strata.name(i);
    let second = put_sources(table, stratum, i + 1, out, at);
    let residual = table.found.strata.residuals[i];
    let third = put_residual(table, stratum, i + 1, residual, out, second);
    let total = table.found.totals[i];
    put_row(stratum, b"=total", total, out, third)
}

// Writes the lines of all strata, in their order.
fn put_strata(table: &Skeleton, out: &mut [u8], at: usize) -> usize
    ensures { Wrote out.old at (rows_bytes (strata_in table.now)) out.new result }
{
    let mut next = at;
    for i in 0..table.strata.size() {
        next = put_stratum(table, i, out, next);
    }
    next
}

// Writes the whole table of an accepted sheet: the first line, the lines of the strata, the last line.
pub fn put_table(table: &Skeleton, out: &mut [u8]) -> usize
    ensures { Wrote out.old 0 (rows_bytes (table_of table.now.plots (strata_in table.now))) out.new result }
{
    let second = write_bytes(b"stratum\tsource\tdf\n", out, 0);
    let last = put_strata(table, out, second);
    put_plots(table.plots, out, last)
}

// Writes the last line: the number of plots.
fn put_plots(plots: usize, out: &mut [u8], at: usize) -> usize
    ensures { Wrote out.old at (row_bytes (word_all ∷ word_total ∷ decimal_of plots ∷ [])) out.new result }
{
    let number = write_bytes(b"=all\t=total\t", out, at);
    let end = write_decimal(plots, out, number);
    write_byte(b'\n', out, end)
}

// Writes the one line of a refusal.
pub fn put_refused(number: usize, first: &[u8], second: &[u8], out: &mut [u8]) -> usize
    ensures { Wrote out.old 0 (rows_bytes (refused_row number first.now second.now ∷ [])) out.new result }
{
    let a = write_bytes(b"refused\t", out, 0);
    let b = write_decimal(number, out, a);
    let c = write_byte(b'\t', out, b);
    let d = put_field(first, out, c);
    let e = write_bytes(second, out, d);
    write_byte(b'\n', out, e)
}

// Prints what an entry that writes a sheet answered, its refusal by the number, whichever that is: the sheet stands in the output already; a
// refusal left that as it was, and its line is written.
pub fn put_answer(answer: Result<usize, u32>, out: &mut [u8]) -> usize
    ensures { Printed answer out.old out.new result }
{
    match answer {
        Ok(size) => size,
        Err(number) => put_refused(number as usize, b"-", b"-", out),
    }
}
