// The bytes of a name, by the first rule that fits.
ghost use Rattle.std.specs.Prelude.{◌≡◌, [], ◌+◌, ◌*◌, ◌≤◌, length, get_or, drop};
ghost use Rattle.rules.specs.Limits.{most_plots};
ghost use Rattle.rules.specs.Sheet.{column_names, header};
ghost use Rattle.rules.specs.Names.{with_commas};
ghost use Rattle.decimal.specs.Writing.{Wrote};
ghost use Rattle.naming.specs.Columns.{NumberedIn, look_names, alone, looked_in, own_in};
ghost use Rattle.naming.specs.Listing.{separated, WroteIfAny};
ghost use Rattle.naming.specs.Members.{name_text, column_text, infimum_text, place_text, list_text, side_text, listed_in, each_held};
ghost use Rattle.naming.specs.Members.{names_written, lengths_written, Slots, extreme_name};

use crate::columns::{ColumnTable, Look};
use crate::extremes;
use crate::sides::Side;
use limits::{FIELDS, NAME, PLOTS};

// What a name is written by: the text whose first line has the names of the columns looked at, and these columns, numbered.
#[derive(Clone, Copy)]
pub struct Looked<'a> {
    pub text: &'a [u8],
    pub look: Look,
    pub table: &'a [u8],
    ghost numbered: { NumberedIn look table.now },
}

impl Looked<'_> {
    ghost use Rattle.naming.specs.Tables.{columns_in};

    // All the columns looked at.
    fn columns(&self) -> ColumnTable<'_>
        ensures columns { columns_in result ≡ looked_in self.now.look self.now.table.now }
        ensures plots { result.plots ≡ self.now.look.plots }
        ensures count { result.count ≡ self.now.look.before + self.now.look.count }
    {
        ColumnTable {
            bytes: self.table,
            plots: self.look.plots,
            count: self.look.before + self.look.count,
        }
    }

    // The columns of the kind alone.
    fn alone(&self) -> Looked<'_>
        ensures text { result.text.now ≡ self.now.text.now }
        ensures look { result.look ≡ alone self.now.look }
        ensures table { result.table.now ≡ drop (most_plots * self.now.look.before) self.now.table.now }
    {
        let look = Look {
            before: 0,
            ..self.look
        };
        Looked {
            text: self.text,
            look,
            table: &self.table[PLOTS * self.look.before..],
        }
    }

    // Writes the name of column `c` of those looked at.
    fn put_column(&self, c: usize, out: &mut [u8], at: usize) -> usize
        ensures { Wrote out.old at (get_or (look_names self.now.look self.now.text.now) c []) out.new result }
    {
        if c < self.look.before {
            return put_marked(self.text, b'p', c, out, at);
        }
        put_marked(self.text, self.look.mark, c - self.look.before, out, at)
    }

    // The same as the next name of a list. The first has no comma before it, which is all that `first` tells.
    fn put_next(&self, c: usize, first: bool, out: &mut [u8], at: usize) -> usize
        ensures { Wrote out.old at (separated first (get_or (look_names self.now.look self.now.text.now) c [])) out.new result }
    {
        if first {
            return self.put_column(c, out, at);
        }
        let next = decimal::write_byte(b',', out, at);
        self.put_column(c, out, next)
    }

    // Writes the names of the listed columns, with commas.
    fn put_listed(&self, side: Side, there: &[bool; FIELDS], out: &mut [u8], at: usize) -> usize
        ensures { Wrote out.old at (with_commas (look_names self.now.look self.now.text.now) (listed_in self.now.look side self.now.table.now there.now)) out.new result }
    {
        let columns = self.columns();
        let mut end = at;
        let mut first = true;
        // by place: what is written moves on with each column that is listed
        for i in 0..columns.count {
            if columns.is_listed(side, there, i) {
                end = self.put_next(i, first, out, end);
                first = false;
            }
        }
        end
    }

    // Writes `I(` or `S(` names `)`.
    fn put_list(&self, side: Side, there: &[bool; FIELDS], out: &mut [u8]) -> usize
        ensures { Wrote out.old 0 (list_text self.now.look side self.now.text.now (listed_in self.now.look side self.now.table.now there.now)) out.new result }
    {
        let bracket = decimal::write_byte(side.letter(), out, 0);
        let from = decimal::write_byte(b'(', out, bracket);
        let to = self.put_listed(side, there, out, from);
        decimal::write_byte(b')', out, to)
    }

    // Writes that where the member is what the columns on this side make.
    fn by_side(&self, side: Side, member: &[u8], out: &mut [u8]) -> Option<usize>
        requires { length member.now ≡ self.now.look.plots }
        ensures { WroteIfAny out.old (side_text self.now.look side self.now.text.now self.now.table.now member.now) out.new result }
    {
        let columns = self.columns();
        let there = columns.on_side(side, member);
        let made = columns.joined(side, &there);
        if !factor::alike(&made[..self.look.plots], member) {
            return None;
        }
        Some(self.put_list(side, &there, out))
    }

    // The name of a member that no column of its kind is equivalent to: by the columns of its kind that are coarser, or by all that are
    // finer, or else by its place.
    fn by_sides(&self, member: &[u8], place: usize, out: &mut [u8]) -> usize
        requires { length member.now ≡ self.now.look.plots }
        ensures { Wrote out.old 0 (infimum_text self.now.look self.now.text.now self.now.table.now place member.now) out.new result }
    {
        if let Some(end) = self.alone().by_side(Side::Coarser, member, out) {
            return end;
        }
        if let Some(end) = self.by_side(Side::Finer, member, out) {
            return end;
        }
        put_place(place, out)
    }

    // The name of a member with neither one class nor a class for each plot.
    pub fn by_columns(&self, member: &[u8], place: usize, out: &mut [u8]) -> usize
        requires { length member.now ≡ self.now.look.plots }
        ensures { Wrote out.old 0 (column_text self.now.look self.now.text.now self.now.table.now place member.now) out.new result }
    {
        if let Some(c) = self.alone().columns().equivalent_to(member) {
            return put_marked(self.text, self.look.mark, c, out, 0);
        }
        self.by_sides(member, place, out)
    }

    // The name of a member by the first rule that fits.
    pub fn put_name(&self, member: &[u8], place: usize, out: &mut [u8]) -> usize
        requires { length member.now ≡ self.now.look.plots }
        ensures { Wrote out.old 0 (name_text self.now.look self.now.text.now self.now.table.now place member.now) out.new result }
    {
        if let Some(end) = put_extreme(member, out) {
            return end;
        }
        self.by_columns(member, place, out)
    }

    // Names each of the first `size` members, as far as its 160 bytes hold the name.
    pub fn put_names(&self, family: &[u8], size: usize, names: &mut [u8], lengths: &mut [usize])
        requires { Slots family.now size names.old lengths.old }
        ensures names { names.new ≡ names_written (each_held self.now.look self.now.text.now self.now.table.now family.now) names.old size }
        ensures lengths { lengths.new ≡ lengths_written (each_held self.now.look self.now.text.now self.now.table.now family.now) lengths.old size }
    {
        // by place: the walk goes over the family, the names and the lengths side by side
        for i in 0..size {
            let a = NAME * i;
            let member = families::member(family, i, self.look.plots);
            lengths[i] = self.put_name(member, i + 1, &mut names[a..a + NAME]);
        }
    }
}

// Writes the name of column `c` of those that `mark` marks.
fn put_marked(text: &[u8], mark: u8, c: usize, out: &mut [u8], at: usize) -> usize
    ensures { Wrote out.old at (get_or (column_names mark (header text.now)) c []) out.new result }
{
    match sheet::column_name(text, mark, c) {
        Some(span) => decimal::write_bytes(&text[span.start..span.end], out, at),
        None => at,
    }
}

// Writes `#` and the place.
fn put_place(place: usize, out: &mut [u8]) -> usize
    ensures { Wrote out.old 0 (place_text place) out.new result }
{
    let at = decimal::write_byte(b'#', out, 0);
    decimal::write_decimal(place, out, at)
}

// Writes `U` for one class and `E` for a class for each plot.
pub fn put_extreme(member: &[u8], out: &mut [u8]) -> Option<usize>
    requires { length member.now ≤ most_plots }
    ensures { WroteIfAny out.old (extreme_name (length member.now) member.now) out.new result }
{
    if extremes::one_class(member) {
        return Some(decimal::write_byte(b'U', out, 0));
    }
    if extremes::each_apart(member) {
        return Some(decimal::write_byte(b'E', out, 0));
    }
    None
}
