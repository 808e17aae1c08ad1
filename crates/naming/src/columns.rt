// The columns that a member is named by, numbered, 240 bytes apart, and where the member stands among them.
ghost use Rattle.std.specs.Prelude.{◌≡◌, true, ◌++◌, ◌+◌, ◌*◌, ◌≤◌, length};
ghost use Rattle.rules.specs.Family.{members_of, all_numbered};
ghost use Rattle.rules.specs.Limits.{most_plots, most_fields, table_cells};
ghost use Rattle.naming.specs.Columns.{Columns, InTable, own_in, looked_in, numbered_from};

use crate::sides::Side;
use limits::{FIELDS, Level, PLOTS};

// bytes of the columns that a member looks at, once numbered
pub const COLUMN_BYTES: usize = PLOTS * FIELDS;

// Which columns a name is given by, and on how many plots. The first `before` are plot columns that a member of another kind looks at too;
// then come the `count` columns of its kind, which `mark` marks in the first line and which stand from column `first` on in the level table.
#[derive(Clone, Copy)]
pub struct Look {
    pub mark: u8,
    pub plots: usize,
    pub before: usize,
    pub first: usize,
    pub count: usize,
}

// Numbers `count` columns of the level table, from column `first` on.
fn number_columns(levels: &[Level], n: usize, first: usize, count: usize, out: &mut [u8])
    requires { Columns n count out.old × (first + count ≤ most_fields) × (table_cells ≤ length levels.now) }
    ensures { members_of n out.new count ≡ numbered_from n levels.now first count }
{
    // by place: a column of one table goes to a place in another
    for c in 0..count {
        let mut column = [0u8; PLOTS];
        levels::column_numbers(levels, first + c, n, &mut column);
        decimal::write_bytes(&column[..n], out, PLOTS * c);
    }
}

// Numbers the columns that a name is given by.
pub fn number_looked(levels: &[Level], look: Look, out: &mut [u8])
    requires { InTable look levels.now × (most_plots * most_fields ≤ length out.old) }
    ensures own { own_in look out.new ≡ numbered_from look.plots levels.now look.first look.count }
    ensures all { looked_in look out.new ≡ numbered_from look.plots levels.now 0 look.before ++ own_in look out.new }
{
    let n = look.plots;
    let before = look.before;
    number_columns(levels, n, 0, before, out);
    let start = PLOTS * before;
    number_columns(levels, n, look.first, look.count, &mut out[start..]);
}

// Columns of one table: `count` of them on `plots` plots, each numbered by first appearance and 240 bytes from the next.
#[derive(Clone, Copy)]
pub struct ColumnTable<'a> {
    pub bytes: &'a [u8],
    pub plots: usize,
    pub count: usize,
    ghost placed: { Columns plots count bytes.now },
    ghost numbered: { all_numbered (members_of plots bytes.now count) ≡ true },
}

impl ColumnTable<'_> {
    ghost use Rattle.std.specs.Prelude.{◌≡◌, [], false, ◌<◌, length, get_or, take, ℕ};
    ghost use Rattle.rules.specs.Names.{equivalent_column, hides, on_side};
    ghost use Rattle.naming.specs.Columns.{side_of, listed_by, join_by, counted_from_one, made_of};
    ghost use Rattle.naming.specs.Tables.{columns_in};

    // Column `c`.
    pub fn column(&self, c: usize) -> &[u8]
        requires { c < self.now.count }
        ensures is { result.now ≡ get_or (columns_in self.now) c [] }
        ensures plots { length result.now ≡ self.now.plots }
    {
        families::member(self.bytes, c, self.plots)
    }

    // The lowest column equivalent to the member.
    pub fn equivalent_to(&self, member: &[u8]) -> Option<usize>
        ensures { counted_from_one result ≡ equivalent_column member.now 0 (columns_in self.now) }
    {
        (0..self.count).find(|&c| factor::alike(self.column(c), member))
    }

    // Which columns lie on this side of the member.
    pub fn on_side(&self, side: Side, member: &[u8]) -> [bool; FIELDS]
        requires { length member.now ≡ self.now.plots }
        ensures { (i : ℕ) → i < self.now.count → get_or result i false ≡ on_side (side_of self.now.plots side) member.now (columns_in self.now) i }
    {
        let mut there = [false; FIELDS];
        // by place: the columns are cut out of the table one by one
        for i in 0..self.count {
            there[i] = side.towards(member, self.column(i));
        }
        there
    }

    // Whether column `j` is strictly nearer than column `i`, or equivalent to it and lower.
    fn hides(&self, side: Side, j: usize, i: usize) -> bool
        requires { (j < self.now.count) × (i < self.now.count) }
        ensures { result ≡ hides (side_of self.now.plots side) (columns_in self.now) j i }
    {
        let nearer = self.column(j);
        let farther = self.column(i);
        side.towards(nearer, farther) && (!side.towards(farther, nearer) || j < i)
    }

    // Whether column `i` is listed in the name: on the side, with no other there that is nearer, or equivalent and lower. It never hides
    // itself, so it is passed by, which saves two walks over the plots.
    pub fn is_listed(&self, side: Side, there: &[bool; FIELDS], i: usize) -> bool
        requires { i < self.now.count }
        ensures { result ≡ listed_by (λ j. get_or there.now j false) (side_of self.now.plots side) (columns_in self.now) i }
    {
        there[i] && (0..self.count).all(|j| !(there[j] && j != i && self.hides(side, j, i)))
    }

    // Column `c` joined with what was joined before it, in the first bytes; the column itself where nothing was.
    fn join(&self, side: Side, c: usize, made: Option<[u8; PLOTS]>) -> [u8; PLOTS]
        requires { c < self.now.count }
        ensures { take self.now.plots result ≡ (side_of self.now.plots side).join (get_or (columns_in self.now) c []) (made_of self.now.plots (side_of self.now.plots side) made) }
    {
        let column = self.column(c);
        let mut joined = [0u8; PLOTS];
        if let Some(made) = made {
            side.join(column, &made, &mut joined);
        } else {
            decimal::write_bytes(column, &mut joined, 0);
        }
        joined
    }

    // What all the columns that are there make, in the first bytes. The last column is joined first.
    pub fn joined(&self, side: Side, there: &[bool; FIELDS]) -> [u8; PLOTS]
        ensures { take self.now.plots result ≡ join_by (λ j. get_or there.now j false) (side_of self.now.plots side) 0 (columns_in self.now) }
    {
        let mut made = None;
        // by place: a column is cut out only where it is there
        for c in (0..self.count).rev() {
            if there[c] {
                made = Some(self.join(side, c, made));
            }
        }
        made.unwrap_or(side.none(self.plots))
    }
}
