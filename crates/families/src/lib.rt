// Questions 6 and 15 of a family in lent memory. Members are counted from 0.
#![tactic(auto)]

ghost use Rattle.std.specs.Prelude.{◌≡◌, ◌&&◌, ◌≤◌, leb, length};
ghost use Rattle.rules.specs.Limits.{most_plots, most_members, family_bytes};
ghost use Rattle.rules.specs.Factor.{classes};
ghost use Rattle.rules.specs.Family.{members_of, before, all_numbered, ordered, well_formed};
ghost use Rattle.rules.specs.Design.{plots_within};
ghost use Rattle.families.specs.Lent.{column_at, formed_in, numbered_classes};

use limits::{FAMILY, MEMBERS, PLOTS};

// The member at place `i` of a family on `n` plots, or as much of it as the slice has.
pub fn member(family: &[u8], i: usize, n: usize) -> &[u8]
    ensures { result.now ≡ column_at n family.now i }
{
    factor::part(family, i, n)
}

// 6, of one family.
pub fn within(plots: usize, bytes: usize) -> bool
    ensures { result ≡ plots_within plots && leb family_bytes bytes }
{
    (1..=PLOTS).contains(&plots) && FAMILY <= bytes
}

// 15: 1 to 32 members in the numbering and order of the rules, no two alike. No of more plots than a column has, or of fewer bytes than a
// family has; that there is a plot at all is for 6 to ask.
pub fn well_formed(family: &[u8], plots: usize, size: usize) -> bool
    ensures { result ≡ formed_in plots family.now size }
{
    plots <= PLOTS && FAMILY <= family.len() && formed(family, plots, size)
}

// How many classes a column has that is numbered by first appearance: its largest number. That each plot has a label is asked first, of many
// plots at a time, and so the walk has work at a new class alone.
fn numbered_classes(column: &[u8]) -> Option<usize>
    ensures { result ≡ numbered_classes column.now }
{
    if column.contains(&0) {
        return None;
    }
    let mut most: usize = 0;
    for &x in column {
        let x = x as usize;
        if most < x {
            if most + 1 < x {
                return None;
            }
            most = x;
        }
    }
    Some(most)
}

// Whether member `f`, of `k` classes, stands before member `g`, of `m`: at a tie the columns decide.
fn member_before(f: &[u8], k: usize, g: &[u8], m: usize) -> bool
    requires { (k ≡ classes f.now) × (m ≡ classes g.now) }
    ensures { result ≡ before f.now g.now }
{
    if k != m {
        return k < m;
    }
    factor::smaller(f, g)
}

// Whether every member is numbered by first appearance and stands before the next. Each is counted once.
fn numbered_in_order(family: &[u8], n: usize, size: usize) -> bool
    requires { (n ≤ most_plots) × (family_bytes ≤ length family.now) × (1 ≤ size) × (size ≤ most_members) }
    ensures { result ≡ all_numbered (members_of n family.now size) && ordered (members_of n family.now size) }
{
    let mut f = member(family, 0, n);
    let Some(mut k) = numbered_classes(f) else {
        return false;
    };
    // The members are counted, as many as are asked for: the buffer has room for 32.
    for i in 1..size {
        let g = member(family, i, n);
        let Some(m) = numbered_classes(g) else {
            return false;
        };
        if !member_before(f, k, g, m) {
            return false;
        }
        f = g;
        k = m;
    }
    true
}

// 15, once the plots and the bytes are within limits.
fn formed(family: &[u8], n: usize, size: usize) -> bool
    requires { (n ≤ most_plots) × (family_bytes ≤ length family.now) }
    ensures { result ≡ well_formed (members_of n family.now size) }
{
    (1..=MEMBERS).contains(&size) && numbered_in_order(family, n, size)
}
