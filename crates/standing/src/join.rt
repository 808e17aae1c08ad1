// Classes of one factor joined along the classes of another.
ghost use Rattle.std.specs.Prelude.{◌≡◌, ℕ, ◌≤◌, ◌<◌, length, IsTrue, ◌↔◌, EachIndex, slice_index};
ghost use Rattle.rules.specs.Limits.{most_plots};
ghost use Rattle.rules.specs.Factor.{at, number, classes, relabel};
ghost use Rattle.factor.specs.Lent.{overlay};
ghost use Rattle.standing.specs.Joining.{Below, OneEntry, OwnWithin, EntriesJoin, LabelsNumbered, Among, InOrder, spread};
ghost use Rattle.standing.specs.Cells.{EntrySizes, LabelSizes};

use crate::labels::least_label;
use crate::numbers::Numbers;
use limits::PLOTS;

// Entries of labels: joined labels have one entry. The labels below `top` are looked at; where `one` is true, it is known that all of them
// have one entry.
#[derive(Drop)]
pub struct Joins {
    pub entries: [u8; 256],
    pub top: usize,
    pub one: bool,
    ghost within: { top ≤ 256 },
    ghost bytes: { (x : ℕ) → x < top → at entries x < 256 },
    ghost joined: { IsTrue one → OneEntry top entries },
}

// Labels of `f` that share a class of `g` have one entry, that of the first such label.
pub(crate) fn join_labels(f: &[u8], g: &[u8], top: usize) -> Joins
    requires even { length g.now ≡ length f.now }
    requires few { top ≤ 256 }
    requires below { Below top f.now }
    ensures some { IsTrue result.one → 0 < length f.now }
    ensures wide { top ≤ result.top }
    ensures entries { EntriesJoin f.now g.now result.entries }
{
    let mut entries = apart(least_label(f), top);
    // Whole groups of 32 entries are relabelled at a time.
    let wide = top.next_multiple_of(32);
    let mut first: [Option<u8>; 256] = [None; 256];
    for (u, &x) in f.iter().enumerate() {
        let y = g[u];
        match first[y as usize] {
            None => first[y as usize] = Some(x),
            Some(w) => {
                let a = entries[x as usize];
                let b = entries[w as usize];
                if a != b {
                    let one = relabel(&mut entries[..wide], a, b);
                    if one {
                        return Joins { entries, top, one };
                    }
                }
            }
        }
    }
    Joins {
        entries,
        top,
        one: false,
    }
}

// Each label from `low` on and below `top` is its own entry. The others have the entry `low`, so that all entries of a column numbered from 1
// may come to be one.
fn apart(low: u8, top: usize) -> [u8; 256]
    requires { top ≤ 256 }
    ensures long { length result ≡ 256 }
    ensures own { OwnWithin low top result }
    ensures bytes { (x : ℕ) → x < 256 → at result x < 256 }
{
    let mut entries = [low; 256];
    for (x, entry) in entries[..top].iter_mut().enumerate() {
        *entry = x as u8;
    }
    entries[..low as usize].fill(low);
    entries
}

impl Joins {
    // How many plots have each entry, by the sizes of the labels.
    pub fn entry_sizes(&self, f: &[u8], in_f: &[u8; 256]) -> [u8; 256]
        requires few { length f.now ≤ most_plots }
        requires below { Below self.now.top f.now }
        requires sizes { LabelSizes f.now in_f.now }
        ensures { EntrySizes self.now.entries f.now result }
    {
        let entries = &self.entries[..self.top];
        if self.one {
            let size = f.len() as u8;
            return [size; 256];
        }
        let mut sizes = [0u8; 256];
        for (x, &entry) in entries.iter().enumerate() {
            sizes[entry as usize] += in_f[x];
        }
        sizes
    }
}

// Those that are `a` become `b`. Answers whether all are `b` then.
fn relabel(entries: &mut [u8], a: u8, b: u8) -> bool
    ensures entries { entries.new ≡ relabel a b entries.old }
    ensures all { IsTrue result ↔ EachIndex entries.new (λ k. slice_index entries.new k ≡ b) }
{
    let mut all = true;
    for y in entries.iter_mut() {
        let z = if *y == a { b } else { *y };
        all &= z == b;
        *y = z;
    }
    all
}

// Numbers the classes that the entries of the labels make; answers how many there are. The labels are listed in `x` by first appearance.
pub(crate) fn number_joins(joins: &Joins, f: &[u8], x: &[u8], out: &mut [u8; PLOTS]) -> usize
    requires few { length f.now ≤ most_plots }
    requires few_listed { length x.now ≤ most_plots }
    requires below { Below joins.now.top f.now }
    requires some { IsTrue joins.now.one → 0 < length f.now }
    requires among { Among f.now x.now }
    requires order { InOrder f.now x.now }
    ensures answer { result ≡ classes (spread joins.now.entries f.now) }
    ensures numbers { out.new ≡ overlay out.old (number (spread joins.now.entries f.now)) }
{
    if joins.one {
        out[..f.len()].fill(1);
        return 1;
    }
    let (numbers, count) = number_labels(&joins.entries, x);
    for (u, &label) in f.iter().enumerate() {
        out[u] = numbers[label as usize];
    }
    count
}

// Numbers the classes that the entries of the listed labels make, by label, and counts them.
fn number_labels(entries: &[u8; 256], x: &[u8]) -> ([u8; 256], usize)
    requires { length x.now ≤ most_plots }
    ensures numbers { LabelsNumbered entries.now x.now (length x.now) result.0 }
    ensures count { result.1 ≡ classes (spread entries.now x.now) }
{
    let mut numbers = [0u8; 256];
    let mut found = Numbers::<256>::new();
    for &label in x {
        let entry = entries[label as usize];
        numbers[label as usize] = found.number(entry as usize);
    }
    (numbers, found.count)
}
