// A family as it grows: members in the order of their discovery, 240 bytes apart, with their numbers of classes.
ghost use Rattle.std.specs.Prelude.{◌≡◌, ◌+◌, ◌*◌, ◌≤◌, ◌<◌, length, MatchOption};
ghost use Rattle.std.proofs.Math.Seq.{paste};
ghost use Rattle.rules.specs.Limits.{most_plots, most_members};
ghost use Rattle.rules.specs.Factor.{classes};
ghost use Rattle.rules.specs.Family.{members_of};
ghost use Rattle.design.specs.State.{Held, FirstAt, PlacedMember, NoRoom, grown_to};

use families::member;
use limits::{MEMBERS, PLOTS};

// The place, from 0, of the first member equal to `column`, which has `count` classes.
pub fn find(
    store: &[u8],
    counts: &[u8; MEMBERS],
    size: usize,
    column: &[u8],
    count: u8,
) -> Option<usize>
    requires { Held (length column.now) store.now counts.now size × (count ≡ classes column.now) }
    ensures { FirstAt (members_of (length column.now) store.now size) size column.now result }
{
    for (i, &known) in counts[..size].iter().enumerate() {
        if known == count && factor::alike(member(store, i, column.len()), column) {
            return Some(i);
        }
    }
    None
}

// Copies a column to the place of member `i`.
pub fn put(store: &mut [u8], i: usize, column: &[u8])
    requires { (length column.now ≤ most_plots) × (most_plots * i + most_plots ≤ length store.old) }
    ensures { store.new ≡ paste store.old (most_plots * i) column.now (length column.now) }
{
    let at = PLOTS * i;
    // (The library's `copy_from_slice` would need `memmove` from outside where the archive is linked; so would its `copy_within`.)
    for (u, &x) in column.iter().enumerate() {
        store[at + u] = x;
    }
}

// The place of a column, which is added at the end where it is new: there is room.
pub fn place(
    store: &mut [u8],
    counts: &mut [u8; MEMBERS],
    size: usize,
    column: &[u8],
    count: u8,
) -> usize
    requires { Held (length column.now) store.old counts.old size × (count ≡ classes column.now) × (size < most_members) }
    ensures { PlacedMember (length column.now) (members_of (length column.now) store.old size) column.now result store.new counts.new }
{
    if let Some(i) = find(store, counts, size, column, count) {
        return i;
    }
    put(store, size, column);
    counts[size] = count;
    size
}

// The place of a column, which is added at the end where it is new; none where it is new and there is no room.
pub fn try_place(
    store: &mut [u8],
    counts: &mut [u8; MEMBERS],
    size: usize,
    column: &[u8],
    count: u8,
) -> Option<usize>
    requires { Held (length column.now) store.old counts.old size × (count ≡ classes column.now) }
    ensures { MatchOption result (NoRoom (length column.now) (members_of (length column.now) store.old size) column.now store.new counts.new) (λ r. PlacedMember (length column.now) (members_of (length column.now) store.old size) column.now r store.new counts.new) }
{
    if size < MEMBERS {
        return Some(place(store, counts, size, column, count));
    }
    find(store, counts, size, column, count)
}

// The size once a column has been placed.
pub fn grown(size: usize, place: usize) -> usize
    requires { size ≤ most_members }
    ensures { result ≡ grown_to size place }
{
    if place == size {
        return size + 1;
    }
    size
}
