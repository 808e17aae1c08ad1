// Members in order: by number of classes, ties by the first plot where the columns differ.
ghost use Rattle.std.specs.Prelude.{◌≡◌, ◌∷◌, ◌++◌, map, ℕ, ◌+◌, ◌-◌, ◌*◌, ◌≤◌, ◌<◌, length, get_or, take, drop};
ghost use Rattle.std.proofs.Math.Seq.{paste};
ghost use Rattle.rules.specs.Limits.{most_plots, most_members, family_bytes};
ghost use Rattle.rules.specs.Factor.{classes};
ghost use Rattle.rules.specs.Family.{Distinct, before, members_of, written};
ghost use Rattle.design.specs.State.{column_at, Held, RankOf, Sorted};

use crate::store::put;
use families::member;
use limits::MEMBERS;

// Whether member `i` stands before member `j`.
fn member_before(store: &[u8], counts: &[u8; MEMBERS], n: usize, i: usize, j: usize) -> bool
    requires { (n ≤ most_plots) × (length store.now ≡ family_bytes) × (i < most_members) × (j < most_members) × (get_or counts.now i 0 ≡ classes (column_at n store.now i)) × (get_or counts.now j 0 ≡ classes (column_at n store.now j)) }
    ensures { result ≡ before (column_at n store.now i) (column_at n store.now j) }
{
    if counts[i] != counts[j] {
        return counts[i] < counts[j];
    }
    factor::smaller(member(store, i, n), member(store, j, n))
}

// The place of member `i` among the first `i`, which are in order.
fn rank(store: &[u8], counts: &[u8; MEMBERS], order: &[u8; MEMBERS], n: usize, i: usize) -> usize
    requires { (i < most_members) × Held n store.now counts.now (i + 1) × ((p : ℕ) → p < i → get_or order.now p 0 < i) }
    ensures { RankOf n store.now order.now (column_at n store.now i) i result }
{
    for (p, &other) in order[..i].iter().enumerate() {
        if member_before(store, counts, n, i, other as usize) {
            return p;
        }
    }
    i
}

// Puts `i` at place `p` of the first `i` entries, those from there on one further.
fn insert(order: &mut [u8; MEMBERS], i: usize, p: usize)
    requires { (length order.old ≡ most_members) × (p ≤ i) × (i < most_members) }
    ensures { order.new ≡ take p order.old ++ i ∷ take (i - p) (drop p order.old) ++ drop (i + 1) order.old }
{
    // From the last on, so that none is written over that is still to be moved.
    let mut k = i;
    while p < k {
        order[k] = order[k - 1];
        k -= 1;
    }
    order[p] = i as u8;
}

// The places of the members in their order.
pub fn sort(store: &[u8], counts: &[u8; MEMBERS], n: usize, size: usize) -> [u8; MEMBERS]
    requires { Held n store.now counts.now size × Distinct (members_of n store.now size) }
    ensures { Sorted (members_of n store.now size) result }
{
    let mut order = [0u8; MEMBERS];
    // `i` is the member that is put among those before it, which `order` has so far.
    for i in 0..size {
        let p = rank(store, counts, &order, n, i);
        insert(&mut order, i, p);
    }
    order
}

// Copies member `i` of the store to place `p` of a family buffer.
fn copy_member(store: &[u8], n: usize, i: usize, p: usize, family: &mut [u8])
    requires { (n ≤ most_plots) × (length store.now ≡ family_bytes) × (i < most_members) × (p < most_members) × (family_bytes ≤ length family.old) }
    ensures { family.new ≡ paste family.old (most_plots * p) (column_at n store.now i) n }
{
    put(family, p, member(store, i, n));
}

// Writes the members in their order to a family buffer.
pub fn write(store: &[u8], order: &[u8; MEMBERS], n: usize, size: usize, family: &mut [u8])
    requires { (n ≤ most_plots) × (length store.now ≡ family_bytes) × (size ≤ most_members) × (family_bytes ≤ length family.old) × (length order.now ≡ most_members) × ((p : ℕ) → p < size → get_or order.now p 0 < most_members) }
    ensures { family.new ≡ written family.old 0 (map (λ (i : ℕ). column_at n store.now i) (take size order.now)) }
{
    for (p, &i) in order[..size].iter().enumerate() {
        copy_member(store, n, i as usize, p, family);
    }
}
