// Question 13 and the suprema that make the final treatment family: each pair of a plot and a treatment member, the finest first, since
// much follows from the suprema of finer members.
ghost use Rattle.std.specs.Prelude.{◌≡◌, true, false, List, [], ◌∷◌, ◌++◌, ℕ, Option, Some, None, Result, Ok, Err, ◌≤◌, ◌<◌, length, IfSome, IsNone};
ghost use Rattle.rules.specs.Limits.{most_plots, most_members};
ghost use Rattle.rules.specs.Factor.{Column, number, classes};
ghost use Rattle.rules.specs.Closing.{only_supremum, products_of, products};
ghost use Rattle.design.specs.Search.{cross_first, cross_second, first_of, second_of};
ghost use Rattle.design.specs.Treatments.{Numbered};
ghost use Rattle.design.specs.Crossing.{Growing, Grown, Stands, Adds, Joins};
ghost use Rattle.design.specs.Sides.{Crossing, Placed, test_of, plot_of, supremum_of, plot_members, treatment_members};
ghost use Rattle.design.specs.Crossed.{Crosses};

use crate::apart::first_crossed;
use crate::closing::PAIRS;
use crate::entries::Entries;
use crate::following::following;
use crate::nesting::{Sides, known_finer, members_of};
use crate::questions::Places;
use crate::store::{find, grown, place};
use families::member;
use limits::{FAMILY, MEMBERS, PLOTS};

// The different suprema found so far, 240 bytes apart, with their numbers of classes; and whether there was one more than there is room for.
#[derive(Drop)]
pub struct Suprema {
    pub bytes: [u8; FAMILY],
    pub counts: [u8; MEMBERS],
    pub size: usize,
    pub over: bool,
}

// Why plot and treatment members make no final treatment family: the first pair that is not orthogonal, or too many suprema.
#[derive(Clone, Copy)]
pub enum Crossed {
    Apart(Places),
    TooMany,
}

impl Suprema {
    // Adds a column where it is new; answers its place, if there is room for it.
    fn add(&mut self, column: &[u8], count: u8) -> Option<u8>
        requires { Growing (length column.now) self.old.bytes self.old.counts self.old.size self.old.over × (count ≡ classes column.now) × (number column.now ≡ column.now) }
        ensures growing { Growing (length column.now) self.new.bytes self.new.counts self.new.size self.new.over }
        ensures grown { Grown (length column.now) self.old.bytes self.old.size self.new.bytes self.new.size }
        ensures stands { Stands (length column.now) column.now self.new.bytes self.new.size result }
        ensures adds { Adds (length column.now) self.old.bytes self.old.counts self.old.size self.old.over column.now self.new.bytes self.new.counts self.new.size self.new.over }
    {
        if self.size < MEMBERS {
            let p = place(&mut self.bytes, &mut self.counts, self.size, column, count);
            self.size = grown(self.size, p);
            return Some(p as u8);
        }
        let Some(p) = find(&self.bytes, &self.counts, MEMBERS, column, count) else {
            self.over = true;
            return None;
        };
        Some(p as u8)
    }
}

// Plot member `i` with treatment member `j`, by a walk over their plots. Answers whether they are orthogonal.
fn walk_pair(sides: &Sides, i: usize, j: usize, found: &mut Suprema, joins: &mut Entries) -> bool
    requires { (i < sides.now.plot.size) × (j < sides.now.treatment.size) × Crossing sides.now found.old joins.old }
    ensures test { result ≡ test_of sides.now i j }
    ensures kept { Crossing sides.now found.new joins.new }
    ensures places { result ≡ true → (As : List Column) → Placed sides.now As found.old → Placed sides.now (As ++ supremum_of sides.now i j ∷ []) found.new }
{
    let n = sides.plot.plots;
    let f = member(sides.plot.bytes, i, n);
    let g = member(sides.treatment.bytes, j, n);
    let mut column = [0u8; PLOTS];
    let crossing = standing::crossing_of(f, g, &mut column);
    if crossing.orthogonal {
        joins.put(
            MEMBERS * i + j,
            found.add(&column[..n], crossing.supremum as u8),
        );
    }
    crossing.orthogonal
}

// Plot member `i` with treatment member `j`: by what follows from finer members, or by a walk.
fn join_pair(sides: &Sides, i: usize, j: usize, found: &mut Suprema, joins: &mut Entries) -> bool
    requires { (i < sides.now.plot.size) × (j < sides.now.treatment.size) × Crossing sides.now found.old joins.old }
    ensures test { result ≡ test_of sides.now i j }
    ensures kept { Crossing sides.now found.new joins.new }
    ensures places { result ≡ true → (As : List Column) → Placed sides.now As found.old → Placed sides.now (As ++ supremum_of sides.now i j ∷ []) found.new }
{
    let Some(place) = following(sides, i, j, found, joins) else {
        return walk_pair(sides, i, j, found, joins);
    };
    joins.put(MEMBERS * i + j, Some(place));
    true
}

// Plot member `i` with treatment member `j`: of two that are nested the supremum is the coarser one, and they are orthogonal.
fn cross_pair(sides: &Sides, i: usize, j: usize, found: &mut Suprema, joins: &mut Entries) -> bool
    requires { (i < sides.now.plot.size) × (j < sides.now.treatment.size) × Crossing sides.now found.old joins.old }
    ensures test { result ≡ test_of sides.now i j }
    ensures kept { Crossing sides.now found.new joins.new }
    ensures places { result ≡ true → (As : List Column) → Placed sides.now As found.old → Placed sides.now (As ++ supremum_of sides.now i j ∷ []) found.new }
{
    let n = sides.plot.plots;
    let f = sides.plot.counts[i];
    let g = sides.treatment.counts[j];
    if known_finer(n, f, g) {
        joins.put(
            MEMBERS * i + j,
            found.add(member(sides.treatment.bytes, j, n), g),
        );
        return true;
    }
    if known_finer(n, g, f) {
        joins.put(
            MEMBERS * i + j,
            found.add(member(sides.plot.bytes, i, n), f),
        );
        return true;
    }
    join_pair(sides, i, j, found, joins)
}

// Plot member `i` with each treatment member, from the last on: the first of these that it is not orthogonal to.
fn cross_row(sides: &Sides, i: usize, found: &mut Suprema, joins: &mut Entries) -> Option<usize>
    requires { (i < sides.now.plot.size) × Crossing sides.now found.old joins.old }
    ensures all { result ≡ None → (j : ℕ) → j < sides.now.treatment.size → test_of sides.now i j ≡ true }
    ensures apart { IfSome result (λ j. (j < sides.now.treatment.size) × (test_of sides.now i j ≡ false)) }
    ensures kept { Crossing sides.now found.new joins.new }
    ensures places { result ≡ None → (As : List Column) → Placed sides.now As found.old → Placed sides.now (As ++ products_of only_supremum (plot_of sides.now i) (treatment_members sides.now)) found.new }
{
    for j in (0..sides.treatment.size).rev() {
        if !cross_pair(sides, i, j, found, joins) {
            return Some(j);
        }
    }
    None
}

// Each plot member with each treatment member, from the last ones on: the first of these pairs that is not orthogonal.
fn cross_all(sides: &Sides, found: &mut Suprema, joins: &mut Entries) -> Option<(usize, usize)>
    requires { Crossing sides.now found.old joins.old × Placed sides.now [] found.old }
    ensures all { result ≡ None → (i j : ℕ) → i < sides.now.plot.size → j < sides.now.treatment.size → test_of sides.now i j ≡ true }
    ensures apart { IfSome result (λ pair. (pair.0 < sides.now.plot.size) × (pair.1 < sides.now.treatment.size) × (test_of sides.now pair.0 pair.1 ≡ false)) }
    ensures kept { Crossing sides.now found.new joins.new }
    ensures places { result ≡ None → Placed sides.now (products only_supremum (plot_members sides.now) (treatment_members sides.now)) found.new }
{
    for i in (0..sides.plot.size).rev() {
        if let Some(j) = cross_row(sides, i, found, joins) {
            return Some((i, j));
        }
    }
    None
}

// The first pair of a plot and a treatment member that is not orthogonal, sought from the first on; else the suprema of all are found.
fn cross_members(sides: &Sides, found: &mut Suprema, joins: &mut Entries) -> Option<Places>
    requires { Crossing sides.now found.old joins.old × Placed sides.now [] found.old }
    ensures first { first_of result ≡ cross_first (test_of sides.now) sides.now.plot.size sides.now.treatment.size }
    ensures second { second_of result ≡ cross_second (test_of sides.now) sides.now.treatment.size (first_of result) }
    ensures some { IfSome result (λ pair. pair.first ≡ 0 → ⊥) }
    ensures places { result ≡ None → Placed sides.now (products only_supremum (plot_members sides.now) (treatment_members sides.now)) found.new }
{
    let apart = cross_all(sides, found, joins)?;
    first_crossed(sides, joins, apart)
}

// Each plot member with each treatment member: the different suprema are added to `found`, which has none before.
pub fn cross(
    plot: &[u8],
    plot_size: usize,
    treatment: &[u8],
    treatment_size: usize,
    n: usize,
    found: &mut Suprema,
) -> Result<(), Crossed>
    requires { (1 ≤ n) × (n ≤ most_plots) × Numbered n plot.now plot_size × Numbered n treatment.now treatment_size × (found.old.size ≡ 0) × (found.old.over ≡ false) }
    ensures { Crosses n plot.now plot_size treatment.now treatment_size found.new result }
{
    let sides = Sides {
        plot: members_of(plot, n, plot_size, treatment_size),
        treatment: members_of(treatment, n, treatment_size, plot_size),
    };
    let mut joins = Entries { bytes: [0; PAIRS] };
    match cross_members(&sides, found, &mut joins) {
        Some(places) => Err(Crossed::Apart(places)),
        None if found.over => Err(Crossed::TooMany),
        None => Ok(()),
    }
}
