// Questions 6, 9, 10 and 12.
ghost use Rattle.std.specs.Prelude.{◌≡◌, ℕ, ◌+◌, ◌*◌, ◌≤◌, ◌<◌, length, get_or};
ghost use Rattle.rules.specs.Limits.{most_plots, most_members, family_bytes};
ghost use Rattle.rules.specs.Factor.{number, uniform};
ghost use Rattle.rules.specs.Family.{members_of};
ghost use Rattle.rules.specs.Design.{within_limits, full_within_limits, first_failing};
ghost use Rattle.design.specs.State.{column_at, marked};
ghost use Rattle.design.specs.Search.{first_pair_of, place_told};
ghost use Rattle.design.specs.Treatments.{Numbered};

use crate::closing::PAIRS;
use factor::largest;
use families::member;
use limits::{COLUMNS, FAMILY, INTERACTION, LEVELS, MEMBERS, PLOTS};

// The first failing pair, with places from 1; 0 and 0 where there is none.
#[derive(Clone, Copy)]
pub struct Places {
    pub first: usize,
    pub second: usize,
}

// 6: are the counts within limits and the slices long enough?
pub fn within(plots: usize, columns: usize, levels: usize, family: usize) -> bool
    ensures { result ≡ within_limits plots columns levels family }
{
    (1..=PLOTS).contains(&plots) && columns <= COLUMNS && LEVELS <= levels && FAMILY <= family
}

// 6 for the full design.
pub fn full_within(
    plots: usize,
    plot_columns: usize,
    treatment_columns: usize,
    k: usize,
    levels: usize,
    plot_family: usize,
    treatment_family: usize,
) -> bool
    ensures { result ≡ full_within_limits plots plot_columns treatment_columns k levels plot_family treatment_family }
{
    within(plots, plot_columns, levels, plot_family)
        && treatment_columns <= COLUMNS
        && (1..=INTERACTION).contains(&k)
        && FAMILY <= treatment_family
}

// Whether the classes of member `i` have one size. They are not counted where the largest number tells it: one class, or a class for
// each plot.
fn member_uniform(family: &[u8], n: usize, i: usize) -> bool
    requires { (1 ≤ n) × (n ≤ most_plots) × (family_bytes ≤ length family.now) × (i < most_members) × (number (column_at n family.now i) ≡ column_at n family.now i) }
    ensures { result ≡ uniform n (column_at n family.now i) }
{
    let column = member(family, i, n);
    let k = largest(column);
    k == 1 || k as usize == n || factor::uniform(column)
}

// 9: the place, from 1, of the first member whose classes have not one size.
pub fn first_unequal(family: &[u8], n: usize, size: usize) -> Option<usize>
    requires { (1 ≤ n) × (n ≤ most_plots) × Numbered n family.now size }
    ensures { result ≡ place_told (first_failing (uniform n) 1 (members_of n family.now size)) }
{
    // `i` is a member's place: the family buffer has more bytes than those of its members' plots.
    for i in 0..size {
        if !member_uniform(family, n, i) {
            return Some(i + 1);
        }
    }
    None
}

// Whether members `i` and `j`, in whichever order they were found, have the mark.
fn marked(marks: &[u8], i: usize, j: usize) -> bool
    requires { (length marks.now ≡ 1024) × (i < most_members) × (j < most_members) }
    ensures { result ≡ marked marks.now i j }
{
    marks[MEMBERS * i.max(j) + i.min(j)] != 0
}

// 10 and 12: the first pair of places whose members do not have the mark.
pub fn first_apart(order: &[u8; MEMBERS], marks: &[u8; PAIRS], size: usize) -> Places
    requires { (size ≤ most_members) × ((i : ℕ) → i < size → get_or order.now i 0 < most_members) }
    ensures { result ≡ first_pair_of (λ i j. marked marks.now (get_or order.now i 0) (get_or order.now j 0)) size }
{
    let mut first = 0;
    let mut second = 0;
    'pairs: for i in 0..size {
        for j in (i + 1)..size {
            if !marked(marks, order[i] as usize, order[j] as usize) {
                first = i + 1;
                second = j + 1;
                break 'pairs;
            }
        }
    }
    Places { first, second }
}
