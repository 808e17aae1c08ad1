// Question 6, and what naming one member asks.
ghost use Rattle.std.specs.Prelude.{◌≡◌};
ghost use Rattle.rules.specs.Naming.{naming_within};
ghost use Rattle.naming.specs.Answers.{look_fits, member_fits};
ghost use Rattle.naming.specs.Members.{members_fit};

use crate::columns::Look;
use limits::{COLUMNS, FAMILY, LEVELS, MEMBERS, NAME, PLOTS};

// Whether the plots, the columns and the level table are in range.
#[tactic(auto, using(std::proofs::lemmas::Bool::Decides::nat_tests), unfolding(crate::specs::Answers::look_fits, rules::specs::Design::plots_within))]
fn look_fits(look: Look, levels: usize) -> bool
    ensures { result ≡ look_fits look levels }
{
    (1..=PLOTS).contains(&look.plots)
        && look.before <= COLUMNS
        && look.count <= COLUMNS
        && LEVELS <= levels
}

// Whether one member can be named: these and the buffer are in range, and it is on these plots.
#[tactic(auto, using(std::proofs::lemmas::Bool::Decides::nat_tests), unfolding(crate::specs::Answers::member_fits))]
pub fn member_fits(look: Look, levels: usize, name: usize, member: usize) -> bool
    ensures { result ≡ member_fits look levels name member }
{
    look_fits(look, levels) && NAME <= name && member == look.plots
}

// Whether the members of a family can be named: these, the size and the lengths are in range.
#[tactic(auto, using(std::proofs::lemmas::Bool::Decides::nat_tests), unfolding(crate::specs::Members::members_fit))]
pub fn members_fit(
    look: Look,
    size: usize,
    levels: usize,
    family: usize,
    names: usize,
    lengths: usize,
) -> bool
    ensures { result ≡ members_fit look size levels family names lengths }
{
    look_fits(look, levels)
        && size <= MEMBERS
        && FAMILY <= family
        && NAME * size <= names
        && size <= lengths
}

// 6: are the plots, the place and the lengths in range?
#[tactic(auto, using(std::proofs::lemmas::Bool::Decides::nat_tests), unfolding(rules::specs::Naming::naming_within, rules::specs::Design::plots_within))]
pub fn within(
    plots: usize,
    size: usize,
    place: usize,
    levels: usize,
    family: usize,
    name: usize,
) -> bool
    ensures { result ≡ naming_within plots size place levels family name }
{
    (1..=PLOTS).contains(&plots)
        && (1..=size).contains(&place)
        && LEVELS <= levels
        && FAMILY <= family
        && NAME <= name
}
