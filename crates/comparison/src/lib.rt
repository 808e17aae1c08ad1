// How a member of one lent family and a member of another stand. Asks 6, then 15 of both families.
#![tactic(auto)]

ghost use Rattle.std.specs.Prelude.{◌≡◌, ◌&&◌, ◌-◌, ◌<◌, leb, length};
ghost use Rattle.rules.specs.Limits.{family_bytes};
ghost use Rattle.rules.specs.Design.{plots_within};
ghost use Rattle.rules.specs.Comparison.{place_within, comparing};
ghost use Rattle.factor.specs.Lent.{column_at};
ghost use Rattle.families.specs.Lent.{formed_in};
ghost use Rattle.comparison.specs.Answers.{compared_numbers};

use refusal::Refusal;
use standing::Comparison;

// A place of a lent family of `size` members; the first is number 1.
#[derive(Clone, Copy)]
pub struct Place<'a> {
    pub family: &'a [u8],
    pub size: usize,
    pub number: usize,
}

impl Place<'_> {
    // 6, of the family and the place.
    fn is_within(&self, plots: usize) -> bool
        ensures { result ≡ plots_within plots && leb family_bytes (length self.now.family.now) && place_within self.now.size self.now.number }
    {
        families::within(plots, self.family.len()) && (1..=self.size).contains(&self.number)
    }

    // 15, of the family.
    fn is_well_formed(&self, plots: usize) -> bool
        ensures { result ≡ formed_in plots self.now.family.now self.now.size }
    {
        families::well_formed(self.family, plots, self.size)
    }

    // The member at the place.
    fn member(&self, plots: usize) -> &[u8]
        requires { 0 < self.now.number }
        ensures { result.now ≡ column_at plots self.now.family.now (self.now.number - 1) }
    {
        families::member(self.family, self.number - 1, plots)
    }
}

// How the member at a place of the first family stands to the one at a place of the second.
pub fn compare_members(first: Place, second: Place, plots: usize) -> Result<Comparison, Refusal>
    ensures { compared_numbers result ≡ comparing plots first.entry.family.now first.entry.size first.entry.number second.entry.family.now second.entry.size second.entry.number }
{
    if !(first.is_within(plots) && second.is_within(plots)) {
        return Err(Refusal::Limits);
    }
    if !(first.is_well_formed(plots) && second.is_well_formed(plots)) {
        return Err(Refusal::Family);
    }
    Ok(standing::compare(first.member(plots), second.member(plots)))
}
