// The table of suprema: an entry for each pair of a plot and a treatment member.
ghost use Rattle.std.specs.Prelude.{◌≡◌, List, ℕ, Option, Some, None, ◌<◌, get_or, set};
ghost use Rattle.rules.specs.Limits.{most_members};
ghost use Rattle.design.specs.Crossing.{places_in};

use crate::closing::PAIRS;
use std::marker::Model;

// The places of the suprema that are known. In memory an entry is one more than the place, and 0 where there is none, so that all entries
// are cleared at once.
#[derive(Drop)]
pub struct Entries {
    pub bytes: [u8; PAIRS],
}

impl Model for Entries {
    ghost Value = { List (Option ℕ) };

    ghost view = { λ e. places_in e.bytes };
}

impl Entries {
    // The place in the entry at `at`.
    pub fn get(&self, at: usize) -> Option<u8>
        requires { at < 1024 }
        ensures { result ≡ get_or self.now at None }
    {
        self.bytes[at].checked_sub(1)
    }

    // Writes a place, or none, in the entry at `at`.
    pub fn put(&mut self, at: usize, place: Option<u8>)
        requires { (at < 1024) × ((q : ℕ) → place ≡ Some q → q < most_members) }
        ensures { self.new ≡ set self.old at place }
    {
        self.bytes[at] = match place {
            Some(q) => q + 1,
            None => 0,
        };
    }
}
