// The names of members, worked out once.
ghost use Rattle.std.specs.Prelude.{◌≡◌, ℕ, ◌≤◌, ◌<◌, length, get_or};
ghost use Rattle.rules.specs.Limits.{most_members, name_bytes};
ghost use Rattle.naming.specs.Answers.{kind_of};
ghost use Rattle.table.specs.Names.{NameableBy, name_in, family_names, placed_name};

use limits::{MEMBERS, NAME};
use naming::{Kind, Source};

// Bytes for the names of a family's members.
const NAMES: usize = NAME * MEMBERS;

// The names of a family's members, 160 bytes a member, and how many bytes each name has.
#[derive(Drop)]
pub struct Names {
    bytes: [u8; NAMES],
    lengths: [usize; MEMBERS],
    size: usize,
    ghost few: { size ≤ most_members },
    ghost short: { (j : ℕ) → j < size → get_or lengths j 0 ≤ name_bytes },
}

impl Names {
    ghost use Rattle.table.specs.Skeletons.{names_of};

    // Names each of the first `size` members of a family.
    pub fn of_family(source: Source<'_>, kind: Kind, family: &[u8], size: usize) -> Names
        requires { NameableBy source.text.now source.levels.now source.counts family.now × (size ≤ most_members) }
        ensures names { names_of result ≡ family_names kind source.entry.counts size source.entry.text.now source.entry.levels.now family.now }
        ensures size { result.size ≡ size }
    {
        let mut bytes = [0u8; NAMES];
        let mut lengths = [0usize; MEMBERS];
        naming::name_members(source, kind, family, size, &mut bytes, &mut lengths).unwrap();
        Names {
            bytes,
            lengths,
            size,
        }
    }

    // How many members are named.
    pub fn size(&self) -> usize
        ensures { result ≡ self.now.size }
    {
        self.size
    }

    // The name of member `j`, from 0.
    pub fn name(&self, j: usize) -> &[u8]
        requires { j < self.now.size }
        ensures { result.now ≡ name_in self.now.bytes self.now.lengths j }
    {
        let start = NAME * j;
        &self.bytes[start..start + self.lengths[j]]
    }
}

// A name: as many of 160 bytes as it has.
#[derive(Clone, Copy)]
pub struct Name {
    bytes: [u8; NAME],
    size: usize,
    ghost inside: { size ≤ length bytes },
}

impl Name {
    ghost use Rattle.table.specs.Skeletons.{spelled};

    // Its bytes.
    pub fn bytes(&self) -> &[u8]
        ensures { result.now ≡ spelled self.now }
    {
        &self.bytes[..self.size]
    }

    // The name of the member at a place of a family, from 1, by the columns of the kind; `-` at place 0.
    pub fn at_place(source: Source<'_>, kind: Kind, family: &[u8], place: usize) -> Name
        requires { NameableBy source.text.now source.levels.now source.counts family.now × (place ≤ most_members) }
        ensures { spelled result ≡ placed_name (kind_of kind) source.entry.text.now source.entry.counts.plots source.entry.levels.now family.now place }
    {
        let mut bytes = [0u8; NAME];
        if place == 0 {
            bytes[0] = b'-';
            return Name { bytes, size: 1 };
        }
        let member = families::member(family, place - 1, source.counts.plots);
        let size = naming::name_counted(source, kind, member, place, &mut bytes).unwrap();
        Name { bytes, size }
    }
}
