// The words of a family's relation: bit j of word i is for member j, both from 0.
ghost use Rattle.std.specs.Prelude.{◌≡◌, ◌<◌, Ok};
ghost use Rattle.rules.specs.Limits.{most_members};
ghost use Rattle.rules.specs.Factor.{finer};
ghost use Rattle.rules.specs.Lists.{tabulate, for_places, bit_at};
ghost use Rattle.rules.specs.Relation.{coarser_words, relation_of};
ghost use Rattle.strata.specs.Answers.{relation_in};
ghost use Rattle.strata.specs.Family.{column, members, IsCounted};
ghost use Rattle.strata.specs.Words.{AllWords, FinerFrom, WordAfter, WordsBefore, direct_word, finer_word};

use crate::family::{Counted, Family};
use limits::MEMBERS;

// Who is strictly coarser than whom: bit j - 1 of member i's word is for member j. All 0 past the size.
#[derive(Clone, Copy)]
pub struct Relation {
    // the family's size
    pub size: usize,
    // the strictly coarser members
    pub coarser: [u32; MEMBERS],
    // of these the neighbours directly above
    pub direct: [u32; MEMBERS],
    // how many neighbours there are directly above
    pub counts: [u32; MEMBERS],
}

// Whether bit `j` of a word is set.
pub fn has(word: u32, j: usize) -> bool
    requires { j < most_members }
    ensures { result ≡ bit_at word j }
{
    (word >> j) & 1 == 1
}

// Whether a member is finer than one before it. A class for each plot is finer than all, and one class coarser; of different members with
// as many classes neither is finer; else the columns decide.
fn counted_finer(family: &Family, member: Counted, before: Counted) -> bool
    requires { IsCounted family.now member × IsCounted family.now before × (before.place < member.place) }
    ensures { result ≡ finer family.now.plots (column family.now member.place) (column family.now before.place) }
{
    member.classes == family.plots
        || before.classes == 1
        || member.classes != before.classes && family.finer(member.place, family, before.place)
}

// The word of a member as far as one before it, when it is known from the next on; `coarser` is the word of that one. Where the member is
// finer than it, it is finer than those in `coarser` too, and these columns are not walked.
fn with_member(family: &Family, member: Counted, before: Counted, word: u32, coarser: u32) -> u32
    requires { WordAfter family.now member before word coarser }
    ensures { FinerFrom family.now.plots family.now.bytes.now member.place before.place result }
{
    if has(word, before.place) || !counted_finer(family, member, before) {
        return word;
    }
    word | (coarser | (1u32 << before.place))
}

// The word of a member. Only one that stands before it can be coarser, and is where the member is finer.
fn coarser_word(
    family: &Family,
    member: Counted,
    words: &[u32; MEMBERS],
    counts: &[u8; MEMBERS],
) -> u32
    requires { WordsBefore family.now member words.now counts.now }
    ensures { result ≡ finer_word family.now.plots family.now.bytes.now member.place }
{
    let mut word = 0;
    for j in (0..member.place).rev() {
        let before = Counted {
            place: j,
            classes: usize::from(counts[j]),
        };
        word = with_member(family, member, before, word, words[j]);
    }
    word
}

// The words of all members. Each is counted once, and its number of classes kept for those after it. (The loop counts places, since both
// arrays are read as they are filled.)
pub fn coarser_words(family: &Family) -> [u32; MEMBERS]
    ensures { result ≡ for_places 0 (coarser_words family.now.plots (members family.now)) }
{
    let mut words = [0; MEMBERS];
    let mut counts = [0; MEMBERS];
    for i in 0..family.size {
        let member = family.counted(i);
        let word = coarser_word(family, member, &words, &counts);
        words[i] = word;
        counts[i] = member.classes as u8;
    }
    words
}

// The neighbours directly above member `i`: what is coarser than a coarser member is masked out.
fn direct_word(words: &[u32; MEMBERS], i: usize) -> u32
    requires { (i < most_members) × AllWords words.now }
    ensures { result ≡ direct_word words.now i }
{
    let coarser = words[i];
    let mut word = coarser;
    for (j, other) in words[..i].iter().enumerate() {
        if has(coarser, j) {
            word &= !other;
        }
    }
    word
}

// The words of neighbours directly above.
fn direct_words(words: &[u32; MEMBERS]) -> [u32; MEMBERS]
    requires { AllWords words.now }
    ensures { result ≡ tabulate (direct_word words.now) most_members }
{
    std::array::from_fn(|i| direct_word(words, i))
}

// The relation of a family.
pub fn of_family(family: &Family) -> Relation
    ensures { relation_in (Ok result) ≡ relation_of family.now.plots (members family.now) }
{
    let coarser = coarser_words(family);
    let direct = direct_words(&coarser);
    let counts = direct.map(|word| word.count_ones());
    Relation {
        size: family.size,
        coarser,
        direct,
        counts,
    }
}
