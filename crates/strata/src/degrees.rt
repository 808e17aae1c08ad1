// Degrees of freedom by subtraction.
ghost use Rattle.std.specs.Prelude.{◌≡◌, ◌≤◌, pos, ◌-ℤ◌, get_or, length};
ghost use Rattle.rules.specs.Limits.{most_members};
ghost use Rattle.rules.specs.Lists.{for_places, bit_at};
ghost use Rattle.rules.specs.Degrees.{degrees};
ghost use Rattle.strata.specs.Family.{members};
ghost use Rattle.strata.specs.Sums.{Small, AllSmall, sum_passing};
ghost use Rattle.strata.specs.Words.{WordsOf};

use crate::family::Family;
use crate::order::{coarser_words, has};
use limits::MEMBERS;

// `start` less the numbers at those places whose bit in `word` is set.
pub fn less(start: i64, word: u32, numbers: &[i64]) -> i64
    requires { (length numbers.now ≤ most_members) × Small start × AllSmall numbers.now }
    ensures { result ≡ start -ℤ sum_passing (bit_at word) (λ j. get_or numbers.now j (pos 0)) (length numbers.now) }
{
    let mut left = start;
    for (j, &number) in numbers.iter().enumerate() {
        if has(word, j) {
            left -= number;
        }
    }
    left
}

// The degrees of freedom of all members, by the words of those strictly coarser.
pub fn by_words(family: &Family, words: &[u32; MEMBERS]) -> [i64; MEMBERS]
    requires { WordsOf family.now words.now }
    ensures { result ≡ for_places (pos 0) (degrees family.now.plots (members family.now)) }
{
    let mut numbers = [0; MEMBERS];
    for (i, &word) in words[..family.size].iter().enumerate() {
        let own = family.counted(i).classes as i64;
        let number = less(own, word, &numbers[..i]);
        numbers[i] = number;
    }
    numbers
}

// The degrees of freedom of all members.
pub fn of_family(family: &Family) -> [i64; MEMBERS]
    ensures { result ≡ for_places (pos 0) (degrees family.now.plots (members family.now)) }
{
    by_words(family, &coarser_words(family))
}
