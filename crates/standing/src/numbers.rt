// Keys numbered by first appearance.
ghost use Rattle.std.specs.Prelude.{◌≡◌, ℕ, ◌+◌, ◌≤◌, ◌<◌, length};
ghost use Rattle.rules.specs.Factor.{Column, at, number};
ghost use Rattle.standing.specs.Numbers.{Numbered};

// The numbers of keys below `N`, 0 for one that is not met: the first key that is met is number 1, the next new one number 2.
#[derive(Drop)]
pub struct Numbers<const N: usize> {
    numbers: [u8; N],
    pub count: usize,
}

impl<const N: usize> Numbers<N> {
    // No key is met yet.
    pub fn new() -> Self
        requires { N ≤ 65536 }
        ensures { (F : Column) → Numbered F 0 result.numbers result.count }
    {
        Numbers {
            numbers: [0; N],
            count: 0,
        }
    }

    // The number of a key.
    pub fn number(&mut self, key: usize) -> u8
        requires inside { key < N }
        requires room { self.old.count < 255 }
        ensures grown { self.new.count ≤ self.old.count + 1 }
        ensures numbered { (F : Column) (u : ℕ) → u < length F → at F u ≡ key → Numbered F u self.old.numbers self.old.count → (result ≡ at (number F) u) × Numbered F (u + 1) self.new.numbers self.new.count }
    {
        let mut number = self.numbers[key];
        if number == 0 {
            let count = self.count + 1;
            number = count as u8;
            self.numbers[key] = number;
            self.count = count;
        }
        number
    }
}
