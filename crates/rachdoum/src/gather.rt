// Lists of 32 one after another.
ghost use Rattle.std.specs.Prelude.{◌≡◌, ◌∷◌, ◌++◌, map, ℕ, ◌≤◌, ◌+◌, pos, length, get_or};
ghost use Rattle.std.proofs.Math.Seq.{paste};
ghost use Rattle.rules.specs.Limits.{most_members};

use limits::MEMBERS;

// One word, then three lists of words.
pub fn words(first: u32, a: [u32; MEMBERS], b: [u32; MEMBERS], c: [u32; MEMBERS]) -> [u32; 97]
    ensures { result ≡ first ∷ a ++ b ++ c }
{
    let mut all = [0u32; 97];
    all[0] = first;
    put(&a, 1, &mut all);
    put(&b, MEMBERS + 1, &mut all);
    put(&c, 2 * MEMBERS + 1, &mut all);
    all
}

// Copies a list to the place `at`.
fn put<T: Copy>(from: &[T], at: usize, out: &mut [T])
    requires { at + length from.now ≤ length out.old }
    ensures { out.new ≡ paste out.old at from.now (length from.now) }
{
    // (The library's `copy_from_slice` would need `memmove` from outside where the archive is linked.)
    for (i, &x) in from.iter().enumerate() {
        out[at + i] = x;
    }
}

// Places as signed numbers. A walk by place: a closure handed to `map` would not know that a place is small.
pub fn signed(places: [usize; MEMBERS]) -> [i64; MEMBERS]
    requires { (i : ℕ) → get_or places i 0 ≤ most_members }
    ensures { result ≡ map pos places }
{
    let mut all = [0i64; MEMBERS];
    for i in 0..MEMBERS {
        all[i] = places[i] as i64;
    }
    all
}

// Two lists of signed numbers.
pub fn numbers(a: [i64; MEMBERS], b: [i64; MEMBERS]) -> [i64; 64]
    ensures { result ≡ a ++ b }
{
    let mut all = [0i64; 64];
    put(&a, 0, &mut all);
    put(&b, MEMBERS, &mut all);
    all
}
