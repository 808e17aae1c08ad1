// Text written into a lent buffer from a place on. Each function writes as much as there is room for and answers the
// place after what it wrote, so that one call continues where another stopped.
#![tactic(auto)]

ghost use Rattle.std.specs.Prelude.{◌≡◌, [], ◌∷◌, ◌≤◌, drop};
ghost use Rattle.rules.specs.Lists.{decimal_of};
ghost use Rattle.rules.specs.Table.{signed};
ghost use Rattle.decimal.specs.Writing.{written, place_after};

// The decimal digits of a `usize`, at most.
const DIGITS: usize = 20;

// Writes one byte at place `at`.
pub fn write_byte(byte: u8, out: &mut [u8], at: usize) -> usize
    ensures answer { result ≡ place_after out.old at (byte ∷ []) }
    ensures bytes { out.new ≡ written out.old at (byte ∷ []) }
{
    if at < out.len() {
        out[at] = byte;
        return at + 1;
    }
    at
}

// Writes bytes from place `at` on.
pub fn write_bytes(from: &[u8], out: &mut [u8], at: usize) -> usize
    ensures answer { result ≡ place_after out.old at from.now }
    ensures bytes { out.new ≡ written out.old at from.now }
{
    if out.len() <= at {
        return at;
    }
    let n = from.len().min(out.len() - at);
    // (The library's `copy_from_slice` would need `memmove` from outside where the archive is linked.)
    for (i, &x) in from[..n].iter().enumerate() {
        out[at + i] = x;
    }
    at + n
}

// Writes a number in decimal. Most have one digit or two.
pub fn write_decimal(n: usize, out: &mut [u8], at: usize) -> usize
    ensures answer { result ≡ place_after out.old at (decimal_of n) }
    ensures bytes { out.new ≡ written out.old at (decimal_of n) }
{
    if n < 10 {
        return write_byte(b'0' + n as u8, out, at);
    }
    if n < 100 {
        let next = write_byte(b'0' + (n / 10) as u8, out, at);
        return write_byte(b'0' + (n % 10) as u8, out, next);
    }
    write_digits(n, out, at)
}

// The same by an array that has room for any number.
fn write_digits(n: usize, out: &mut [u8], at: usize) -> usize
    ensures answer { result ≡ place_after out.old at (decimal_of n) }
    ensures bytes { out.new ≡ written out.old at (decimal_of n) }
{
    let mut digits = [b'0'; DIGITS];
    let first = put_digits(n, &mut digits);
    write_bytes(&digits[first..], out, at)
}

// Puts the digits of a number at the end of `digits`; answers where they begin.
fn put_digits(n: usize, digits: &mut [u8; DIGITS]) -> usize
    ensures place { result ≤ 20 }
    ensures digits { drop result digits.new ≡ decimal_of n }
{
    let mut rest = n;
    let mut first = DIGITS;
    // How many digits there are shows as they are taken off.
    while 10 <= rest {
        first -= 1;
        digits[first] = b'0' + (rest % 10) as u8;
        rest /= 10;
    }
    first -= 1;
    digits[first] = b'0' + rest as u8;
    first
}

// Writes a signed number in decimal.
pub fn write_signed(d: i64, out: &mut [u8], at: usize) -> usize
    ensures answer { result ≡ place_after out.old at (signed d) }
    ensures bytes { out.new ≡ written out.old at (signed d) }
{
    if d < 0 {
        let next = write_byte(b'-', out, at);
        return write_decimal(d.unsigned_abs() as usize, out, next);
    }
    write_decimal(d.unsigned_abs() as usize, out, at)
}
