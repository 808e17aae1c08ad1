// A reader, read whole into lent memory.
#![tactic(auto)]

ghost use Rattle.std.specs.Prelude.{ℕ, ◌<◌, ◌≤◌, length, take, IfOk, OnErr};
ghost use Rattle.std.specs.Io.KnownBytes.{Consumes, IsAtEnd};

use std::io;
use std::io::Read;

// Reads until the input ends or `input` is full; answers how many bytes came, or the error of a read that failed. What was read stands at the
// start of `input`, after an error too.
pub fn read_input<R: Read>(reader: &mut R, input: &mut [u8]) -> io::Result<usize>
    ensures inside { IfOk result (λ n. n ≤ length input.old) }
    ensures bytes { IfOk result (λ n. Consumes (R.remaining reader.old) (R.remaining reader.new) (take n input.new)) }
    ensures whole { IfOk result (λ n. n < length input.old → IsAtEnd (R.remaining reader.new)) }
    ensures failed { OnErr result ((n : ℕ) × (n ≤ length input.old) × Consumes (R.remaining reader.old) (R.remaining reader.new) (take n input.new)) }
{
    let mut done = 0;
    // The library's `read_to_end` allocates, and its `read_exact` fails where the input ends early.
    while done < input.len() {
        let more = reader.read(&mut input[done..])?;
        if more == 0 {
            return Ok(done);
        }
        done += more;
    }
    Ok(done)
}
