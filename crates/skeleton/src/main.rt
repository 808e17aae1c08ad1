// Reads a sheet on standard input and prints its skeleton table, or the line of its refusal.
#![tactic(auto)]

use input::read_input;
use std::io;

// One byte more than a sheet may have, so that a longer one is refused.
const INPUT: usize = limits::TEXT + 1;

// Bytes of the printed text.
const TABLE: usize = 32768;

fn main(rt: HostRuntime) -> io::Result<()> {
    let mut input = [0u8; INPUT];
    let got = match read_input(&mut rt.stdin(), &mut input) {
        Ok(got) => got,
        Err(error) => return eprintln!(rt; "skeleton: standard input: {error}"),
    };
    let mut out = [0u8; TABLE];
    // The buffer has the room that is asked for, so the table is not refused.
    let length = table::skeleton_table(&input[..got], &mut out).unwrap();
    match rt.write_all(&out[..length]) {
        Ok(()) => Ok(()),
        Err(error) => eprintln!(rt; "skeleton: standard output: {error}"),
    }
}
