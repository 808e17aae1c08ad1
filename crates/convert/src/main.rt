// Reads an old sheet, numbered within a parent, on standard input and prints the sheet that it is converted to, or the line of its refusal.
#![tactic(auto)]

ghost use Rattle.std.specs.Prelude.{length};
ghost use Rattle.rules.specs.Parents.{conversion};
ghost use Rattle.decimal.specs.Writing.{Wrote};
ghost use Rattle.writer.specs.Answers.{answer_text};

use input::read_input;
use refusal::Refusal;
use std::io;

// One byte more than a sheet may have, so that a longer one is refused.
const INPUT: usize = limits::TEXT + 1;

// Writes what is printed for an old sheet.
fn print(old: &[u8], out: &mut [u8]) -> usize
    ensures { Wrote out.old 0 (answer_text (conversion old.now (length out.old))) out.new result }
{
    let answer = conversion::convert(old, out).map_err(Refusal::number);
    table::put_answer(answer, out)
}

fn main(rt: HostRuntime) -> io::Result<()> {
    let mut input = [0u8; INPUT];
    let got = match read_input(&mut rt.stdin(), &mut input) {
        Ok(got) => got,
        Err(error) => return eprintln!(rt; "convert: standard input: {error}"),
    };
    let mut out = [0u8; limits::TEXT];
    let size = print(&input[..got], &mut out);
    match rt.write_all(&out[..size]) {
        Ok(()) => Ok(()),
        Err(error) => eprintln!(rt; "convert: standard output: {error}"),
    }
}
