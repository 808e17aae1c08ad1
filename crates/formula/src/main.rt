// Reads a block formula on standard input and prints its sheet, or the line of its refusal. One byte 10 at the end of the input is no part of the
// formula.
#![tactic(auto)]

ghost use Rattle.std.specs.Prelude.{◌≡◌, ◌≤◌, length, take};
ghost use Rattle.decimal.specs.Writing.{Wrote};
ghost use Rattle.formula.specs.Input.{without_end, formula_text};

use input::read_input;
use refusal::Refusal;
use std::io;

// A formula that is one byte too long, and the byte 10 after it.
const INPUT: usize = limits::FORMULA + 2;

// How many bytes of the input are the formula.
#[tactic(auto, unfolding(crate::specs::Input::without_end))]
fn formula_size(input: &[u8]) -> usize
    ensures formula { take result input.now ≡ without_end input.now }
    ensures inside { result ≤ length input.now }
{
    let n = input.len();
    if n == 0 {
        return 0;
    }
    if input[n - 1] == b'\n' {
        return n - 1;
    }
    n
}

// Writes what is printed for an input.
fn print(input: &[u8], out: &mut [u8]) -> usize
    ensures { Wrote out.old 0 (formula_text input.now (length out.old)) out.new result }
{
    let size = formula_size(input);
    let answer = block_formula::expand(&input[..size], out).map_err(Refusal::number);
    table::put_answer(answer, out)
}

fn main(rt: HostRuntime) -> io::Result<()> {
    let mut input = [0u8; INPUT];
    let got = match read_input(&mut rt.stdin(), &mut input) {
        Ok(got) => got,
        Err(error) => return eprintln!(rt; "formula: standard input: {error}"),
    };
    let mut out = [0u8; limits::TEXT];
    let size = print(&input[..got], &mut out);
    match rt.write_all(&out[..size]) {
        Ok(()) => Ok(()),
        Err(error) => eprintln!(rt; "formula: standard output: {error}"),
    }
}
