// Runs the sheet reader on small, damaged and large sheets. A line of the output is the case, the answer, how many cells of the
// level table changed, and the first of these as place=level. The expected output was worked out from the rules.
#![tactic(auto)]

use limits::Level;
use refusal::Refusal;
use sheet::Counts;
use std::io;

// What each cell of a level table holds before a reading. No case has this level.
const UNTOUCHED: Level = 9999;

// How many changed cells a case prints at most.
const SHOWN: usize = 12;

fn main(rt: HostRuntime) -> io::Result<()> {
    samples(&rt)?;
    names(&rt)?;
    equal_names(&rt)?;
    column_counts(&rt)?;
    unended(&rt)?;
    tabs(&rt)?;
    level_range(&rt)?;
    past_the_highest(&rt)?;
    level_form(&rt)?;
    odd_bytes(&rt)?;
    line_counts(&rt)?;
    lengths(&rt)?;
    long_fields(&rt)?;
    short_table(&rt)
}

fn samples(rt: &impl Print) -> io::Result<()> {
    case(rt, b"sample|p:Hut\tt:Gain\n1\t1\n1\t2\n2\t1\n2\t2\n")?;
    case(rt, b"treatments first|t:Gain\tp:Hut\tt:Cable\n7\t8\t9\n")?;
    case(
        rt,
        b"one bad level after good ones|p:Hut\tt:Gain\n5\t6\n7\t0\n",
    )
}

fn names(rt: &impl Print) -> io::Result<()> {
    case(rt, b"name of one letter|p:A\n1\n")?;
    case(rt, b"name of two|p:A1\n1\n")?;
    case(rt, b"name of twelve|p:Abcdefghij12\n1\n")?;
    case(rt, b"name of thirteen|p:Abcdefghij123\n1\n")?;
    case(rt, b"name with a digit first|p:1A\n1\n")?;
    case(rt, b"no name|p:\n1\n")?;
    case(rt, b"no colon|pHut\n1\n")?;
    case(rt, b"capital kind|P:Hut\n1\n")
}

fn equal_names(rt: &impl Print) -> io::Result<()> {
    case(rt, b"equal names of two kinds|p:Ab\tt:Ab\n1\t1\n")?;
    case(
        rt,
        b"equal names, first and last|p:Ab\tp:Ac\tt:Ab\n1\t1\t1\n",
    )?;
    case(rt, b"names of another case|p:Ab\tp:AB\n1\t1\n")?;
    case(rt, b"name that starts another|p:Ab\tp:Abc\n1\t1\n")
}

fn column_counts(rt: &impl Print) -> io::Result<()> {
    case(rt, b"no columns|\n1\n")?;
    case(
        rt,
        b"six and six|p:P1\tp:P2\tp:P3\tp:P4\tp:P5\tp:P6\tt:T1\tt:T2\tt:T3\tt:T4\tt:T5\tt:T6\n1\t2\t3\t4\t5\t6\t7\t8\t9\t10\t11\t12\n",
    )?;
    case(
        rt,
        b"seven plot columns|p:P1\tp:P2\tp:P3\tp:P4\tp:P5\tp:P6\tp:P7\n1\t2\t3\t4\t5\t6\t7\n",
    )?;
    case(
        rt,
        b"twenty columns|p:P1\tp:P2\tp:P3\tp:P4\tp:P5\tp:P6\tp:P7\tp:P8\tp:P9\tp:Pa\tt:T1\tt:T2\tt:T3\tt:T4\tt:T5\tt:T6\tt:T7\tt:T8\tt:T9\tt:Ta\n",
    )?;
    case(
        rt,
        b"seven treatment columns|t:T1\tt:T2\tt:T3\tt:T4\tt:T5\tt:T6\tt:T7\n1\t2\t3\t4\t5\t6\t7\n",
    )
}

fn unended(rt: &impl Print) -> io::Result<()> {
    case(rt, b"empty text|")?;
    case(rt, b"newline alone|\n")?;
    case(rt, b"first line unended|p:Hut")?;
    case(rt, b"first line alone|p:Hut\n")?;
    case(rt, b"last line unended|p:Hut\n1\n2")?;
    case(rt, b"tab at the unended end|p:Hut\n1\n2\t")?;
    case(rt, b"empty line last|p:Hut\n1\n\n")?;
    case(rt, b"empty line between|p:Hut\n1\n\n1\n")
}

fn tabs(rt: &impl Print) -> io::Result<()> {
    case(rt, b"tab before the first column|\tp:Hut\n1\n")?;
    case(rt, b"tab after the last column|p:Hut\t\n1\t1\n")?;
    case(rt, b"tab before a level|p:Hut\n\t1\n")?;
    case(rt, b"tab after a level|p:Hut\n1\t\n")?;
    case(rt, b"two tabs|p:Hut\tp:Pier\n1\t\t1\n")?;
    case(rt, b"too few fields|p:Hut\tp:Pier\n1\n")?;
    case(rt, b"too many fields|p:Hut\tp:Pier\n1\t1\t1\n")
}

fn level_range(rt: &impl Print) -> io::Result<()> {
    case(rt, b"0|p:Hut\n0\n")?;
    case(rt, b"65535|p:Hut\n65535\n")?;
    case(rt, b"65536|p:Hut\n65536\n")?;
    case(rt, b"131073|p:Hut\n131073\n")?;
    case(rt, b"1000000000|p:Hut\n1000000000\n")?;
    case(rt, b"4294967295|p:Hut\n4294967295\n")?;
    case(rt, b"labels 2^16 apart|p:Hut\n1\n65537\n4294901761\n")
}

fn past_the_highest(rt: &impl Print) -> io::Result<()> {
    case(rt, b"4294967296|p:Hut\n4294967296\n")?;
    case(rt, b"4294967297|p:Hut\n4294967297\n")?;
    case(rt, b"9999999999|p:Hut\n9999999999\n")?;
    case(rt, b"10000000000|p:Hut\n10000000000\n")?;
    case(rt, b"18446744073709551617|p:Hut\n18446744073709551617\n")
}

fn level_form(rt: &impl Print) -> io::Result<()> {
    case(rt, b"00|p:Hut\n00\n")?;
    case(rt, b"01|p:Hut\n01\n")?;
    case(rt, b"10|p:Hut\n10\n")?;
    case(rt, b"+1|p:Hut\n+1\n")?;
    case(rt, b"1.|p:Hut\n1.\n")?;
    case(rt, b"1 and a blank|p:Hut\n1 \n")?;
    case(rt, b"a letter|p:Hut\nA\n")
}

fn odd_bytes(rt: &impl Print) -> io::Result<()> {
    case(rt, b"return in the first line|p:Hut\r\n1\n")?;
    case(rt, b"return in a later line|p:Hut\n1\r\n")?;
    case(rt, b"byte 0 in a name|p:Hu\0t\n1\n")?;
    case(rt, b"byte 0 after a level|p:Hut\n1\0\n")?;
    case(rt, b"byte 255 in a name|p:Hu\xfft\n1\n")?;
    case(rt, b"byte 177 as a level|p:Hut\n\xb1\n")
}

// How many lines: each is the level 2, but for the last digit.
fn line_counts(rt: &impl Print) -> io::Result<()> {
    many(rt, b"240 lines", 486, b'2')?;
    many(rt, b"241 lines", 488, b'2')?;
    many(rt, b"240 lines and a bad one", 488, b'0')?;
    many(rt, b"241 lines and a bad one", 490, b'0')?;
    many(rt, b"239 lines and one unended", 485, b'2')?;
    many(rt, b"240 lines and one unended", 487, b'2')
}

fn lengths(rt: &impl Print) -> io::Result<()> {
    many(rt, b"32768 bytes", 32768, b'2')?;
    many(rt, b"32769 bytes", 32769, b'2')?;
    many(rt, b"32768 bytes, a bad last line", 32768, b'/')
}

fn long_fields(rt: &impl Print) -> io::Result<()> {
    long(rt, b"a level of digits", b'1', b'\n')?;
    long(rt, b"a name of letters", b'A', b'A')?;
    long(rt, b"a first line of tabs", b'\t', b'\t')
}

fn short_table(rt: &impl Print) -> io::Result<()> {
    rt.write_all(b"short table and empty text\t")?;
    let mut table = [UNTOUCHED; 2879];
    print(rt, sheet::read_sheet(b"", &mut table))?;
    changes(rt, &table)
}

// Reads the first `len` bytes of `p:Hut` and lines of the level 2, the last digit replaced by `last`.
fn many(rt: &impl Print, label: &[u8], len: usize, last: u8) -> io::Result<()> {
    let mut text = start(b'2', b'\n');
    end_lines(&mut text);
    put(&mut text, len, last);
    show_part(rt, label, &text, len)
}

// Puts a newline at every second place from 7 on.
fn end_lines(text: &mut [u8]) {
    for x in text.iter_mut().skip(7).step_by(2) {
        *x = b'\n';
    }
}

// Puts `x` at the last even place but one before `len`.
fn put(text: &mut [u8], len: usize, x: u8) {
    if let Some(at) = (len / 2 * 2).checked_sub(2) {
        if let Some(place) = text.get_mut(at) {
            *place = x;
        }
    }
}

// Reads `p:Hut` and `end`, 32,000 times the byte `x`, a newline, level 1 and a newline.
fn long(rt: &impl Print, label: &[u8], x: u8, end: u8) -> io::Result<()> {
    let mut text = start(x, end);
    text[32006] = b'\n';
    text[32007] = b'1';
    text[32008] = b'\n';
    show_part(rt, label, &text, 32009)
}

// Reads the first `len` bytes.
fn show_part(rt: &impl Print, label: &[u8], text: &[u8], len: usize) -> io::Result<()> {
    match text.get(..len) {
        Some(part) => show(rt, label, part),
        None => Ok(()),
    }
}

// `p:Hut` and the byte `end`, and then the byte `x` over and over.
fn start(x: u8, end: u8) -> [u8; 32770] {
    let mut text = [x; 32770];
    text[..5].copy_from_slice(b"p:Hut");
    text[5] = end;
    text
}

// Runs a case: its label, `|` and the text.
fn case(rt: &impl Print, s: &[u8]) -> io::Result<()> {
    match s.iter().position(|&x| x == b'|') {
        Some(bar) => show(rt, &s[..bar], &s[bar + 1..]),
        None => Ok(()),
    }
}

// Prints a case: its label, the answer and what changed in a level table that is longer than the reader asks.
fn show(rt: &impl Print, label: &[u8], text: &[u8]) -> io::Result<()> {
    let mut table = [UNTOUCHED; 3000];
    rt.write_all(label)?;
    rt.write_all(b"\t")?;
    print(rt, sheet::read_sheet(text, &mut table))?;
    changes(rt, &table)
}

// Prints how many cells changed, and the first twelve as place=level.
fn changes(rt: &impl Print, table: &[Level]) -> io::Result<()> {
    rt.write_all(b"\t")?;
    rt.print(table.iter().filter(|&&x| x != UNTOUCHED).count() as u64)?;
    for (i, &x) in table
        .iter()
        .enumerate()
        .filter(|&(_, &x)| x != UNTOUCHED)
        .take(SHOWN)
    {
        rt.write_all(b" ")?;
        rt.print(i as u64)?;
        rt.write_all(b"=")?;
        rt.print(x as u64)?;
    }
    rt.write_all(b"\n")
}

// Prints the counts, or the refusal.
fn print(rt: &impl Print, answer: Result<Counts, Refusal>) -> io::Result<()> {
    match answer {
        Ok(counts) => {
            rt.write_all(b"read ")?;
            rt.print(counts.plots as u64)?;
            rt.write_all(b" ")?;
            rt.print(counts.plot_columns as u64)?;
            rt.write_all(b" ")?;
            rt.print(counts.treatment_columns as u64)
        }
        Err(refusal) => {
            rt.write_all(b"refused ")?;
            rt.print(refusal.number() as u64)
        }
    }
}
