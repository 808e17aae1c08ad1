// Names members of small families, and runs into each refusal.
#![tactic(auto)]

use limits::Level;
use naming::Kind;
use refusal::Refusal;
use std::io;

mod tables;

fn main(rt: HostRuntime) -> io::Result<()> {
    one_plot(&rt)?;
    merged(&rt)?;
    two_columns(&rt)?;
    three_columns(&rt)?;
    hidden_column(&rt)?;
    both_kinds(&rt)?;
    suprema(&rt)?;
    equivalents(&rt)?;
    coarsest(&rt)?;
    infimum_first(&rt)?;
    refusals(&rt)?;
    sizes(&rt)
}

// Names the members at places 1 to `size` of a family.
fn trial(
    rt: &impl Print,
    title: &[u8],
    text: &[u8],
    plots: usize,
    levels: &[u8],
    size: usize,
    digits: &[u8],
    kind: Kind,
) -> io::Result<()> {
    let mut table: [Level; 2880] = [1; 2880];
    let mut family = [1u8; 7680];
    tables::fill(&mut table, plots, levels);
    tables::fill(&mut family, plots, digits);
    rt.write_all(title)?;
    for place in 1..=size {
        member(rt, text, &table, &family, plots, size, kind, place)?;
    }
    Ok(())
}

// Names the member at one place.
fn member(
    rt: &impl Print,
    text: &[u8],
    table: &[Level; 2880],
    family: &[u8; 7680],
    plots: usize,
    size: usize,
    kind: Kind,
    place: usize,
) -> io::Result<()> {
    let mut name = [46u8; 161];
    let answer = naming::member_name(text, table, family, plots, size, kind, place, &mut name);
    show(rt, answer, &name)
}

// One answer: the name and the byte past it, or the refusal and the first byte of the buffer.
fn show(rt: &impl Print, answer: Result<usize, Refusal>, name: &[u8]) -> io::Result<()> {
    match answer {
        Ok(length) => {
            if let Some(shown) = name.get(..=length) {
                rt.write_all(shown)?;
            }
        }
        Err(refusal) => {
            rt.write_all(b"refused ")?;
            rt.print(refusal.number() as u64)?;
            if let Some(first) = name.get(..1) {
                rt.write_all(first)?;
            }
        }
    }
    rt.write_all(b"\n")
}

fn one_plot(rt: &impl Print) -> io::Result<()> {
    trial(rt, b"one plot\n", b"p:Aa\n", 1, b"7", 1, b"1", Kind::Plot)
}

// Two equivalent columns: the lower one names the member.
fn merged(rt: &impl Print) -> io::Result<()> {
    trial(
        rt,
        b"two equivalent columns\n",
        b"p:Ax\tp:Bx\n",
        4,
        b"55991122",
        3,
        b"111111221234",
        Kind::Plot,
    )
}

// The second member is the supremum of the two columns.
fn two_columns(rt: &impl Print) -> io::Result<()> {
    trial(
        rt,
        b"two columns of eight plots\n",
        b"p:Blk\tp:Plt\n",
        8,
        b"1122334412123434",
        5,
        b"1111111111112222112233441212343412345678",
        Kind::Plot,
    )
}

// Every two of the columns have the same infimum: all three are listed.
fn three_columns(rt: &impl Print) -> io::Result<()> {
    trial(
        rt,
        b"three columns of eight plots\n",
        b"p:Aa\tp:Bb\tp:Cc\n",
        8,
        b"111122221122112211222211",
        6,
        b"111111111111222211221122112222111122334412345678",
        Kind::Plot,
    )
}

// The first column is coarser than the second, which is listed.
fn hidden_column(rt: &impl Print) -> io::Result<()> {
    trial(
        rt,
        b"a column that a finer one hides\n",
        b"p:Aa\tp:Bb\tp:Cc\n",
        12,
        b"111111222222111222333444112112112112",
        5,
        b"111111111111111111222222112112112112111222333444112334556778",
        Kind::Plot,
    )
}

// Each kind by its own columns, a plot column and two treatment columns. Columns 1 to 5 of the table are not used.
fn both_kinds(rt: &impl Print) -> io::Result<()> {
    let digits = b"1111222200000000000000000000000000000000000000001122112211112222";
    let family = b"1111111111112222112211221122334412345678";
    trial(
        rt,
        b"plot names\n",
        b"t:Trt\tp:Hut\tt:Sex\n",
        8,
        digits,
        5,
        family,
        Kind::Plot,
    )?;
    trial(
        rt,
        b"treatment names\n",
        b"t:Trt\tp:Hut\tt:Sex\n",
        8,
        digits,
        5,
        family,
        Kind::Treatment,
    )
}

// A plot and a treatment column: a treatment member looks at both, a plot member at the first.
fn suprema(rt: &impl Print) -> io::Result<()> {
    let digits = b"11223344000000000000000000000000000000000000000012123434";
    let family = b"11111111111122221122334412345678";
    trial(
        rt,
        b"treatment members, by both kinds\n",
        b"p:Hut\tt:Gain\n",
        8,
        digits,
        4,
        family,
        Kind::Treatment,
    )?;
    trial(
        rt,
        b"plot members, by plot columns\n",
        b"p:Hut\tt:Gain\n",
        8,
        digits,
        4,
        family,
        Kind::Plot,
    )
}

// Of an equivalent plot and treatment column the plot column is listed.
fn equivalents(rt: &impl Print) -> io::Result<()> {
    trial(
        rt,
        b"an equivalent column of the other kind\n",
        b"t:Gain\tp:Hut\tp:Pier\n",
        8,
        b"11223344121234340000000000000000000000000000000022114433",
        3,
        b"111111111111222212345678",
        Kind::Treatment,
    )
}

// The first column is finer than the others, which are listed; the last is not finer than the member.
fn coarsest(rt: &impl Print) -> io::Result<()> {
    trial(
        rt,
        b"a column that a coarser one hides\n",
        b"p:Plt\tp:Hut\tt:Gain\tt:Kind\n",
        8,
        b"1234567811223344000000000000000000000000000000001212343412121212",
        3,
        b"111111111111222212345678",
        Kind::Treatment,
    )
}

// The second member is a plot column, but the infimum of treatment columns comes first.
fn infimum_first(rt: &impl Print) -> io::Result<()> {
    trial(
        rt,
        b"an infimum before a supremum\n",
        b"p:Hut\tt:Gain\tt:Kind\n",
        8,
        b"1212343400000000000000000000000000000000000000001111222212121212",
        3,
        b"111111111212343412345678",
        Kind::Treatment,
    )
}

fn refusals(rt: &impl Print) -> io::Result<()> {
    trial(rt, b"no text\n", b"", 4, b"0000", 1, b"2211", Kind::Plot)?;
    trial(
        rt,
        b"an unended line\n",
        b"p:Hut",
        4,
        b"0000",
        1,
        b"2211",
        Kind::Plot,
    )?;
    trial(
        rt,
        b"a line, then anything\n",
        b"p:Hut\nrubbish",
        2,
        b"12",
        2,
        b"1112",
        Kind::Plot,
    )?;
    trial(
        rt,
        b"no plots\n",
        b"p:Hut\n",
        0,
        b"0000",
        1,
        b"2211",
        Kind::Plot,
    )?;
    trial(
        rt,
        b"a level of 0\n",
        b"p:Hut\n",
        4,
        b"1202",
        1,
        b"2211",
        Kind::Plot,
    )?;
    trial(
        rt,
        b"a level of 0 in a plot column, a treatment member\n",
        b"p:Hut\n",
        4,
        b"1202",
        1,
        b"1111",
        Kind::Treatment,
    )?;
    trial(
        rt,
        b"a level of 0 in a treatment column, a plot member\n",
        b"p:Hut\tt:Gain\n",
        4,
        b"1212000000000000000000001202",
        1,
        b"1111",
        Kind::Plot,
    )?;
    trial(
        rt,
        b"a family not numbered\n",
        b"p:Hut\n",
        4,
        b"1212",
        1,
        b"2211",
        Kind::Plot,
    )?;
    trial(
        rt,
        b"a family not in order\n",
        b"p:Hut\n",
        4,
        b"1212",
        2,
        b"12341122",
        Kind::Plot,
    )
}

// Sizes and places past the limits, and a name buffer that is too short.
fn sizes(rt: &impl Print) -> io::Result<()> {
    rt.write_all(b"sizes and places\n")?;
    placed(rt, 1, 0)?;
    placed(rt, 0, 1)?;
    placed(rt, 33, 33)?;
    placed(rt, 33, 34)?;
    placed(rt, 1, 1)?;
    short_buffer(rt)
}

// One place of a family whose members have one plot.
fn placed(rt: &impl Print, size: usize, place: usize) -> io::Result<()> {
    let table: [Level; 2880] = [1; 2880];
    let family = [1u8; 7680];
    member(rt, b"p:Hut\n", &table, &family, 1, size, Kind::Plot, place)
}

// A name buffer of 159 bytes.
fn short_buffer(rt: &impl Print) -> io::Result<()> {
    let table: [Level; 2880] = [1; 2880];
    let family = [1u8; 7680];
    let mut name = [46u8; 159];
    let answer = naming::member_name(b"p:Hut\n", &table, &family, 1, 1, Kind::Plot, 1, &mut name);
    show(rt, answer, &name)
}
