// The adjacency test, run: one line a case, its name and the answer. The file stdout has what document 01 says.
#![tactic(auto)]

ghost use Rattle.std.specs.Prelude.{◌<◌};

use std::io;
use std::io::Write;

// One line: the name and what the test answers.
fn say(output: &mut impl Write, name: &[u8], starts: &[u16], neighbours: &[u16]) -> io::Result<()> {
    output.write_all(name)?;
    match graph::test_adjacency(starts, neighbours) {
        Ok(()) => output.write_all(b": legal\n"),
        Err(refusal) => writeln!(output, ": refused {}", u16::from(refusal)),
    }
}

// n is counted from the start list: no word and one word give no node, 4,098 words one node too many.
fn few_starts(output: &mut impl Write) -> io::Result<()> {
    say(output, b"no starts", &[0u16; 0], &[0u16; 0])?;
    say(output, b"one start", &[0u16; 1], &[0u16; 0])?;
    say(output, b"one node", &[0u16; 2], &[0u16; 0])
}

fn many_starts(output: &mut impl Write) -> io::Result<()> {
    say(output, b"4,096 nodes", &[0u16; 4097], &[0u16; 0])?;
    say(output, b"4,097 nodes", &[0u16; 4098], &[0u16; 0])?;
    say(output, b"70,000 starts", &[0u16; 70000], &[0u16; 0])
}

fn many_neighbours(output: &mut impl Write) -> io::Result<()> {
    say(
        output,
        b"no starts, 70,000 neighbours",
        &[0u16; 0],
        &[0u16; 70000],
    )?;
    say(
        output,
        b"one node, 70,000 neighbours",
        &[0u16; 2],
        &[0u16; 70000],
    )?;
    say(output, b"32,769 neighbours", &[0u16, 32769], &[1u16; 32769])
}

fn wrong_ends(output: &mut impl Write) -> io::Result<()> {
    say(output, b"first start 1", &[1u16, 1, 2], &[2u16, 1])?;
    say(output, b"last start low", &[0u16, 1, 1], &[2u16, 1])?;
    say(output, b"last start high", &[0u16, 1, 3], &[2u16, 1])
}

fn wrong_starts(output: &mut impl Write) -> io::Result<()> {
    say(output, b"starts fall", &[0u16, 2, 1, 2], &[2u16, 1])?;
    say(output, b"all words 65,535", &[65535u16; 3], &[65535u16; 2])
}

fn words_outside(output: &mut impl Write) -> io::Result<()> {
    say(output, b"a word 0", &[0u16, 1, 2], &[0u16, 1])?;
    say(output, b"a word above n", &[0u16, 1, 2], &[2u16, 3])?;
    say(output, b"words 65,535", &[0u16, 1, 2], &[65535u16; 2])
}

fn wrong_rows(output: &mut impl Write) -> io::Result<()> {
    say(output, b"a row holds itself", &[0u16, 1], &[1u16])?;
    say(output, b"a word twice", &[0u16, 2, 4], &[2u16, 2, 1, 1])?;
    say(output, b"a row falls", &[0u16, 2, 3, 4], &[3u16, 2, 1, 1])
}

fn no_partners(output: &mut impl Write) -> io::Result<()> {
    say(output, b"rows {2}, {}", &[0u16, 1, 1], &[2u16])?;
    say(output, b"rows {}, {1}", &[0u16, 0, 1], &[1u16])?;
    say(output, b"a ring one way", &[0u16, 1, 2, 3], &[2u16, 3, 1])
}

fn partners(output: &mut impl Write) -> io::Result<()> {
    say(output, b"two that adjoin", &[0u16, 1, 2], &[2u16, 1])?;
    say(
        output,
        b"triangle",
        &[0u16, 2, 4, 6],
        &[2u16, 3, 1, 3, 1, 2],
    )
}

fn stars(output: &mut impl Write) -> io::Result<()> {
    say(output, b"star", &[0u16, 3, 4, 5, 6], &[2u16, 3, 4, 1, 1, 1])?;
    say(
        output,
        b"star, a leaf astray",
        &[0u16, 3, 4, 5, 6],
        &[2u16, 3, 4, 1, 1, 2],
    )
}

// Nodes by sixteens; of each sixteen the first eight adjoin the last eight. So each row has eight words.
fn fill_starts(starts: &mut [u16; 4097]) {
    for p in 0..4097 {
        starts[p] = (p * 8) as u16;
    }
}

// Word i stands in row i / 8 + 1, at i % 8.
fn word(i: usize) -> u16
    requires { i < 32768 }
{
    let p = i / 8;
    let first = p / 16 * 16 + 1;
    if p % 16 < 8 {
        (first + 8 + i % 8) as u16
    } else {
        (first + i % 8) as u16
    }
}

fn fill_neighbours(neighbours: &mut [u16; 32768]) {
    for i in 0..32768 {
        neighbours[i] = word(i);
    }
}

fn say_full(
    output: &mut impl Write,
    name: &[u8],
    starts: &[u16; 4097],
    neighbours: &[u16; 32768],
) -> io::Result<()> {
    say(output, name, starts, neighbours)
}

fn full(output: &mut impl Write) -> io::Result<()> {
    let mut starts = [0u16; 4097];
    let mut neighbours = [0u16; 32768];
    fill_starts(&mut starts);
    fill_neighbours(&mut neighbours);
    say_full(output, b"32,768 neighbours", &starts, &neighbours)?;
    // row 1 names 8 for 9, and row 8 doesn't hold 1
    neighbours[0] = 8;
    say_full(
        output,
        b"32,768 neighbours, one astray",
        &starts,
        &neighbours,
    )
}

fn run(output: &mut impl Write) -> io::Result<()> {
    few_starts(output)?;
    many_starts(output)?;
    many_neighbours(output)?;
    wrong_ends(output)?;
    wrong_starts(output)?;
    words_outside(output)?;
    wrong_rows(output)?;
    no_partners(output)?;
    partners(output)?;
    stars(output)?;
    full(output)
}

fn main(rt: HostRuntime) -> io::Result<()> {
    let mut output = rt.stdout();
    run(&mut output)
}
