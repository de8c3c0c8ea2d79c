// Runs the entry points on cases from standard input and writes a line for each: the answer, and the end contents of what was lent. The cases
// and the expected lines come from an independent program: tests/vectors/entry_points.py.
//
// A case: the call's number; four given lists (starts, neighbours, counts of unknowns, and a numbering, pairs or elements); a given node, or n; the
// lengths of four lent lists and of the lent bytes; then for the store map the length of its places, and for the call that takes a numbering
// from another tool three figures. A call leaves alone what it doesn't need.
#![tactic(auto)]

mod calls;

use std::io;
use std::io::{BufReader, BufWriter, Read, Write};

// One call.
fn run(
    input: &mut impl Read,
    output: &mut impl Write,
    call: usize,
    starts: &[u16],
    neighbours: &[u16],
    counts: &[u16],
    given: &[u16],
    node: usize,
    first: &mut [u16],
    second: &mut [u16],
    third: &mut [u16],
    fourth: &mut [u16],
    bytes: &mut [u8],
) -> io::Result<()> {
    match call {
        1 => calls::adjacency(output, starts, neighbours),
        2 => calls::rooted(output, starts, neighbours, node, first, second),
        3 => calls::ends(output, starts, neighbours, node, first),
        4 => calls::measures(output, starts, neighbours, counts, given, first),
        5 => calls::eliminate(output, starts, neighbours, counts, given, first, bytes),
        6 => calls::mesh(output, node, given, first, second, third),
        7 => calls::combined(output, starts, neighbours, node, first, second),
        10 => calls::part_report(output, starts, neighbours, counts, node, first),
        13 => calls::store_map(
            input, output, starts, neighbours, counts, given, first, second,
        ),
        14 => calls::import_numbering(
            input, output, starts, neighbours, counts, given, first, second,
        ),
        _ => calls::number(
            output, call, starts, neighbours, counts, first, second, third, fourth, bytes,
        ),
    }
}

// One call, and its line.
fn answer(
    input: &mut impl Read,
    output: &mut impl Write,
    call: usize,
    starts: &[u16],
    neighbours: &[u16],
    counts: &[u16],
    given: &[u16],
    node: usize,
    first: &mut [u16],
    second: &mut [u16],
    third: &mut [u16],
    fourth: &mut [u16],
    bytes: &mut [u8],
) -> io::Result<()> {
    run(
        input, output, call, starts, neighbours, counts, given, node, first, second, third, fourth,
        bytes,
    )?;
    test_vectors::show(output, first)?;
    test_vectors::show(output, second)?;
    test_vectors::show(output, third)?;
    test_vectors::show(output, fourth)?;
    test_vectors::show_bytes(output, bytes)?;
    test_vectors::end_line(output)
}

// A case whose given lists have been read.
fn lend(
    input: &mut impl Read,
    output: &mut impl Write,
    call: usize,
    starts: &[u16],
    neighbours: &[u16],
    counts: &[u16],
    given: &[u16],
    first: &mut [u16],
    second: &mut [u16],
    third: &mut [u16],
    fourth: &mut [u16],
    bytes: &mut [u8],
) -> io::Result<()> {
    let node = test_vectors::number(input)?;
    let a = test_vectors::lend(input, first)?;
    let b = test_vectors::lend(input, second)?;
    let c = test_vectors::lend(input, third)?;
    let d = test_vectors::lend(input, fourth)?;
    let e = test_vectors::lend_bytes(input, bytes)?;
    answer(
        input,
        output,
        call,
        starts,
        neighbours,
        counts,
        given,
        node,
        &mut first[..a],
        &mut second[..b],
        &mut third[..c],
        &mut fourth[..d],
        &mut bytes[..e],
    )
}

// One case. False at the end of the input.
fn one(
    input: &mut impl Read,
    output: &mut impl Write,
    starts: &mut [u16],
    neighbours: &mut [u16],
    counts: &mut [u16],
    given: &mut [u16],
    first: &mut [u16],
    second: &mut [u16],
    third: &mut [u16],
    fourth: &mut [u16],
    bytes: &mut [u8],
) -> io::Result<bool> {
    let call = test_vectors::number(input)?;
    if call == test_vectors::NONE {
        return Ok(false);
    }
    let a = test_vectors::read(input, starts)?;
    let b = test_vectors::read(input, neighbours)?;
    let c = test_vectors::read(input, counts)?;
    let d = test_vectors::read(input, given)?;
    lend(
        input,
        output,
        call,
        &starts[..a],
        &neighbours[..b],
        &counts[..c],
        &given[..d],
        first,
        second,
        third,
        fourth,
        bytes,
    )?;
    Ok(true)
}

fn another(
    input: &mut impl Read,
    output: &mut impl Write,
    starts: &mut [u16; 33000],
    neighbours: &mut [u16; 33000],
    counts: &mut [u16; 33000],
    given: &mut [u16; 70000],
    first: &mut [u16; 33000],
    second: &mut [u16; 33000],
    third: &mut [u16; 33000],
    fourth: &mut [u16; 33000],
    bytes: &mut [u8; 40000],
) -> io::Result<bool> {
    one(
        input, output, starts, neighbours, counts, given, first, second, third, fourth, bytes,
    )
}

// A proved loop has to end, and nothing says that the input does: so the cases are counted down.
fn run_all(input: &mut impl Read, output: &mut impl Write) -> io::Result<()> {
    let mut starts = [0u16; 33000];
    let mut neighbours = [0u16; 33000];
    let mut counts = [0u16; 33000];
    let mut given = [0u16; 70000];
    let mut first = [0u16; 33000];
    let mut second = [0u16; 33000];
    let mut third = [0u16; 33000];
    let mut fourth = [0u16; 33000];
    let mut bytes = [0u8; 40000];
    for _ in 0..100000000 {
        if !another(
            input,
            output,
            &mut starts,
            &mut neighbours,
            &mut counts,
            &mut given,
            &mut first,
            &mut second,
            &mut third,
            &mut fourth,
            &mut bytes,
        )? {
            return Ok(());
        }
    }
    Ok(())
}

// What a buffer still holds at the end is written before the program says that it succeeded.
fn main(rt: HostRuntime) -> io::Result<()> {
    let mut input = BufReader::new(rt.alloc(), rt.stdin())?;
    let mut output = BufWriter::new(rt.alloc(), rt.stdout())?;
    run_all(&mut input, &mut output)?;
    output.flush()
}
