// Reads files from standard input, each after its length, and writes a line for each: what the reading of it answers, and the end contents
// of the five lent lists. The files and the expected lines come from an independent program: tests/vectors/files.py.
#![tactic(auto)]

ghost use Rattle.std.specs.Prelude.{◌≤◌, length};

use refusals::Refusal;
use std::io;
use std::io::{BufReader, BufWriter, Read, Write};

// The steps of the reading: the header is tested before anything is lent, then come the counts and the mesh.
fn read(
    file: &[u8],
    list: &mut [u16; 35000],
    starts: &mut [u16; 4100],
    neighbours: &mut [u16; 32780],
    scratch: &mut [u16; 4100],
    counts: &mut [u16; 4100],
) -> Result<u32, Refusal>
    requires { length file.now ≤ 70000 }
{
    file_reading::test_header(file)?;
    file_reading::legal::counts::read_counts(file, counts)?;
    file_reading::legal::read_mesh(file, list, starts, neighbours, scratch)
}

fn say(output: &mut impl Write, answer: Result<u32, Refusal>) -> io::Result<()> {
    match answer {
        Ok(count) => test_vectors::accepted(output, &[u64::from(count)]),
        Err(refusal) => test_vectors::refused(output, u16::from(refusal)),
    }
}

fn fill(
    list: &mut [u16; 35000],
    starts: &mut [u16; 4100],
    neighbours: &mut [u16; 32780],
    scratch: &mut [u16; 4100],
    counts: &mut [u16; 4100],
) {
    test_vectors::fill(list);
    test_vectors::fill(starts);
    test_vectors::fill(neighbours);
    test_vectors::fill(scratch);
    test_vectors::fill(counts);
}

fn show(
    output: &mut impl Write,
    list: &[u16; 35000],
    starts: &[u16; 4100],
    neighbours: &[u16; 32780],
    scratch: &[u16; 4100],
    counts: &[u16; 4100],
) -> io::Result<()> {
    test_vectors::show(output, list)?;
    test_vectors::show(output, starts)?;
    test_vectors::show(output, neighbours)?;
    test_vectors::show(output, scratch)?;
    test_vectors::show(output, counts)?;
    test_vectors::end_line(output)
}

// The next file into the front of `file`, and its length, or NONE at the end of the input.
fn next(input: &mut impl Read, file: &mut [u8]) -> io::Result<usize> {
    let size = test_vectors::number(input)?;
    if file.len() < size {
        return Ok(test_vectors::NONE);
    }
    test_vectors::read_full(input, &mut file[..size])?;
    Ok(size)
}

// One file, and its line. False at the end of the input.
fn one(
    input: &mut impl Read,
    output: &mut impl Write,
    file: &mut [u8],
    list: &mut [u16; 35000],
    starts: &mut [u16; 4100],
    neighbours: &mut [u16; 32780],
    scratch: &mut [u16; 4100],
    counts: &mut [u16; 4100],
) -> io::Result<bool>
    requires { length file.old ≤ 70000 }
{
    let size = next(input, file)?;
    if file.len() < size {
        return Ok(false);
    }
    fill(list, starts, neighbours, scratch, counts);
    say(
        output,
        read(&file[..size], list, starts, neighbours, scratch, counts),
    )?;
    show(output, list, starts, neighbours, scratch, counts)?;
    Ok(true)
}

fn another(
    input: &mut impl Read,
    output: &mut impl Write,
    file: &mut [u8; 70000],
    list: &mut [u16; 35000],
    starts: &mut [u16; 4100],
    neighbours: &mut [u16; 32780],
    scratch: &mut [u16; 4100],
    counts: &mut [u16; 4100],
) -> io::Result<bool> {
    one(
        input, output, file, list, starts, neighbours, scratch, counts,
    )
}

// A proved loop has to end, and nothing says that the input does: so the files are counted down.
fn run(input: &mut impl Read, output: &mut impl Write) -> io::Result<()> {
    let mut file = [0u8; 70000];
    let mut list = [0u16; 35000];
    let mut starts = [0u16; 4100];
    let mut neighbours = [0u16; 32780];
    let mut scratch = [0u16; 4100];
    let mut counts = [0u16; 4100];
    for _ in 0..1000000 {
        if !another(
            input,
            output,
            &mut file,
            &mut list,
            &mut starts,
            &mut neighbours,
            &mut scratch,
            &mut counts,
        )? {
            return Ok(());
        }
    }
    Ok(())
}

// What a buffer still holds at the end is written before the program says that it succeeded.
fn main(rt: HostRuntime) -> io::Result<()> {
    let mut input = BufReader::new(rt.alloc(), rt.stdin())?;
    let mut output = BufWriter::new(rt.alloc(), rt.stdout())?;
    run(&mut input, &mut output)?;
    output.flush()
}
