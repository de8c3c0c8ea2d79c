// Document 01's program: reads a file from standard input and prints its listing, or the line of a refusal.
#![tactic(auto)]

ghost use Rattle.std.specs.Prelude.{◌≡◌, ℕ, ◌+◌, ◌<◌, ◌≤◌, length, take, drop, IfOk, IfSome, OnOk, OnErr};
ghost use Rattle.std.specs.Io.KnownBytes.{Appends, Consumes, IsAtEnd, Keeps};
ghost use Rattle.spec.specs.File.{program_output};

use std::io;
use std::io::{ErrorKind, Read, Write};

// One read into the bytes behind the first `size`. It gives none only at the end of the input.
fn read_behind<R: Read>(input: &mut R, bytes: &mut [u8], size: usize) -> io::Result<usize>
    requires { size < length bytes.old }
    ensures fits { IfOk result (λ n. size + n ≤ length bytes.new) }
    ensures front { take size bytes.new ≡ take size bytes.old }
    ensures next { IfOk result (λ n. Consumes (R.remaining input.old) (R.remaining input.new) (take n (drop size bytes.new))) }
    ensures end { IfOk result (λ n. n ≡ 0 → IsAtEnd (R.remaining input.new)) }
    ensures err { OnErr result (Keeps (R.remaining input.old) (R.remaining input.new)) }
{
    input.read(&mut bytes[size..])
}

// Reads until the bytes are full or the input ends, and returns how many it read.
fn read_full<R: Read>(input: &mut R, bytes: &mut [u8]) -> io::Result<usize>
    ensures bound { IfOk result (λ n. n ≤ length bytes.new) }
    ensures value { IfOk result (λ n. IfSome (R.remaining input.old) (λ file. take n bytes.new ≡ take (length bytes.new) file)) }
{
    let mut size = 0;
    // A while: a step takes as many bytes as one read gives.
    while size < bytes.len() {
        let n = read_behind(input, bytes, size)?;
        if n == 0 {
            return Ok(size);
        }
        size += n;
    }
    Ok(size)
}

// Writes all the bytes. Where it fails, or the output takes no more, a front of them has been written.
fn write_full<W: Write>(output: &mut W, bytes: &[u8]) -> io::Result<()>
    ensures all { OnOk result (Appends (W.contents output.old) (W.contents output.new) bytes.now) }
    ensures front { (n : ℕ) × Appends (W.contents output.old) (W.contents output.new) (take n bytes.now) }
{
    let mut size = 0;
    // A while: a step takes as many bytes as one write takes.
    while size < bytes.len() {
        let n = output.write(&bytes[size..])?;
        if n == 0 {
            return Err(io::Error::from(ErrorKind::WriteZero));
        }
        size += n;
    }
    Ok(())
}

// The text of a file, at the front of the output, and its length. There is room for the greatest file.
fn text(
    file: &[u8],
    words: &mut [u16; 32763],
    starts: &mut [u16; 4097],
    neighbours: &mut [u16; 32768],
    scratch: &mut [u16; 24576],
    numbers: &mut [u16; 4096],
    levels: &mut [u16; 4096],
    passes: &mut [u16; 4096],
    counts: &mut [u16; 4096],
    output: &mut [u8; 61544],
) -> usize
    ensures bound { result ≤ length output.new }
    ensures output_value { take result output.new ≡ program_output file.now }
{
    let bytes = file_listing::legal::list_file(
        file, words, starts, neighbours, scratch, numbers, levels, passes, counts, output,
    );
    bytes
}

// The whole program: what it writes is the text of all that it reads, and a front of that text where reading or writing fails. One byte more than a
// file may have is read, so that a longer file is seen to be too long.
fn run<R: Read, W: Write>(input: &mut R, output: &mut W) -> io::Result<()>
    ensures all { OnOk result (IfSome (R.remaining input.old) (λ file. Appends (W.contents output.old) (W.contents output.new) (program_output file))) }
    ensures front { IfSome (R.remaining input.old) (λ file. (n : ℕ) × Appends (W.contents output.old) (W.contents output.new) (take n (program_output file))) }
{
    let mut file = [0u8; 65536];
    let mut words = [0u16; 32763];
    let mut starts = [0u16; 4097];
    let mut neighbours = [0u16; 32768];
    let mut scratch = [0u16; 24576];
    let mut numbers = [0u16; 4096];
    let mut levels = [0u16; 4096];
    let mut passes = [0u16; 4096];
    let mut counts = [0u16; 4096];
    let mut lines = [0u8; 61544];
    let size = read_full(input, &mut file)?;
    let bytes = text(
        &file[..size],
        &mut words,
        &mut starts,
        &mut neighbours,
        &mut scratch,
        &mut numbers,
        &mut levels,
        &mut passes,
        &mut counts,
        &mut lines,
    );
    write_full(output, &lines[..bytes])
}

fn main(rt: HostRuntime) -> io::Result<()> {
    run(&mut rt.stdin(), &mut rt.stdout())
}
