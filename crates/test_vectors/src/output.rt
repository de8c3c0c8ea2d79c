// Answers and end contents of lent buffers as text.
ghost use Rattle.std.specs.Prelude.{◌<◌, ◌≤◌, length};

use crate::lent::pattern;
use std::io;
use std::io::Write;

fn write_number(output: &mut impl Write, x: u64) -> io::Result<()> {
    write!(output, " {x}")
}

pub fn refused(output: &mut impl Write, number: u16) -> io::Result<()> {
    output.write_all(b"refused")?;
    write_number(output, u64::from(number))
}

pub fn accepted(output: &mut impl Write, figures: &[u64]) -> io::Result<()> {
    output.write_all(b"accepted")?;
    for &x in figures {
        write_number(output, x)?;
    }
    Ok(())
}

pub fn end_line(output: &mut impl Write) -> io::Result<()> {
    output.write_all(b"\n")
}

// How many words there are up to the last one that isn't as it was lent.
fn changed(words: &[u16]) -> usize
    ensures { result ≤ length words.now }
{
    for i in (0..words.len()).rev() {
        if words[i] != pattern(i) {
            return i + 1;
        }
    }
    0
}

// One step of a checksum, modulo the greatest prime below 2^32.
fn step(sum: u64, x: u32) -> u64
    requires { sum < 4294967291 }
    ensures { result < 4294967291 }
{
    (31 * sum + u64::from(x)) % 4294967291
}

// A number that tells long lists apart.
fn checksum<T: Copy + Into<u32>>(items: &[T]) -> u64 {
    let mut sum: u64 = 1;
    for &x in items {
        sum = step(sum, x.into());
    }
    sum
}

// How many items follow, and these: one by one, or by a checksum where they are many.
pub(crate) fn write_items<T: Copy + Into<u32>>(
    output: &mut impl Write,
    items: &[T],
) -> io::Result<()> {
    output.write_all(b";")?;
    write_number(output, items.len() as u64)?;
    if 120 < items.len() {
        output.write_all(b" sum")?;
        return write_number(output, checksum(items));
    }
    for &x in items {
        let x: u32 = x.into();
        write_number(output, u64::from(x))?;
    }
    Ok(())
}

// The words up to the last that isn't as it was lent. All behind them are untouched.
pub fn show(output: &mut impl Write, words: &[u16]) -> io::Result<()> {
    write_items(output, &words[..changed(words)])
}

pub fn show_bytes(output: &mut impl Write, bytes: &[u8]) -> io::Result<()> {
    write_items(output, bytes)
}
