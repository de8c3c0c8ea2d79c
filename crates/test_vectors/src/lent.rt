// What lent buffers hold before a call.
ghost use Rattle.std.specs.Prelude.{◌≤◌, length, IfOk};

use crate::input::number;
use std::io;
use std::io::Read;

// The word that stands at i. No list of a mesh has a word above 32,768.
pub(crate) fn pattern(i: usize) -> u16 {
    (60000 + i % 5000) as u16
}

fn byte_pattern(i: usize) -> u8 {
    (100 + i % 100) as u8
}

pub fn fill(words: &mut [u16]) {
    for (i, x) in words.iter_mut().enumerate() {
        *x = pattern(i);
    }
}

fn fill_bytes(bytes: &mut [u8]) {
    for (i, x) in bytes.iter_mut().enumerate() {
        *x = byte_pattern(i);
    }
}

// The length of the next buffer, which is filled, or 0 where there is no room.
pub fn lend(input: &mut impl Read, words: &mut [u16]) -> io::Result<usize>
    ensures { IfOk result (λ n. n ≤ length words.new) }
{
    let count = number(input)?;
    if words.len() < count {
        return Ok(0);
    }
    fill(&mut words[..count]);
    Ok(count)
}

pub fn lend_bytes(input: &mut impl Read, bytes: &mut [u8]) -> io::Result<usize>
    ensures { IfOk result (λ n. n ≤ length bytes.new) }
{
    let count = number(input)?;
    if bytes.len() < count {
        return Ok(0);
    }
    fill_bytes(&mut bytes[..count]);
    Ok(count)
}
