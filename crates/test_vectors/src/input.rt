// Numbers and lists of the input. Low byte first.
ghost use Rattle.std.specs.Prelude.{◌≤◌, length, IfOk};

use std::io;
use std::io::{ErrorKind, Read};

// What `number` answers where the input has ended.
pub const NONE: usize = 4294967295;

fn join(low: u8, high: u8) -> usize
    ensures { result ≤ 65535 }
{
    usize::from(low) + 256 * usize::from(high)
}

// Fills the bytes, and says whether the input had so many.
pub fn read_full(input: &mut impl Read, bytes: &mut [u8]) -> io::Result<bool> {
    match input.read_exact(bytes) {
        Ok(()) => Ok(true),
        Err(e) => {
            if e.kind() == ErrorKind::UnexpectedEof {
                Ok(false)
            } else {
                Err(e)
            }
        }
    }
}

// The next number: four bytes.
pub fn number(input: &mut impl Read) -> io::Result<usize> {
    let mut bytes = [0u8; 4];
    if read_full(input, &mut bytes)? {
        Ok(join(bytes[0], bytes[1]) + 65536 * join(bytes[2], bytes[3]))
    } else {
        Ok(NONE)
    }
}

// The next word: two bytes.
fn word(input: &mut impl Read) -> io::Result<u16> {
    let mut bytes = [0u8; 2];
    read_full(input, &mut bytes)?;
    Ok(join(bytes[0], bytes[1]) as u16)
}

// The next list, its length and its words, to the front of `words`. How many there are, or 0 where there is no room.
pub fn read(input: &mut impl Read, words: &mut [u16]) -> io::Result<usize>
    ensures { IfOk result (λ n. n ≤ length words.new) }
{
    let count = number(input)?;
    if words.len() < count {
        return Ok(0);
    }
    for x in words[..count].iter_mut() {
        *x = word(input)?;
    }
    Ok(count)
}
