// Lent lists of 32 bits, as the store map has: what they hold before a call, and their end contents as text, like those of words.
ghost use Rattle.std.specs.Prelude.{◌≤◌, length, IfOk};

use crate::input::number;
use crate::output::write_items;
use std::io;
use std::io::{Read, Write};

// The entry that stands at i. No store has so many places.
fn pattern(i: usize) -> u32 {
    (4000000000 + i % 5000) as u32
}

fn fill(places: &mut [u32]) {
    for (i, x) in places.iter_mut().enumerate() {
        *x = pattern(i);
    }
}

// The length of the next list, which is filled, or 0 where there is no room.
pub fn lend_places(input: &mut impl Read, places: &mut [u32]) -> io::Result<usize>
    ensures { IfOk result (λ n. n ≤ length places.new) }
{
    let count = number(input)?;
    if places.len() < count {
        return Ok(0);
    }
    fill(&mut places[..count]);
    Ok(count)
}

// How many entries there are up to the last one that isn't as it was lent.
fn changed(places: &[u32]) -> usize
    ensures { result ≤ length places.now }
{
    for i in (0..places.len()).rev() {
        if places[i] != pattern(i) {
            return i + 1;
        }
    }
    0
}

// The entries up to the last that isn't as it was lent. All behind them are untouched.
pub fn show_places(output: &mut impl Write, places: &[u32]) -> io::Result<()> {
    write_items(output, &places[..changed(places)])
}
