// A file's bytes, read to its counts of unknowns and the two lists of its mesh: header, counts, elements, then the adjacency.
#![tactic(auto)]

ghost use Rattle.std.specs.Prelude.{◌≡◌};
ghost use Rattle.spec.specs.File.{header_refusal};
ghost use Rattle.refusals.specs.Numbers.{number_in};

mod header;
pub mod legal;
mod words;

use refusals::Refusal;

// What a file is refused by before its counts are looked at, 12 or 1: "length, mark and version for 12 first, then 1".
pub fn test_header(file: &[u8]) -> Result<(), Refusal>
    ensures { number_in result ≡ header_refusal file.now }
{
    if header::bad_header(file) {
        return Err(Refusal::File);
    }
    let n = header::word_at(file, 5);
    if n == 0 {
        return Err(Refusal::NodeCount);
    }
    if 4096 < n {
        return Err(Refusal::NodeCount);
    }
    Ok(())
}
