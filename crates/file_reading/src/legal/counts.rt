// The counts of unknowns, by old number: those of a version 2 file, after its header; "Version 1 means one unknown each".
ghost use Rattle.std.specs.Prelude.{◌≡◌, ◌≤◌, length, take};
ghost use Rattle.basis.specs.Lists.{anyb, overwrite};
ghost use Rattle.spec.specs.Graph.{outside};
ghost use Rattle.spec.specs.Lent.{filled};
ghost use Rattle.spec.specs.Unknowns.{max_count, ones};
ghost use Rattle.spec.specs.File.{file_nodes, body_words, has_counts, count_words, file_counts, header_refusal, counts_refusal};
ghost use Rattle.refusals.specs.Numbers.{number_in};

use crate::header::word_at;
use crate::legal::nodes;
use refusals::Refusal;

// Whether the file carries counts: version 2 does.
fn has_counts(file: &[u8]) -> bool
    requires { 9 ≤ length file.now }
    ensures { result ≡ has_counts file.now }
{
    word_at(file, 3) == 2
}

// How many words they take.
pub(crate) fn count_words(file: &[u8]) -> usize
    requires { header_refusal file.now ≡ 0 }
    ensures { result ≡ count_words file.now }
{
    if has_counts(file) {
        return nodes(file);
    }
    0
}

// Whether one of the first words after the header is "outside 1 to 6".
fn any_outside(file: &[u8], count: usize) -> bool
    requires { count ≤ length (body_words file.now) }
    ensures { result ≡ anyb (outside max_count) (take count (body_words file.now)) }
{
    for i in 0..count {
        let c = crate::words::word(file, i);
        if c == 0 {
            return true;
        }
        if 6 < c {
            return true;
        }
    }
    false
}

// What the counts are refused by, 12 or 15: "where a file ending within the counts is 12 first".
fn test_counts(file: &[u8]) -> Result<(), Refusal>
    requires { header_refusal file.now ≡ 0 }
    ensures { number_in result ≡ counts_refusal file.now }
{
    let count = count_words(file);
    if file.len() < 9 + 2 * count {
        return Err(Refusal::File);
    }
    if any_outside(file, count) {
        return Err(Refusal::Counts);
    }
    Ok(())
}

// Sets the first n words to 1.
fn put_ones(list: &mut [u16], n: usize)
    requires { n ≤ length list.old }
    ensures { list.new ≡ overwrite (ones n) list.old }
{
    list[..n].fill(1);
}

// Writes the counts to the front of the list.
fn put_counts(file: &[u8], counts: &mut [u16])
    requires file_value { (header_refusal file.now ≡ 0) × (counts_refusal file.now ≡ 0) }
    requires file_in_bounds { file_nodes file.now ≤ length counts.old }
    ensures { counts.new ≡ overwrite (file_counts file.now) counts.old }
{
    let n = nodes(file);
    if has_counts(file) {
        crate::words::copy(file, 0, n, counts);
        return;
    }
    put_ones(counts, n);
}

// Writes the counts to the front of the list; where they are refused, writes nothing.
pub fn read_counts(file: &[u8], counts: &mut [u16]) -> Result<(), Refusal>
    requires file_value { header_refusal file.now ≡ 0 }
    requires file_in_bounds { file_nodes file.now ≤ length counts.old }
    ensures value { number_in result ≡ counts_refusal file.now }
    ensures counts_value { counts.new ≡ filled (counts_refusal file.now) (file_counts file.now) counts.old }
{
    test_counts(file)?;
    put_counts(file, counts);
    Ok(())
}
