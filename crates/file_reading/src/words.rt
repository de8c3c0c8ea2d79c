// The words after the header: in version 2 the counts of unknowns, then the elements.
ghost use Rattle.std.specs.Prelude.{◌≡◌, ◌+◌, ◌≤◌, ◌<◌, length, get_or, take, drop};
ghost use Rattle.basis.specs.Lists.{overwrite};
ghost use Rattle.spec.specs.File.{body_words};

use crate::header::word_at;

// How many there are.
pub(crate) fn size(file: &[u8]) -> usize
    requires { 9 ≤ length file.now }
    ensures { result ≡ length (body_words file.now) }
{
    (file.len() - 9) / 2
}

// Word i of them, from 0.
pub(crate) fn word(file: &[u8], i: usize) -> u16
    requires { i < length (body_words file.now) }
    ensures { result ≡ get_or (body_words file.now) i 0 }
{
    word_at(file, 9 + 2 * i)
}

// Writes `count` of them, from word `from` on, to the front of the list.
pub(crate) fn copy(file: &[u8], from: usize, count: usize, list: &mut [u16])
    requires { (from + count ≤ length (body_words file.now)) × (count ≤ length list.old) }
    ensures { list.new ≡ overwrite (take count (drop from (body_words file.now))) list.old }
{
    for i in 0..count {
        list[i] = word(file, from + i);
    }
}
