// Functions that ask for a header that is not refused, and room; those of the elements, for counts that are not.
ghost use Rattle.std.specs.Prelude.{◌≡◌, ◌||◌, ◌+◌, ◌*◌, ◌≤◌, ◌<◌, length, eqb, ltb};
ghost use Rattle.basis.specs.Lists.{overwrite};
ghost use Rattle.spec.specs.Lent.{outcome, filled, scratch_after};
ghost use Rattle.spec.specs.Mesh.{entry_count, start_list, neighbour_list};
ghost use Rattle.spec.specs.File.{header_size, file_nodes, count_words, body, counted_refusal, words_taken, file_graph, header_refusal, counts_refusal, body_refusal};
ghost use Rattle.mesh.specs.Answer.{meaning};
ghost use Rattle.file_reading.specs.Answer.{tested};
ghost use Rattle.file_reading.specs.Words.{words_refusal};

pub mod counts;

use crate::legal::counts::count_words;
use refusals::Refusal;

// n, the number of nodes.
pub fn nodes(file: &[u8]) -> usize
    requires { header_refusal file.now ≡ 0 }
    ensures { result ≡ file_nodes file.now }
{
    usize::from(crate::header::word_at(file, 5))
}

// Tests `count` elements of a file of n nodes, one by one: how many words they take, or the refusal: 9, 10, or 12 for a record that
// runs past the file's end.
fn test_elements(count: usize, n: usize, list: &[u16]) -> Result<usize, Refusal>
    ensures { tested result ≡ outcome (counted_refusal count n list.now) (words_taken count list.now) }
{
    let mut at = 0;
    for i in 0..count {
        if list.len() <= at {
            return Err(Refusal::File);
        }
        let kind = list[at];
        let number = mesh_elements::element_refusal(12, n, kind, &list[at + 1..]);
        if let Ok(refusal) = Refusal::try_from(number) {
            return Err(refusal);
        }
        at = at + 1 + mesh_elements::node_count(kind);
    }
    Ok(at)
}

// Writes the words of the elements, those behind the counts, to the front of the list, and returns how many there are.
fn decode(file: &[u8], list: &mut [u16]) -> usize
    requires { (header_refusal file.now ≡ 0) × (counts_refusal file.now ≡ 0) × (length (body file.now) ≤ length list.old) }
    ensures value { result ≡ length (body file.now) }
    ensures list_value { list.new ≡ overwrite (body file.now) list.old }
{
    let from = count_words(file);
    let count = crate::words::size(file) - from;
    crate::words::copy(file, from, count, list);
    count
}

// Whether bytes are left over behind the header, the counts and `taken` words of elements.
fn left_over(file: &[u8], taken: usize) -> bool
    requires { (header_refusal file.now ≡ 0) × (taken ≤ length (body file.now)) }
    ensures { result ≡ ltb (header_size + 2 * count_words file.now + 2 * taken) (length file.now) }
{
    let from = count_words(file);
    9 + 2 * from + 2 * taken < file.len()
}

// Decodes the words of the elements and tests the elements in them: how many words there are, all of them taken, or the refusal:
// "bytes left over once all elements pass" are 12.
fn read_elements(file: &[u8], list: &mut [u16]) -> Result<usize, Refusal>
    requires { (header_refusal file.now ≡ 0) × (counts_refusal file.now ≡ 0) × (length (body file.now) ≤ length list.old) }
    ensures result_value { tested result ≡ outcome (words_refusal file.now) (length (body file.now)) }
    ensures list_value { list.new ≡ overwrite (body file.now) list.old }
{
    let n = nodes(file);
    let count = usize::from(crate::header::word_at(file, 7));
    let size = decode(file, list);
    let taken = test_elements(count, n, &list[..size])?;
    if left_over(file, taken) {
        Err(Refusal::File)
    } else {
        Ok(size)
    }
}

// The two lists of a file's mesh, and their entry count, or the refusal.
pub fn read_mesh(
    file: &[u8],
    list: &mut [u16],
    starts: &mut [u16],
    neighbours: &mut [u16],
    scratch: &mut [u16],
) -> Result<u32, Refusal>
    requires file_value { (header_refusal file.now ≡ 0) × (counts_refusal file.now ≡ 0) × (length (body file.now) ≤ length list.old) }
    requires file_in_bounds { (file_nodes file.now < length starts.old) × (32768 ≤ length neighbours.old) × (file_nodes file.now ≤ length scratch.old) }
    ensures result_value { meaning result ≡ outcome (body_refusal file.now) (entry_count (file_graph file.now)) }
    ensures list_value { list.new ≡ overwrite (body file.now) list.old }
    ensures starts_value { starts.new ≡ filled (body_refusal file.now) (start_list (file_graph file.now)) starts.old }
    ensures neighbours_value { neighbours.new ≡ filled (body_refusal file.now) (neighbour_list (file_graph file.now)) neighbours.old }
    ensures scratch_value { scratch.new ≡ scratch_after (eqb (body_refusal file.now) 0 || eqb (body_refusal file.now) 11) (file_nodes file.now) scratch.old }
{
    let n = nodes(file);
    let size = read_elements(file, list)?;
    mesh::legal::adjacency(n, &list[..size], starts, neighbours, scratch)
}
