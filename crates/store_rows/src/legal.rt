// First columns and row starts, row by row. The rows of a node's unknowns have one first column: the first unknown of the f of its number.
ghost use Rattle.std.specs.Prelude.{◌≡◌, true, false, map, ◌+◌, ◌≤◌, length, replicate};
ghost use Rattle.std.proofs.lemmas.List.Edits.{sets};
ghost use Rattle.basis.specs.Lists.{sum, up_from};
ghost use Rattle.spec.specs.Measures.{is_numbering, order_of, profile};
ghost use Rattle.spec.specs.StoreMap.{first_columns, row_starts};
ghost use Rattle.spec.specs.Unknowns.{bad_counts, renumbered_unknowns};
ghost use Rattle.laws.specs.Handed.{graph_was, size_now, size_was};
ghost use Rattle.graph.specs.Facts.{LegalLists};
ghost use Rattle.graph_envelope.specs.Aheads.{aheads};
ghost use Rattle.store_rows.specs.Rows.{start_by, Columns};

use graph_envelope::legal::number;
use graph_envelope::legal::unknowns::{add_up, width};
use graph_words::legal::clear;

// The words from `at` on, `count` of them, get the value.
fn fill(words: &mut [u16], at: usize, count: usize, value: u16)
    requires { at + count ≤ length words.old }
    ensures { words.new ≡ sets words.old at (replicate count value) }
{
    words[at..at + count].fill(value);
}

// f of each row, node after node; `ahead` has the unknowns ahead of each number.
fn columns(
    starts: &[u16],
    neighbours: &[u16],
    counts: &[u16],
    numbering: &[u16],
    ahead: &[u16],
    first: &mut [u16],
)
    requires legal_lists { LegalLists starts.now neighbours.now }
    requires counts_value { bad_counts (size_now starts) counts.now ≡ false }
    requires numbering_value { is_numbering (size_now starts) numbering.now ≡ true }
    requires ahead_value { ahead.now ≡ aheads counts.now (order_of numbering.now) }
    requires first_len { length first.old ≡ sum counts.now }
    ensures { first.new ≡ first_columns (renumbered_unknowns (graph_was starts neighbours) counts.now numbering.now) }
{
    for (i, &count) in counts.iter().enumerate() {
        let p = i + 1;
        let at = number(ahead, number(numbering, p));
        let low = at - width(starts, neighbours, numbering, ahead, p) + 1;
        fill(first, at, usize::from(count), low as u16);
    }
}

// Where each row starts in the store, and after the last row where the store ends: at most 603,979,776, which is returned.
fn row_starts(first: &[u16], place: &mut [u32]) -> u32
    requires columns { Columns first.now }
    requires place_len { length place.old ≡ length first.now + 1 }
    ensures value { result ≡ start_by first.now (length first.now) }
    ensures place_value { place.new ≡ map (start_by first.now) (up_from 0 (length first.now + 1)) }
{
    let mut sum: u32 = 0;
    for (i, &column) in first.iter().enumerate() {
        place[i] = sum;
        sum += (i + 1 - usize::from(column)) as u32;
    }
    place[first.len()] = sum;
    sum
}

// Both lists; the profile is returned. Scratch holds the order of the numbering, and ends as zeros.
pub fn rows(
    starts: &[u16],
    neighbours: &[u16],
    counts: &[u16],
    numbering: &[u16],
    scratch: &mut [u16],
    first: &mut [u16],
    place: &mut [u32],
) -> u32
    requires legal_lists { LegalLists starts.now neighbours.now }
    requires counts_value { bad_counts (size_now starts) counts.now ≡ false }
    requires numbering_value { is_numbering (size_now starts) numbering.now ≡ true }
    requires scratch_value { scratch.old ≡ order_of numbering.now }
    requires first_len { length first.old ≡ sum counts.now }
    requires place_len { length place.old ≡ sum counts.now + 1 }
    ensures value { result ≡ profile (renumbered_unknowns (graph_was starts neighbours) counts.now numbering.now) }
    ensures scratch_value_2 { scratch.new ≡ replicate (size_was starts) 0 }
    ensures first_value { first.new ≡ first_columns (renumbered_unknowns (graph_was starts neighbours) counts.now numbering.now) }
    ensures place_value { place.new ≡ row_starts (renumbered_unknowns (graph_was starts neighbours) counts.now numbering.now) }
{
    add_up(counts, scratch);
    columns(starts, neighbours, counts, numbering, scratch, first);
    clear(scratch, numbering.len());
    row_starts(first, place)
}
