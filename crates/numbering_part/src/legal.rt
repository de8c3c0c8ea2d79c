// One part of a legal graph, for a caller that has its members. Of the scratch's six areas four are to work in, the second of them for the
// part's order; then come the members of the parts and, where the tally was, the part's levels by old number. Linear in the part's nodes and
// entries: nothing here is n.
ghost use Rattle.std.specs.Prelude.{◌≡◌, false, ◌+◌, ◌-◌, ◌≤◌, ◌<◌, length, replicate, set};
ghost use Rattle.std.proofs.lemmas.List.Edits.{sets};
ghost use Rattle.basis.specs.Stored.{stored, nought};
ghost use Rattle.spec.specs.Graph.{graph_refusal};
ghost use Rattle.spec.specs.Numbering.{part_result};
ghost use Rattle.spec.specs.Unknowns.{bad_counts};
ghost use Rattle.laws.specs.Handed.{graph_now, graph_was, size_now, size_was};
ghost use Rattle.laws.specs.Scratch.{tally_area, areas_end};
ghost use Rattle.levels_laws.specs.Areas.{words_of, tally_of};
ghost use Rattle.levels_laws.specs.Model.{number_at, written};
ghost use Rattle.levels_laws.specs.Members.{Members};
ghost use Rattle.levels_laws.specs.Starts.{members_of};
ghost use Rattle.levels.specs.Part.{PartGiven};
ghost use Rattle.numbering_sequence.specs.Answer.{with_result};
ghost use Rattle.numbering_part.specs.Part.{order_at, numbered, lowest_in, new_numbers, new_levels, found_meaning, part_figures_of, Numberable};

use crate::shape::{PartFigures, PartFound};
use graph_words::areas::{MEMBERS, TALLY};
use levels::legal::combine_part;
use numbering_sequence::legal::sequence;
use numbering_width::legal::width_of;

// "take the next free numbers": those after a, in the part's order, whose words it clears.
pub fn give_numbers(scratch: &mut [u16], numbers: &mut [u16], n: usize, m: usize, a: usize)
    requires { Numberable n m a scratch.old numbers.old }
    ensures scratch_value { scratch.new ≡ sets scratch.old n (replicate m 0) }
    ensures numbers_value { numbers.new ≡ numbered a (order_at n m scratch.old) numbers.old }
{
    for i in 0..m {
        let z = usize::from(scratch[n + i]);
        scratch[n + i] = 0;
        let number = a + i + 1;
        numbers[z - 1] = number as u16;
    }
}

// Hands the members' levels over, and clears their area.
pub fn give_levels(scratch: &mut [u16], levels: &mut [u16], n: usize, from: usize, to: usize)
    requires members { Members n from to scratch.old }
    requires n_in_bounds { areas_end n ≤ length scratch.old }
    requires levels_len { length levels.old ≡ n }
    ensures scratch_value { scratch.new ≡ stored (tally_area n) nought scratch.old (members_of n from to scratch.old) }
    ensures levels_value { levels.new ≡ written (number_at (tally_area n) scratch.old) levels.old (members_of n from to scratch.old) }
{
    for i in from..to {
        let z = usize::from(scratch[MEMBERS * n + i]);
        let at = TALLY * n + z - 1;
        levels[z - 1] = scratch[at];
        scratch[at] = 0;
    }
}

// A part of one node, q: it gets the number after `from` and has one level, by the laws of every part (proofs, Single).
pub fn number_lone(numbers: &mut [u16], levels: &mut [u16], q: usize, from: usize)
    requires le_q { (1 ≤ q) × (q ≤ length numbers.old) }
    requires levels_len { length levels.old ≡ length numbers.old }
    requires numbers_len_bound { (length numbers.old ≤ 4096) × (from < 4096) }
    ensures numbers_value { numbers.new ≡ set numbers.old (q - 1) (from + 1) }
    ensures levels_value { levels.new ≡ set levels.old (q - 1) 1 }
{
    let number = from + 1;
    numbers[q - 1] = number as u16;
    levels[q - 1] = 1;
}

// Levels, order and width of the part whose members stand from..to: the order stands behind the first n words, the levels in TALLY. All else
// is as before.
pub fn find_part(
    starts: &[u16],
    neighbours: &[u16],
    counts: &[u16],
    scratch: &mut [u16],
    from: usize,
    to: usize,
) -> PartFound
    requires neighbours_value { graph_refusal starts.now neighbours.now ≡ 0 }
    requires counts_value { bad_counts (size_now starts) counts.now ≡ false }
    requires part_given { PartGiven (graph_now starts neighbours) from to (words_of (size_now starts) scratch.old) (tally_of (size_now starts) scratch.old) }
    ensures result_value { found_meaning result ≡ (part_result (graph_was starts neighbours) counts.now (lowest_in (size_was starts) from scratch.old)).report }
    ensures scratch_value { scratch.new ≡ with_result (size_was starts) (tally_area (size_was starts)) (part_result (graph_was starts neighbours) counts.now (lowest_in (size_was starts) from scratch.old)) scratch.old }
{
    let n = starts.len() - 1;
    let f = combine_part(starts, neighbours, scratch, from, to);
    let s = sequence(
        starts,
        neighbours,
        counts,
        scratch,
        TALLY * n,
        MEMBERS * n + from,
        to - from,
        f.k,
        f.v,
        f.u,
    );
    let width = width_of(counts, scratch, n, from, to, f.k);
    PartFound {
        v: s.v,
        u: s.u,
        k: f.k,
        width,
        passes: f.passes,
        turned: s.turned,
    }
}

// The part whose members stand from..to: its nodes get the numbers after `from` in `numbers`, and their levels in `levels`, n words each by
// old number. The scratch is as before.
pub fn number_part(
    starts: &[u16],
    neighbours: &[u16],
    counts: &[u16],
    scratch: &mut [u16],
    numbers: &mut [u16],
    levels: &mut [u16],
    from: usize,
    to: usize,
) -> PartFigures
    requires neighbours_value { graph_refusal starts.now neighbours.now ≡ 0 }
    requires counts_value { bad_counts (size_now starts) counts.now ≡ false }
    requires part_given { PartGiven (graph_now starts neighbours) from to (words_of (size_now starts) scratch.old) (tally_of (size_now starts) scratch.old) }
    requires numbers_len { (length numbers.old ≡ size_now starts) × (length levels.old ≡ size_now starts) }
    ensures value { result ≡ part_figures_of (part_result (graph_was starts neighbours) counts.now (lowest_in (size_was starts) from scratch.old)).report }
    ensures scratch_value { scratch.new ≡ scratch.old }
    ensures numbers_value { numbers.new ≡ new_numbers (graph_was starts neighbours) (lowest_in (size_was starts) from scratch.old)
        (part_result (graph_was starts neighbours) counts.now (lowest_in (size_was starts) from scratch.old)) from numbers.old }
    ensures levels_value { levels.new ≡ new_levels (graph_was starts neighbours) (lowest_in (size_was starts) from scratch.old)
        (part_result (graph_was starts neighbours) counts.now (lowest_in (size_was starts) from scratch.old)) levels.old }
{
    let n = starts.len() - 1;
    let f = find_part(starts, neighbours, counts, scratch, from, to);
    give_numbers(scratch, numbers, n, to - from, from);
    give_levels(scratch, levels, n, from, to);
    PartFigures {
        k: f.k,
        width: f.width,
        passes: f.passes,
    }
}
