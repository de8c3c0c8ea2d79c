// One part of a legal graph, for a caller that has its members, in the same areas as `numbering_part`: four to work in, the second of them for
// the part's order, the members of the parts, and in TALLY the part's levels by old number. Linear in the part's nodes and entries, but for
// the sorts: nothing here is n.
ghost use Rattle.std.specs.Prelude.{◌≡◌, false, ◌+◌, ◌≤◌, length, take, drop, replicate};
ghost use Rattle.std.proofs.lemmas.List.Edits.{sets};
ghost use Rattle.spec.specs.Cuthill.{cuthill_result};
ghost use Rattle.spec.specs.Ends.{ends};
ghost use Rattle.spec.specs.Graph.{graph_refusal};
ghost use Rattle.spec.specs.Unknowns.{bad_counts};
ghost use Rattle.laws.specs.Handed.{graph_now, graph_was, size_now, size_was};
ghost use Rattle.laws.specs.Scratch.{tally_area};
ghost use Rattle.levels_laws.specs.Areas.{words_of, tally_of};
ghost use Rattle.levels_search.specs.Queue.{Queued};
ghost use Rattle.levels.specs.Part.{PartGiven};
ghost use Rattle.numbering_sequence.specs.Answer.{ends_in, with_result};
ghost use Rattle.numbering_part.specs.Part.{lowest_in, new_numbers, new_levels, part_figures_of};
ghost use Rattle.numbering_cuthill.specs.Part.{part_root_of, rooted_by, turned_by, Orderable};

use crate::shape::PartRoot;
use graph_words::areas::{MEMBERS, TALLY};
use levels_combine::legal::copy_levels;
use levels_ends::legal::{ends_from, first_in_e};
use levels_search::legal::wipe;
use numbering_order::legal::rooted::from_root;
use numbering_part::legal::{give_levels, give_numbers};
use numbering_part::shape::PartFigures;
use numbering_width::legal::width_of;

// Sets the words of the searches from both ends, of `count` nodes each, to 0 again.
fn wipe_both(work: &mut [u16], n: usize, count: usize)
    requires n_bound { n ≤ 4096 }
    requires queued { Queued n count (take (n + n) work.old) }
    requires queued_2 { Queued n count (drop (n + n) work.old) }
    ensures { work.new ≡ replicate (n + n + (n + n)) 0 }
{
    wipe(&mut work[..n + n], n, count);
    wipe(&mut work[n + n..], n, count);
}

// The end v of the part whose members stand from..to, and the levels rooted at it: in TALLY, n words by old number. All else is as before.
fn root_part(
    starts: &[u16],
    neighbours: &[u16],
    scratch: &mut [u16],
    from: usize,
    to: usize,
) -> PartRoot
    requires neighbours_value { graph_refusal starts.now neighbours.now ≡ 0 }
    requires part_given { PartGiven (graph_now starts neighbours) from to (words_of (size_now starts) scratch.old) (tally_of (size_now starts) scratch.old) }
    ensures value { result ≡ part_root_of (ends (graph_was starts neighbours) (lowest_in (size_was starts) from scratch.old)) }
    ensures scratch_value { scratch.new ≡ sets scratch.old (tally_area (size_was starts)) (rooted_by (graph_was starts neighbours) (ends (graph_was starts neighbours) (lowest_in (size_was starts) from scratch.old))) }
{
    let n = starts.len() - 1;
    let first = first_in_e(starts, &scratch[MEMBERS * n + from..MEMBERS * n + to]);
    let f = ends_from(starts, neighbours, first, &mut scratch[..MEMBERS * n]);
    copy_levels(scratch, n, 0, from, to);
    wipe_both(&mut scratch[..MEMBERS * n], n, usize::from(f.reached));
    PartRoot {
        v: f.v,
        k: f.k,
        passes: f.passes,
    }
}

// The part's order from v, "turned end for end": "Every part is turned". Its m nodes stand from `from` on, of which only the contract speaks.
fn order_part(
    starts: &[u16],
    neighbours: &[u16],
    scratch: &mut [u16],
    at: usize,
    from: usize,
    m: usize,
    k: u16,
    v: u16,
)
    requires neighbours_value { graph_refusal starts.now neighbours.now ≡ 0 }
    requires orderable { Orderable (graph_now starts neighbours) at from m k v scratch.old }
    ensures { scratch.new ≡ sets scratch.old (size_was starts) (turned_by (graph_was starts neighbours) (ends_in (graph_was starts neighbours) from scratch.old)) }
{
    let n = starts.len() - 1;
    from_root(starts, neighbours, scratch, at, k, v);
    scratch[n..n + m].reverse();
}

// Levels, order and width of the part whose members stand from..to: the order stands behind the first n words, the levels in TALLY. All else
// is as before.
fn find_rooted(
    starts: &[u16],
    neighbours: &[u16],
    counts: &[u16],
    scratch: &mut [u16],
    from: usize,
    to: usize,
) -> PartFigures
    requires neighbours_value { graph_refusal starts.now neighbours.now ≡ 0 }
    requires counts_value { bad_counts (size_now starts) counts.now ≡ false }
    requires part_given { PartGiven (graph_now starts neighbours) from to (words_of (size_now starts) scratch.old) (tally_of (size_now starts) scratch.old) }
    ensures value { result ≡ part_figures_of (cuthill_result (graph_was starts neighbours) counts.now (lowest_in (size_was starts) from scratch.old)).report }
    ensures scratch_value { scratch.new ≡ with_result (size_was starts) (tally_area (size_was starts)) (cuthill_result (graph_was starts neighbours) counts.now (lowest_in (size_was starts) from scratch.old)) scratch.old }
{
    let n = starts.len() - 1;
    let f = root_part(starts, neighbours, scratch, from, to);
    order_part(
        starts,
        neighbours,
        scratch,
        TALLY * n,
        MEMBERS * n + from,
        to - from,
        f.k,
        f.v,
    );
    let width = width_of(counts, scratch, n, from, to, f.k);
    PartFigures {
        k: f.k,
        width,
        passes: f.passes,
    }
}

// The part whose members stand from..to: its nodes get the numbers after `from` in `numbers`, in the reverse order of Cuthill and McKee, and
// their levels in `levels`, n words each by old number. The scratch is as before.
pub fn cuthill_part(
    starts: &[u16],
    neighbours: &[u16],
    counts: &[u16],
    scratch: &mut [u16],
    numbers: &mut [u16],
    levels: &mut [u16],
    from: usize,
    to: usize,
) -> PartFigures
    requires neighbours_value { graph_refusal starts.now neighbours.now ≡ 0 }
    requires counts_value { bad_counts (size_now starts) counts.now ≡ false }
    requires part_given { PartGiven (graph_now starts neighbours) from to (words_of (size_now starts) scratch.old) (tally_of (size_now starts) scratch.old) }
    requires numbers_len { (length numbers.old ≡ size_now starts) × (length levels.old ≡ size_now starts) }
    ensures value { result ≡ part_figures_of (cuthill_result (graph_was starts neighbours) counts.now (lowest_in (size_was starts) from scratch.old)).report }
    ensures scratch_value { scratch.new ≡ scratch.old }
    ensures numbers_value { numbers.new ≡ new_numbers (graph_was starts neighbours) (lowest_in (size_was starts) from scratch.old)
        (cuthill_result (graph_was starts neighbours) counts.now (lowest_in (size_was starts) from scratch.old)) from numbers.old }
    ensures levels_value { levels.new ≡ new_levels (graph_was starts neighbours) (lowest_in (size_was starts) from scratch.old)
        (cuthill_result (graph_was starts neighbours) counts.now (lowest_in (size_was starts) from scratch.old)) levels.old }
{
    let n = starts.len() - 1;
    let f = find_rooted(starts, neighbours, counts, scratch, from, to);
    give_numbers(scratch, numbers, n, to - from, from);
    give_levels(scratch, levels, n, from, to);
    f
}
