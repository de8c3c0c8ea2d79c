// For crates above: the test of a given node, and the combined levels of one part of a legal graph, for callers that have its members. The
// scratch has the areas of `graph_words::areas`: the levels and queues of two searches in the four in front of MEMBERS, and TALLY is 0 until
// the ends are found. That then has the sizes of the levels rooted at v, those at u, the counts of the levels, and at last the combined
// levels.
ghost use Rattle.std.specs.Prelude.{◌≡◌, ◌≤◌, length, take, replicate};
ghost use Rattle.std.proofs.lemmas.List.Edits.{sets};
ghost use Rattle.spec.specs.Graph.{graph_refusal, outside};
ghost use Rattle.spec.specs.Levels.{part};
ghost use Rattle.laws.specs.Handed.{graph_now, size_now, graph_was, size_was};
ghost use Rattle.laws.specs.Scratch.{second_area, members_area, tally_area};
ghost use Rattle.levels_laws.specs.Areas.{words_of, tally_of};
ghost use Rattle.levels_laws.specs.Slices.{ends_in, with_levels};
ghost use Rattle.levels.specs.Part.{placed, PartGiven, part_levels_of};

use crate::shape::PartLevels;
use graph_words::areas::{MEMBERS, SECOND};
use levels_combine::legal::combine;
use levels_ends::legal::{ends_from, first_in_e};
use levels_search::legal::{search, wipe};
use levels_sizes::legal::end_widths;

// "6n words of scratch" (document 02, A.7)
pub const WORDS_PER_NODE: usize = 6;

// 6: a given node is 0 or above n.
pub fn no_node(n: usize, p: u16) -> bool
    ensures { result ≡ outside n p }
{
    p == 0 || n < usize::from(p)
}

// Puts the nodes that have a level in the first n words into MEMBERS, rising. Returns how many there are.
fn collect(scratch: &mut [u16], n: usize) -> usize
    requires { (n ≤ 4096) × (tally_area n ≤ length scratch.old) }
    ensures value { result ≡ length (placed n scratch.old) }
    ensures scratch_value { scratch.new ≡ sets scratch.old (members_area n) (placed n scratch.old) }
{
    let mut count = 0;
    for p in 0..n {
        if scratch[p] != 0 {
            scratch[MEMBERS * n + count] = (p + 1) as u16;
            count += 1;
        }
    }
    count
}

// The members of the part of `node`, rising, from the start of MEMBERS on. Returns how many there are.
pub fn gather_part(starts: &[u16], neighbours: &[u16], node: u16, scratch: &mut [u16]) -> usize
    requires neighbours_value { graph_refusal starts.now neighbours.now ≡ 0 }
    requires le_node { (1 ≤ node) × (node ≤ size_now starts) }
    requires starts_in_bounds { tally_area (size_now starts) ≤ length scratch.old }
    requires scratch_value { take (second_area (size_now starts)) scratch.old ≡ replicate (second_area (size_now starts)) 0 }
    ensures value { result ≡ length (part (graph_was starts neighbours) node) }
    ensures scratch_value_2 { scratch.new ≡ sets scratch.old (members_area (size_was starts)) (part (graph_was starts neighbours) node) }
{
    let n = starts.len() - 1;
    let s = search(starts, neighbours, node, n, &mut scratch[..SECOND * n]);
    let count = collect(scratch, n);
    wipe(&mut scratch[..SECOND * n], n, usize::from(s.reached));
    count
}

// The ends and the combined levels of the part whose members stand from..to: in TALLY, n words by old number. All else is as before.
pub fn combine_part(
    starts: &[u16],
    neighbours: &[u16],
    scratch: &mut [u16],
    from: usize,
    to: usize,
) -> PartLevels
    requires neighbours_value { graph_refusal starts.now neighbours.now ≡ 0 }
    requires part_given { PartGiven (graph_now starts neighbours) from to (words_of (size_now starts) scratch.old) (tally_of (size_now starts) scratch.old) }
    ensures value { result ≡ part_levels_of (graph_was starts neighbours) (ends_in (graph_was starts neighbours) from scratch.old) }
    ensures scratch_value { scratch.new ≡ with_levels (graph_was starts neighbours) from scratch.old (words_of (size_was starts) scratch.old) }
{
    let n = starts.len() - 1;
    let first = first_in_e(starts, &scratch[MEMBERS * n + from..MEMBERS * n + to]);
    let f = ends_from(starts, neighbours, first, &mut scratch[..MEMBERS * n]);
    let w = end_widths(scratch, n, f.reached, f.k);
    let width = combine(starts, neighbours, scratch, from, to, f.k, w.v, w.u);
    PartLevels {
        v: f.v,
        u: f.u,
        k: f.k,
        width,
        passes: f.passes,
    }
}
