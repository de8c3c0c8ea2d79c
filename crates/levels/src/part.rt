// The calls on one part: what they do in their scratch once it was tested.
ghost use Rattle.std.specs.Prelude.{◌≡◌, ◌*◌, ◌≤◌, length};
ghost use Rattle.spec.specs.Combined.{combined};
ghost use Rattle.spec.specs.Ends.{ends};
ghost use Rattle.spec.specs.Graph.{graph_refusal};
ghost use Rattle.spec.specs.Lent.{zeroed, words_per_node};
ghost use Rattle.laws.specs.Handed.{size_now, graph_was, size_was};
ghost use Rattle.levels.specs.Part.{part_ends_of, part_levels_of};

use crate::legal::{WORDS_PER_NODE, combine_part, gather_part};
use crate::shape::{PartEnds, PartLevels};
use graph_words::areas::{AREAS, TALLY};
use graph_words::legal::clear;
use levels_ends::legal::{ends_from, first_of_part};
use levels_sizes::legal::end_widths;

// The ends of the part of `node`, in scratch that is set to 0 before and after.
pub(crate) fn find_ends(
    starts: &[u16],
    neighbours: &[u16],
    node: u16,
    scratch: &mut [u16],
) -> PartEnds
    requires neighbours_value { graph_refusal starts.now neighbours.now ≡ 0 }
    requires le_node { (1 ≤ node) × (node ≤ size_now starts) }
    requires starts_in_bounds { words_per_node * size_now starts ≤ length scratch.old }
    ensures value { result ≡ part_ends_of (ends (graph_was starts neighbours) node) }
    ensures scratch_value { scratch.new ≡ zeroed (words_per_node * size_was starts) scratch.old }
{
    let n = starts.len() - 1;
    let half = n + n;
    clear(scratch, WORDS_PER_NODE * n);
    let v = first_of_part(starts, neighbours, node, &mut scratch[..half]);
    let f = ends_from(starts, neighbours, v, &mut scratch[..half + half]);
    let w = end_widths(scratch, n, f.reached, f.k);
    clear(scratch, WORDS_PER_NODE * n);
    PartEnds {
        v: f.v,
        u: f.u,
        k: f.k,
        widthv: w.v,
        widthu: w.u,
        passes: f.passes,
    }
}

// Copies the words of `from` over those of `to`, which are as many. No `copy_from_slice`, which would make the archive for C ask its
// surroundings for `memmove`.
fn copy(to: &mut [u16], from: &[u16])
    requires { length to.old ≡ length from.now }
    ensures { to.new ≡ from.now }
{
    for i in 0..from.len() {
        to[i] = from[i];
    }
}

// The combined levels of the part of `node`, in scratch that is set to 0 before and after.
pub(crate) fn find_levels(
    starts: &[u16],
    neighbours: &[u16],
    node: u16,
    levels: &mut [u16],
    scratch: &mut [u16],
) -> PartLevels
    requires neighbours_value { graph_refusal starts.now neighbours.now ≡ 0 }
    requires le_node { (1 ≤ node) × (node ≤ size_now starts) }
    requires levels_len { length levels.old ≡ size_now starts }
    requires starts_in_bounds { words_per_node * size_now starts ≤ length scratch.old }
    ensures value { result ≡ part_levels_of (graph_was starts neighbours) (ends (graph_was starts neighbours) node) }
    ensures levels_value { levels.new ≡ combined (graph_was starts neighbours) (ends (graph_was starts neighbours) node) }
    ensures scratch_value { scratch.new ≡ zeroed (words_per_node * size_was starts) scratch.old }
{
    let n = starts.len() - 1;
    clear(scratch, WORDS_PER_NODE * n);
    let count = gather_part(starts, neighbours, node, scratch);
    let f = combine_part(starts, neighbours, scratch, 0, count);
    copy(levels, &scratch[TALLY * n..AREAS * n]);
    clear(scratch, WORDS_PER_NODE * n);
    f
}
