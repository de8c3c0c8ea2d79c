// A whole legal graph in either order: the parts in order of lowest old number, each with the next free numbers.
ghost use Rattle.std.specs.Prelude.{◌≡◌, true, false, List, ℕ, ◌*◌, ◌≤◌, length, drop};
ghost use Rattle.basis.specs.Lists.{sum};
ghost use Rattle.spec.specs.CallsNumbering.{measure_figures};
ghost use Rattle.spec.specs.Graph.{graph_refusal};
ghost use Rattle.spec.specs.Lent.{zeroed, words_per_node};
ghost use Rattle.spec.specs.Levels.{parts};
ghost use Rattle.spec.specs.Measures.{is_numbering};
ghost use Rattle.spec.specs.Unknowns.{bad_counts, renumbered_unknowns};
ghost use Rattle.laws.specs.Handed.{graph_now, graph_was, size_now, size_was};
ghost use Rattle.graph.specs.Facts.{LegalLists};
ghost use Rattle.numbering_ones.specs.Three.{three};
ghost use Rattle.numbering_whole.specs.Figures.{seven};
ghost use Rattle.numbering_next.specs.Orders.{whole_in};
ghost use Rattle.numbering_next.specs.Ran.{Ran, Summed};
ghost use Rattle.numbering_next.specs.declared.order.Order.{Order};

use crate::shape::RunFigures;
use graph_words::legal::clear;
use levels::legal::WORDS_PER_NODE;
use numbering_measures::legal::figures;
use numbering_next::legal::next_part;
use numbering_next::order::Order;
use numbering_next::shape::Tally;
use numbering_ones::Measures;
use numbering_parts::legal::members;

// "Parts come in order of lowest old number". The scratch is as before.
fn number_parts(
    order: Order,
    starts: &[u16],
    neighbours: &[u16],
    counts: &[u16],
    numbers: &mut [u16],
    levels: &mut [u16],
    passes: &mut [u16],
    scratch: &mut [u16],
    count: u16,
) -> Tally
    requires count_value { count ≡ length (parts (graph_now starts neighbours)) }
    requires ran { Ran order starts.now neighbours.now counts.now 0 0 0 0 numbers.old levels.old passes.old scratch.old }
    ensures summed { Summed (whole_in order (graph_was starts neighbours) counts.now).figures result.parts result.nodes result.levels result.width }
    ensures numbers_value { numbers.new ≡ (whole_in order (graph_was starts neighbours) counts.now).numbers }
    ensures levels_value { levels.new ≡ (whole_in order (graph_was starts neighbours) counts.now).levels }
    ensures passes_value { passes.new ≡ (whole_in order (graph_was starts neighbours) counts.now).passes }
    ensures scratch_value { scratch.new ≡ scratch.old }
{
    let mut t = Tally {
        parts: 0,
        nodes: 0,
        levels: 0,
        width: 0,
    };
    for _ in 0..count {
        t = next_part(
            order, starts, neighbours, counts, numbers, levels, passes, scratch, t,
        );
    }
    t
}

// Before the first part: zeros in the lists and in the scratch, then the members of all parts, and each part's size at its lowest node. How many
// parts there are.
fn begin(
    starts: &[u16],
    neighbours: &[u16],
    numbers: &mut [u16],
    levels: &mut [u16],
    passes: &mut [u16],
    scratch: &mut [u16],
) -> u16
    requires neighbours_value { graph_refusal starts.now neighbours.now ≡ 0 }
    requires numbers_len { (length numbers.old ≡ size_now starts) × (length levels.old ≡ size_now starts) × (length passes.old ≡ size_now starts) }
    requires starts_in_bounds { words_per_node * size_now starts ≤ length scratch.old }
    ensures value { result ≡ length (parts (graph_was starts neighbours)) }
    ensures ran { (order : Order) (counts : List ℕ) → bad_counts (size_was starts) counts ≡ false → Ran order starts.now neighbours.now counts 0 0 0 0 numbers.new levels.new passes.new scratch.new }
    ensures scratch_value { drop (words_per_node * size_was starts) scratch.new ≡ drop (words_per_node * size_was starts) scratch.old }
{
    let n = starts.len() - 1;
    clear(scratch, WORDS_PER_NODE * n);
    clear(levels, n);
    clear(passes, n);
    members(starts, neighbours, scratch, numbers)
}

// After the last part: the measures of the numbers in unknowns, of which there are `total`, in the first n words of the scratch, which is set to 0.
fn finish(
    starts: &[u16],
    neighbours: &[u16],
    counts: &[u16],
    numbers: &[u16],
    scratch: &mut [u16],
    total: usize,
) -> Measures
    requires legal_lists { LegalLists starts.now neighbours.now }
    requires counts_value { (bad_counts (size_now starts) counts.now ≡ false) × (total ≡ sum counts.now) }
    requires numbers_value { is_numbering (size_now starts) numbers.now ≡ true }
    requires starts_in_bounds { words_per_node * size_now starts ≤ length scratch.old }
    ensures result_value { three result ≡ measure_figures (renumbered_unknowns (graph_was starts neighbours) counts.now numbers.now) }
    ensures scratch_value { scratch.new ≡ zeroed (words_per_node * size_was starts) scratch.old }
{
    let n = starts.len() - 1;
    let m = figures(
        starts,
        neighbours,
        counts,
        numbers,
        &mut scratch[..n],
        total,
    );
    clear(scratch, WORDS_PER_NODE * n);
    m
}

// Numbers and levels, n words each by old number, the passes of each part in n words, and the figures, in scratch that is set to 0 before and after.
pub fn number_all(
    order: Order,
    starts: &[u16],
    neighbours: &[u16],
    counts: &[u16],
    numbers: &mut [u16],
    levels: &mut [u16],
    passes: &mut [u16],
    scratch: &mut [u16],
    total: usize,
) -> RunFigures
    requires neighbours_value { graph_refusal starts.now neighbours.now ≡ 0 }
    requires counts_value { (bad_counts (size_now starts) counts.now ≡ false) × (total ≡ sum counts.now) }
    requires numbers_len { (length numbers.old ≡ size_now starts) × (length levels.old ≡ size_now starts) × (length passes.old ≡ size_now starts) }
    requires starts_in_bounds { words_per_node * size_now starts ≤ length scratch.old }
    ensures result_value { seven result ≡ (whole_in order (graph_was starts neighbours) counts.now).figures }
    ensures numbers_value { numbers.new ≡ (whole_in order (graph_was starts neighbours) counts.now).numbers }
    ensures levels_value { levels.new ≡ (whole_in order (graph_was starts neighbours) counts.now).levels }
    ensures passes_value { passes.new ≡ (whole_in order (graph_was starts neighbours) counts.now).passes }
    ensures scratch_value { scratch.new ≡ zeroed (words_per_node * size_was starts) scratch.old }
{
    let count = begin(starts, neighbours, numbers, levels, passes, scratch);
    let t = number_parts(
        order, starts, neighbours, counts, numbers, levels, passes, scratch, count,
    );
    let m = finish(starts, neighbours, counts, numbers, scratch, total);
    RunFigures {
        nodes: t.nodes,
        parts: t.parts,
        bandwidth: m.bandwidth,
        profile: m.profile,
        front: m.front,
        levels: t.levels,
        width: t.width,
    }
}
