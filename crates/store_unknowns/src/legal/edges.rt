// The pairs of unknowns that are joined at first: those of one node, and those of two nodes that adjoin.
ghost use Rattle.std.specs.Prelude.{◌≡◌, ◌+◌, ◌≤◌, length};
ghost use Rattle.basis.specs.Lists.{sum};
ghost use Rattle.spec.specs.Graph.{of_node};
ghost use Rattle.laws.specs.Handed.{graph_now};
ghost use Rattle.laws.specs.Legal.{Node};
ghost use Rattle.laws.specs.Unknowns.{unknown_edges};
ghost use Rattle.graph_envelope.specs.Numbers.{Words};
ghost use Rattle.store_spread.specs.Rows.{new_graph, new_counts};
ghost use Rattle.store_unknowns.specs.Edges.{Counted, lower, lowers, edges_at};

use graph::legal::row;
use graph_envelope::legal::number;
use graph_envelope::legal::unknowns::share;

// The unknowns of node q where its number is below `own`, and else none.
fn if_lower(counts: &[u16], numbering: &[u16], q: usize, own: usize) -> usize
    requires { (1 ≤ q) × (q ≤ length counts.now) × (q ≤ length numbering.now) }
    ensures { result ≡ lower counts.now numbering.now own q }
{
    if number(numbering, q) < own {
        return number(counts, q);
    }
    0
}

// The unknowns of those in a row whose numbers are below `own`.
fn lower_row(row: &[u16], counts: &[u16], numbering: &[u16], own: usize) -> usize
    requires words { Words (length counts.now) row.now × (length numbering.now ≡ length counts.now) }
    requires row_bound { lowers counts.now numbering.now own row.now ≤ 24576 }
    ensures { result ≡ lowers counts.now numbering.now own row.now }
{
    let mut sum = 0;
    for &q in row {
        sum += if_lower(counts, numbering, usize::from(q), own);
    }
    sum
}

// Of node p: the pairs of its unknowns with those of its neighbours with lower numbers, and its own.
fn node_edges(
    starts: &[u16],
    neighbours: &[u16],
    counts: &[u16],
    numbering: &[u16],
    p: usize,
) -> u32
    requires { Counted starts.now neighbours.now counts.now numbering.now × Node (graph_now starts neighbours) p }
    ensures { result ≡ edges_at (new_graph starts.now neighbours.now numbering.now) (new_counts counts.now numbering.now) (of_node numbering.now p) }
{
    let own = number(numbering, p);
    let c = number(counts, p);
    let lower = lower_row(row(starts, neighbours, p), counts, numbering, own);
    share(c, lower)
}

// All of them, each at its upper number.
pub fn edges(starts: &[u16], neighbours: &[u16], counts: &[u16], numbering: &[u16]) -> u32
    requires { Counted starts.now neighbours.now counts.now numbering.now }
    ensures { result ≡ unknown_edges (new_graph starts.now neighbours.now numbering.now) (new_counts counts.now numbering.now) }
{
    let mut sum: u32 = 0;
    for p in 1..=numbering.len() {
        sum += node_edges(starts, neighbours, counts, numbering, p);
    }
    sum
}
