// The spread of a legal graph's marks, from the last row to the first: its callers have tested the lists, the numbering, the counts and the room.
ghost use Rattle.std.specs.Prelude.{◌≡◌, ◌++◌, ℕ, ◌+◌, ◌-◌, ◌≤◌, length, replicate};
ghost use Rattle.spec.specs.Graph.{of_node};
ghost use Rattle.spec.specs.Measures.{profile};
ghost use Rattle.spec.specs.Store.{mark_at, mark_bytes, mark_byte_count};
ghost use Rattle.spec.specs.Unknowns.{counts_in, renumbered_unknowns};
ghost use Rattle.laws.specs.Handed.{graph_now, graph_was, size_now};
ghost use Rattle.laws.specs.Unknowns.{unknowns_before, Spread};
ghost use Rattle.store_spread.specs.Places.{Room, Clear};
ghost use Rattle.store_spread.specs.Rows.{Listed, Ahead, Expanded, row_at, EndsAt, Given, new_graph, new_counts};

mod bits;

use crate::legal::bits::{repeat, shift};
use graph_envelope::legal::first;
use graph_envelope::legal::unknowns::share;

// The row of number q: its node has `count` unknowns, f_q is `first`, and the nodes f_q .. q − 1 have `width` unknowns. Its marks of nodes start at place
// `source`, and the marks of its unknowns are to start at place `start`.
#[derive(Clone, Copy)]
struct Row {
    q: usize,
    first: usize,
    count: u32,
    width: u32,
    source: u32,
    start: u32,
}

// Where the places of the rows that are still to be spread end: in the store of the nodes, and in that of the unknowns.
#[derive(Clone, Copy)]
struct Ends {
    nodes: u32,
    unknowns: u32,
}

// How many unknowns the node of number p has; `order` has the nodes in the order of their numbers.
fn count_of(counts: &[u16], order: &[u16], p: usize) -> u32
    requires { Listed counts.now order.now × (1 ≤ p) × (p ≤ length order.now) }
    ensures { result ≡ of_node (counts_in counts.now order.now) p }
{
    let node = usize::from(order[p - 1]);
    u32::from(counts[node - 1])
}

// How many unknowns the nodes of the numbers from .. q − 1 have.
fn width(counts: &[u16], order: &[u16], from: usize, q: usize) -> u32
    requires { Listed counts.now order.now × (1 ≤ from) × (from ≤ q) × (q ≤ length order.now) }
    ensures { (result ≡ unknowns_before (counts_in counts.now order.now) q - unknowns_before (counts_in counts.now order.now) from)
        × (result ≤ 24576) }
{
    let mut sum = 0;
    for p in from..q {
        sum += count_of(counts, order, p);
    }
    sum
}

// The marks of the row's nodes moved, the last first, to the first row of its unknowns: each as often as the node has unknowns.
fn expand(counts: &[u16], order: &[u16], bytes: &mut [u8], row: Row)
    requires listed { Listed counts.now order.now × Ahead (counts_in counts.now order.now) row.first row.q row.width row.source row.start }
    requires room { Room (length bytes.old) (row.start + row.width) × Clear bytes.old (row.source + (row.q - row.first)) (row.start + row.width) }
    ensures { Expanded (counts_in counts.now order.now) row.first row.q row.source row.start row.first bytes.old bytes.new }
{
    let first = row.first;
    let source = row.source;
    let start = row.start;
    let mut at = row.width;
    for p in (first..row.q).rev() {
        let c = count_of(counts, order, p);
        at -= c;
        shift(bytes, source + (p - first) as u32, start + at, c);
    }
}

// The row of number q, the last of those whose places end at `ends`.
fn row_of(
    starts: &[u16],
    neighbours: &[u16],
    numbering: &[u16],
    counts: &[u16],
    order: &[u16],
    q: usize,
    ends: Ends,
) -> Row
    requires given { Given starts.now neighbours.now numbering.now counts.now order.now × (1 ≤ q) × (q ≤ size_now starts) }
    requires ends_at { EndsAt (new_graph starts.now neighbours.now numbering.now) (new_counts counts.now numbering.now) q ends }
    ensures { result ≡ row_at (new_graph starts.now neighbours.now numbering.now) (new_counts counts.now numbering.now) q }
{
    let nodes = ends.nodes;
    let unknowns = ends.unknowns;
    let node = usize::from(order[q - 1]);
    let f = first(starts, neighbours, numbering, node);
    let c = count_of(counts, order, q);
    let w = width(counts, order, f, q);
    Row {
        q,
        first: f,
        count: c,
        width: w,
        source: nodes - (q - f) as u32,
        start: unknowns - share(c as usize, w as usize),
    }
}

// Row q is spread, where those after it are. Returns where the places of the rows before it end.
fn spread_row(
    starts: &[u16],
    neighbours: &[u16],
    numbering: &[u16],
    counts: &[u16],
    order: &[u16],
    bytes: &mut [u8],
    q: usize,
    ends: Ends,
) -> Ends
    requires given { Given starts.now neighbours.now numbering.now counts.now order.now × (1 ≤ q) × (q ≤ size_now starts) }
    requires ends_at { EndsAt (new_graph starts.now neighbours.now numbering.now) (new_counts counts.now numbering.now) q ends × Room (length bytes.old) ends.unknowns }
    requires spread { Spread (new_graph starts.now neighbours.now numbering.now) (new_counts counts.now numbering.now) q (mark_at bytes.old) }
    ensures ends_at_2 { EndsAt (new_graph starts.now neighbours.now numbering.now) (new_counts counts.now numbering.now) (q - 1) result
        × (result.unknowns ≤ ends.unknowns) }
    ensures spread_2 { Spread (new_graph starts.now neighbours.now numbering.now) (new_counts counts.now numbering.now) (q - 1) (mark_at bytes.new) }
{
    let row = row_of(starts, neighbours, numbering, counts, order, q, ends);
    expand(counts, order, bytes, row);
    repeat(bytes, row.start, row.width, row.count);
    Ends {
        nodes: row.source,
        unknowns: row.start,
    }
}

// The marks of the nodes' store, that stand in front of zeros, become those of the store in unknowns: all rows in turn, from the last to the first, so that no
// mark is written over before it is read. The two stores have `nodes` and `unknowns` places.
pub fn spread(
    starts: &[u16],
    neighbours: &[u16],
    numbering: &[u16],
    counts: &[u16],
    order: &[u16],
    bytes: &mut [u8],
    nodes: u32,
    unknowns: u32,
)
    requires given { Given starts.now neighbours.now numbering.now counts.now order.now }
    requires nodes_value { (nodes ≡ profile (new_graph starts.now neighbours.now numbering.now))
        × (unknowns ≡ profile (renumbered_unknowns (graph_now starts neighbours) counts.now numbering.now)) }
    requires bytes_len { (length bytes.old ≡ mark_byte_count (renumbered_unknowns (graph_now starts neighbours) counts.now numbering.now))
        × ((k : ℕ) × (bytes.old ≡ mark_bytes (new_graph starts.now neighbours.now numbering.now) ++ replicate k 0)) }
    ensures { bytes.new ≡ mark_bytes (renumbered_unknowns (graph_was starts neighbours) counts.now numbering.now) }
{
    let mut ends = Ends { nodes, unknowns };
    for q in (1..=order.len()).rev() {
        ends = spread_row(starts, neighbours, numbering, counts, order, bytes, q, ends);
    }
}
