// The store in unknowns of a legal graph, numbering and counts: its byte count, and its marks. Callers have tested the lists, and the room.
ghost use Rattle.std.specs.Prelude.{◌≡◌, true, ◌++◌, ◌-◌, ◌≤◌, length, replicate};
ghost use Rattle.spec.specs.CallsStore.{elimination_figures};
ghost use Rattle.spec.specs.Lent.{zeroed};
ghost use Rattle.spec.specs.Measures.{is_numbering, order_of, profile};
ghost use Rattle.spec.specs.Store.{mark_bytes, mark_byte_count};
ghost use Rattle.spec.specs.Unknowns.{renumbered_unknowns};
ghost use Rattle.laws.specs.Handed.{graph_now, graph_was, size_was};
ghost use Rattle.store_eliminate.specs.Walk.{Given as NodesGiven, new_graph};
ghost use Rattle.store_spread.specs.Rows.{Given};
ghost use Rattle.store_unknowns.specs.Answer.{figures_of};
ghost use Rattle.store_unknowns.specs.Edges.{Counted};

use crate::answer::Counts;

pub mod edges;

// The order of the numbering, in place of what scratch holds.
fn order_again(numbering: &[u16], scratch: &mut [u16])
    requires { (length numbering.now ≤ 4096) × (is_numbering (length numbering.now) numbering.now ≡ true) × (length scratch.old ≡ length numbering.now) }
    ensures { scratch.new ≡ order_of numbering.now }
{
    graph_envelope::legal::numbered(numbering, numbering.len(), scratch);
}

// How many places the store in unknowns has. The order of the numbering is in scratch, before and after.
fn places(
    starts: &[u16],
    neighbours: &[u16],
    counts: &[u16],
    numbering: &[u16],
    scratch: &mut [u16],
) -> u32
    requires { Given starts.now neighbours.now numbering.now counts.now scratch.old }
    ensures value { result ≡ profile (renumbered_unknowns (graph_was starts neighbours) counts.now numbering.now) }
    ensures scratch_value { scratch.new ≡ order_of numbering.now }
{
    graph_envelope::legal::unknowns::add_up(counts, scratch);
    let sum = graph_envelope::legal::unknowns::profile(
        starts, neighbours, counts, numbering, scratch,
    );
    order_again(numbering, scratch);
    sum
}

// "profile / 8 rounded up", in unknowns. The order of the numbering is in scratch, before and after.
pub fn byte_count(
    starts: &[u16],
    neighbours: &[u16],
    counts: &[u16],
    numbering: &[u16],
    scratch: &mut [u16],
) -> usize
    requires { Given starts.now neighbours.now numbering.now counts.now scratch.old }
    ensures value { result ≡ mark_byte_count (renumbered_unknowns (graph_was starts neighbours) counts.now numbering.now) }
    ensures scratch_value { scratch.new ≡ order_of numbering.now }
{
    let profile = places(starts, neighbours, counts, numbering, scratch);
    ((profile + 7) / 8) as usize
}

// Sets the first n bytes to 0. How many they are is handed in, so that the edit `not_cleared` plants another number and nothing else.
fn clear(bytes: &mut [u8], n: usize)
    requires { n ≤ length bytes.old }
    ensures { bytes.new ≡ zeroed n bytes.old }
{
    bytes[..n].fill(0);
}

// The marks of the nodes' store of `nodes` places in the front of the bytes, and zeros behind. The order of the numbering is in scratch; that ends as zeros.
fn mark_nodes(
    starts: &[u16],
    neighbours: &[u16],
    numbering: &[u16],
    scratch: &mut [u16],
    bytes: &mut [u8],
    nodes: u32,
)
    requires { NodesGiven starts.now neighbours.now numbering.now
        × (scratch.old ≡ order_of numbering.now)
        × (nodes ≡ profile (new_graph starts.now neighbours.now numbering.now))
        × (mark_byte_count (new_graph starts.now neighbours.now numbering.now) ≤ length bytes.old) }
    ensures bytes_value { bytes.new ≡ mark_bytes (new_graph starts.now neighbours.now numbering.now)
        ++ replicate (length bytes.old - mark_byte_count (new_graph starts.now neighbours.now numbering.now)) 0 }
    ensures scratch_value { scratch.new ≡ replicate (size_was starts) 0 }
{
    let m = ((nodes + 7) / 8) as usize;
    clear(bytes, bytes.len());
    store_eliminate::legal::mark(starts, neighbours, numbering, scratch, &mut bytes[..m]);
}

// The marks of the store in unknowns. The two stores have `nodes` and `unknowns` places. The order of the numbering is in scratch; that ends as zeros.
fn mark_both(
    starts: &[u16],
    neighbours: &[u16],
    counts: &[u16],
    numbering: &[u16],
    scratch: &mut [u16],
    bytes: &mut [u8],
    nodes: u32,
    unknowns: u32,
)
    requires given { Given starts.now neighbours.now numbering.now counts.now scratch.old }
    requires nodes_value { (nodes ≡ profile (new_graph starts.now neighbours.now numbering.now))
        × (unknowns ≡ profile (renumbered_unknowns (graph_now starts neighbours) counts.now numbering.now))
        × (length bytes.old ≡ mark_byte_count (renumbered_unknowns (graph_now starts neighbours) counts.now numbering.now)) }
    ensures bytes_value { bytes.new ≡ mark_bytes (renumbered_unknowns (graph_was starts neighbours) counts.now numbering.now) }
    ensures scratch_value { scratch.new ≡ replicate (size_was starts) 0 }
{
    mark_nodes(starts, neighbours, numbering, scratch, bytes, nodes);
    order_again(numbering, scratch);
    store_spread::legal::spread(
        starts, neighbours, numbering, counts, scratch, bytes, nodes, unknowns,
    );
    scratch.fill(0);
}

// The same, where the places of both stores are still to be counted.
fn mark_all(
    starts: &[u16],
    neighbours: &[u16],
    counts: &[u16],
    numbering: &[u16],
    scratch: &mut [u16],
    bytes: &mut [u8],
)
    requires given { Given starts.now neighbours.now numbering.now counts.now scratch.old }
    requires bytes_len { length bytes.old ≡ mark_byte_count (renumbered_unknowns (graph_now starts neighbours) counts.now numbering.now) }
    ensures bytes_value { bytes.new ≡ mark_bytes (renumbered_unknowns (graph_was starts neighbours) counts.now numbering.now) }
    ensures scratch_value { scratch.new ≡ replicate (size_was starts) 0 }
{
    let unknowns = places(starts, neighbours, counts, numbering, scratch);
    let nodes = graph_envelope::legal::profile(starts, neighbours, numbering);
    mark_both(
        starts, neighbours, counts, numbering, scratch, bytes, nodes, unknowns,
    );
}

// The two counts of finished marks: pairs that are joined at first are not new.
fn figures(
    starts: &[u16],
    neighbours: &[u16],
    counts: &[u16],
    numbering: &[u16],
    bytes: &[u8],
) -> Counts
    requires counted { Counted starts.now neighbours.now counts.now numbering.now }
    requires bytes_value { bytes.now ≡ mark_bytes (renumbered_unknowns (graph_now starts neighbours) counts.now numbering.now) }
    ensures { figures_of result ≡ elimination_figures (renumbered_unknowns (graph_was starts neighbours) counts.now numbering.now) }
{
    let marked = store_marks::legal::counting::count(bytes);
    let joined = edges::edges(starts, neighbours, counts, numbering);
    Counts {
        marked,
        new: marked - joined,
    }
}

// The marks are set and counted, all in unknowns. Scratch holds the order of the numbering, and ends as zeros.
pub fn mark(
    starts: &[u16],
    neighbours: &[u16],
    counts: &[u16],
    numbering: &[u16],
    scratch: &mut [u16],
    bytes: &mut [u8],
) -> Counts
    requires given { Given starts.now neighbours.now numbering.now counts.now scratch.old }
    requires bytes_len { length bytes.old ≡ mark_byte_count (renumbered_unknowns (graph_now starts neighbours) counts.now numbering.now) }
    ensures result_value { figures_of result ≡ elimination_figures (renumbered_unknowns (graph_was starts neighbours) counts.now numbering.now) }
    ensures scratch_value { scratch.new ≡ replicate (size_was starts) 0 }
    ensures bytes_value { bytes.new ≡ mark_bytes (renumbered_unknowns (graph_was starts neighbours) counts.now numbering.now) }
{
    mark_all(starts, neighbours, counts, numbering, scratch, bytes);
    figures(starts, neighbours, counts, numbering, bytes)
}
