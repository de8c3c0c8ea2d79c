// The elimination of a legal graph by a legal numbering where each node has one unknown: its byte count, and its marks.
ghost use Rattle.std.specs.Prelude.{◌≡◌, length, replicate};
ghost use Rattle.spec.specs.CallsStore.{elimination_figures};
ghost use Rattle.spec.specs.Measures.{order_of};
ghost use Rattle.spec.specs.Store.{mark_byte_count, mark_bytes};
ghost use Rattle.laws.specs.Handed.{size_was};
ghost use Rattle.store_eliminate.specs.Walk.{Given, new_graph};
ghost use Rattle.store_unknowns.specs.Answer.{figures_of};

use store_unknowns::answer::Counts;

// "profile / 8 rounded up"
pub(crate) fn byte_count(starts: &[u16], neighbours: &[u16], numbering: &[u16]) -> usize
    requires { Given starts.now neighbours.now numbering.now }
    ensures { result ≡ mark_byte_count (new_graph starts.now neighbours.now numbering.now) }
{
    let profile = graph_envelope::legal::profile(starts, neighbours, numbering);
    ((profile + 7) / 8) as usize
}

// The marks are set and counted; the edges, which are half of the entries, are not new. Scratch holds the order of the numbering.
pub(crate) fn mark(
    starts: &[u16],
    neighbours: &[u16],
    numbering: &[u16],
    scratch: &mut [u16],
    bytes: &mut [u8],
) -> Counts
    requires { Given starts.now neighbours.now numbering.now
        × (scratch.old ≡ order_of numbering.now)
        × (length bytes.old ≡ mark_byte_count (new_graph starts.now neighbours.now numbering.now)) }
    ensures { (figures_of result ≡ elimination_figures (new_graph starts.now neighbours.now numbering.now))
        × (scratch.new ≡ replicate (size_was starts) 0)
        × (bytes.new ≡ mark_bytes (new_graph starts.now neighbours.now numbering.now)) }
{
    let marked = store_eliminate::legal::mark(starts, neighbours, numbering, scratch, bytes);
    let edges = (neighbours.len() / 2) as u32;
    Counts {
        marked,
        new: marked - edges,
    }
}
