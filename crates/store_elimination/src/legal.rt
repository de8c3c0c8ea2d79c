// The elimination of a legal graph by a legal numbering, in unknowns: of `total` unknowns. Where these are as many as the nodes, each has one,
// and the marks of the nodes are those of the unknowns.
ghost use Rattle.std.specs.Prelude.{◌≡◌, length, replicate};
ghost use Rattle.basis.specs.Lists.{sum};
ghost use Rattle.spec.specs.CallsStore.{elimination_figures};
ghost use Rattle.spec.specs.Measures.{order_of};
ghost use Rattle.spec.specs.Store.{mark_byte_count, mark_bytes};
ghost use Rattle.spec.specs.Unknowns.{renumbered_unknowns};
ghost use Rattle.laws.specs.Handed.{graph_now, graph_was, size_was};
ghost use Rattle.store_spread.specs.Rows.{Given};
ghost use Rattle.store_unknowns.specs.Answer.{figures_of};
ghost use Rattle.store_elimination.specs.Answer.{meaning, eliminated, bytes_after};

use crate::ones;
use refusals::Refusal;
use store_unknowns::answer::Counts;

// "profile / 8 rounded up". The order of the numbering is in scratch, before and after.
fn byte_count(
    starts: &[u16],
    neighbours: &[u16],
    counts: &[u16],
    numbering: &[u16],
    scratch: &mut [u16],
    total: usize,
) -> usize
    requires given { Given starts.now neighbours.now numbering.now counts.now scratch.old }
    requires total_value { total ≡ sum counts.now }
    ensures value { result ≡ mark_byte_count (renumbered_unknowns (graph_was starts neighbours) counts.now numbering.now) }
    ensures scratch_value { scratch.new ≡ order_of numbering.now }
{
    if total == numbering.len() {
        return ones::byte_count(starts, neighbours, numbering);
    }
    store_unknowns::legal::byte_count(starts, neighbours, counts, numbering, scratch)
}

// The marks are set and counted. Scratch holds the order of the numbering, and ends as zeros.
fn mark(
    starts: &[u16],
    neighbours: &[u16],
    counts: &[u16],
    numbering: &[u16],
    scratch: &mut [u16],
    bytes: &mut [u8],
    total: usize,
) -> Counts
    requires given { Given starts.now neighbours.now numbering.now counts.now scratch.old }
    requires bytes_len { length bytes.old ≡ mark_byte_count (renumbered_unknowns (graph_now starts neighbours) counts.now numbering.now) }
    requires total_value { total ≡ sum counts.now }
    ensures result_value { figures_of result ≡ elimination_figures (renumbered_unknowns (graph_was starts neighbours) counts.now numbering.now) }
    ensures scratch_value { scratch.new ≡ replicate (size_was starts) 0 }
    ensures bytes_value { bytes.new ≡ mark_bytes (renumbered_unknowns (graph_was starts neighbours) counts.now numbering.now) }
{
    if total == numbering.len() {
        return ones::mark(starts, neighbours, numbering, scratch, bytes);
    }
    store_unknowns::legal::mark(starts, neighbours, counts, numbering, scratch, bytes)
}

// 8, and else the elimination. The n scratch words hold the order of the numbering, and end as zeros.
pub fn eliminate(
    starts: &[u16],
    neighbours: &[u16],
    counts: &[u16],
    numbering: &[u16],
    scratch: &mut [u16],
    bytes: &mut [u8],
    total: usize,
) -> Result<Counts, Refusal>
    requires given { Given starts.now neighbours.now numbering.now counts.now scratch.old }
    requires total_value { total ≡ sum counts.now }
    ensures result_value { meaning result ≡ eliminated (renumbered_unknowns (graph_was starts neighbours) counts.now numbering.now) bytes.old }
    ensures scratch_value { scratch.new ≡ replicate (size_was starts) 0 }
    ensures bytes_value { bytes.new ≡ bytes_after (renumbered_unknowns (graph_was starts neighbours) counts.now numbering.now) bytes.old }
{
    let n = numbering.len();
    let m = byte_count(starts, neighbours, counts, numbering, scratch, total);
    if bytes.len() < m {
        graph_words::legal::clear(scratch, n);
        return Err(Refusal::ShortMarks);
    }
    Ok(mark(
        starts,
        neighbours,
        counts,
        numbering,
        scratch,
        &mut bytes[..m],
        total,
    ))
}
