// The store of a numbered graph, in unknowns: the marks of the pairs that the elimination joins.
#![tactic(auto)]

ghost use Rattle.std.specs.Prelude.{◌≡◌};
ghost use Rattle.spec.specs.CallsStore.{elimination_answer, elimination_scratch, elimination_bytes};
ghost use Rattle.store_elimination.specs.Answer.{meaning};

mod legal;
mod ones;

use refusals::Refusal;
pub use store_unknowns::answer::Counts;

// The entry point: counts and a numbering by old number, a scratch word for each node, and the mark bytes.
pub fn eliminate(
    starts: &[u16],
    neighbours: &[u16],
    counts: &[u16],
    numbering: &[u16],
    scratch: &mut [u16],
    bytes: &mut [u8],
) -> Result<Counts, Refusal>
    ensures result_value { meaning result ≡ elimination_answer starts.now neighbours.now counts.now numbering.now scratch.old bytes.old }
    ensures scratch_value { scratch.new ≡ elimination_scratch starts.now neighbours.now counts.now numbering.now scratch.old bytes.old }
    ensures bytes_value { bytes.new ≡ elimination_bytes starts.now neighbours.now counts.now numbering.now scratch.old bytes.old }
{
    graph::test_adjacency(starts, neighbours)?;
    let n = starts.len() - 1;
    if scratch.len() < n {
        return Err(Refusal::ShortBuffer);
    }
    let Ok(total) = graph_words::legal::unknowns(counts, n) else {
        return Err(Refusal::Counts);
    };
    if !graph_envelope::legal::numbered(numbering, n, scratch) {
        return Err(Refusal::NoNumbering);
    }
    legal::eliminate(
        starts,
        neighbours,
        counts,
        numbering,
        &mut scratch[..n],
        bytes,
        total,
    )
}
