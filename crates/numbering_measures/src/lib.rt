// Bandwidth, profile and front of a legal graph under a numbering, in unknowns. Linear in nodes and entries.
#![tactic(auto)]

ghost use Rattle.std.specs.Prelude.{◌≡◌};
ghost use Rattle.spec.specs.CallsNumbering.{measures_answer, measures_scratch};
ghost use Rattle.numbering_measures.specs.Answer.{meaning};

mod fronts;
pub mod legal;
mod unknowns;

pub use numbering_ones::Measures;
use refusals::Refusal;

// The entry point: counts and a numbering by old number, and a scratch word for each node.
pub fn measures(
    starts: &[u16],
    neighbours: &[u16],
    counts: &[u16],
    numbering: &[u16],
    scratch: &mut [u16],
) -> Result<Measures, Refusal>
    ensures result_value { meaning result ≡ measures_answer starts.now neighbours.now counts.now numbering.now scratch.old }
    ensures scratch_value { scratch.new ≡ measures_scratch starts.now neighbours.now counts.now numbering.now scratch.old }
{
    graph::test_adjacency(starts, neighbours)?;
    let n = starts.len() - 1;
    if scratch.len() < n {
        return Err(Refusal::ShortBuffer);
    }
    let Ok(total) = graph_words::legal::unknowns(counts, n) else {
        return Err(Refusal::Counts);
    };
    if !graph_envelope::legal::numbered(numbering, n, scratch) {
        return Err(Refusal::NoNumbering);
    }
    Ok(legal::figures(
        starts,
        neighbours,
        counts,
        numbering,
        &mut scratch[..n],
        total,
    ))
}
