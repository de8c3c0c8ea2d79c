// Numberings from other mesh tools: a supplier's pairs, old number then new, are made into a full numbering, which is accepted if it is one and
// has the figures that were sent. Linear in nodes, entries and pairs.
#![tactic(auto)]

ghost use Rattle.std.specs.Prelude.{◌≡◌};
ghost use Rattle.spec_import.specs.CallsImport.{import_answer, import_numbers, import_scratch};
ghost use Rattle.numbering_import.specs.Answer.{sent_three, meaning};

mod answer;
mod figures;
mod legal;
mod numbers;
mod pairs;

pub use answer::SuppliedFigures;
use refusals::Refusal;

// The entry point: counts by old number, the pairs and the three figures; a numbering and scratch are lent, a word for each node.
pub fn import_numbering(
    starts: &[u16],
    neighbours: &[u16],
    counts: &[u16],
    pairs: &[u16],
    sent: SuppliedFigures,
    numbers: &mut [u16],
    scratch: &mut [u16],
) -> Result<(), Refusal>
    ensures result_value { meaning result ≡ import_answer starts.now neighbours.now counts.now pairs.now (sent_three sent) numbers.old scratch.old }
    ensures numbers_value { numbers.new ≡ import_numbers starts.now neighbours.now counts.now pairs.now (sent_three sent) numbers.old scratch.old }
    ensures scratch_value { scratch.new ≡ import_scratch starts.now neighbours.now counts.now pairs.now (sent_three sent) numbers.old scratch.old }
{
    graph::test_adjacency(starts, neighbours)?;
    let n = starts.len() - 1;
    if numbers.len() < n {
        return Err(Refusal::ShortBuffer);
    }
    if scratch.len() < n {
        return Err(Refusal::ShortBuffer);
    }
    let Ok(total) = graph_words::legal::unknowns(counts, n) else {
        return Err(Refusal::Counts);
    };
    legal::import(
        starts,
        neighbours,
        counts,
        pairs,
        sent,
        &mut numbers[..n],
        &mut scratch[..n],
        total,
    )
}
