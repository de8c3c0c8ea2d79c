// The report of one part: "v and u as now named, k, the combined levels' width, passes and a direction". The call takes the counts of unknowns,
// by old number, and tests what it is handed in the order of the table: 1 to 4, then 5, then 15, then 6.
#![tactic(auto)]

pub mod answer;
pub mod legal;
mod part;

ghost use Rattle.std.specs.Prelude.{◌≡◌};
ghost use Rattle.spec.specs.CallsNumbering.{report_answer, report_scratch};
ghost use Rattle.numbering_report.specs.Answers.{answer_meaning};

use answer::PartReport;
use graph::test_adjacency;
use graph_words::legal::unknowns;
use levels::legal::{WORDS_PER_NODE, no_node};
use refusals::Refusal;

// The report of the part of `node`.
pub fn part_report(
    starts: &[u16],
    neighbours: &[u16],
    counts: &[u16],
    node: u16,
    scratch: &mut [u16],
) -> Result<PartReport, Refusal>
    ensures result_value { answer_meaning result ≡ report_answer starts.now neighbours.now counts.now node scratch.old }
    ensures scratch_value { scratch.new ≡ report_scratch starts.now neighbours.now counts.now node scratch.old }
{
    test_adjacency(starts, neighbours)?;
    let n = starts.len() - 1;
    if scratch.len() < WORDS_PER_NODE * n {
        return Err(Refusal::ShortBuffer);
    }
    let Ok(_) = unknowns(counts, n) else {
        return Err(Refusal::Counts);
    };
    if no_node(n, node) {
        return Err(Refusal::NoSuchNode);
    }
    Ok(part::find_report(starts, neighbours, counts, node, scratch))
}
