// The call on one part: what it does in its scratch once it was tested.
ghost use Rattle.std.specs.Prelude.{◌≡◌, false, ◌*◌, ◌≤◌, length};
ghost use Rattle.spec.specs.Graph.{graph_refusal};
ghost use Rattle.spec.specs.Lent.{zeroed, words_per_node};
ghost use Rattle.spec.specs.Numbering.{part_result};
ghost use Rattle.spec.specs.Unknowns.{bad_counts};
ghost use Rattle.laws.specs.Handed.{graph_was, size_now, size_was};
ghost use Rattle.numbering_report.specs.Answers.{report_meaning};

use crate::answer::PartReport;
use crate::legal::report;
use graph_words::legal::clear;
use levels::legal::{WORDS_PER_NODE, gather_part};
use numbering_part::legal::find_part;

// The report of the part of `node`, in scratch that is set to 0 before and after.
pub(crate) fn find_report(
    starts: &[u16],
    neighbours: &[u16],
    counts: &[u16],
    node: u16,
    scratch: &mut [u16],
) -> PartReport
    requires neighbours_value { graph_refusal starts.now neighbours.now ≡ 0 }
    requires counts_value { bad_counts (size_now starts) counts.now ≡ false }
    requires le_node { (1 ≤ node) × (node ≤ size_now starts) }
    requires starts_in_bounds { words_per_node * size_now starts ≤ length scratch.old }
    ensures result_value { report_meaning result ≡ (part_result (graph_was starts neighbours) counts.now node).report }
    ensures scratch_value { scratch.new ≡ zeroed (words_per_node * size_was starts) scratch.old }
{
    let n = starts.len() - 1;
    clear(scratch, WORDS_PER_NODE * n);
    let m = gather_part(starts, neighbours, node, scratch);
    let f = find_part(starts, neighbours, counts, scratch, 0, m);
    clear(scratch, WORDS_PER_NODE * n);
    report(f)
}
