// The three measures of a legal graph under a numbering, in unknowns: for the call, and for the crates above.
ghost use Rattle.std.specs.Prelude.{◌≡◌, true, false, length, replicate};
ghost use Rattle.basis.specs.Lists.{sum};
ghost use Rattle.spec.specs.CallsNumbering.{measure_figures};
ghost use Rattle.spec.specs.Measures.{is_numbering};
ghost use Rattle.spec.specs.Unknowns.{bad_counts, renumbered_unknowns};
ghost use Rattle.laws.specs.Handed.{graph_was, size_now, size_was};
ghost use Rattle.graph.specs.Facts.{LegalLists};
ghost use Rattle.numbering_ones.specs.Three.{three};

use crate::unknowns::figures_in_unknowns;
use numbering_ones::Measures;

// Bandwidth, profile and front of `total` unknowns: where these are as many as the nodes, each has one, and the rows are walked once only.
// Any n words are lent, and end as 0.
pub fn figures(
    starts: &[u16],
    neighbours: &[u16],
    counts: &[u16],
    numbering: &[u16],
    words: &mut [u16],
    total: usize,
) -> Measures
    requires legal_lists { LegalLists starts.now neighbours.now }
    requires counts_value { bad_counts (size_now starts) counts.now ≡ false }
    requires numbering_value { is_numbering (size_now starts) numbering.now ≡ true }
    requires words_len { length words.old ≡ size_now starts }
    requires total_value { total ≡ sum counts.now }
    ensures result_value { three result ≡ measure_figures (renumbered_unknowns (graph_was starts neighbours) counts.now numbering.now) }
    ensures words_value { words.new ≡ replicate (size_was starts) 0 }
{
    if total == numbering.len() {
        return numbering_ones::legal::figures(starts, neighbours, numbering, words);
    }
    figures_in_unknowns(starts, neighbours, counts, numbering, words)
}
