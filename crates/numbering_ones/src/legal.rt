// The three measures of a legal graph under a numbering, with one unknown a node: for the crates above. One walk over the rows finds f_q for
// each number q: the profile is the sum of q − f_q; the bandwidth is the greatest, as each edge is seen from its higher end; and the
// front follows from how often each f occurs.
ghost use Rattle.std.specs.Prelude.{◌≡◌, true, length, replicate};
ghost use Rattle.spec.specs.CallsNumbering.{measure_figures};
ghost use Rattle.spec.specs.Measures.{is_numbering, renumbered, bandwidth, profile};
ghost use Rattle.laws.specs.Handed.{graph_was, size_now, size_was};
ghost use Rattle.graph.specs.Facts.{LegalLists};
ghost use Rattle.numbering_ones.specs.Three.{three};
ghost use Rattle.numbering_ones.specs.Fronts.{opened};

use crate::answer::Measures;
use crate::fronts::sweep;
use graph_envelope::legal::{first, number};
use graph_words::legal::clear;

// What the spans q − f_q give: the greatest and the sum.
#[derive(Clone, Copy)]
struct Spans {
    bandwidth: u32,
    profile: u32,
}

// Bandwidth and profile, and for each number i the count of the numbers j with f_j = i.
fn walk(starts: &[u16], neighbours: &[u16], numbering: &[u16], counts: &mut [u16]) -> Spans
    requires legal_lists { LegalLists starts.now neighbours.now }
    requires numbering_value { is_numbering (size_now starts) numbering.now ≡ true }
    requires counts_value { counts.old ≡ replicate (size_now starts) 0 }
    ensures bandwidth_value { result.bandwidth ≡ bandwidth (renumbered (graph_was starts neighbours) numbering.now) }
    ensures profile_value { result.profile ≡ profile (renumbered (graph_was starts neighbours) numbering.now) }
    ensures counts_value_2 { counts.new ≡ opened (graph_was starts neighbours) numbering.now (size_was starts) }
{
    let mut widest = 0;
    let mut sum: u32 = 0;
    for p in 1..=numbering.len() {
        let f = first(starts, neighbours, numbering, p);
        let span = number(numbering, p) - f;
        widest = widest.max(span);
        sum += span as u32;
        counts[f - 1] += 1;
    }
    Spans {
        bandwidth: widest as u32,
        profile: sum,
    }
}

// Bandwidth, profile and front. The n words lent end as 0.
pub fn figures(
    starts: &[u16],
    neighbours: &[u16],
    numbering: &[u16],
    counts: &mut [u16],
) -> Measures
    requires legal_lists { LegalLists starts.now neighbours.now }
    requires numbering_value { is_numbering (size_now starts) numbering.now ≡ true }
    requires counts_len { length counts.old ≡ size_now starts }
    ensures result_value { three result ≡ measure_figures (renumbered (graph_was starts neighbours) numbering.now) }
    ensures counts_value { counts.new ≡ replicate (size_was starts) 0 }
{
    clear(counts, numbering.len());
    let spans = walk(starts, neighbours, numbering, counts);
    let most = sweep(counts);
    Measures {
        bandwidth: spans.bandwidth,
        profile: spans.profile,
        front: most as u32,
    }
}
