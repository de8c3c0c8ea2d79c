// The three measures of a legal graph under a numbering, in unknowns, whatever the counts. A walk over the rows finds f_q for each number q.
// From the unknowns ahead of q and of f_q follow the node's share of the profile and how far its last unknown reaches: the bandwidth is the
// greatest reach, as each edge is seen from its higher end. A second walk, in the same words, adds up the counts by f for the front.
ghost use Rattle.std.specs.Prelude.{◌≡◌, length, replicate};
ghost use Rattle.spec.specs.CallsNumbering.{measure_figures};
ghost use Rattle.spec.specs.Measures.{order_of, bandwidth, profile};
ghost use Rattle.spec.specs.Unknowns.{renumbered_unknowns};
ghost use Rattle.laws.specs.Handed.{graph_was, size_now, size_was};
ghost use Rattle.graph_envelope.specs.Aheads.{aheads};
ghost use Rattle.numbering_ones.specs.Three.{three};
ghost use Rattle.numbering_measures.specs.Fronts.{Low, opened};
ghost use Rattle.numbering_measures.specs.Measurable.{Measurable};

use crate::fronts::{steps, sweep};
use graph_envelope::legal::unknowns::{add_up, share, width};
use graph_envelope::legal::{first, numbered};
use numbering_ones::Measures;

// What the nodes' envelopes give: the greatest reach and the sum of the shares.
#[derive(Clone, Copy)]
struct Spans {
    bandwidth: u32,
    profile: u32,
}

// Bandwidth and profile, from the unknowns ahead of each number.
fn walk(
    starts: &[u16],
    neighbours: &[u16],
    counts: &[u16],
    numbering: &[u16],
    ahead: &[u16],
) -> Spans
    requires measurable { Measurable starts.now neighbours.now counts.now numbering.now }
    requires ahead_value { ahead.now ≡ aheads counts.now (order_of numbering.now) }
    ensures bandwidth_value { result.bandwidth ≡ bandwidth (renumbered_unknowns (graph_was starts neighbours) counts.now numbering.now) }
    ensures profile_value { result.profile ≡ profile (renumbered_unknowns (graph_was starts neighbours) counts.now numbering.now) }
{
    let mut widest = 0;
    let mut sum: u32 = 0;
    for (i, &count) in counts.iter().enumerate() {
        let c = usize::from(count);
        let w = width(starts, neighbours, numbering, ahead, i + 1);
        widest = widest.max(w + c - 1);
        sum += share(c, w);
    }
    Spans {
        bandwidth: widest as u32,
        profile: sum,
    }
}

// To the word of each number i are added the unknowns of the numbers j with f_j = i.
fn gather(starts: &[u16], neighbours: &[u16], counts: &[u16], numbering: &[u16], words: &mut [u16])
    requires measurable { Measurable starts.now neighbours.now counts.now numbering.now }
    requires words_len { length words.old ≡ size_now starts }
    requires low { Low words.old }
    ensures { words.new ≡ opened (graph_was starts neighbours) counts.now numbering.now words.old (size_was starts) }
{
    for (i, &count) in counts.iter().enumerate() {
        let f = first(starts, neighbours, numbering, i + 1);
        words[f - 1] += count;
    }
}

// Bandwidth, profile and front. The n words lent are the nodes in the order of their numbers, and end as 0.
fn figures_by_order(
    starts: &[u16],
    neighbours: &[u16],
    counts: &[u16],
    numbering: &[u16],
    words: &mut [u16],
) -> Measures
    requires measurable { Measurable starts.now neighbours.now counts.now numbering.now }
    requires words_value { words.old ≡ order_of numbering.now }
    ensures result_value { three result ≡ measure_figures (renumbered_unknowns (graph_was starts neighbours) counts.now numbering.now) }
    ensures words_value_2 { words.new ≡ replicate (size_was starts) 0 }
{
    add_up(counts, words);
    let spans = walk(starts, neighbours, counts, numbering, words);
    steps(words);
    gather(starts, neighbours, counts, numbering, words);
    let most = sweep(words);
    Measures {
        bandwidth: spans.bandwidth,
        profile: spans.profile,
        front: most as u32,
    }
}

// Bandwidth, profile and front. Any n words are lent, and end as 0: the order is made in them.
pub(crate) fn figures_in_unknowns(
    starts: &[u16],
    neighbours: &[u16],
    counts: &[u16],
    numbering: &[u16],
    words: &mut [u16],
) -> Measures
    requires measurable { Measurable starts.now neighbours.now counts.now numbering.now }
    requires words_len { length words.old ≡ size_now starts }
    ensures result_value { three result ≡ measure_figures (renumbered_unknowns (graph_was starts neighbours) counts.now numbering.now) }
    ensures words_value { words.new ≡ replicate (size_was starts) 0 }
{
    numbered(numbering, numbering.len(), words);
    figures_by_order(starts, neighbours, counts, numbering, words)
}
