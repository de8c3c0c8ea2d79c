// The envelope in unknowns, from the envelope of the nodes: U of a node is the number of its first unknown, and its words hold U − 1, the
// unknowns ahead of it.
ghost use Rattle.std.specs.Prelude.{◌≡◌, true, false, ◌+◌, ◌-◌, ◌*◌, ◌≤◌, length};
ghost use Rattle.spec.specs.Graph.{of_node};
ghost use Rattle.spec.specs.Measures.{is_numbering, order_of, renumbered, first_in, profile};
ghost use Rattle.spec.specs.Unknowns.{bad_counts, counts_in, renumbered_unknowns};
ghost use Rattle.laws.specs.Handed.{graph_now, graph_was, size_now};
ghost use Rattle.laws.specs.Legal.{Node, LegalGraph, Starts};
ghost use Rattle.laws.specs.Unknowns.{triangle, node_span};
ghost use Rattle.graph_envelope.specs.Numbers.{Words};
ghost use Rattle.graph_envelope.specs.Aheads.{aheads, Rises};

use crate::legal::{first, number};

// In place of each node of an order, how many unknowns stand ahead of it: at most 24,570.
pub fn add_up(counts: &[u16], order: &mut [u16])
    requires counts_value { bad_counts (length counts.now) counts.now ≡ false }
    requires words { Words (length counts.now) order.old }
    requires order_len_bound { length order.old ≤ 4096 }
    ensures { order.new ≡ aheads counts.now order.old }
{
    let mut sum = 0;
    for i in 0..order.len() {
        let p = usize::from(order[i]);
        order[i] = sum as u16;
        sum += number(counts, p);
    }
}

// How many unknowns stand from the first of f, for the number of node p, up to the first of its own.
pub fn width(
    starts: &[u16],
    neighbours: &[u16],
    numbering: &[u16],
    ahead: &[u16],
    p: usize,
) -> usize
    requires starts { Starts starts.now neighbours.now }
    requires legal_graph { LegalGraph (graph_now starts neighbours) }
    requires numbering_value { is_numbering (size_now starts) numbering.now ≡ true }
    requires node { Node (graph_now starts neighbours) p }
    requires rises { Rises ahead.now }
    requires ahead_len { length ahead.now ≡ size_now starts }
    ensures { result ≡ of_node ahead.now (of_node numbering.now p) - of_node ahead.now (first_in (renumbered (graph_was starts neighbours) numbering.now) (of_node numbering.now p)) }
{
    let q = number(numbering, p);
    let f = first(starts, neighbours, numbering, p);
    let own = number(ahead, q);
    own - number(ahead, f)
}

// The share of a node in the profile: each of its c unknowns reaches over the width, and over those of its own before it.
pub fn share(c: usize, width: usize) -> u32
    requires { (1 ≤ c) × (c ≤ 6) × (width ≤ 24576) }
    ensures { result ≡ c * width + triangle c }
{
    let own = c * (c - 1) / 2;
    (c * width + own) as u32
}

// The share of node p; `ahead` has the unknowns ahead of each number.
fn share_of(
    starts: &[u16],
    neighbours: &[u16],
    counts: &[u16],
    numbering: &[u16],
    ahead: &[u16],
    p: usize,
) -> u32
    requires starts { Starts starts.now neighbours.now }
    requires legal_graph { LegalGraph (graph_now starts neighbours) }
    requires numbering_value { is_numbering (size_now starts) numbering.now ≡ true }
    requires counts_value { bad_counts (size_now starts) counts.now ≡ false }
    requires ahead_value { ahead.now ≡ aheads counts.now (order_of numbering.now) }
    requires node { Node (graph_now starts neighbours) p }
    ensures { result ≡ node_span (renumbered (graph_was starts neighbours) numbering.now) (counts_in counts.now (order_of numbering.now)) (of_node numbering.now p) }
{
    let c = number(counts, p);
    share(c, width(starts, neighbours, numbering, ahead, p))
}

// The profile in unknowns, the shares of all nodes: at most 301,977,600. `ahead` has the unknowns ahead of each number.
pub fn profile(
    starts: &[u16],
    neighbours: &[u16],
    counts: &[u16],
    numbering: &[u16],
    ahead: &[u16],
) -> u32
    requires starts { Starts starts.now neighbours.now }
    requires legal_graph { LegalGraph (graph_now starts neighbours) }
    requires numbering_value { is_numbering (size_now starts) numbering.now ≡ true }
    requires counts_value { bad_counts (size_now starts) counts.now ≡ false }
    requires ahead_value { ahead.now ≡ aheads counts.now (order_of numbering.now) }
    ensures { result ≡ profile (renumbered_unknowns (graph_was starts neighbours) counts.now numbering.now) }
{
    let mut sum: u32 = 0;
    for p in 1..starts.len() {
        sum += share_of(starts, neighbours, counts, numbering, ahead, p);
    }
    sum
}
