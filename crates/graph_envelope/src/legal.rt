// A numbering tested and inverted, and the envelope that it gives a legal graph: for the crates above.
ghost use Rattle.std.specs.Prelude.{◌≡◌, true, cond, map, ◌≤◌, length, replicate};
ghost use Rattle.basis.specs.Lists.{least, overwrite};
ghost use Rattle.spec.specs.Graph.{of_node};
ghost use Rattle.spec.specs.Lent.{zeroed};
ghost use Rattle.spec.specs.Measures.{is_numbering, order_of, renumbered, first_in, row_span, profile};
ghost use Rattle.laws.specs.Handed.{graph_now, graph_was, size_now};
ghost use Rattle.laws.specs.Legal.{Node, LegalGraph, Starts};
ghost use Rattle.graph_envelope.specs.Numbers.{Words};

pub mod unknowns;

use graph::legal::row;
use graph_words::legal::clear;

// The number of node p.
pub fn number(numbering: &[u16], p: usize) -> usize
    requires { (1 ≤ p) × (p ≤ length numbering.now) }
    ensures { result ≡ of_node numbering.now p }
{
    usize::from(numbering[p - 1])
}

// Whether n words are each of 1..n once: each node is put at its number, until a number is none of 1..n or is taken.
fn settle(numbering: &[u16], order: &mut [u16]) -> bool
    requires numbering_len_bound { length numbering.now ≤ 4096 }
    requires order_value { order.old ≡ replicate (length numbering.now) 0 }
    ensures value { result ≡ is_numbering (length numbering.now) numbering.now }
    ensures order_value_2 { result ≡ true → order.new ≡ order_of numbering.now }
{
    let n = numbering.len();
    for (i, v) in numbering.iter().enumerate() {
        let v = usize::from(*v);
        if v == 0 || v > n {
            return false;
        }
        if order[v - 1] != 0 {
            return false;
        }
        order[v - 1] = (i + 1) as u16;
    }
    true
}

// Whether n words are a numbering of n nodes; if so, the nodes in the order of their numbers, else zeros again.
fn invert(numbering: &[u16], scratch: &mut [u16]) -> bool
    requires numbering_len_bound { length numbering.now ≤ 4096 }
    requires scratch_value { scratch.old ≡ replicate (length numbering.now) 0 }
    ensures value { result ≡ is_numbering (length numbering.now) numbering.now }
    ensures scratch_value_2 { scratch.new ≡ cond result (order_of numbering.now) (replicate (length numbering.now) 0) }
{
    if settle(numbering, scratch) {
        return true;
    }
    clear(scratch, numbering.len());
    false
}

// 7: whether the numbering has n words, each of 1..n once. The first n scratch words are then the nodes in the order of their
// numbers, and else 0.
pub fn numbered(numbering: &[u16], n: usize, scratch: &mut [u16]) -> bool
    requires { (n ≤ 4096) × (n ≤ length scratch.old) }
    ensures value { result ≡ is_numbering n numbering.now }
    ensures scratch_value { scratch.new ≡ cond result (overwrite (order_of numbering.now) scratch.old) (zeroed n scratch.old) }
{
    clear(scratch, n);
    if numbering.len() != n {
        return false;
    }
    invert(numbering, &mut scratch[..n])
}

// The least of a node's own number and those of its row.
pub fn row_first(row: &[u16], numbering: &[u16], own: usize) -> usize
    requires { Words (length numbering.now) row.now }
    ensures { result ≡ least own (map (of_node numbering.now) row.now) }
{
    let mut first = own;
    for q in row {
        first = first.min(number(numbering, usize::from(*q)));
    }
    first
}

// f of the number of node p: "the least of q and its neighbours" over new numbers.
pub fn first(starts: &[u16], neighbours: &[u16], numbering: &[u16], p: usize) -> usize
    requires starts { Starts starts.now neighbours.now }
    requires legal_graph { LegalGraph (graph_now starts neighbours) }
    requires numbering_value { is_numbering (size_now starts) numbering.now ≡ true }
    requires node { Node (graph_now starts neighbours) p }
    ensures { result ≡ first_in (renumbered (graph_was starts neighbours) numbering.now) (of_node numbering.now p) }
{
    let own = number(numbering, p);
    row_first(row(starts, neighbours, p), numbering, own)
}

// How far the row of node p reaches below the diagonal.
fn span(starts: &[u16], neighbours: &[u16], numbering: &[u16], p: usize) -> u32
    requires starts { Starts starts.now neighbours.now }
    requires legal_graph { LegalGraph (graph_now starts neighbours) }
    requires numbering_value { is_numbering (size_now starts) numbering.now ≡ true }
    requires node { Node (graph_now starts neighbours) p }
    ensures { result ≡ row_span (renumbered (graph_was starts neighbours) numbering.now) (of_node numbering.now p) }
{
    let own = number(numbering, p);
    let reach = own - first(starts, neighbours, numbering, p);
    reach as u32
}

// "Profile is the sum of q − f_q": at most 8,386,560, since q − f_q is at most q − 1.
pub fn profile(starts: &[u16], neighbours: &[u16], numbering: &[u16]) -> u32
    requires starts { Starts starts.now neighbours.now }
    requires legal_graph { LegalGraph (graph_now starts neighbours) }
    requires numbering_value { is_numbering (size_now starts) numbering.now ≡ true }
    ensures { result ≡ profile (renumbered (graph_was starts neighbours) numbering.now) }
{
    let mut sum: u32 = 0;
    for p in 1..starts.len() {
        sum += span(starts, neighbours, numbering, p);
    }
    sum
}
