// The order of a part in lent words: n words by old number, then the order's m nodes. No edge leaves the part. Linear in the part's nodes
// and entries: nothing here is n.
ghost use Rattle.std.specs.Prelude.{◌≡◌, cond, false, ◌++◌, map, reverse, ◌+◌, ◌-◌, ◌≤◌, ◌<◌, max, suc, length, drop, replicate};
ghost use Rattle.basis.specs.Lists.{greatest, least};
ghost use Rattle.spec.specs.Graph.{of_node};
ghost use Rattle.spec.specs.Measures.{in_order, profile};
ghost use Rattle.spec.specs.Numbering.{turns};
ghost use Rattle.spec.specs.Unknowns.{bad_counts, counts_in, order_unknowns};
ghost use Rattle.laws.specs.Handed.{graph_was, size_now};
ghost use Rattle.laws.specs.Unknowns.{node_span};
ghost use Rattle.graph_envelope.specs.Numbers.{Words};
ghost use Rattle.numbering_reverse.specs.Places.{segment, Listed, Part, Clean, Placed, Put, Few};

use graph_envelope::legal::number;
use graph_envelope::legal::unknowns::share;
use graph_words::legal::erase;

// From the first unknown of a node and its row up to the last, by the unknowns ahead: of the first, and up to and with the last.
#[derive(Clone, Copy)]
struct Range {
    first: usize,
    last: usize,
}

// How far the unknowns of one node reach below the diagonal, or of all together: in the order, and in the order reversed.
#[derive(Clone, Copy)]
struct Both {
    forward: u32,
    backward: u32,
}

// Puts at the old number of each node of the order how many unknowns stand ahead of it.
fn put_aheads(counts: &[u16], work: &mut [u16], n: usize, m: usize)
    requires m_le_n { (m ≤ n) × (n ≤ 4096) × (n + m ≤ length work.old) }
    requires listed { Listed n (segment n m work.old) }
    requires counts_value { bad_counts n counts.now ≡ false }
    ensures { Put counts.now n m work.old work.new m }
{
    let mut sum: usize = 0;
    for i in 0..m {
        let z = usize::from(work[n + i]);
        work[z - 1] = sum as u16;
        let c = number(counts, z);
        sum += c;
    }
}

// The unknowns ahead of the first of a row and its own node, and up to and with the last.
fn ends(row: &[u16], ahead: &[u16], counts: &[u16], own: usize, upto: usize) -> Range
    requires words { Words (length ahead.now) row.now }
    requires counts_value { bad_counts (length ahead.now) counts.now ≡ false }
    requires few { Few row.now ahead.now }
    ensures first_value { result.first ≡ least own (map (of_node ahead.now) row.now) }
    ensures last_value { result.last ≡ max upto (greatest (map (λ y. of_node ahead.now y + of_node counts.now y) row.now)) }
{
    let mut first = own;
    let mut last = upto;
    for &y in row {
        let q = usize::from(y);
        let a = number(ahead, q);
        let c = number(counts, q);
        first = first.min(a);
        last = last.max(a + c);
    }
    Range { first, last }
}

// The shares of the node at place a + 1, which is place m − a of the order reversed: what lies above the diagonal lies below it then.
fn span(
    starts: &[u16],
    neighbours: &[u16],
    counts: &[u16],
    work: &[u16],
    n: usize,
    m: usize,
    a: usize,
) -> Both
    requires n_value { (n ≡ size_now starts) × (n + m ≤ length work.now) × (a < m) }
    requires part { Part starts.now neighbours.now (segment n m work.now) }
    requires counts_value { bad_counts (size_now starts) counts.now ≡ false }
    requires placed { Placed counts.now (segment n m work.now) work.now }
    ensures forward_value { result.forward ≡ node_span (in_order (graph_was starts neighbours) (segment n m work.now)) (counts_in counts.now (segment n m work.now)) (suc a) }
    ensures backward_value { result.backward ≡ node_span (in_order (graph_was starts neighbours) (reverse (segment n m work.now))) (counts_in counts.now (reverse (segment n m work.now))) (m - a) }
    ensures forward_bound { (result.forward ≤ 147471) × (result.backward ≤ 147471) }
{
    let z = usize::from(work[n + a]);
    let c = number(counts, z);
    let own = usize::from(work[z - 1]);
    let row = graph::legal::row(starts, neighbours, z);
    let e = ends(row, &work[..n], counts, own, own + c);
    let below = own - e.first;
    let above = e.last - (own + c);
    Both {
        forward: share(c, below),
        backward: share(c, above),
    }
}

// The sums of the shares.
fn spans(
    starts: &[u16],
    neighbours: &[u16],
    counts: &[u16],
    work: &[u16],
    n: usize,
    m: usize,
) -> Both
    requires n_value { (n ≡ size_now starts) × (n + m ≤ length work.now) }
    requires part { Part starts.now neighbours.now (segment n m work.now) }
    requires counts_value { bad_counts (size_now starts) counts.now ≡ false }
    requires placed { Placed counts.now (segment n m work.now) work.now }
    ensures forward_value { result.forward ≡ profile (order_unknowns (graph_was starts neighbours) counts.now (segment n m work.now)) }
    ensures backward_value { result.backward ≡ profile (order_unknowns (graph_was starts neighbours) counts.now (reverse (segment n m work.now))) }
{
    let mut forward: u32 = 0;
    let mut backward: u32 = 0;
    for a in 0..m {
        let s = span(starts, neighbours, counts, work, n, m, a);
        forward += s.forward;
        backward += s.backward;
    }
    Both { forward, backward }
}

// The profiles in unknowns of a part in its order and in that reversed. The first n words end as 0.
fn profiles(
    starts: &[u16],
    neighbours: &[u16],
    counts: &[u16],
    work: &mut [u16],
    n: usize,
    m: usize,
) -> Both
    requires n_value { (n ≡ size_now starts) × (n + m ≤ length work.old) }
    requires part { Part starts.now neighbours.now (segment n m work.old) }
    requires counts_value { bad_counts (size_now starts) counts.now ≡ false }
    requires clean { Clean n (segment n m work.old) work.old }
    ensures forward_value { result.forward ≡ profile (order_unknowns (graph_was starts neighbours) counts.now (segment n m work.old)) }
    ensures backward_value { result.backward ≡ profile (order_unknowns (graph_was starts neighbours) counts.now (reverse (segment n m work.old))) }
    ensures work_value { work.new ≡ replicate n 0 ++ drop n work.old }
{
    put_aheads(counts, work, n, m);
    let sums = spans(starts, neighbours, counts, work, n, m);
    erase(work, 0, n, m);
    sums
}

// "A part's numbers are turned end for end exactly if that makes its profile less", in unknowns: whether they are, and the order as it is then.
pub fn turn(
    starts: &[u16],
    neighbours: &[u16],
    counts: &[u16],
    work: &mut [u16],
    n: usize,
    m: usize,
) -> bool
    requires n_value { (n ≡ size_now starts) × (n + m ≤ length work.old) }
    requires part { Part starts.now neighbours.now (segment n m work.old) }
    requires counts_value { bad_counts (size_now starts) counts.now ≡ false }
    requires clean { Clean n (segment n m work.old) work.old }
    ensures value { result ≡ turns (graph_was starts neighbours) counts.now (segment n m work.old) }
    ensures work_value { work.new ≡ replicate n 0 ++ (cond result (reverse (segment n m work.old)) (segment n m work.old) ++ drop (n + m) work.old) }
{
    let both = profiles(starts, neighbours, counts, work, n, m);
    if both.backward < both.forward {
        work[n..n + m].reverse();
        return true;
    }
    false
}
