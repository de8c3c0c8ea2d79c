// The order of one part by the levels rooted at v: there each level is found whole from the level before, so that no stacks are needed. In
// lent words of n each: marks by old number, then the order as it grows. Linear in the part's nodes and entries, but for the sorts.
ghost use Rattle.std.specs.Prelude.{◌≡◌};
ghost use Rattle.spec.specs.Graph.{graph_refusal};
ghost use Rattle.laws.specs.Handed.{graph_now, graph_was, size_now, size_was};
ghost use Rattle.numbering_order.specs.Model.{order_in, Open, Became, Far, Levelled, ordered};
ghost use Rattle.numbering_order.specs.Root.{levels_from, befores_in, root_order, Rooted};

use super::{from_before, push, wipe};

// The levels 2 to k, one after the other, where the order has level 1, which is one node.
fn befores(
    starts: &[u16],
    neighbours: &[u16],
    work: &mut [u16],
    n: usize,
    at: usize,
    k: u16,
) -> usize
    requires neighbours_value { graph_refusal starts.now neighbours.now ≡ 0 }
    requires n_value { n ≡ size_now starts }
    requires fact { Open n 1 work.old }
    requires far { Far n at work.old }
    requires levelled { Levelled (graph_now starts neighbours) (levels_from at n work.old) 2 0 (order_in n 1 work.old) }
    ensures { Became n work.old (befores_in (graph_was starts neighbours) (levels_from at n work.old) k (order_in n 1 work.old)) result work.new }
{
    let mut a = 0;
    let mut b = 1;
    for i in 2..=k {
        let e = from_before(starts, neighbours, work, n, at, a, b, i);
        a = b;
        b = e;
    }
    b
}

// The order from v, before any turn, in the n words after the marks, which are 0 before and after. The k levels stand by old number from
// `at` on.
pub fn from_root(starts: &[u16], neighbours: &[u16], work: &mut [u16], at: usize, k: u16, v: u16)
    requires neighbours_value { graph_refusal starts.now neighbours.now ≡ 0 }
    requires rooted { Rooted (graph_now starts neighbours) (size_now starts) at v work.old }
    ensures { work.new ≡ ordered (size_was starts) (root_order (graph_was starts neighbours) (levels_from at (size_was starts) work.old) k v) work.old }
{
    let n = starts.len() - 1;
    push(work, n, 0, v);
    let t = befores(starts, neighbours, work, n, at, k);
    wipe(work, n, t);
}
