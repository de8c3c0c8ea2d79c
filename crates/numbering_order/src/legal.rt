// The order of one part of a legal graph, level by level (document 01, "Numbering"), in lent words of n each: marks by old number, the order
// as it grows, and the stacks of the levels, from which a leftover comes. The levels of the part's nodes stand by old number from `at` on.
// Linear in the part's nodes and entries, but for the sorts of what a node finds.
ghost use Rattle.std.specs.Prelude.{◌≡◌, true, false, ℕ, ◌+◌, ◌≤◌, length, take, drop, replicate, ltb};
ghost use mathlib.Core.List.{List, [], ◌∷◌, ◌++◌, foldl};
ghost use Rattle.basis.specs.Lists.{filterb, chainb, memb};
ghost use Rattle.spec.specs.Graph.{graph_of, graph_refusal};
ghost use Rattle.laws.specs.Handed.{graph_now, graph_was, size_now, size_was};
ghost use Rattle.laws.specs.Legal.{Starts};
ghost use Rattle.laws.specs.Scratch.{members_area};
ghost use Rattle.levels_sort.specs.Nodes.{Nodes};
ghost use Rattle.numbering_stacks.specs.Part.{members_in, Behind};
ghost use Rattle.numbering_order.specs.Model.{stand, order_in, Open, Became, Far, free, is_free, found_by, add_by, Spreads, tail_sorted, levels_in, Starting, Fills, Follows, Opens, RestNumbered, LevelNumbered, LevelsNumbered, forward_in, ordered};

pub mod rooted;

use graph_words::legal::erase;
use numbering_stacks::legal::{rank, unmarked, unrank};

// Whether the node q has no number yet and stands in level i.
fn is_free(work: &[u16], at: usize, q: usize, i: u16) -> bool
    requires { (1 ≤ q) × (at + q ≤ length work.now) }
    ensures { result ≡ is_free work.now at i q }
{
    let p = q - 1;
    work[p] == 0 && work[at + p] == i
}

// The node z gets the next number.
fn push(work: &mut [u16], n: usize, t: usize, z: u16)
    requires fact { Open n t work.old }
    requires le_z { (1 ≤ z) × (z ≤ n) }
    requires work_value { memb z (order_in n t work.old) ≡ false }
    ensures { work.new ≡ stand n (order_in n t work.old ++ (z ∷ [])) (drop n work.old) }
{
    let p = usize::from(z) - 1;
    work[p] = 1;
    work[n + t] = z;
}

// The node q gets the next number if it has none and stands in level i. Returns how many nodes are numbered then.
fn offer(work: &mut [u16], n: usize, at: usize, t: usize, q: u16, i: u16) -> usize
    requires fact { Open n t work.old }
    requires far { Far n at work.old }
    requires le_q { (1 ≤ q) × (q ≤ n) }
    ensures { Became n work.old (order_in n t work.old ++ filterb (free (drop at work.old) i (order_in n t work.old)) (q ∷ [])) result work.new }
{
    if is_free(work, at, usize::from(q), i) {
        push(work, n, t, q);
        return t + 1;
    }
    t
}

// So do the nodes of a row, in its order.
fn append(row: &[u16], work: &mut [u16], n: usize, at: usize, t: usize, i: u16) -> usize
    requires fact { Open n t work.old }
    requires far { Far n at work.old }
    requires nodes { Nodes n row.now }
    requires row_value { chainb ltb row.now ≡ true }
    ensures { Became n work.old (order_in n t work.old ++ filterb (free (drop at work.old) i (order_in n t work.old)) row.now) result work.new }
{
    let mut e = t;
    for &q in row {
        e = offer(work, n, at, e, q, i);
    }
    e
}

// Sorts the nodes that have the numbers after t, up to e, by E.
fn sort_tail(starts: &[u16], work: &mut [u16], n: usize, t: usize, e: usize)
    requires by_index { (neighbours : List ℕ) × Starts starts.now neighbours }
    requires n_value { n ≡ size_now starts }
    requires fact { Open n e work.old }
    requires t_le_e { t ≤ e }
    ensures { (neighbours : List ℕ) → Starts starts.now neighbours → work.new ≡ stand n (tail_sorted (graph_of starts.now neighbours) t (order_in n e work.old)) (drop n work.old) }
{
    levels_sort::legal::by_e(starts, &mut work[n + t..n + e]);
}

// "their unnumbered neighbours in this level, in E": those of w.
fn extend(
    starts: &[u16],
    neighbours: &[u16],
    work: &mut [u16],
    n: usize,
    at: usize,
    t: usize,
    w: u16,
    i: u16,
) -> usize
    requires neighbours_value { graph_refusal starts.now neighbours.now ≡ 0 }
    requires n_value { n ≡ size_now starts }
    requires fact { Open n t work.old }
    requires far { Far n at work.old }
    requires le_w { (1 ≤ w) × (w ≤ n) }
    ensures { Became n work.old (add_by (found_by (graph_was starts neighbours) (drop at work.old) i) (order_in n t work.old) w) result work.new }
{
    let row = graph::legal::row(starts, neighbours, usize::from(w));
    let e = append(row, work, n, at, t, i);
    sort_tail(starts, work, n, t, e);
    e
}

// "for the nodes of the level before, by number": those that stand in the order from a up to b, not including b, where it ends.
fn from_before(
    starts: &[u16],
    neighbours: &[u16],
    work: &mut [u16],
    n: usize,
    at: usize,
    a: usize,
    b: usize,
    i: u16,
) -> usize
    requires neighbours_value { graph_refusal starts.now neighbours.now ≡ 0 }
    requires n_value { n ≡ size_now starts }
    requires fact { Open n b work.old }
    requires far { Far n at work.old }
    requires a_le_b { a ≤ b }
    ensures { Became n work.old (foldl (add_by (found_by (graph_was starts neighbours) (drop at work.old) i)) (order_in n b work.old) (drop a (order_in n b work.old))) result work.new }
{
    let mut e = b;
    for h in a..b {
        let w = work[n + h];
        e = extend(starts, neighbours, work, n, at, e, w, i);
    }
    e
}

// "Then the lowest-numbered node of the level with unnumbered neighbours in it: those neighbours in E, and again until none": a cursor goes
// from c to the end of the order; nodes that it has passed have no more of them.
fn spread(
    starts: &[u16],
    neighbours: &[u16],
    work: &mut [u16],
    n: usize,
    at: usize,
    c: usize,
    t: usize,
    i: u16,
) -> usize
    requires neighbours_value { graph_refusal starts.now neighbours.now ≡ 0 }
    requires n_value { n ≡ size_now starts }
    requires fact { Open n t work.old }
    requires far { Far n at work.old }
    ensures { Spreads n (found_by (graph_was starts neighbours) (drop at work.old) i) c (order_in n t work.old) work.old result work.new }
{
    let mut e = t;
    let mut h = c;
    // A while: the order grows while the cursor goes along it.
    while h < e {
        let w = work[n + h];
        e = extend(starts, neighbours, work, n, at, e, w, i);
        h += 1;
    }
    e
}

// "If nodes are left, number the first in E and go on": the node z, and then the cursor from it.
fn resume(
    starts: &[u16],
    neighbours: &[u16],
    work: &mut [u16],
    n: usize,
    at: usize,
    t: usize,
    z: u16,
    i: u16,
) -> usize
    requires neighbours_value { graph_refusal starts.now neighbours.now ≡ 0 }
    requires n_value { n ≡ size_now starts }
    requires fact { Open n t work.old }
    requires far { Far n at work.old }
    requires le_z { (1 ≤ z) × (z ≤ n) }
    requires work_value { memb z (order_in n t work.old) ≡ false }
    ensures { Spreads n (found_by (graph_was starts neighbours) (drop at work.old) i) t (order_in n t work.old ++ (z ∷ [])) work.old result work.new }
{
    push(work, n, t, z);
    spread(starts, neighbours, work, n, at, t, t + 1, i)
}

// Numbers the rest of level i. Its nodes stand in the order from b on, up to t, where it ends. Leftovers come from the level's stack, on
// which a node once numbered stays so. Where it has none the level is full, as most are, and the rows of its nodes are not read again.
fn fill(
    starts: &[u16],
    neighbours: &[u16],
    work: &mut [u16],
    n: usize,
    at: usize,
    b: usize,
    t: usize,
    i: u16,
) -> usize
    requires neighbours_value { graph_refusal starts.now neighbours.now ≡ 0 }
    requires n_value { n ≡ size_now starts }
    requires fact { Open n t work.old }
    requires i_le_n { i ≤ n }
    requires by_index { (P : List ℕ) × Fills (graph_now starts neighbours) n at t i b work.old P }
    ensures { (P : List ℕ) → Fills (graph_was starts neighbours) n at t i b work.old P → RestNumbered (graph_was starts neighbours) n at t i work.old P result work.new }
{
    let top = work[n + n + n + (usize::from(i) - 1)];
    let left = unmarked(work, n, top);
    if left == 0 {
        return t;
    }
    let mut e = spread(starts, neighbours, work, n, at, b, t, i);
    let mut z = unmarked(work, n, left);
    // A while: it goes down the level's stack, which the rounds empty of unnumbered nodes.
    while z != 0 {
        e = resume(starts, neighbours, work, n, at, e, z, i);
        z = unmarked(work, n, z);
    }
    e
}

// "Each later level": level i, where the level before stands in the order from a up to b, where it ends.
fn level(
    starts: &[u16],
    neighbours: &[u16],
    work: &mut [u16],
    n: usize,
    at: usize,
    a: usize,
    b: usize,
    i: u16,
) -> usize
    requires neighbours_value { graph_refusal starts.now neighbours.now ≡ 0 }
    requires n_value { n ≡ size_now starts }
    requires fact { Open n b work.old }
    requires i_le_n { i ≤ n }
    requires by_index { (P : List ℕ) × Follows (graph_now starts neighbours) n at b i a work.old P }
    ensures { (P : List ℕ) → Follows (graph_was starts neighbours) n at b i a work.old P → LevelNumbered (graph_was starts neighbours) n at b i work.old P result work.new }
{
    let e = from_before(starts, neighbours, work, n, at, a, b, i);
    fill(starts, neighbours, work, n, at, b, e, i)
}

// Sets the marks of the t nodes of the order to 0 again.
fn wipe(work: &mut [u16], n: usize, t: usize)
    requires { Open n t work.old }
    ensures { work.new ≡ replicate n 0 ++ drop n work.old }
{
    erase(work, 0, n, t);
}

// The levels 2 to k, one after the other, where the order has level 1.
fn later_levels(
    starts: &[u16],
    neighbours: &[u16],
    work: &mut [u16],
    n: usize,
    at: usize,
    t: usize,
    k: u16,
) -> usize
    requires neighbours_value { graph_refusal starts.now neighbours.now ≡ 0 }
    requires n_value { n ≡ size_now starts }
    requires fact { Open n t work.old }
    requires le_k { (1 ≤ k) × (k ≤ n) }
    requires by_index { (P : List ℕ) × Follows (graph_now starts neighbours) n at t 2 0 work.old P }
    ensures { (P : List ℕ) → Follows (graph_was starts neighbours) n at t 2 0 work.old P → LevelsNumbered (graph_was starts neighbours) n at t k work.old P result work.new }
{
    let mut a = 0;
    let mut b = t;
    for i in 2..=k {
        let e = level(starts, neighbours, work, n, at, a, b, i);
        a = b;
        b = e;
    }
    b
}

// The order of a part whose nodes are on the stacks of their levels. "Level 1: v first".
fn number(starts: &[u16], neighbours: &[u16], work: &mut [u16], n: usize, at: usize, k: u16, v: u16)
    requires neighbours_value { graph_refusal starts.now neighbours.now ≡ 0 }
    requires n_value { n ≡ size_now starts }
    requires work_value { take n work.old ≡ replicate n 0 }
    requires by_index { (P : List ℕ) × Opens (graph_now starts neighbours) n at k v work.old P }
    ensures { (P : List ℕ) → Opens (graph_was starts neighbours) n at k v work.old P → work.new ≡ ordered n (forward_in (graph_was starts neighbours) at k v work.old P) work.old }
{
    push(work, n, 0, v);
    let b = fill(starts, neighbours, work, n, at, 0, 1, 1);
    let t = later_levels(starts, neighbours, work, n, at, b, k);
    wipe(work, n, t);
}

// The order of a part: its m nodes by number, before any turn, in the n words after the marks. All but the order is 0 before and after in
// the first four areas. The part's k levels stand by old number from `at` on, its nodes in rising order from `from` on.
pub fn forward(
    starts: &[u16],
    neighbours: &[u16],
    work: &mut [u16],
    at: usize,
    from: usize,
    m: usize,
    k: u16,
    v: u16,
)
    requires neighbours_value { graph_refusal starts.now neighbours.now ≡ 0 }
    requires work_value { take (members_area (size_now starts)) work.old ≡ replicate (members_area (size_now starts)) 0 }
    requires behind { Behind (graph_now starts neighbours) (size_now starts) at from m work.old }
    requires starting { Starting (levels_in (graph_now starts neighbours) at from m work.old) (members_in from m work.old) k v }
    ensures { work.new ≡ ordered (size_was starts) (forward_in (graph_was starts neighbours) at k v work.old (members_in from m work.old)) work.old }
{
    let n = starts.len() - 1;
    rank(starts, neighbours, work, n, at, from, m);
    number(starts, neighbours, work, n, at, k, v);
    unrank(work, n, at, from, m);
}
