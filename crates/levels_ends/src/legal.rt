// The ends of one part of a legal graph, on 4n words: the levels and queue of the search from v in the first 2n, those of the search from an
// s of v's last level in the others. The words are 0 before, and afterwards they have the searches from v and from u.
ghost use Rattle.std.specs.Prelude.{◌≡◌, List, ◌++◌, ℕ, ◌+◌, ◌≤◌, length, drop, replicate};
ghost use Rattle.std.proofs.Math.Seq.{slice};
ghost use Rattle.spec.specs.Graph.{graph_of, graph_refusal, first_in_e};
ghost use Rattle.spec.specs.Levels.{levels, part};
ghost use Rattle.spec.specs.Ends.{ends};
ghost use Rattle.laws.specs.Handed.{graph_now, size_now, graph_was};
ghost use Rattle.laws.specs.Legal.{Starts};
ghost use Rattle.levels_search.specs.Answer.{rooted_of, Searched};
ghost use Rattle.levels_search.specs.Queue.{Queued};
ghost use Rattle.levels_sort.specs.Nodes.{Nodes};
ghost use Rattle.levels_ends.specs.Answer.{found_of, Ended};
ghost use Rattle.levels_ends.specs.Passes.{Candidates, narrower_of, Tries, Area, Sorted, At, Passed, OnePart};

use crate::shape::{Found, Tried};
use graph::legal::precedes;
use levels_search::legal::{search, wipe};
use levels_search::shape::Rooted;
use levels_sort::legal::by_e;

// The first of some nodes in E.
pub fn first_in_e(starts: &[u16], nodes: &[u16]) -> u16
    requires by_index { (neighbours : List ℕ) × Starts starts.now neighbours }
    requires nodes { Nodes (size_now starts) nodes.now }
    requires in_bounds { 1 ≤ length nodes.now }
    ensures { (neighbours : List ℕ) → Starts starts.now neighbours → result ≡ first_in_e (graph_of starts.now neighbours) nodes.now }
{
    let mut first = nodes[0];
    for &p in &nodes[1..] {
        if precedes(starts, usize::from(p), usize::from(first)) {
            first = p;
        }
    }
    first
}

// Step 1: "v is the part's first node in E", for the part of `node`. The 2n words are 0 before and after.
pub fn first_of_part(starts: &[u16], neighbours: &[u16], node: u16, work: &mut [u16]) -> u16
    requires neighbours_value { graph_refusal starts.now neighbours.now ≡ 0 }
    requires le_node { (1 ≤ node) × (node ≤ size_now starts) }
    requires work_value { work.old ≡ replicate (size_now starts + size_now starts) 0 }
    ensures value { result ≡ first_in_e (graph_was starts neighbours) (part (graph_was starts neighbours) node) }
    ensures work_value_2 { work.new ≡ work.old }
{
    let n = starts.len() - 1;
    let r = search(starts, neighbours, node, n, work);
    let count = usize::from(r.reached);
    let v = first_in_e(starts, &work[n..n + count]);
    wipe(work, n, count);
    v
}

// The search from s, whose part has at most `most` nodes, in place of an earlier one, of `held` nodes.
fn probe(
    starts: &[u16],
    neighbours: &[u16],
    s: u16,
    most: usize,
    held: usize,
    work: &mut [u16],
) -> Rooted
    requires neighbours_value { graph_refusal starts.now neighbours.now ≡ 0 }
    requires le_s { (1 ≤ s) × (s ≤ size_now starts) }
    requires s_len_bound { length (part (graph_now starts neighbours) s) ≤ most }
    requires queued { Queued (size_now starts) held work.old }
    ensures value { result ≡ rooted_of (levels (graph_was starts neighbours) s) }
    ensures searched { Searched starts.now neighbours.now s work.new }
{
    let n = starts.len() - 1;
    wipe(work, n, held);
    search(starts, neighbours, s, most, work)
}

// The search from u in place of the one from s: there is nothing to do where u is s.
fn probe_other(
    starts: &[u16],
    neighbours: &[u16],
    s: u16,
    u: u16,
    most: usize,
    held: usize,
    work: &mut [u16],
)
    requires neighbours_value { graph_refusal starts.now neighbours.now ≡ 0 }
    requires le_u { (1 ≤ u) × (u ≤ size_now starts) }
    requires u_len_bound { length (part (graph_now starts neighbours) u) ≤ most }
    requires queued { Queued (size_now starts) held work.old }
    requires searched { Searched starts.now neighbours.now s work.old }
    ensures { Searched starts.now neighbours.now u work.new }
{
    if s == u {
        return;
    }
    let _ = probe(starts, neighbours, u, most, held, work);
}

// The s of least width before the first is tried: wider than any search.
const NONE_YET: Tried = Tried {
    deeper: false,
    node: 0,
    search: Rooted {
        depth: 0,
        width: 65535,
        reached: 0,
        last: 0,
    },
};

// The s so far of least width, after the search r from the next s: "ties by E", so that a later s must be narrower.
fn narrower(best: Tried, s: u16, r: Rooted) -> Tried
    ensures { result ≡ narrower_of best s r }
{
    if r.width < best.search.width {
        return Tried {
            deeper: false,
            node: s,
            search: r,
        };
    }
    best
}

// Steps 3 and 4 for the nodes S that stand in the words from a up to b, the queue's end, in E: stops at the first s deeper than `depth`.
// If there is none, it is the s of least width. Its search then stands in the second 2n words. A search is wiped for the next one only: the
// s of least width is often the last, above all where S has one node.
fn try_each(
    starts: &[u16],
    neighbours: &[u16],
    work: &mut [u16],
    a: usize,
    b: usize,
    depth: u16,
) -> Tried
    requires neighbours_value { graph_refusal starts.now neighbours.now ≡ 0 }
    requires candidates { Candidates starts.now neighbours.now a b work.old }
    ensures { Tries starts.now neighbours.now (slice a b work.old) depth work.old work.new result }
{
    let n = starts.len() - 1;
    let half = n + n;
    let most = b - n;
    let mut best = NONE_YET;
    let mut s = 0;
    let mut held = 0;
    for i in a..b {
        s = work[i];
        let r = probe(starts, neighbours, s, most, held, &mut work[half..]);
        if depth < r.depth {
            return Tried {
                deeper: true,
                node: s,
                search: r,
            };
        }
        held = usize::from(r.reached);
        best = narrower(best, s, r);
    }
    let u = best.node;
    probe_other(starts, neighbours, s, u, most, held, &mut work[half..]);
    best
}

// "Take S in E": sorts the last level of the search r, at the end of its queue.
fn sort_last(starts: &[u16], r: Rooted, work: &mut [u16])
    requires { (neighbours : List ℕ) × (v : ℕ) × Area starts.now neighbours v r work.old }
    ensures { (neighbours : List ℕ) (v : ℕ) → Area starts.now neighbours v r work.old → Sorted starts.now neighbours v r work.new }
{
    let n = starts.len() - 1;
    let a = n + usize::from(r.last);
    let b = n + usize::from(r.reached);
    by_e(starts, &mut work[a..b]);
}

// One pass, steps 2 and 3: S is the last level of the search r from v.
fn pass(starts: &[u16], neighbours: &[u16], r: Rooted, work: &mut [u16]) -> Tried
    requires { (v : ℕ) × At starts.now neighbours.now v r work.old }
    ensures { (v : ℕ) → At starts.now neighbours.now v r work.old → Passed starts.now neighbours.now v result work.new }
{
    let n = starts.len() - 1;
    sort_last(starts, r, &mut work[0..n + n]);
    try_each(
        starts,
        neighbours,
        work,
        n + usize::from(r.last),
        n + usize::from(r.reached),
        r.depth,
    )
}

// Copies the search in the second 2n words over the one in the first, node by node: both are of one part of `count` nodes.
fn copy_over(work: &mut [u16], n: usize, count: usize)
    requires { OnePart n count work.old }
    ensures { work.new ≡ drop (n + n) work.old ++ drop (n + n) work.old }
{
    let half = n + n;
    for i in 0..count {
        let p = work[half + n + i];
        let at = usize::from(p) - 1;
        work[at] = work[half + at];
        work[n + i] = p;
    }
}

// Moves the search in the second 2n words to the first.
fn take_over(work: &mut [u16], n: usize, count: usize)
    requires { OnePart n count work.old }
    ensures { work.new ≡ drop (n + n) work.old ++ replicate (n + n) 0 }
{
    copy_over(work, n, count);
    wipe(&mut work[n + n..], n, count);
}

// The ends of the part whose first node in E is `first`, and the searches from them: v's in the first 2n words, u's in the second.
pub fn ends_from(starts: &[u16], neighbours: &[u16], first: u16, work: &mut [u16]) -> Found
    requires neighbours_value { graph_refusal starts.now neighbours.now ≡ 0 }
    requires le_first { (1 ≤ first) × (first ≤ size_now starts) }
    requires first_value { first ≡ first_in_e (graph_now starts neighbours) (part (graph_now starts neighbours) first) }
    requires work_value { work.old ≡ replicate (size_now starts + size_now starts + (size_now starts + size_now starts)) 0 }
    ensures value { result ≡ found_of (graph_was starts neighbours) (ends (graph_was starts neighbours) first) }
    ensures ended { Ended starts.now neighbours.now (ends (graph_was starts neighbours) first) work.new }
{
    let n = starts.len() - 1;
    let mut v = first;
    let mut r = search(starts, neighbours, first, n, &mut work[0..n + n]);
    let mut t = pass(starts, neighbours, r, work);
    let mut passes: u16 = 1;
    // A while: each pass says whether there is another.
    while t.deeper {
        v = t.node;
        r = t.search;
        take_over(work, n, usize::from(r.reached));
        passes += 1;
        t = pass(starts, neighbours, r, work);
    }
    Found {
        v,
        u: t.node,
        k: r.depth,
        reached: r.reached,
        passes,
    }
}
