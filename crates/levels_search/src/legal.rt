// Rooted levels of a legal graph by breadth-first search, level by level, in one lent part of 2n words: n levels by old number, then a
// queue of n. A search takes the time of its part and its rows, not of the graph: it asks for words that are 0 and `wipe` makes them 0 again.
ghost use Rattle.std.specs.Prelude.{◌≡◌, ◌+◌, ◌≤◌, ◌<◌, true, cond, [], ◌∷◌, length, take, drop, set, replicate, eqb, ltb};
ghost use Rattle.std.proofs.Math.Seq.{slice};
ghost use Rattle.basis.specs.Lists.{bit, chainb};
ghost use Rattle.spec.specs.Graph.{row_of, graph_refusal};
ghost use Rattle.spec.specs.Levels.{levels, part};
ghost use Rattle.laws.specs.Handed.{graph_now, size_now, graph_was};
ghost use Rattle.levels_search.specs.Marks.{within, found, rows};
ghost use Rattle.levels_search.specs.Queue.{Readable, Lent, Moved, Queued};
ghost use Rattle.levels_search.specs.Answer.{rooted_of, Searched};

use crate::shape::Rooted;
use graph::legal::row;
use graph_words::legal::clear;

// The level of a node that had w, which is 0 for none, once level j is given to it.
fn level(w: u16, j: u16) -> u16
    ensures { result ≡ cond (eqb w 0) j w }
{
    if w == 0 { j } else { w }
}

// Gives level j to the node v where it has none, and puts it into the queue at `tail`. Returns where the queue ends then.
fn visit_one(work: &mut [u16], n: usize, tail: usize, v: u16, j: u16) -> usize
    requires lent { Lent n work.old tail j }
    requires within { within n (v ∷ []) }
    ensures { Moved n (v ∷ []) j work.old tail work.new result }
{
    let at = usize::from(v) - 1;
    if work[at] != 0 {
        return tail;
    }
    work[at] = j;
    work[n + tail] = v;
    tail + 1
}

// The same of two nodes u < v. Without a branch, as no one can foretell which nodes are new: each is written where the queue ends, and what
// has its level already is written over.
fn visit_two(work: &mut [u16], n: usize, tail: usize, u: u16, v: u16, j: u16) -> usize
    requires lent { Lent n work.old tail j }
    requires within { within n (u ∷ v ∷ []) }
    requires u_lt_v { u < v }
    requires tail_bound { tail + 1 < n }
    ensures { Moved n (u ∷ v ∷ []) j work.old tail work.new result }
{
    let a = usize::from(u) - 1;
    let b = usize::from(v) - 1;
    let x = work[a];
    let y = work[b];
    let t = tail + usize::from(x == 0);
    work[n + tail] = u;
    work[n + t] = v;
    work[a] = level(x, j);
    work[b] = level(y, j);
    t + usize::from(y == 0)
}

// Visits the nodes of `row`, which rise.
fn visit(row: &[u16], work: &mut [u16], n: usize, tail: usize, j: u16) -> usize
    requires lent { Lent n work.old tail j }
    requires within { within n row.now }
    requires row_value { chainb ltb row.now ≡ true }
    ensures { Moved n row.now j work.old tail work.new result }
{
    let mut t = tail;
    let mut k = 0;
    // A while: a step takes two nodes or one.
    while k < row.len() {
        if k + 1 < row.len() && t + 1 < n {
            t = visit_two(work, n, t, row[k], row[k + 1], j);
            k += 2;
        } else {
            t = visit_one(work, n, t, row[k], j);
            k += 1;
        }
    }
    t
}

// Visits the row of the node p.
fn visit_node(
    starts: &[u16],
    neighbours: &[u16],
    work: &mut [u16],
    n: usize,
    tail: usize,
    p: u16,
    j: u16,
) -> usize
    requires lent { Lent n work.old tail j }
    requires readable { Readable n starts.now neighbours.now }
    requires le_p { (1 ≤ p) × (p ≤ n) }
    ensures { Moved n (row_of starts.now neighbours.now p) j work.old tail work.new result }
{
    visit(row(starts, neighbours, usize::from(p)), work, n, tail, j)
}

// Visits the rows of the nodes that stand in the queue from a up to b, not including b, where the queue ends. Returns where it ends then.
// The queue never has more than `most` nodes: where it has as many, no row has a new one.
fn expand(
    starts: &[u16],
    neighbours: &[u16],
    work: &mut [u16],
    n: usize,
    most: usize,
    a: usize,
    b: usize,
    j: u16,
) -> usize
    requires lent { Lent n work.old b j }
    requires readable { Readable n starts.now neighbours.now }
    requires a_le_b { a ≤ b }
    requires within { within n (slice a b (drop n work.old)) }
    requires work_bound { b + length (found j (take n work.old) (rows starts.now neighbours.now (slice a b (drop n work.old)))) ≤ most }
    ensures { Moved n (rows starts.now neighbours.now (slice a b (drop n work.old))) j work.old b work.new result }
{
    let mut tail = b;
    for h in a..b {
        if tail >= most {
            break;
        }
        let p = work[n + h];
        tail = visit_node(starts, neighbours, work, n, tail, p, j);
    }
    tail
}

// Sets the word where the queue ends to 0, if there is one.
fn shut(work: &mut [u16], n: usize, tail: usize)
    requires { length work.old ≡ n + n }
    ensures { work.new ≡ set work.old (n + tail) 0 }
{
    if tail < n {
        work[n + tail] = 0;
    }
}

// The levels rooted at `root`, in the first n of the 2n words, and the nodes of its part in the order found in the last n: the last level
// stands at the queue's end. The part has at most `most` nodes.
pub fn search(
    starts: &[u16],
    neighbours: &[u16],
    root: u16,
    most: usize,
    work: &mut [u16],
) -> Rooted
    requires neighbours_value { graph_refusal starts.now neighbours.now ≡ 0 }
    requires le_root { (1 ≤ root) × (root ≤ size_now starts) }
    requires root_len_bound { length (part (graph_now starts neighbours) root) ≤ most }
    requires work_value { work.old ≡ replicate (size_now starts + size_now starts) 0 }
    ensures value { result ≡ rooted_of (levels (graph_was starts neighbours) root) }
    ensures searched { Searched starts.now neighbours.now root work.new }
{
    let n = starts.len() - 1;
    let at = usize::from(root) - 1;
    work[at] = 1;
    work[n] = root;
    let mut last = 0;
    let mut a = 0;
    let mut b = 1;
    let mut depth: u16 = 0;
    let mut width: usize = 0;
    // A while: the queue grows as it is walked, a level a step.
    while a < b {
        width = width.max(b - a);
        depth += 1;
        let t = expand(starts, neighbours, work, n, most, a, b, depth + 1);
        last = a;
        a = b;
        b = t;
    }
    shut(work, n, b);
    Rooted {
        depth,
        width: width as u16,
        reached: b as u16,
        last: last as u16,
    }
}

// Sets the words of a search to 0 again, node by node, by the `count` nodes that its queue holds.
fn wipe_each(work: &mut [u16], n: usize, count: usize)
    requires { Queued n count work.old }
    ensures { work.new ≡ replicate (n + n) 0 }
{
    for i in 0..count {
        let v = work[n + i];
        let at = usize::from(v) - 1;
        work[at] = 0;
        work[n + i] = 0;
    }
}

// The same, and in one go where the part has an eighth of the nodes or more: that is many times faster a word.
pub fn wipe(work: &mut [u16], n: usize, count: usize)
    requires { Queued n count work.old }
    ensures { work.new ≡ replicate (n + n) 0 }
{
    if count < n / 8 {
        return wipe_each(work, n, count);
    }
    clear(work, n + n);
}
