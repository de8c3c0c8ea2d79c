// Rooted levels of a legal graph by breadth-first search, and the size of each level. The words for the sizes are the queue meanwhile: once the
// rows of level d are visited, word d - 1 gets its size. The node that stood there is done with, as d levels have at least d nodes.
ghost use Rattle.std.specs.Prelude.{◌≡◌, ◌≤◌, length, take, replicate};
ghost use Rattle.std.proofs.Math.Seq.{slice};
ghost use Rattle.spec.specs.Graph.{row_of, graph_refusal};
ghost use Rattle.laws.specs.Handed.{size_now, graph_was};
ghost use Rattle.levels_search.specs.Marks.{within, rows};
ghost use Rattle.levels_search.specs.Queue.{Readable, Ready, Pushed};
ghost use Rattle.levels_rooted.specs.Answer.{figures_of, list_of, counts_of, sizes_of};

use crate::shape::Figures;
use graph::legal::row;
use graph_words::legal::clear;

// Gives level j to each node of `row` that has none, and puts it into the queue at `tail`. Returns where the queue ends then.
fn visit(row: &[u16], levels: &mut [u16], queue: &mut [u16], tail: usize, j: u16) -> usize
    requires ready { Ready levels.old queue.old tail j }
    requires within { within (length levels.old) row.now }
    ensures { Pushed row.now j levels.old queue.old tail levels.new queue.new result }
{
    let mut t = tail;
    for &v in row {
        let at = usize::from(v) - 1;
        if levels[at] == 0 {
            levels[at] = j;
            queue[t] = v;
            t += 1;
        }
    }
    t
}

// Visits the row of the node p.
fn visit_node(
    starts: &[u16],
    neighbours: &[u16],
    levels: &mut [u16],
    queue: &mut [u16],
    tail: usize,
    p: u16,
    j: u16,
) -> usize
    requires ready { Ready levels.old queue.old tail j }
    requires readable { Readable (length levels.old) starts.now neighbours.now }
    requires le_p { (1 ≤ p) × (p ≤ length levels.old) }
    ensures { Pushed (row_of starts.now neighbours.now p) j levels.old queue.old tail levels.new queue.new result }
{
    visit(
        row(starts, neighbours, usize::from(p)),
        levels,
        queue,
        tail,
        j,
    )
}

// Visits the rows of the nodes that stand in the queue from a up to b, not including b, where the queue ends. Returns where it ends then.
fn expand(
    starts: &[u16],
    neighbours: &[u16],
    levels: &mut [u16],
    queue: &mut [u16],
    a: usize,
    b: usize,
    j: u16,
) -> usize
    requires ready { Ready levels.old queue.old b j }
    requires readable { Readable (length levels.old) starts.now neighbours.now }
    requires a_le_b { a ≤ b }
    requires within { within (length levels.old) (slice a b queue.old) }
    ensures { Pushed (rows starts.now neighbours.now (slice a b queue.old)) j levels.old queue.old b levels.new queue.new result }
{
    let mut tail = b;
    for h in a..b {
        let p = queue[h];
        tail = visit_node(starts, neighbours, levels, queue, tail, p, j);
    }
    tail
}

// The levels rooted at `root` in words that are 0, their sizes in the first words of `sizes`, and the figures.
fn search(
    starts: &[u16],
    neighbours: &[u16],
    root: u16,
    levels: &mut [u16],
    sizes: &mut [u16],
) -> Figures
    requires neighbours_value { graph_refusal starts.now neighbours.now ≡ 0 }
    requires le_root { (1 ≤ root) × (root ≤ size_now starts) }
    requires levels_value { levels.old ≡ replicate (size_now starts) 0 }
    requires sizes_len { length sizes.old ≡ size_now starts }
    ensures value { result ≡ figures_of (graph_was starts neighbours) root }
    ensures levels_value_2 { levels.new ≡ list_of (graph_was starts neighbours) root }
    ensures sizes_value { take result.depth sizes.new ≡ counts_of (graph_was starts neighbours) root }
{
    let at = usize::from(root) - 1;
    levels[at] = 1;
    sizes[0] = root;
    let mut a = 0;
    let mut b = 1;
    let mut depth: u16 = 0;
    let mut width: usize = 0;
    // A while: the queue grows while it is walked.
    while a < b {
        width = width.max(b - a);
        let t = expand(starts, neighbours, levels, sizes, a, b, depth + 2);
        sizes[usize::from(depth)] = (b - a) as u16;
        depth += 1;
        a = b;
        b = t;
    }
    Figures {
        depth,
        width: width as u16,
        reached: b as u16,
    }
}

// The levels rooted at `root`, their sizes with zeros after the last, and the figures.
pub fn rooted(
    starts: &[u16],
    neighbours: &[u16],
    root: u16,
    levels: &mut [u16],
    sizes: &mut [u16],
) -> Figures
    requires neighbours_value { graph_refusal starts.now neighbours.now ≡ 0 }
    requires le_root { (1 ≤ root) × (root ≤ size_now starts) }
    requires levels_len { length levels.old ≡ size_now starts }
    requires sizes_len { length sizes.old ≡ size_now starts }
    ensures value { result ≡ figures_of (graph_was starts neighbours) root }
    ensures levels_value { levels.new ≡ list_of (graph_was starts neighbours) root }
    ensures sizes_value { sizes.new ≡ sizes_of (graph_was starts neighbours) root }
{
    let n = levels.len();
    clear(levels, n);
    let f = search(starts, neighbours, root, levels, sizes);
    let d = usize::from(f.depth);
    clear(&mut sizes[d..n], n - d);
    f
}
