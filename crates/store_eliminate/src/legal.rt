// Functions on a legal adjacency and numbering: their callers have tested them, and the room.
ghost use Rattle.std.specs.Prelude.{◌≡◌, List, ◌∷◌, map, ℕ, suc, ◌≤◌, ◌<◌, length, replicate};
ghost use Rattle.spec.specs.Graph.{Graph, of_node};
ghost use Rattle.spec.specs.Measures.{order_of};
ghost use Rattle.spec.specs.Store.{start_of, mark_byte_count, mark_bytes};
ghost use Rattle.laws.specs.Handed.{graph_now, size_now, size_was};
ghost use Rattle.laws.specs.Legal.{Node};
ghost use Rattle.store_marks.specs.Marks.{marked, with_mark, ones, Countable};
ghost use Rattle.store_eliminate.specs.Walk.{place_in, Room, IsRow, Walk, Risen, Climbed, Joined, Reach, Given, new_graph, row_at, Done};

use graph_envelope::legal::{first, number};

// The row of number q in the store: f_q is `first`, s_q is `start`.
#[derive(Clone, Copy)]
struct Row {
    q: usize,
    first: usize,
    start: u32,
}

// The place of the pair p < q.
fn place(row: Row, p: usize) -> u32
    requires { (row.first ≤ p) × (place_in row p < 4294967296) }
    ensures { result ≡ place_in row p }
{
    row.start + (p - row.first) as u32
}

// Whether the pair p < q is marked.
fn joined(bytes: &[u8], row: Row, p: usize) -> bool
    requires { Room row (length bytes.now) p }
    ensures { result ≡ marked bytes.now (place_in row p) }
{
    store_marks::legal::test(bytes, place(row, p))
}

// Marks the pair p < q.
fn join(bytes: &mut [u8], row: Row, p: usize)
    requires { Room row (length bytes.old) p }
    ensures { bytes.new ≡ with_mark bytes.old (place_in row p) }
{
    store_marks::legal::set(bytes, place(row, p));
}

// Joins p < q to q: the pair is marked, and q becomes the parent of p where it has none. Returns what is to be joined to q next: the parent of p,
// or q, for nothing, where p had no parent.
fn rise(scratch: &mut [u16], bytes: &mut [u8], row: Row, p: usize) -> usize
    requires { ((h : Graph) × (o : List ℕ) × (due : List ℕ) × IsRow h row × Walk h o scratch.old bytes.old row.q row.q (p ∷ due)) × (p < row.q) }
    ensures { (p < result) × (result ≤ row.q) × Risen row p result scratch.old bytes.old scratch.new bytes.new }
{
    join(bytes, row, p);
    let at = p - 1;
    let parent = usize::from(scratch[at]);
    if parent == 0 {
        scratch[at] = row.q as u16;
        return row.q;
    }
    parent
}

// Joins to q, where it is lower, the number `from`, its parent, the parent of that, and so on up to what is joined already.
fn climb(scratch: &mut [u16], bytes: &mut [u8], row: Row, from: usize)
    requires { (h : Graph) × (o : List ℕ) × (due : List ℕ) × IsRow h row × Walk h o scratch.old bytes.old row.q row.q (from ∷ due) }
    ensures { Climbed row from scratch.old bytes.old scratch.new bytes.new }
{
    let mut p = from;
    // A while: it climbs from parent to parent.
    while p < row.q {
        if joined(bytes, row, p) {
            return;
        }
        p = rise(scratch, bytes, row, p);
    }
}

// Joins to q all of its lower neighbours; `adjacent` are the neighbours of the node that has the number q.
fn join_edges(adjacent: &[u16], numbering: &[u16], scratch: &mut [u16], bytes: &mut [u8], row: Row)
    requires { Reach numbering.now adjacent.now
        × ((h : Graph) × (o : List ℕ) × IsRow h row × Walk h o scratch.old bytes.old row.q row.q (map (of_node numbering.now) adjacent.now)) }
    ensures { Joined row (map (of_node numbering.now) adjacent.now) scratch.old bytes.old scratch.new bytes.new }
{
    for &b in adjacent {
        climb(scratch, bytes, row, number(numbering, usize::from(b)));
    }
}

// The row of a node's number.
fn row_of(starts: &[u16], neighbours: &[u16], numbering: &[u16], node: usize, start: u32) -> Row
    requires { Given starts.now neighbours.now numbering.now × Node (graph_now starts neighbours) node }
    ensures { result ≡ row_at (new_graph starts.now neighbours.now numbering.now) (of_node numbering.now node) start }
{
    Row {
        q: number(numbering, node),
        first: first(starts, neighbours, numbering, node),
        start,
    }
}

// Row q = done + 1, which starts at `start`: the lower neighbours of q are joined to it, and what they bring. Returns where the next row starts.
fn eliminate_row(
    starts: &[u16],
    neighbours: &[u16],
    numbering: &[u16],
    scratch: &mut [u16],
    bytes: &mut [u8],
    done: usize,
    start: u32,
) -> u32
    requires { Given starts.now neighbours.now numbering.now
        × Done starts.now neighbours.now numbering.now scratch.old bytes.old done
        × (done < size_now starts)
        × (start ≡ start_of (new_graph starts.now neighbours.now numbering.now) (suc done)) }
    ensures value { result ≡ start_of (new_graph starts.now neighbours.now numbering.now) (suc (suc done)) }
    ensures done { Done starts.now neighbours.now numbering.now scratch.new bytes.new (suc done) }
{
    let node = usize::from(scratch[done]);
    let row = row_of(starts, neighbours, numbering, node, start);
    let adjacent = graph::legal::row(starts, neighbours, node);
    join_edges(adjacent, numbering, scratch, bytes, row);
    scratch[done] = 0;
    place(row, row.q)
}

// All rows in turn, where no pair is marked.
fn pass(
    starts: &[u16],
    neighbours: &[u16],
    numbering: &[u16],
    scratch: &mut [u16],
    bytes: &mut [u8],
)
    requires { Given starts.now neighbours.now numbering.now
        × Done starts.now neighbours.now numbering.now scratch.old bytes.old 0 }
    ensures { Done starts.now neighbours.now numbering.now scratch.new bytes.new (size_was starts) }
{
    let n = numbering.len();
    let mut start: u32 = 0;
    for done in 0..n {
        start = eliminate_row(starts, neighbours, numbering, scratch, bytes, done, start);
    }
}

// The pass, and then the count of its marks in the finished bytes. Returns how many are 1.
fn pass_and_count(
    starts: &[u16],
    neighbours: &[u16],
    numbering: &[u16],
    scratch: &mut [u16],
    bytes: &mut [u8],
) -> u32
    requires given { Given starts.now neighbours.now numbering.now
        × Done starts.now neighbours.now numbering.now scratch.old bytes.old 0 }
    requires countable { Countable bytes.old }
    ensures value { result ≡ ones bytes.new }
    ensures done { Done starts.now neighbours.now numbering.now scratch.new bytes.new (size_was starts) }
{
    pass(starts, neighbours, numbering, scratch, bytes);
    store_marks::legal::counting::count(bytes)
}

// The marks of the store of a numbering, whose order is in scratch; that ends as zeros. Returns how many are 1.
pub fn mark(
    starts: &[u16],
    neighbours: &[u16],
    numbering: &[u16],
    scratch: &mut [u16],
    bytes: &mut [u8],
) -> u32
    requires { Given starts.now neighbours.now numbering.now
        × (scratch.old ≡ order_of numbering.now)
        × (length bytes.old ≡ mark_byte_count (new_graph starts.now neighbours.now numbering.now)) }
    ensures value { result ≡ ones bytes.new }
    ensures bytes_value { bytes.new ≡ mark_bytes (new_graph starts.now neighbours.now numbering.now) }
    ensures scratch_value { scratch.new ≡ replicate (size_was starts) 0 }
{
    bytes.fill(0);
    let count = pass_and_count(starts, neighbours, numbering, scratch, bytes);
    scratch.fill(0);
    count
}
