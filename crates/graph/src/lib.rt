// The adjacency test: whether a start list of n + 1 words and a neighbour list are a legal graph. Nothing is lent, nothing is written.
#![tactic(auto)]

ghost use Rattle.std.specs.Prelude.{◌≡◌, true, ◌≤◌, length, leb, ltb};
ghost use Rattle.basis.specs.Lists.{chainb, memb};
ghost use Rattle.spec.specs.Graph.{refuses1, refuses2, bad_row, refuses3, refuses4};
ghost use Rattle.spec.specs.CallsLevels.{adjacency_answer};
ghost use Rattle.laws.specs.Handed.{graph_now, graph_was};
ghost use Rattle.laws.specs.Legal.{Node, Starts};
ghost use Rattle.graph.specs.Answer.{meaning};
ghost use Rattle.graph.specs.Facts.{Rows, lower_pairs};

pub mod legal;

use refusals::Refusal;

// "A neighbour list has at most 32,768" words.
const MAX_ENTRIES: usize = 32768;

// 1: n is 0 or over 4,096, or the start list is empty. n + 1 words are counted, so that an empty list needs no case of its own.
fn bad_count(starts: &[u16]) -> bool
    ensures { result ≡ refuses1 starts.now }
{
    let words = starts.len();
    words < 2 || words > 4097
}

// 2: first start not 0, starts fall, last start not the neighbour list's length, or over 32,768. The list is walked last: the rest is cheap.
fn bad_starts(starts: &[u16], neighbours: &[u16]) -> bool
    requires { 1 ≤ length starts.now }
    ensures { result ≡ refuses2 starts.now neighbours.now }
{
    let last = usize::from(starts[starts.len() - 1]);
    if starts[0] != 0 || last != neighbours.len() || last > MAX_ENTRIES {
        return true;
    }
    !starts.is_sorted()
}

// Whether row p leaves 1..n, holds itself or doesn't rise. Before the first word stands 0, so that a word 0 is one that doesn't rise.
fn bad_row(row: &[u16], p: usize, n: usize) -> bool
    ensures { result ≡ bad_row n p row.now }
{
    let mut last = 0;
    for q in row {
        let q = usize::from(*q);
        if q <= last || q > n || q == p {
            return true;
        }
        last = q;
    }
    false
}

// 3: a row leaves 1..n, holds itself or doesn't rise.
fn bad_rows(starts: &[u16], neighbours: &[u16]) -> bool
    requires { Starts starts.now neighbours.now }
    ensures { result ≡ refuses3 (graph_was starts neighbours) }
{
    let n = starts.len() - 1;
    for p in 1..=n {
        let row = legal::row(starts, neighbours, p);
        if bad_row(row, p, n) {
            return true;
        }
    }
    false
}

// Whether a row that rises holds p: lo..hi is where p may still stand.
fn holds(row: &[u16], p: usize) -> bool
    requires { chainb ltb row.now ≡ true }
    ensures { result ≡ memb p row.now }
{
    let mut lo = 0;
    let mut hi = row.len();
    // A while: a step halves what is left.
    while lo < hi {
        let mid = lo + (hi - lo) / 2;
        let word = usize::from(row[mid]);
        if word == p {
            return true;
        }
        if word < p {
            lo = mid + 1;
        } else {
            hi = mid;
        }
    }
    false
}

// How many entries of row p are under p and have their partner: the row they name holds p. The row rises, so the first that is not under p ends the walk.
fn lower_pairs(starts: &[u16], neighbours: &[u16], p: usize) -> usize
    requires rows { Rows starts.now neighbours.now }
    requires node { Node (graph_now starts neighbours) p }
    ensures { result ≡ lower_pairs (graph_was starts neighbours) p }
{
    let row = legal::row(starts, neighbours, p);
    let mut pairs = 0;
    for q in row {
        let q = usize::from(*q);
        if q >= p {
            break;
        }
        let partners = legal::row(starts, neighbours, q);
        if holds(partners, p) {
            pairs += 1;
        }
    }
    pairs
}

// 4: a row's entry lacks its partner. Of the two entries of a pair one is under its row's number, so one is lacking exactly if the pairs fall short of half of the entries.
fn lacks_partners(starts: &[u16], neighbours: &[u16]) -> bool
    requires { Rows starts.now neighbours.now }
    ensures { result ≡ refuses4 (graph_was starts neighbours) }
{
    let mut pairs = 0;
    for p in 1..starts.len() {
        pairs += lower_pairs(starts, neighbours, p);
    }
    2 * pairs < neighbours.len()
}

// The entry point: "Tests run in that order", and each may lean on those before it.
pub fn test_adjacency(starts: &[u16], neighbours: &[u16]) -> Result<(), Refusal>
    ensures { meaning result ≡ adjacency_answer starts.now neighbours.now }
{
    if bad_count(starts) {
        return Err(Refusal::NodeCount);
    }
    if bad_starts(starts, neighbours) {
        return Err(Refusal::Starts);
    }
    if bad_rows(starts, neighbours) {
        return Err(Refusal::Rows);
    }
    if lacks_partners(starts, neighbours) {
        return Err(Refusal::Partners);
    }
    Ok(())
}
