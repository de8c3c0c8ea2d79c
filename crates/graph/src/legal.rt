// Rows, degrees and order E of lists that were found legal: for the crates above.
ghost use Rattle.std.specs.Prelude.{◌≡◌, List, ℕ, ◌≤◌};
ghost use Rattle.spec.specs.Graph.{row_of, graph_of, degree, before_e};
ghost use Rattle.laws.specs.Handed.{graph_now, size_now};
ghost use Rattle.laws.specs.Legal.{Node, Starts};

// "Row p is the neighbours from start p − 1 up to, not including, start p (starts counted from 0)"
pub fn row<'a>(starts: &[u16], neighbours: &'a [u16], p: usize) -> &'a [u16]
    requires starts { Starts starts.now neighbours.now }
    requires node { Node (graph_now starts neighbours) p }
    ensures { result.now ≡ row_of starts.now neighbours.now p }
{
    let from = usize::from(starts[p - 1]);
    let to = usize::from(starts[p]);
    &neighbours[from..to]
}

// "Degree is the length of a row", so the starts alone give it, whatever neighbour list goes with them.
pub fn degree(starts: &[u16], p: usize) -> usize
    requires by_index { (neighbours : List ℕ) × Starts starts.now neighbours }
    requires le_p { (1 ≤ p) × (p ≤ size_now starts) }
    ensures { (neighbours : List ℕ) → Starts starts.now neighbours → result ≡ degree (graph_of starts.now neighbours) p }
{
    usize::from(starts[p] - starts[p - 1])
}

// "Order E: lower degree first, then lower old number": whether p comes before q.
pub fn precedes(starts: &[u16], p: usize, q: usize) -> bool
    requires by_index { (neighbours : List ℕ) × Starts starts.now neighbours }
    requires le_p { (1 ≤ p) × (p ≤ size_now starts) × (1 ≤ q) × (q ≤ size_now starts) }
    ensures { (neighbours : List ℕ) → Starts starts.now neighbours → result ≡ before_e (graph_of starts.now neighbours) p q }
{
    let a = degree(starts, p);
    let b = degree(starts, q);
    a < b || a == b && p < q
}
