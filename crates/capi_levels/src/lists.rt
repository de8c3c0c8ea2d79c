// The two lists of a graph.
ghost use Rattle.std.specs.Prelude.{◌≡◌};
ghost use Rattle.spec.specs.Graph.{graph_refusal};

// The tests 1 to 4 of every call on a graph: the refusal, or 0.
pub fn lists_refusal(starts: &[u16], neighbours: &[u16]) -> u16
    ensures { result ≡ graph_refusal starts.now neighbours.now }
{
    match graph::test_adjacency(starts, neighbours) {
        Err(refusal) => u16::from(refusal),
        Ok(()) => 0,
    }
}
