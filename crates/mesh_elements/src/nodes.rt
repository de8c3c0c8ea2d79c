// The test of the nodes of one element. A node may repeat.
ghost use Rattle.std.specs.Prelude.{◌≡◌};
ghost use Rattle.basis.specs.Lists.{anyb};
ghost use Rattle.spec.specs.Graph.{outside};
ghost use Rattle.spec.specs.Refusal.{refuse};
ghost use Rattle.spec.specs.Mesh.{bad_nodes};

// Whether a node is out of range: 0 or above n.
fn leaves(nodes: &[u16], n: usize) -> bool
    ensures { result ≡ anyb (outside n) nodes.now }
{
    nodes.iter().any(|&p| p == 0 || n < usize::from(p))
}

// 10 for a node out of range, else 0: a number, since `element_refusal` is one.
pub fn nodes_refusal(n: usize, nodes: &[u16]) -> u16
    ensures { result ≡ refuse (bad_nodes n nodes.now) 10 }
{
    if leaves(nodes, n) {
        return 10;
    }
    0
}
