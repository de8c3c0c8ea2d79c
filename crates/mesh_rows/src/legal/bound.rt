// A bound of the entries that needs no rows.
ghost use Rattle.std.specs.Prelude.{◌≡◌, true, ℕ, ◌≤◌, length};
ghost use Rattle.spec.specs.Mesh.{elements as nodesOf, elements_refusal};
ghost use Rattle.mesh_rows.specs.Rows.{ordered_pairs};

// Whether the ordered pairs of the elements' nodes, added up, are 32,768 at most: then the entries are too, since each stands for a pair.
pub(crate) fn few(elements: &[u16]) -> bool
    requires { (n : ℕ) × (n ≤ 4096) × (elements_refusal (length elements.now) n elements.now ≡ 0) }
    ensures { result ≡ true → ordered_pairs (nodesOf elements.now) ≤ 32768 }
{
    let mut total: usize = 0;
    let mut at = 0;
    // A while: a step takes the words of one element.
    while at < elements.len() {
        let count = mesh_elements::node_count(elements[at]);
        total += count * (count - 1);
        if 32768 < total {
            return false;
        }
        at = at + 1 + count;
    }
    true
}
