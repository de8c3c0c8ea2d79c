// Functions that ask for 64 sets of 64 words, one after another: set k is that of row base + k + 1.
ghost use Rattle.std.specs.Prelude.{◌≡◌, ◌&&◌, ℕ, suc, ◌+◌, ◌≤◌, ◌<◌, length, get_or, replicate, eqb};
ghost use Rattle.basis.specs.Lists.{memb};
ghost use Rattle.spec.specs.Mesh.{elements_refusal};
ghost use Rattle.mesh_gather.specs.Sets.{Nodes, Grown, Gathered};

// Adds the nodes to the set of a row. The mask that has all bits covers every set.
fn add_to(sets: &mut [u64], nodes: &[u16], row: usize)
    requires { (length sets.old ≡ 4096) × (row < 64) × Nodes nodes.now }
    ensures { Grown (λ k q. eqb k row && memb q nodes.now) sets.old sets.new }
{
    let first = 64 * row;
    let next = first + 64;
    mesh_rowset::legal::add(&mut sets[first..next], nodes, u64::MAX);
}

// Adds the nodes of an element to the set of each of them that is one of the 64 rows after base.
fn add_element(sets: &mut [u64], nodes: &[u16], base: usize)
    requires { (length sets.old ≡ 4096) × Nodes nodes.now }
    ensures { Grown (λ k q. memb (base + suc k) nodes.now && memb q nodes.now) sets.old sets.new }
{
    for &node in nodes {
        let row = mesh_incidence::legal::listing::row_of(node, base);
        if row < 64 {
            add_to(sets, nodes, row);
        }
    }
}

// Fills empty sets with the nodes of the rows after base, in one pass over the elements.
pub fn gather(sets: &mut [u64], elements: &[u16], base: usize)
    requires sets_value { sets.old ≡ replicate 4096 0 }
    requires by_index { (n : ℕ) × (n ≤ 4096) × (elements_refusal (length elements.now) n elements.now ≡ 0) }
    ensures { Gathered elements.now base sets.new }
{
    let mut at = 0;
    // A while: a step takes the words of one element.
    while at < elements.len() {
        let first = at + 1;
        let next = first + mesh_elements::node_count(elements[at]);
        add_element(sets, &elements[first..next], base);
        at = next;
    }
}
