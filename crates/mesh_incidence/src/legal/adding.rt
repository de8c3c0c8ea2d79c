// Rows as sets of nodes, out of the elements that hold the row's node.
ghost use Rattle.std.specs.Prelude.{◌≡◌, ◌<◌, ◌≤◌, length};
ghost use Rattle.mesh_rowset.specs.Set.{Covered, Added, Empty};
ghost use Rattle.mesh_incidence.specs.Cells.{node_in, Sound, held, Linked};

// Adds the nodes of the element at `at`.
fn add_element(bits: &mut [u64], elements: &[u16], at: usize, mask: u64) -> u64
    requires bits_len { (length bits.old ≡ 64) × Sound elements.now at }
    requires covered { Covered mask bits.old }
    ensures covered_2 { Covered result bits.new }
    ensures added { Added (node_in elements.now at) bits.old bits.new }
{
    let first = at + 1;
    let next = first + mesh_elements::node_count(elements[at]);
    mesh_rowset::legal::add(bits, &elements[first..next], mask)
}

// Fills an empty set with the nodes of the elements in the list of a row; returns its mask.
pub fn add_listed(bits: &mut [u64], lists: &[u16], elements: &[u16], rows: usize, row: usize) -> u64
    requires bits_len { (length bits.old ≡ 64) × (length lists.now ≤ 4096) × (row < rows) }
    requires empty { Empty bits.old × Linked elements.now rows lists.now }
    ensures covered { Covered result bits.new }
    ensures added { Added (held (node_in elements.now) rows lists.now row) bits.old bits.new }
{
    let mut mask: u64 = 0;
    let mut cell = usize::from(lists[row]);
    // A while: it follows a list from cell to cell.
    while cell != 0 {
        let to = rows + 2 * cell;
        mask = add_element(bits, elements, usize::from(lists[to]), mask);
        cell = usize::from(lists[to + 1]);
    }
    mask
}
