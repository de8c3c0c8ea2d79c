// One row: its set is filled out of its elements, and emptied into the lists. Past the end of a list, what would be written is only counted.
ghost use Rattle.std.specs.Prelude.{◌≡◌, ℕ, ◌+◌, ◌≤◌, ◌<◌, length, set};
ghost use Rattle.std.proofs.lemmas.List.Edits.{sets};
ghost use Rattle.spec.specs.CallsMesh.{graph_of_elements};
ghost use Rattle.mesh_rowset.specs.Set.{Covered, Empty, members};
ghost use Rattle.mesh_incidence.specs.Cells.{Listed};
ghost use Rattle.mesh_gather.specs.Sets.{set_at};
ghost use Rattle.mesh_rows.specs.Rows.{entries_to, Ready, Clean, Goes};

// Writes where row p ends.
fn mark_end(starts: &mut [u16], p: usize, to: usize)
    requires { p < length starts.old → to ≤ 32768 }
    ensures { starts.new ≡ set starts.old p to }
{
    if p < starts.len() {
        starts[p] = to as u16;
    }
}

// Empties the set of row p, whose entries start at `at`, into the lists; returns where they end.
fn close_row(
    bits: &mut [u64],
    mask: u64,
    p: usize,
    at: usize,
    starts: &mut [u16],
    neighbours: &mut [u16],
) -> usize
    requires bits_len { (length bits.old ≡ 64) × Covered mask bits.old × (at ≤ 2147483648) }
    requires bits_bound { p < length starts.old → at + length (members p bits.old) ≤ 32768 }
    ensures value { result ≡ at + length (members p bits.old) }
    ensures empty { Empty bits.new }
    ensures starts_value { starts.new ≡ set starts.old p result }
    ensures neighbours_value { neighbours.new ≡ sets neighbours.old at (members p bits.old) }
{
    let to = mesh_rowset::legal::empty(bits, mask, p, at, neighbours);
    mark_end(starts, p, to);
    to
}

// The next row, out of the list of its elements: that of row base + row + 1.
pub(crate) fn listed_row(
    bits: &mut [u64],
    lists: &[u16],
    elements: &[u16],
    base: usize,
    rows: usize,
    row: usize,
    at: usize,
    starts: &mut [u16],
    neighbours: &mut [u16],
) -> usize
    requires ready { Ready (length lists.now) elements.now starts.old × Clean bits.old }
    requires listed { Listed elements.now base rows lists.now × (row < rows) × (base + rows ≤ length lists.now) }
    requires at_value { at ≡ entries_to (graph_of_elements (length lists.now) elements.now) (base + row) }
    ensures empty { Empty bits.new }
    ensures goes { Goes (graph_of_elements (length lists.now) elements.now) (base + row) starts.old neighbours.old (base + row + 1) starts.new neighbours.new result }
{
    let mask = mesh_incidence::legal::adding::add_listed(bits, lists, elements, rows, row);
    close_row(bits, mask, base + row + 1, at, starts, neighbours)
}

// The next row, out of its set in a group of sets: that of row base + row + 1. The mask that has all bits covers every set.
pub(crate) fn gathered_row(
    group: &mut [u64],
    base: usize,
    row: usize,
    at: usize,
    starts: &mut [u16],
    neighbours: &mut [u16],
) -> usize
    requires group_len { (length group.old ≡ 4096) × (row < 64) × (base + row < 4096) × (at ≤ 2147483648) }
    requires row_bound { base + row + 1 < length starts.old → at + length (members (base + row + 1) (set_at group.old row)) ≤ 32768 }
    ensures value { result ≡ at + length (members (base + row + 1) (set_at group.old row)) }
    ensures by_index { (k : ℕ) → row < k → set_at group.new k ≡ set_at group.old k }
    ensures starts_value { starts.new ≡ set starts.old (base + row + 1) result }
    ensures neighbours_value { neighbours.new ≡ sets neighbours.old at (members (base + row + 1) (set_at group.old row)) }
{
    let first = 64 * row;
    let next = first + 64;
    close_row(
        &mut group[first..next],
        u64::MAX,
        base + row + 1,
        at,
        starts,
        neighbours,
    )
}
