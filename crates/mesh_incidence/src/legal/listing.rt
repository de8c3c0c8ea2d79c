// Lists of element positions in lent words, one for each of some rows. The word of a row has its first cell, 0 for none; cell c, from 1
// on, is two words behind those of the rows: a position and the next cell, which is lower.
ghost use Rattle.std.specs.Prelude.{◌≡◌, ℕ, suc, ◌+◌, ◌*◌, ◌<◌, ◌≤◌, true, length, ◌==◌, ◌≢◌, nat_eq};
ghost use Rattle.basis.specs.Lists.{memb};
ghost use Rattle.spec.specs.Mesh.{elements_refusal};
ghost use Rattle.mesh_incidence.specs.Cells.{Cells, pushed, Entered, Listed};

// The place of row p among those after base. The difference wraps: a row up to base gets a place past all rows, so one test tells. No word is
// above 65,535, so a base up there is as good as that.
pub fn row_of(p: u16, base: usize) -> usize
    ensures { (k : ℕ) → k < 4096 → (base + suc k == p) ≡ (k == result) }
{
    usize::from(p).wrapping_sub(base.min(65535) + 1)
}

// Puts a position in front of the list of a row, as this cell.
fn push(lists: &mut [u16], row: usize, rows: usize, cell: usize, at: u16)
    requires { (row < rows) × (rows + 2 * cell + 1 < length lists.old) × (length lists.old ≤ 4096) }
    ensures { lists.new ≡ pushed rows lists.old row cell at }
{
    let first = lists[row];
    let to = rows + 2 * cell;
    lists[to] = at;
    lists[to + 1] = first;
    lists[row] = cell as u16;
}

// Enters a position in the list of a row; returns the cell that is free then, 0 where the words are full.
fn enter_row(lists: &mut [u16], row: usize, rows: usize, cell: usize, at: u16) -> usize
    requires { (length lists.old ≤ 4096) × Cells rows lists.old cell × (row < rows) }
    ensures { (result ≢ 0) → Entered at rows (λ k. nat_eq k row) lists.old cell lists.new result }
{
    let next = cell + 1;
    if lists.len() < rows + 2 * next {
        return 0;
    }
    push(lists, row, rows, cell, at);
    next
}

// Enters the position of an element in the list of each of its nodes that is one of the rows after base. Most nodes are none of them, in no
// order that could be foreseen: one test passes them by.
fn enter(lists: &mut [u16], nodes: &[u16], at: u16, base: usize, rows: usize, cell: usize) -> usize
    requires { (length lists.old ≤ 4096) × Cells rows lists.old cell }
    ensures { (result ≢ 0) → Entered at rows (λ k. memb (base + suc k) nodes.now) lists.old cell lists.new result }
{
    let mut free = cell;
    for &node in nodes {
        let row = row_of(node, base);
        if row < rows {
            free = enter_row(lists, row, rows, free, at);
            if free == 0 {
                return 0;
            }
        }
    }
    free
}

// Lists the elements of the rows after base, in one pass; whether the words have room for all.
fn list(lists: &mut [u16], elements: &[u16], base: usize, rows: usize) -> bool
    requires lists_len_bound { (length lists.old ≤ 4096) × (rows + 2 ≤ length lists.old) × (length elements.now ≤ 65536) }
    requires elements_value { elements_refusal (length elements.now) (length lists.old) elements.now ≡ 0 }
    ensures { result ≡ true → Listed elements.now base rows lists.new }
{
    lists[..rows].fill(0);
    let mut cell = 1;
    let mut at = 0;
    // A while: a step takes the words of one element.
    while at < elements.len() {
        let first = at + 1;
        let next = first + mesh_elements::node_count(elements[at]);
        cell = enter(lists, &elements[first..next], at as u16, base, rows, cell);
        if cell == 0 {
            return false;
        }
        at = next;
    }
    true
}

// Lists the elements of as many rows after base as there is room for, in steps of a half; returns how many rows, `most` at most. So few as 64
// rows are not listed: they need no lists (crate gathering).
pub fn list_rows(lists: &mut [u16], elements: &[u16], base: usize, most: usize) -> usize
    requires lists_len_bound { (length lists.old ≤ 4096) × (most + 2 ≤ length lists.old) × (length elements.now ≤ 65536) }
    requires elements_value { elements_refusal (length elements.now) (length lists.old) elements.now ≡ 0 }
    ensures { (result ≤ most) × (1 ≤ result → Listed elements.now base result lists.new) }
{
    let mut rows = most;
    // A while: a step halves.
    while 64 < rows {
        if list(lists, elements, base, rows) {
            return rows;
        }
        rows /= 2;
    }
    0
}
