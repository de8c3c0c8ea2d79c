// All rows, as many at a time as the lists of their elements have room for, or 64 without lists.
ghost use Rattle.std.specs.Prelude.{◌≡◌, ◌+◌, ◌≤◌, ◌<◌, length, replicate};
ghost use Rattle.spec.specs.Mesh.{elements_refusal};
ghost use Rattle.spec.specs.CallsMesh.{graph_of_elements};
ghost use Rattle.mesh_rowset.specs.Set.{Empty};
ghost use Rattle.mesh_incidence.specs.Cells.{Listed};
ghost use Rattle.mesh_rows.specs.Rows.{entries_to, Ready, Clean, Goes, Laid};

// How many rows to try first, of those guessed: twice as many as went last at most, or all where none went.
fn to_try(guess: usize, last: usize) -> usize
    requires { last ≤ 4096 }
    ensures { result ≤ guess }
{
    if last == 0 {
        guess
    } else {
        guess.min(2 * last)
    }
}

// Lists the elements of some rows after base, and returns of how many: 0 where 64 rows or fewer have room, or positions don't fit a word.
// A row takes a word, and two for each element: a guess by the elements that a row has in the mean. `last` is how many rows went last: near a
// node of very many elements, the guess would fail again.
fn list_some(lists: &mut [u16], elements: &[u16], base: usize, last: usize) -> usize
    requires lists_len_bound { (length lists.old ≤ 4096) × (base < length lists.old) × (last ≤ 4096) }
    requires elements_value { elements_refusal (length elements.now) (length lists.old) elements.now ≡ 0 }
    ensures { (base + result ≤ length lists.old) × (1 ≤ result → Listed elements.now base result lists.new) }
{
    let n = lists.len();
    if 65536 < elements.len() {
        return 0;
    }
    if n < 2 {
        return 0;
    }
    let mean = elements.len() / n;
    let rows = to_try(n / (2 * mean + 2), last);
    let most = rows.min(n - base).min(n - 2);
    mesh_incidence::legal::listing::list_rows(lists, elements, base, most)
}

// How many rows go next, after base: over 64 where the elements of so many are listed now, else those of a group, 64 or as many as are left.
fn next_rows(lists: &mut [u16], elements: &[u16], base: usize, last: usize) -> usize
    requires lists_len_bound { (length lists.old ≤ 4096) × (base < length lists.old) × (last ≤ 4096) }
    requires elements_value { elements_refusal (length elements.now) (length lists.old) elements.now ≡ 0 }
    ensures { (1 ≤ result) × (base + result ≤ length lists.old) × (64 < result → Listed elements.now base result lists.new) }
{
    let group = (lists.len() - base).min(64);
    list_some(lists, elements, base, last).max(group)
}

// The rows after base whose elements are listed.
fn listed_rows(
    bits: &mut [u64],
    lists: &[u16],
    elements: &[u16],
    base: usize,
    rows: usize,
    at: usize,
    starts: &mut [u16],
    neighbours: &mut [u16],
) -> usize
    requires ready { Ready (length lists.now) elements.now starts.old × Clean bits.old }
    requires listed { Listed elements.now base rows lists.now × (base + rows ≤ length lists.now) }
    requires at_value { at ≡ entries_to (graph_of_elements (length lists.now) elements.now) base }
    ensures empty { Empty bits.new }
    ensures goes { Goes (graph_of_elements (length lists.now) elements.now) base starts.old neighbours.old (base + rows) starts.new neighbours.new result }
{
    let mut to = at;
    for row in 0..rows {
        to = super::row::listed_row(
            bits, lists, elements, base, rows, row, to, starts, neighbours,
        );
    }
    to
}

// The rows after base, 64 of them at most, out of their sets: one pass over the elements fills these.
fn gathered_rows(
    group: &mut [u64],
    n: usize,
    elements: &[u16],
    base: usize,
    rows: usize,
    at: usize,
    starts: &mut [u16],
    neighbours: &mut [u16],
) -> usize
    requires ready { Ready n elements.now starts.old × (rows ≤ 64) × (base + rows ≤ n) }
    requires group_value { group.old ≡ replicate 4096 0 }
    requires at_value { at ≡ entries_to (graph_of_elements n elements.now) base }
    ensures { Goes (graph_of_elements n elements.now) base starts.old neighbours.old (base + rows) starts.new neighbours.new result }
{
    mesh_gather::legal::gather(group, elements, base);
    let mut to = at;
    for row in 0..rows {
        to = super::row::gathered_row(group, base, row, to, starts, neighbours);
    }
    to
}

// The same rows, with their sets: a fresh array, 32 KB.
fn group_rows(
    n: usize,
    elements: &[u16],
    base: usize,
    rows: usize,
    at: usize,
    starts: &mut [u16],
    neighbours: &mut [u16],
) -> usize
    requires ready { Ready n elements.now starts.old × (rows ≤ 64) × (base + rows ≤ n) }
    requires at_value { at ≡ entries_to (graph_of_elements n elements.now) base }
    ensures { Goes (graph_of_elements n elements.now) base starts.old neighbours.old (base + rows) starts.new neighbours.new result }
{
    let mut group = [0u64; 4096];
    gathered_rows(&mut group, n, elements, base, rows, at, starts, neighbours)
}

// The rows after base: listed where they are over 64, else a group.
fn some_rows(
    bits: &mut [u64],
    lists: &[u16],
    elements: &[u16],
    base: usize,
    rows: usize,
    at: usize,
    starts: &mut [u16],
    neighbours: &mut [u16],
) -> usize
    requires ready { Ready (length lists.now) elements.now starts.old × Clean bits.old }
    requires listed { (64 < rows → Listed elements.now base rows lists.now) × (base + rows ≤ length lists.now) }
    requires at_value { at ≡ entries_to (graph_of_elements (length lists.now) elements.now) base }
    ensures empty { Empty bits.new }
    ensures goes { Goes (graph_of_elements (length lists.now) elements.now) base starts.old neighbours.old (base + rows) starts.new neighbours.new result }
{
    if rows <= 64 {
        let n = lists.len();
        return group_rows(n, elements, base, rows, at, starts, neighbours);
    }
    listed_rows(bits, lists, elements, base, rows, at, starts, neighbours)
}

// All rows from the first on; returns the entry count. The lists of elements have a word for each node. Few nodes are one group.
pub(crate) fn all_rows(
    bits: &mut [u64],
    lists: &mut [u16],
    elements: &[u16],
    starts: &mut [u16],
    neighbours: &mut [u16],
) -> usize
    requires { Ready (length lists.old) elements.now starts.old × Clean bits.old }
    ensures value { result ≡ entries_to (graph_of_elements (length lists.old) elements.now) (length lists.old) }
    ensures laid { Laid (graph_of_elements (length lists.old) elements.now) starts.old neighbours.old (length lists.old) starts.new neighbours.new }
{
    let n = lists.len();
    if n <= 64 {
        return group_rows(n, elements, 0, n, 0, starts, neighbours);
    }
    let mut to = 0;
    let mut base = 0;
    let mut rows = 0;
    // A while: a step takes as many rows as there is room for.
    while base < n {
        rows = next_rows(lists, elements, base, rows);
        to = some_rows(bits, lists, elements, base, rows, to, starts, neighbours);
        base += rows;
    }
    to
}
