// Functions that ask for elements that are not refused, one word a node, and room.
ghost use Rattle.std.specs.Prelude.{◌≡◌, true, ◌≤◌, length, replicate};
ghost use Rattle.basis.specs.Lists.{overwrite};
ghost use Rattle.spec.specs.Mesh.{elements_refusal, entry_count, start_list, neighbour_list, refuses11};
ghost use Rattle.spec.specs.CallsMesh.{graph_of_elements};
ghost use Rattle.mesh_rows.specs.Rows.{Room};

mod batch;
mod bound;
mod row;

// The entry count of the mesh: with no room in the two lists, their rows are only counted. The lists of elements need a word for each
// node, and end as zeros.
fn count(lists: &mut [u16], elements: &[u16], starts: &mut [u16], neighbours: &mut [u16]) -> usize
    requires lists_len_bound { length lists.old ≤ 4096 }
    requires elements_value { elements_refusal (length elements.now) (length lists.old) elements.now ≡ 0 }
    ensures value { result ≡ entry_count (graph_of_elements (length lists.old) elements.now) }
    ensures lists_value { lists.new ≡ replicate (length lists.old) 0 }
    ensures starts_value { starts.new ≡ starts.old }
    ensures neighbours_value { neighbours.new ≡ neighbours.old }
{
    let mut bits = [0u64; 64];
    let count = batch::all_rows(
        &mut bits,
        lists,
        elements,
        &mut starts[..0],
        &mut neighbours[..0],
    );
    lists.fill(0);
    count
}

// Whether the rows of the mesh have over 32,768 entries: they are counted only where the elements alone don't tell. Nothing is written
// to the two lists; the lists of elements end as zeros where it is so.
pub fn over(lists: &mut [u16], elements: &[u16], starts: &mut [u16], neighbours: &mut [u16]) -> bool
    requires lists_len_bound { length lists.old ≤ 4096 }
    requires elements_value { elements_refusal (length elements.now) (length lists.old) elements.now ≡ 0 }
    ensures value { result ≡ refuses11 (graph_of_elements (length lists.old) elements.now) }
    ensures lists_value { result ≡ true → lists.new ≡ replicate (length lists.old) 0 }
    ensures starts_value { starts.new ≡ starts.old }
    ensures neighbours_value { neighbours.new ≡ neighbours.old }
{
    if bound::few(elements) {
        return false;
    }
    32768 < count(lists, elements, starts, neighbours)
}

// Writes both lists, and returns the entry count. The lists of elements need a word for each node, and end as zeros.
pub fn fill(
    lists: &mut [u16],
    elements: &[u16],
    starts: &mut [u16],
    neighbours: &mut [u16],
) -> usize
    requires elements_value { elements_refusal (length elements.now) (length lists.old) elements.now ≡ 0 }
    requires room { Room (graph_of_elements (length lists.old) elements.now) (length lists.old) starts.old neighbours.old }
    ensures value { result ≡ entry_count (graph_of_elements (length lists.old) elements.now) }
    ensures lists_value { lists.new ≡ replicate (length lists.old) 0 }
    ensures starts_value { starts.new ≡ overwrite (start_list (graph_of_elements (length lists.old) elements.now)) starts.old }
    ensures neighbours_value { neighbours.new ≡ overwrite (neighbour_list (graph_of_elements (length lists.old) elements.now)) neighbours.old }
{
    let mut bits = [0u64; 64];
    starts[0] = 0;
    let count = batch::all_rows(&mut bits, lists, elements, starts, neighbours);
    lists.fill(0);
    count
}
