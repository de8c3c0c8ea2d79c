// The two lists of a mesh whose elements are not refused.
ghost use Rattle.std.specs.Prelude.{◌≡◌, ◌≤◌, ◌<◌, length};
ghost use Rattle.spec.specs.Refusal.{refuse};
ghost use Rattle.spec.specs.Lent.{outcome, filled, zeroed};
ghost use Rattle.spec.specs.Mesh.{elements_refusal, entry_count, start_list, neighbour_list, refuses11};
ghost use Rattle.spec.specs.CallsMesh.{graph_of_elements};
ghost use Rattle.mesh.specs.Answer.{meaning};

use refusals::Refusal;

// The entry count, or 11; 11 is decided before anything is written to the two lists.
pub fn adjacency(
    n: usize,
    elements: &[u16],
    starts: &mut [u16],
    neighbours: &mut [u16],
    scratch: &mut [u16],
) -> Result<u32, Refusal>
    requires n_bound { (n ≤ 4096) × (n < length starts.old) × (32768 ≤ length neighbours.old) × (n ≤ length scratch.old) }
    requires elements_value { elements_refusal (length elements.now) n elements.now ≡ 0 }
    ensures result_value { meaning result ≡ outcome (refuse (refuses11 (graph_of_elements n elements.now)) 11) (entry_count (graph_of_elements n elements.now)) }
    ensures starts_value { starts.new ≡ filled (refuse (refuses11 (graph_of_elements n elements.now)) 11) (start_list (graph_of_elements n elements.now)) starts.old }
    ensures neighbours_value { neighbours.new ≡ filled (refuse (refuses11 (graph_of_elements n elements.now)) 11) (neighbour_list (graph_of_elements n elements.now)) neighbours.old }
    ensures scratch_value { scratch.new ≡ zeroed n scratch.old }
{
    let lists = &mut scratch[..n];
    if mesh_rows::legal::over(lists, elements, starts, neighbours) {
        return Err(Refusal::TooManyEntries);
    }
    let entries = mesh_rows::legal::fill(lists, elements, starts, neighbours);
    Ok(entries as u32)
}
