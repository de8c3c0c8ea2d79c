// The mesh call: from elements to the two lists of a graph.
#![tactic(auto)]

ghost use Rattle.std.specs.Prelude.{◌≡◌};
ghost use Rattle.spec.specs.CallsMesh.{mesh_answer, mesh_starts, mesh_neighbours, mesh_scratch};
ghost use Rattle.mesh.specs.Answer.{meaning};

pub mod legal;

use refusals::Refusal;

// The two lists of the mesh of n nodes, and their entry count. Tests in document 01's order: 1, 5, the elements by 9 and 10, then 11.
pub fn mesh_lists(
    n: usize,
    elements: &[u16],
    starts: &mut [u16],
    neighbours: &mut [u16],
    scratch: &mut [u16],
) -> Result<u32, Refusal>
    ensures result_value { meaning result ≡ mesh_answer n elements.now starts.old neighbours.old scratch.old }
    ensures starts_value { starts.new ≡ mesh_starts n elements.now starts.old neighbours.old scratch.old }
    ensures neighbours_value { neighbours.new ≡ mesh_neighbours n elements.now starts.old neighbours.old scratch.old }
    ensures scratch_value { scratch.new ≡ mesh_scratch n elements.now starts.old neighbours.old scratch.old }
{
    if n == 0 {
        return Err(Refusal::NodeCount);
    }
    if 4096 < n {
        return Err(Refusal::NodeCount);
    }
    if starts.len() < n + 1 {
        return Err(Refusal::ShortBuffer);
    }
    if neighbours.len() < 32768 {
        return Err(Refusal::ShortBuffer);
    }
    if scratch.len() < n {
        return Err(Refusal::ShortBuffer);
    }
    mesh_elements::test_elements(n, elements)?;
    legal::adjacency(n, elements, starts, neighbours, scratch)
}
