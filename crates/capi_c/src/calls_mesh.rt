// The mesh call.
ghost use Rattle.std.specs.Prelude.{◌≡◌};
ghost use Rattle.spec.specs.CallsMesh.{mesh_answer, mesh_starts, mesh_neighbours, mesh_scratch};
ghost use Rattle.spec.specs.Graph.{bad_size};
ghost use Rattle.spec.specs.Refusal.{refuse};
ghost use Rattle.capi_figures.specs.Figures.{answer_c, lent_c, figures_c, mesh_list};

// The two lists of the mesh of n nodes. Figures: the entry count.
#[unsafe(no_mangle)]
pub extern "C" fn wagonepoch_mesh(
    n: usize,
    elements: &[u16],
    starts: &mut [u16],
    neighbours: &mut [u16],
    scratch: &mut [u16],
    figures: &mut [u64],
) -> u16
    ensures value { result ≡ answer_c 1 figures.old (refuse (bad_size n) 1) (mesh_answer n elements.now starts.old neighbours.old scratch.old) }
    ensures figures_value { figures.new ≡ figures_c 1 figures.old mesh_list (mesh_answer n elements.now starts.old neighbours.old scratch.old) }
    ensures starts_value { starts.new ≡ lent_c 1 figures.old starts.old (mesh_starts n elements.now starts.old neighbours.old scratch.old) }
    ensures neighbours_value { neighbours.new ≡ lent_c 1 figures.old neighbours.old (mesh_neighbours n elements.now starts.old neighbours.old scratch.old) }
    ensures scratch_value { scratch.new ≡ lent_c 1 figures.old scratch.old (mesh_scratch n elements.now starts.old neighbours.old scratch.old) }
{
    capi::calls_mesh::wagonepoch_mesh(n, elements, starts, neighbours, scratch, figures)
}
