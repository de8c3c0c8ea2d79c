// The call of document 02's A.3, with the run's buffers and figures.
ghost use Rattle.std.specs.Prelude.{◌≡◌};
ghost use Rattle.spec.specs.CallsCuthill.{cuthill_answer, cuthill_numbers, cuthill_levels, cuthill_passes, cuthill_scratch};
ghost use Rattle.spec.specs.Graph.{graph_refusal};
ghost use Rattle.capi_figures.specs.Figures.{answer_c, lent_c, figures_c, run_list};

// Reverse Cuthill-McKee. Figures: nodes, parts, bandwidth, profile, front, levels, width.
#[unsafe(no_mangle)]
pub extern "C" fn wagonepoch_reverse_cuthill_mckee(
    starts: &[u16],
    neighbours: &[u16],
    counts: &[u16],
    numbers: &mut [u16],
    levels: &mut [u16],
    passes: &mut [u16],
    scratch: &mut [u16],
    figures: &mut [u64],
) -> u16
    ensures value { result ≡ answer_c 7 figures.old (graph_refusal starts.now neighbours.now) (cuthill_answer starts.now neighbours.now counts.now numbers.old levels.old passes.old scratch.old) }
    ensures figures_value { figures.new ≡ figures_c 7 figures.old run_list (cuthill_answer starts.now neighbours.now counts.now numbers.old levels.old passes.old scratch.old) }
    ensures numbers_value { numbers.new ≡ lent_c 7 figures.old numbers.old (cuthill_numbers starts.now neighbours.now counts.now numbers.old levels.old passes.old scratch.old) }
    ensures levels_value { levels.new ≡ lent_c 7 figures.old levels.old (cuthill_levels starts.now neighbours.now counts.now numbers.old levels.old passes.old scratch.old) }
    ensures passes_value { passes.new ≡ lent_c 7 figures.old passes.old (cuthill_passes starts.now neighbours.now counts.now numbers.old levels.old passes.old scratch.old) }
    ensures scratch_value { scratch.new ≡ lent_c 7 figures.old scratch.old (cuthill_scratch starts.now neighbours.now counts.now numbers.old levels.old passes.old scratch.old) }
{
    capi::calls_cuthill::wagonepoch_reverse_cuthill_mckee(
        starts, neighbours, counts, numbers, levels, passes, scratch, figures,
    )
}
