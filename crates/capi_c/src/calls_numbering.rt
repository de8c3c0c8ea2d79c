// The calls of the library of numberings.
ghost use Rattle.std.specs.Prelude.{◌≡◌};
ghost use Rattle.spec.specs.CallsNumbering.{measures_answer, measures_scratch, report_answer, report_scratch, run_answer, run_numbers, run_levels, run_passes, run_scratch};
ghost use Rattle.spec.specs.Graph.{graph_refusal};
ghost use Rattle.capi_figures.specs.Figures.{answer_c, lent_c, figures_c, measures_list, report_list, run_list};

// The measures of a graph under a numbering. Figures: bandwidth, profile, front.
#[unsafe(no_mangle)]
pub extern "C" fn wagonepoch_measures(
    starts: &[u16],
    neighbours: &[u16],
    counts: &[u16],
    numbering: &[u16],
    scratch: &mut [u16],
    figures: &mut [u64],
) -> u16
    ensures value { result ≡ answer_c 3 figures.old (graph_refusal starts.now neighbours.now) (measures_answer starts.now neighbours.now counts.now numbering.now scratch.old) }
    ensures figures_value { figures.new ≡ figures_c 3 figures.old measures_list (measures_answer starts.now neighbours.now counts.now numbering.now scratch.old) }
    ensures scratch_value { scratch.new ≡ lent_c 3 figures.old scratch.old (measures_scratch starts.now neighbours.now counts.now numbering.now scratch.old) }
{
    capi::calls_numbering::wagonepoch_measures(
        starts, neighbours, counts, numbering, scratch, figures,
    )
}

// The report of a part. Figures: v and u as now named, k, width, passes, direction.
#[unsafe(no_mangle)]
pub extern "C" fn wagonepoch_part_report(
    starts: &[u16],
    neighbours: &[u16],
    counts: &[u16],
    node: u16,
    scratch: &mut [u16],
    figures: &mut [u64],
) -> u16
    ensures value { result ≡ answer_c 6 figures.old (graph_refusal starts.now neighbours.now) (report_answer starts.now neighbours.now counts.now node scratch.old) }
    ensures figures_value { figures.new ≡ figures_c 6 figures.old report_list (report_answer starts.now neighbours.now counts.now node scratch.old) }
    ensures scratch_value { scratch.new ≡ lent_c 6 figures.old scratch.old (report_scratch starts.now neighbours.now counts.now node scratch.old) }
{
    capi::calls_numbering::wagonepoch_part_report(
        starts, neighbours, counts, node, scratch, figures,
    )
}

// The whole run. Figures: nodes, parts, bandwidth, profile, front, levels, width.
#[unsafe(no_mangle)]
pub extern "C" fn wagonepoch_run(
    starts: &[u16],
    neighbours: &[u16],
    counts: &[u16],
    numbers: &mut [u16],
    levels: &mut [u16],
    passes: &mut [u16],
    scratch: &mut [u16],
    figures: &mut [u64],
) -> u16
    ensures value { result ≡ answer_c 7 figures.old (graph_refusal starts.now neighbours.now) (run_answer starts.now neighbours.now counts.now numbers.old levels.old passes.old scratch.old) }
    ensures figures_value { figures.new ≡ figures_c 7 figures.old run_list (run_answer starts.now neighbours.now counts.now numbers.old levels.old passes.old scratch.old) }
    ensures numbers_value { numbers.new ≡ lent_c 7 figures.old numbers.old (run_numbers starts.now neighbours.now counts.now numbers.old levels.old passes.old scratch.old) }
    ensures levels_value { levels.new ≡ lent_c 7 figures.old levels.old (run_levels starts.now neighbours.now counts.now numbers.old levels.old passes.old scratch.old) }
    ensures passes_value { passes.new ≡ lent_c 7 figures.old passes.old (run_passes starts.now neighbours.now counts.now numbers.old levels.old passes.old scratch.old) }
    ensures scratch_value { scratch.new ≡ lent_c 7 figures.old scratch.old (run_scratch starts.now neighbours.now counts.now numbers.old levels.old passes.old scratch.old) }
{
    capi::calls_numbering::wagonepoch_run(
        starts, neighbours, counts, numbers, levels, passes, scratch, figures,
    )
}
