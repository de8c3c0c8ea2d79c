// The adjacency test and the calls of `levels`.
ghost use Rattle.std.specs.Prelude.{◌≡◌};
ghost use Rattle.spec.specs.CallsLevels.{adjacency_answer, rooted_answer, rooted_levels, rooted_sizes, ends_answer, ends_scratch, combined_answer, combined_levels, combined_scratch};
ghost use Rattle.spec.specs.Graph.{graph_refusal};
ghost use Rattle.capi_figures.specs.Figures.{number, answer_c, lent_c, figures_c, rooted_list, ends_list, combined_list};

// Whether the two lists are a legal graph. No figures.
#[unsafe(no_mangle)]
pub extern "C" fn wagonepoch_test_adjacency(starts: &[u16], neighbours: &[u16]) -> u16
    ensures { result ≡ number (adjacency_answer starts.now neighbours.now) }
{
    capi::calls_levels::wagonepoch_test_adjacency(starts, neighbours)
}

// Rooted levels and their sizes. Figures: depth, width, count reached.
#[unsafe(no_mangle)]
pub extern "C" fn wagonepoch_rooted_levels(
    starts: &[u16],
    neighbours: &[u16],
    root: u16,
    levels: &mut [u16],
    sizes: &mut [u16],
    figures: &mut [u64],
) -> u16
    ensures value { result ≡ answer_c 3 figures.old (graph_refusal starts.now neighbours.now) (rooted_answer starts.now neighbours.now root levels.old sizes.old) }
    ensures figures_value { figures.new ≡ figures_c 3 figures.old rooted_list (rooted_answer starts.now neighbours.now root levels.old sizes.old) }
    ensures levels_value { levels.new ≡ lent_c 3 figures.old levels.old (rooted_levels starts.now neighbours.now root levels.old sizes.old) }
    ensures sizes_value { sizes.new ≡ lent_c 3 figures.old sizes.old (rooted_sizes starts.now neighbours.now root levels.old sizes.old) }
{
    capi::calls_levels::wagonepoch_rooted_levels(starts, neighbours, root, levels, sizes, figures)
}

// The ends of a part. Figures: v, u, k, the width at v, the width at u, passes.
#[unsafe(no_mangle)]
pub extern "C" fn wagonepoch_ends(
    starts: &[u16],
    neighbours: &[u16],
    node: u16,
    scratch: &mut [u16],
    figures: &mut [u64],
) -> u16
    ensures value { result ≡ answer_c 6 figures.old (graph_refusal starts.now neighbours.now) (ends_answer starts.now neighbours.now node scratch.old) }
    ensures figures_value { figures.new ≡ figures_c 6 figures.old ends_list (ends_answer starts.now neighbours.now node scratch.old) }
    ensures scratch_value { scratch.new ≡ lent_c 6 figures.old scratch.old (ends_scratch starts.now neighbours.now node scratch.old) }
{
    capi::calls_levels::wagonepoch_ends(starts, neighbours, node, scratch, figures)
}

// The combined levels of a part. Figures: k, the greatest level count.
#[unsafe(no_mangle)]
pub extern "C" fn wagonepoch_combined_levels(
    starts: &[u16],
    neighbours: &[u16],
    node: u16,
    levels: &mut [u16],
    scratch: &mut [u16],
    figures: &mut [u64],
) -> u16
    ensures value { result ≡ answer_c 2 figures.old (graph_refusal starts.now neighbours.now) (combined_answer starts.now neighbours.now node levels.old scratch.old) }
    ensures figures_value { figures.new ≡ figures_c 2 figures.old combined_list (combined_answer starts.now neighbours.now node levels.old scratch.old) }
    ensures levels_value { levels.new ≡ lent_c 2 figures.old levels.old (combined_levels starts.now neighbours.now node levels.old scratch.old) }
    ensures scratch_value { scratch.new ≡ lent_c 2 figures.old scratch.old (combined_scratch starts.now neighbours.now node levels.old scratch.old) }
{
    capi::calls_levels::wagonepoch_combined_levels(
        starts, neighbours, node, levels, scratch, figures,
    )
}
