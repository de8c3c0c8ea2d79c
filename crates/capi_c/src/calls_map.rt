// The store map as a call.
ghost use Rattle.std.specs.Prelude.{◌≡◌};
ghost use Rattle.spec.specs.CallsMap.{store_map_answer, store_map_scratch, store_map_first, store_map_place};
ghost use Rattle.spec.specs.Graph.{graph_refusal};
ghost use Rattle.capi_figures.specs.Figures.{answer_c, lent_c, figures_c, map_list};

// The store map of a graph under a numbering. Figures: profile, number of unknowns.
#[unsafe(no_mangle)]
pub extern "C" fn wagonepoch_store_map(
    starts: &[u16],
    neighbours: &[u16],
    counts: &[u16],
    numbering: &[u16],
    scratch: &mut [u16],
    first: &mut [u16],
    place: &mut [u32],
    figures: &mut [u64],
) -> u16
    ensures value { result ≡ answer_c 2 figures.old (graph_refusal starts.now neighbours.now) (store_map_answer starts.now neighbours.now counts.now numbering.now scratch.old first.old place.old) }
    ensures figures_value { figures.new ≡ figures_c 2 figures.old map_list (store_map_answer starts.now neighbours.now counts.now numbering.now scratch.old first.old place.old) }
    ensures scratch_value { scratch.new ≡ lent_c 2 figures.old scratch.old (store_map_scratch starts.now neighbours.now counts.now numbering.now scratch.old first.old place.old) }
    ensures first_value { first.new ≡ lent_c 2 figures.old first.old (store_map_first starts.now neighbours.now counts.now numbering.now scratch.old first.old place.old) }
    ensures place_value { place.new ≡ lent_c 2 figures.old place.old (store_map_place starts.now neighbours.now counts.now numbering.now scratch.old first.old place.old) }
{
    capi::calls_map::wagonepoch_store_map(
        starts, neighbours, counts, numbering, scratch, first, place, figures,
    )
}
