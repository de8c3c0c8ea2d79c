// The call of the library of the store.
ghost use Rattle.std.specs.Prelude.{◌≡◌};
ghost use Rattle.spec.specs.CallsStore.{elimination_answer, elimination_scratch, elimination_bytes};
ghost use Rattle.spec.specs.Graph.{graph_refusal};
ghost use Rattle.capi_figures.specs.Figures.{answer_c, lent_c, figures_c, elimination_list};

// The elimination of a graph under a numbering. Figures: marks that are 1, newly joined pairs.
#[unsafe(no_mangle)]
pub extern "C" fn wagonepoch_eliminate(
    starts: &[u16],
    neighbours: &[u16],
    counts: &[u16],
    numbering: &[u16],
    scratch: &mut [u16],
    bytes: &mut [u8],
    figures: &mut [u64],
) -> u16
    ensures value { result ≡ answer_c 2 figures.old (graph_refusal starts.now neighbours.now) (elimination_answer starts.now neighbours.now counts.now numbering.now scratch.old bytes.old) }
    ensures figures_value { figures.new ≡ figures_c 2 figures.old elimination_list (elimination_answer starts.now neighbours.now counts.now numbering.now scratch.old bytes.old) }
    ensures scratch_value { scratch.new ≡ lent_c 2 figures.old scratch.old (elimination_scratch starts.now neighbours.now counts.now numbering.now scratch.old bytes.old) }
    ensures bytes_value { bytes.new ≡ lent_c 2 figures.old bytes.old (elimination_bytes starts.now neighbours.now counts.now numbering.now scratch.old bytes.old) }
{
    capi::calls_store::wagonepoch_eliminate(
        starts, neighbours, counts, numbering, scratch, bytes, figures,
    )
}
