// The elimination, the store map, and a numbering call with the elimination after it, whose contract has demand 3: both are handed the same counts.
#![tactic(auto)]

ghost use Rattle.std.specs.Prelude.{◌≡◌};
ghost use Rattle.spec.specs.CallsCuthill.{cuthill_numbers, cuthill_levels, cuthill_passes, cuthill_scratch, cuthill_eliminate_answer, cuthill_eliminate_bytes};
ghost use Rattle.spec.specs.CallsNumbering.{run_numbers, run_levels, run_passes, run_scratch};
ghost use Rattle.spec.specs.CallsStore.{RunElimination as RunEliminated, handed_on};
ghost use Rattle.spec.specs.CallsStore.{then_eliminate_answer, then_eliminate_bytes, run_eliminate_answer, run_eliminate_bytes};
ghost use Rattle.spec_claims.specs.Claim.{Claimed};
ghost use Rattle.spec_claims.specs.ClaimCuthill.{CuthillClaimed};
ghost use Rattle.spec.specs.Lent.{accepted};
ghost use Rattle.spec.specs.Numbering.{Figures};
ghost use Rattle.numbering.specs.Answer.{meaning as numbered};
ghost use Rattle.store.specs.Answer.{run_meaning, Room, then_scratch};

mod answer;

pub use answer::RunElimination;
use numbering_whole::shape::RunFigures;
use refusals::Refusal;
pub use store_elimination::{Counts, eliminate};
pub use store_map::{MapFigures, store_map};

// By what a numbering call has answered: refused as it is, or the elimination by the n numbers that it left, in the first n scratch words.
fn then_eliminate(
    answer: Result<RunFigures, Refusal>,
    starts: &[u16],
    neighbours: &[u16],
    counts: &[u16],
    numbers: &[u16],
    scratch: &mut [u16],
    bytes: &mut [u8],
) -> Result<RunElimination, Refusal>
    requires { (F : Figures) → numbered answer ≡ accepted F → Room starts.now numbers.now scratch.old }
    ensures result_value { run_meaning result ≡ then_eliminate_answer starts.now neighbours.now counts.now numbers.now scratch.old bytes.old (numbered answer) }
    ensures scratch_value { scratch.new ≡ then_scratch starts.now neighbours.now counts.now numbers.now scratch.old bytes.old (numbered answer) }
    ensures bytes_value { bytes.new ≡ then_eliminate_bytes starts.now neighbours.now counts.now numbers.now scratch.old bytes.old (numbered answer) }
{
    let figures = answer?;
    let n = starts.len() - 1;
    let elimination = eliminate(
        starts,
        neighbours,
        counts,
        &numbers[..n],
        &mut scratch[..n],
        bytes,
    );
    Ok(RunElimination {
        figures,
        elimination,
    })
}

// The entry point: the whole run, then the elimination of the same adjacency and counts by the run's numbers, in the first n scratch words.
pub fn run_eliminate(
    starts: &[u16],
    neighbours: &[u16],
    counts: &[u16],
    numbers: &mut [u16],
    levels: &mut [u16],
    passes: &mut [u16],
    scratch: &mut [u16],
    bytes: &mut [u8],
) -> Result<RunElimination, Refusal>
    ensures result_value { run_meaning result ≡ run_eliminate_answer starts.now neighbours.now counts.now numbers.old levels.old passes.old scratch.old bytes.old }
    ensures numbers_value { numbers.new ≡ run_numbers starts.now neighbours.now counts.now numbers.old levels.old passes.old scratch.old }
    ensures levels_value { levels.new ≡ run_levels starts.now neighbours.now counts.now numbers.old levels.old passes.old scratch.old }
    ensures passes_value { passes.new ≡ run_passes starts.now neighbours.now counts.now numbers.old levels.old passes.old scratch.old }
    ensures scratch_value { scratch.new ≡ run_scratch starts.now neighbours.now counts.now numbers.old levels.old passes.old scratch.old }
    ensures bytes_value { bytes.new ≡ run_eliminate_bytes starts.now neighbours.now counts.now numbers.old levels.old passes.old scratch.old bytes.old }
    ensures claimed { (e : RunEliminated) → run_meaning result ≡ accepted e
        → Claimed starts.now neighbours.now counts.now e.figures numbers.new levels.new
        (handed_on starts.now (run_scratch starts.now neighbours.now counts.now numbers.old levels.old passes.old scratch.old)) bytes.old e.elimination bytes.new }
{
    let ran = numbering::run(starts, neighbours, counts, numbers, levels, passes, scratch);
    then_eliminate(ran, starts, neighbours, counts, numbers, scratch, bytes)
}

// The entry point: reverse Cuthill-McKee, then the elimination of the same adjacency and counts by its numbers, in the first n scratch words.
pub fn cuthill_eliminate(
    starts: &[u16],
    neighbours: &[u16],
    counts: &[u16],
    numbers: &mut [u16],
    levels: &mut [u16],
    passes: &mut [u16],
    scratch: &mut [u16],
    bytes: &mut [u8],
) -> Result<RunElimination, Refusal>
    ensures result_value { run_meaning result ≡ cuthill_eliminate_answer starts.now neighbours.now counts.now numbers.old levels.old passes.old scratch.old bytes.old }
    ensures numbers_value { numbers.new ≡ cuthill_numbers starts.now neighbours.now counts.now numbers.old levels.old passes.old scratch.old }
    ensures levels_value { levels.new ≡ cuthill_levels starts.now neighbours.now counts.now numbers.old levels.old passes.old scratch.old }
    ensures passes_value { passes.new ≡ cuthill_passes starts.now neighbours.now counts.now numbers.old levels.old passes.old scratch.old }
    ensures scratch_value { scratch.new ≡ cuthill_scratch starts.now neighbours.now counts.now numbers.old levels.old passes.old scratch.old }
    ensures bytes_value { bytes.new ≡ cuthill_eliminate_bytes starts.now neighbours.now counts.now numbers.old levels.old passes.old scratch.old bytes.old }
    ensures cuthill_claimed { (e : RunEliminated) → run_meaning result ≡ accepted e
        → CuthillClaimed starts.now neighbours.now counts.now e.figures numbers.new levels.new
        (handed_on starts.now (cuthill_scratch starts.now neighbours.now counts.now numbers.old levels.old passes.old scratch.old)) bytes.old e.elimination bytes.new }
{
    let ordered = numbering::reverse_cuthill_mckee(
        starts, neighbours, counts, numbers, levels, passes, scratch,
    );
    then_eliminate(ordered, starts, neighbours, counts, numbers, scratch, bytes)
}
