// Document 01's second library: the whole run; and A.3's call beside it. Both take the counts of unknowns, by old number, and test what they are
// handed in the order of the table: 1 to 4, then 5, then 15.
#![tactic(auto)]

ghost use Rattle.std.specs.Prelude.{◌≡◌, ◌||◌, ◌*◌, ◌≤◌, ltb, take};
ghost use Rattle.spec.specs.CallsCuthill.{cuthill_answer, cuthill_numbers, cuthill_levels, cuthill_passes, cuthill_scratch};
ghost use Rattle.spec_claims.specs.Claim.{Numbered};
ghost use Rattle.spec_claims.specs.ClaimCuthill.{CuthillNumbered};
ghost use Rattle.spec.specs.CallsNumbering.{run_answer, run_numbers, run_levels, run_passes, run_scratch};
ghost use Rattle.spec.specs.Graph.{size_of};
ghost use Rattle.spec.specs.Lent.{accepted, words_per_node};
ghost use Rattle.spec.specs.Numbering.{Figures};
ghost use Rattle.numbering.specs.Answer.{meaning};
ghost use Rattle.numbering.specs.Calls.{answer_in, numbers_in, levels_in, passes_in, NumberedIn};

use graph::test_adjacency;
use graph_words::legal::unknowns;
use numbering_next::order::Order;
use numbering_whole::legal::number_all;
use numbering_whole::shape::RunFigures;
use refusals::Refusal;

// 5: numbers, levels, passes or scratch are short.
fn any_short(n: usize, numbers: usize, levels: usize, passes: usize, scratch: usize) -> bool
    requires { n ≤ 4096 }
    ensures { result ≡ ltb numbers n || ltb levels n || ltb passes n || ltb scratch (words_per_node * n) }
{
    if numbers < n {
        return true;
    }
    if levels < n {
        return true;
    }
    if passes < n {
        return true;
    }
    scratch < levels::legal::WORDS_PER_NODE * n
}

// Numbers in this order: new numbers and levels by old number and the passes of each part in the first n words of the three lists lent, and the
// seven figures.
fn number(
    order: Order,
    starts: &[u16],
    neighbours: &[u16],
    counts: &[u16],
    numbers: &mut [u16],
    levels: &mut [u16],
    passes: &mut [u16],
    scratch: &mut [u16],
) -> Result<RunFigures, Refusal>
    ensures result_value { meaning result ≡ answer_in order starts.now neighbours.now counts.now numbers.old levels.old passes.old scratch.old }
    ensures numbers_value { numbers.new ≡ numbers_in order starts.now neighbours.now counts.now numbers.old levels.old passes.old scratch.old }
    ensures levels_value { levels.new ≡ levels_in order starts.now neighbours.now counts.now numbers.old levels.old passes.old scratch.old }
    ensures passes_value { passes.new ≡ passes_in order starts.now neighbours.now counts.now numbers.old levels.old passes.old scratch.old }
    ensures scratch_value { scratch.new ≡ run_scratch starts.now neighbours.now counts.now numbers.old levels.old passes.old scratch.old }
    ensures numbered_in { (F : Figures) → meaning result ≡ accepted F → NumberedIn order starts.now neighbours.now counts.now F (take (size_of starts.now) numbers.new) (take (size_of starts.now) levels.new) }
{
    test_adjacency(starts, neighbours)?;
    let n = starts.len() - 1;
    if any_short(n, numbers.len(), levels.len(), passes.len(), scratch.len()) {
        return Err(Refusal::ShortBuffer);
    }
    let Ok(total) = unknowns(counts, n) else {
        return Err(Refusal::Counts);
    };
    Ok(number_all(
        order,
        starts,
        neighbours,
        counts,
        &mut numbers[..n],
        &mut levels[..n],
        &mut passes[..n],
        scratch,
        total,
    ))
}

// The whole run: the numbering of Gibbs, Poole and Stockmeyer.
pub fn run(
    starts: &[u16],
    neighbours: &[u16],
    counts: &[u16],
    numbers: &mut [u16],
    levels: &mut [u16],
    passes: &mut [u16],
    scratch: &mut [u16],
) -> Result<RunFigures, Refusal>
    ensures result_value { meaning result ≡ run_answer starts.now neighbours.now counts.now numbers.old levels.old passes.old scratch.old }
    ensures numbers_value { numbers.new ≡ run_numbers starts.now neighbours.now counts.now numbers.old levels.old passes.old scratch.old }
    ensures levels_value { levels.new ≡ run_levels starts.now neighbours.now counts.now numbers.old levels.old passes.old scratch.old }
    ensures passes_value { passes.new ≡ run_passes starts.now neighbours.now counts.now numbers.old levels.old passes.old scratch.old }
    ensures scratch_value { scratch.new ≡ run_scratch starts.now neighbours.now counts.now numbers.old levels.old passes.old scratch.old }
    ensures numbered { (F : Figures) → meaning result ≡ accepted F → Numbered starts.now neighbours.now counts.now F (take (size_of starts.now) numbers.new) (take (size_of starts.now) levels.new) }
{
    number(
        Order::GibbsPooleStockmeyer,
        starts,
        neighbours,
        counts,
        numbers,
        levels,
        passes,
        scratch,
    )
}

// "a further call with the run's buffers and figures": the reverse order of Cuthill and McKee.
pub fn reverse_cuthill_mckee(
    starts: &[u16],
    neighbours: &[u16],
    counts: &[u16],
    numbers: &mut [u16],
    levels: &mut [u16],
    passes: &mut [u16],
    scratch: &mut [u16],
) -> Result<RunFigures, Refusal>
    ensures result_value { meaning result ≡ cuthill_answer starts.now neighbours.now counts.now numbers.old levels.old passes.old scratch.old }
    ensures numbers_value { numbers.new ≡ cuthill_numbers starts.now neighbours.now counts.now numbers.old levels.old passes.old scratch.old }
    ensures levels_value { levels.new ≡ cuthill_levels starts.now neighbours.now counts.now numbers.old levels.old passes.old scratch.old }
    ensures passes_value { passes.new ≡ cuthill_passes starts.now neighbours.now counts.now numbers.old levels.old passes.old scratch.old }
    ensures scratch_value { scratch.new ≡ cuthill_scratch starts.now neighbours.now counts.now numbers.old levels.old passes.old scratch.old }
    ensures cuthill_numbered { (F : Figures) → meaning result ≡ accepted F → CuthillNumbered starts.now neighbours.now counts.now F (take (size_of starts.now) numbers.new) (take (size_of starts.now) levels.new) }
{
    number(
        Order::ReverseCuthillMcKee,
        starts,
        neighbours,
        counts,
        numbers,
        levels,
        passes,
        scratch,
    )
}
