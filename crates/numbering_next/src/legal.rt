// One part of a whole legal graph, in either order: it gets the next free numbers. Which order it is, one function looks at: `number_one`.
ghost use Rattle.std.specs.Prelude.{◌≡◌, false, ◌+◌, ◌*◌, ◌≤◌, ◌<◌, length, set};
ghost use Rattle.spec.specs.Graph.{graph_refusal};
ghost use Rattle.spec.specs.Levels.{parts};
ghost use Rattle.spec.specs.Unknowns.{bad_counts};
ghost use Rattle.laws.specs.Handed.{graph_now, graph_was, size_now, size_was};
ghost use Rattle.levels_laws.specs.Areas.{words_of, tally_of};
ghost use Rattle.levels.specs.Part.{PartGiven};
ghost use Rattle.numbering_part.specs.Part.{lowest_in, new_numbers, new_levels, part_figures_of};
ghost use Rattle.numbering_next.specs.Orders.{result_of};
ghost use Rattle.numbering_next.specs.Ran.{added, Ran};

use crate::order::Order;
use crate::shape::Tally;
use graph_words::areas::MEMBERS;
use numbering_cuthill::legal::cuthill_part;
use numbering_part::legal::{number_lone, number_part};
use numbering_part::shape::PartFigures;

// What is summed up with one part more, of m nodes, whose passes stand in the word after those of the parts before.
fn add_part(t: Tally, m: u16, f: PartFigures, passes: &mut [u16]) -> Tally
    requires parts_in_bounds { (t.parts < length passes.old) × (length passes.old ≤ 4096) × (t.nodes + m ≤ 4096) }
    requires k_bound { t.levels + f.k ≤ 4096 * 4096 }
    ensures value { result ≡ added t m f }
    ensures passes_value { passes.new ≡ set passes.old t.parts f.passes }
{
    passes[usize::from(t.parts)] = f.passes;
    Tally {
        parts: t.parts + 1,
        nodes: t.nodes + m,
        levels: t.levels + u32::from(f.k),
        width: t.width.max(f.width),
    }
}

// One part in this order: its members stand from..to, and get the numbers after `from`. The scratch is as before.
fn number_one(
    order: Order,
    starts: &[u16],
    neighbours: &[u16],
    counts: &[u16],
    scratch: &mut [u16],
    numbers: &mut [u16],
    levels: &mut [u16],
    from: usize,
    to: usize,
) -> PartFigures
    requires neighbours_value { graph_refusal starts.now neighbours.now ≡ 0 }
    requires counts_value { bad_counts (size_now starts) counts.now ≡ false }
    requires part_given { PartGiven (graph_now starts neighbours) from to (words_of (size_now starts) scratch.old) (tally_of (size_now starts) scratch.old) }
    requires numbers_len { (length numbers.old ≡ size_now starts) × (length levels.old ≡ size_now starts) }
    ensures value { result ≡ part_figures_of (result_of order (graph_was starts neighbours) counts.now (lowest_in (size_was starts) from scratch.old)).report }
    ensures scratch_value { scratch.new ≡ scratch.old }
    ensures numbers_value { numbers.new ≡ new_numbers (graph_was starts neighbours) (lowest_in (size_was starts) from scratch.old)
        (result_of order (graph_was starts neighbours) counts.now (lowest_in (size_was starts) from scratch.old)) from numbers.old }
    ensures levels_value { levels.new ≡ new_levels (graph_was starts neighbours) (lowest_in (size_was starts) from scratch.old)
        (result_of order (graph_was starts neighbours) counts.now (lowest_in (size_was starts) from scratch.old)) levels.old }
{
    match order {
        Order::GibbsPooleStockmeyer => number_part(
            starts, neighbours, counts, scratch, numbers, levels, from, to,
        ),
        Order::ReverseCuthillMcKee => cuthill_part(
            starts, neighbours, counts, scratch, numbers, levels, from, to,
        ),
    }
}

// "take the next free numbers": one part more, whose size stands where its lowest node gets its number. The scratch is as before.
pub fn next_part(
    order: Order,
    starts: &[u16],
    neighbours: &[u16],
    counts: &[u16],
    numbers: &mut [u16],
    levels: &mut [u16],
    passes: &mut [u16],
    scratch: &mut [u16],
    t: Tally,
) -> Tally
    requires parts_in_bounds { t.parts < length (parts (graph_now starts neighbours)) }
    requires ran { Ran order starts.now neighbours.now counts.now t.parts t.nodes t.levels t.width numbers.old levels.old passes.old scratch.old }
    ensures parts_value { result.parts ≡ t.parts + 1 }
    ensures ran_2 { Ran order starts.now neighbours.now counts.now result.parts result.nodes result.levels result.width numbers.new levels.new passes.new scratch.old }
    ensures scratch_value { scratch.new ≡ scratch.old }
{
    let n = starts.len() - 1;
    let from = usize::from(t.nodes);
    let lowest = usize::from(scratch[MEMBERS * n + from]);
    let m = numbers[lowest - 1];
    // A part of one node: one level, which has all its unknowns, and one pass.
    if m == 1 {
        let width = counts[lowest - 1];
        number_lone(numbers, levels, lowest, from);
        let f = PartFigures {
            k: 1,
            width,
            passes: 1,
        };
        return add_part(t, 1, f, passes);
    }
    let f = number_one(
        order,
        starts,
        neighbours,
        counts,
        scratch,
        numbers,
        levels,
        from,
        from + usize::from(m),
    );
    add_part(t, m, f, passes)
}
