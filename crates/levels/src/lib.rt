// Document 01's first library: rooted levels, the ends of a part and its combined levels. Each call tests what it is handed, in the order of
// the table: 1 to 4, then 5, then 6.
#![tactic(auto)]

pub mod answer;
pub mod legal;
mod part;
pub mod shape;

ghost use Rattle.std.specs.Prelude.{◌≡◌};
ghost use Rattle.spec.specs.CallsLevels.{rooted_answer, rooted_levels, rooted_sizes, ends_answer, ends_scratch, combined_answer, combined_levels, combined_scratch};
ghost use Rattle.levels.specs.Answers.{rooted_meaning, ends_meaning, combined_meaning};

use answer::CombinedFigures;
use graph::test_adjacency;
use legal::{WORDS_PER_NODE, no_node};
use levels_rooted::legal::rooted;
use levels_rooted::shape::Figures;
use refusals::Refusal;
use shape::PartEnds;

// Rooted levels: depth, width and the count reached; in the n words lent for each, the levels by old number, and the size of each level with
// zeros after the depth.
pub fn rooted_levels(
    starts: &[u16],
    neighbours: &[u16],
    root: u16,
    levels: &mut [u16],
    sizes: &mut [u16],
) -> Result<Figures, Refusal>
    ensures result_value { rooted_meaning result ≡ rooted_answer starts.now neighbours.now root levels.old sizes.old }
    ensures levels_value { levels.new ≡ rooted_levels starts.now neighbours.now root levels.old sizes.old }
    ensures sizes_value { sizes.new ≡ rooted_sizes starts.now neighbours.now root levels.old sizes.old }
{
    test_adjacency(starts, neighbours)?;
    let n = starts.len() - 1;
    if levels.len() < n || sizes.len() < n {
        return Err(Refusal::ShortBuffer);
    }
    if no_node(n, root) {
        return Err(Refusal::NoSuchNode);
    }
    Ok(rooted(starts, neighbours, root, &mut levels[..n], &mut sizes[..n]))
}

// The ends of the part of `node`: v, u, k, both widths and the passes, as the search names v and u.
pub fn ends(
    starts: &[u16],
    neighbours: &[u16],
    node: u16,
    scratch: &mut [u16],
) -> Result<PartEnds, Refusal>
    ensures result_value { ends_meaning result ≡ ends_answer starts.now neighbours.now node scratch.old }
    ensures scratch_value { scratch.new ≡ ends_scratch starts.now neighbours.now node scratch.old }
{
    test_adjacency(starts, neighbours)?;
    let n = starts.len() - 1;
    if scratch.len() < WORDS_PER_NODE * n {
        return Err(Refusal::ShortBuffer);
    }
    if no_node(n, node) {
        return Err(Refusal::NoSuchNode);
    }
    Ok(part::find_ends(starts, neighbours, node, scratch))
}

// The combined levels of the part of `node`: k and the greatest level count; the levels by old number in the n words lent.
pub fn combined_levels(
    starts: &[u16],
    neighbours: &[u16],
    node: u16,
    levels: &mut [u16],
    scratch: &mut [u16],
) -> Result<CombinedFigures, Refusal>
    ensures result_value { combined_meaning result ≡ combined_answer starts.now neighbours.now node levels.old scratch.old }
    ensures levels_value { levels.new ≡ combined_levels starts.now neighbours.now node levels.old scratch.old }
    ensures scratch_value { scratch.new ≡ combined_scratch starts.now neighbours.now node levels.old scratch.old }
{
    test_adjacency(starts, neighbours)?;
    let n = starts.len() - 1;
    if levels.len() < n || scratch.len() < WORDS_PER_NODE * n {
        return Err(Refusal::ShortBuffer);
    }
    if no_node(n, node) {
        return Err(Refusal::NoSuchNode);
    }
    let f = part::find_levels(starts, neighbours, node, &mut levels[..n], scratch);
    Ok(CombinedFigures {
        k: f.k,
        width: f.width,
    })
}
