// The store map of a numbered graph, in unknowns: of each row its first column and where it starts. Linear in nodes, entries and unknowns.
#![tactic(auto)]

ghost use Rattle.std.specs.Prelude.{◌≡◌, ◌||◌, suc, ◌*◌, ◌≤◌, ltb};
ghost use Rattle.spec.specs.CallsMap.{store_map_answer, store_map_scratch, store_map_first, store_map_place};
ghost use Rattle.store_map.specs.Answer.{meaning};

mod answer;

pub use answer::MapFigures;
use refusals::Refusal;

// 5: whether one of the three lists is short, by their lengths: n, 6n and 6n + 1.
fn any_short(n: usize, scratch: usize, first: usize, place: usize) -> bool
    requires { n ≤ 4096 }
    ensures { result ≡ ltb scratch n || ltb first (6 * n) || ltb place (suc (6 * n)) }
{
    if scratch < n {
        return true;
    }
    if first < 6 * n {
        return true;
    }
    place < 6 * n + 1
}

// The entry point: counts and a numbering by old number, a scratch word for each node, and the two lists.
pub fn store_map(
    starts: &[u16],
    neighbours: &[u16],
    counts: &[u16],
    numbering: &[u16],
    scratch: &mut [u16],
    first: &mut [u16],
    place: &mut [u32],
) -> Result<MapFigures, Refusal>
    ensures result_value { meaning result ≡ store_map_answer starts.now neighbours.now counts.now numbering.now scratch.old first.old place.old }
    ensures scratch_value { scratch.new ≡ store_map_scratch starts.now neighbours.now counts.now numbering.now scratch.old first.old place.old }
    ensures first_value { first.new ≡ store_map_first starts.now neighbours.now counts.now numbering.now scratch.old first.old place.old }
    ensures place_value { place.new ≡ store_map_place starts.now neighbours.now counts.now numbering.now scratch.old first.old place.old }
{
    graph::test_adjacency(starts, neighbours)?;
    let n = starts.len() - 1;
    if any_short(n, scratch.len(), first.len(), place.len()) {
        return Err(Refusal::ShortBuffer);
    }
    let Ok(total) = graph_words::legal::unknowns(counts, n) else {
        return Err(Refusal::Counts);
    };
    if !graph_envelope::legal::numbered(numbering, n, scratch) {
        return Err(Refusal::NoNumbering);
    }
    let profile = store_rows::legal::rows(
        starts,
        neighbours,
        counts,
        numbering,
        &mut scratch[..n],
        &mut first[..total],
        &mut place[..total + 1],
    );
    Ok(MapFigures {
        profile,
        unknowns: total as u32,
    })
}
