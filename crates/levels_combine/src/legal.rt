// The combined levels of one part, for callers that have found the adjacency legal, the ends of the part and the levels rooted at both.
// The scratch has the areas of `graph_words::areas`. In TALLY the starts of the pieces and the counts of the levels do not meet: the starts
// and their sort have a word for each loose node, and each level has a settled one. The end search uses the four areas in front of MEMBERS,
// and TALLY, 0 until then, has the levels in the end.
ghost use Rattle.std.specs.Prelude.{◌≡◌, ◌+◌, ◌-◌, ◌≤◌, length, replicate, ltb};
ghost use Rattle.std.proofs.lemmas.List.Edits.{sets};
ghost use Rattle.basis.specs.Lists.{filterb};
ghost use Rattle.basis.specs.Stored.{stored, nought};
ghost use Rattle.spec.specs.Combined.{combined, width_of};
ghost use Rattle.spec.specs.Graph.{graph_refusal};
ghost use Rattle.spec.specs.Lent.{zeroed};
ghost use Rattle.laws.specs.Handed.{graph_now, size_now, graph_was, size_was};
ghost use Rattle.laws.specs.Scratch.{second_area, members_area, tally_area, areas_end};
ghost use Rattle.levels_laws.specs.Areas.{words_of, tally_of, swapped, work_of, held_of};
ghost use Rattle.levels_laws.specs.Model.{number_at};
ghost use Rattle.levels_laws.specs.Starts.{starts_of, members_of};
ghost use Rattle.levels_laws.specs.Placed.{words_after, levels_after, PlaceableAll};
ghost use Rattle.levels_laws.specs.Given.{Given};
ghost use Rattle.levels_laws.specs.Members.{Members, Mirrorable, Clearable, Movable, settled_at, mirrored_at};
ghost use Rattle.levels_laws.specs.Slices.{ends_in, work_ends, EntryIn, LevelledIn, with_levels};

use graph_words::areas::{AREAS, MEMBERS, MERGED, SECOND, TALLY};
use levels_pieces::legal::{find, size_at};
use levels_place::legal::{place, settle, widest};

// Counts the second numbers of the members from the other end: k + 1 - b.
fn mirror(scratch: &mut [u16], n: usize, from: usize, to: usize, k: u16)
    requires { Mirrorable n from to k scratch.old }
    ensures { scratch.new ≡ stored (second_area n) (mirrored_at n k scratch.old) scratch.old (members_of n from to scratch.old) }
{
    for i in from..to {
        let at = SECOND * n + usize::from(scratch[MEMBERS * n + i]) - 1;
        scratch[at] = k + 1 - scratch[at];
    }
}

// Puts the settled members into the queue. Returns how many there are.
fn gather(scratch: &mut [u16], n: usize, from: usize, to: usize) -> usize
    requires { Members n from to scratch.old }
    ensures value { result ≡ length (filterb (settled_at n scratch.old) (members_of n from to scratch.old)) }
    ensures scratch_value { scratch.new ≡ sets scratch.old n (filterb (settled_at n scratch.old) (members_of n from to scratch.old)) }
{
    let mut t = 0;
    for i in from..to {
        let z = scratch[MEMBERS * n + i];
        let at = usize::from(z);
        if scratch[at - 1] == scratch[SECOND * n + at - 1] {
            scratch[n + t] = z;
            t += 1;
        }
    }
    t
}

// Places the m pieces in the order of their starts, each against the counts as they then are.
fn place_all(scratch: &mut [u16], n: usize, m: usize, narrow: bool)
    requires n_bound { (n ≤ 4096) × (m ≤ n) × (areas_end n ≤ length scratch.old) }
    requires placeable_all { PlaceableAll n (n - m) narrow (starts_of n m (work_of n scratch.old)) (work_of n scratch.old) (held_of n scratch.old) }
    ensures scratch_value { work_of n scratch.new ≡ words_after n narrow (starts_of n m (work_of n scratch.old)) (work_of n scratch.old) (held_of n scratch.old) }
    ensures scratch_value_2 { held_of n scratch.new ≡ levels_after n narrow (starts_of n m (work_of n scratch.old)) (work_of n scratch.old) (held_of n scratch.old) }
{
    for i in 0..m {
        let s = usize::from(scratch[TALLY * n + i]);
        let t = s + size_at(scratch, n, s);
        place(scratch, n, s, t, narrow);
    }
}

// Sets the words of the members from base on to 0.
fn erase(scratch: &mut [u16], n: usize, base: usize, from: usize, to: usize)
    requires members { Members n from to scratch.old }
    requires n_bound { base + n ≤ members_area n }
    ensures { scratch.new ≡ stored base nought scratch.old (members_of n from to scratch.old) }
{
    graph_words::legal::erase(scratch, base, MEMBERS * n + from, to - from);
}

// Gives the members of a part their combined levels, and leaves their counts.
fn level(
    starts: &[u16],
    neighbours: &[u16],
    scratch: &mut [u16],
    from: usize,
    to: usize,
    k: u16,
    narrow: bool,
)
    requires neighbours_value { graph_refusal starts.now neighbours.now ≡ 0 }
    requires entry_in { EntryIn (graph_now starts neighbours) from to scratch.old }
    requires k_value { k ≡ (work_ends (graph_now starts neighbours) from scratch.old).k }
    requires narrow_value { narrow ≡ ltb (work_ends (graph_now starts neighbours) from scratch.old).u_width (work_ends (graph_now starts neighbours) from scratch.old).v_width }
    ensures { LevelledIn (graph_was starts neighbours) from to scratch.old scratch.new }
{
    let n = starts.len() - 1;
    mirror(scratch, n, from, to, k);
    let t = gather(scratch, n, from, to);
    settle(scratch, n, 0, 0, t);
    let m = find(starts, neighbours, scratch, from, to);
    place_all(scratch, n, m, narrow);
}

// Sets count words from a on to 0.
fn blank(scratch: &mut [u16], a: usize, count: usize)
    requires { a + count ≤ length scratch.old }
    ensures { scratch.new ≡ sets scratch.old a (replicate count 0) }
{
    scratch[a..a + count].fill(0);
}

// Sets the words of a part to 0 but for its levels, in the time of the part.
fn tidy(scratch: &mut [u16], n: usize, from: usize, to: usize, k: usize)
    requires n_in_bounds { areas_end n ≤ length scratch.old }
    requires clearable { Clearable n from to k (work_of n scratch.old) }
    ensures scratch_value { work_of n scratch.new ≡ zeroed (members_area n) (work_of n scratch.old) }
    ensures scratch_value_2 { held_of n scratch.new ≡ held_of n scratch.old }
{
    erase(scratch, n, 0, from, to);
    erase(scratch, n, SECOND * n, from, to);
    blank(scratch, n, to - from);
    blank(scratch, TALLY * n, to - from);
    blank(scratch, AREAS * n - k, k);
}

// Copies the members' words, of those from base on, to TALLY.
pub fn copy_levels(scratch: &mut [u16], n: usize, base: usize, from: usize, to: usize)
    requires n_in_bounds { areas_end n ≤ length scratch.old }
    requires n_bound { base + n ≤ members_area n }
    requires members { Members n from to scratch.old }
    ensures { scratch.new ≡ stored (tally_area n) (number_at base scratch.old) scratch.old (members_of n from to scratch.old) }
{
    for i in from..to {
        let z = usize::from(scratch[MEMBERS * n + i]);
        scratch[TALLY * n + z - 1] = scratch[base + z - 1];
    }
}

// Moves the levels of a part from MERGED to TALLY, which is 0.
fn move_levels(scratch: &mut [u16], n: usize, from: usize, to: usize)
    requires { Movable n from to scratch.old }
    ensures { scratch.new ≡ swapped n scratch.old }
{
    copy_levels(scratch, n, MERGED * n, from, to);
    erase(scratch, n, MERGED * n, from, to);
}

// The combined levels of the part whose members stand from..to: in TALLY, n words by old number, and the greatest level count. The four
// areas in front of MEMBERS are 0 afterwards. Meanwhile the levels stand in MERGED, where the queue of the search from u was, which is cleared
// for them.
pub fn combine(
    starts: &[u16],
    neighbours: &[u16],
    scratch: &mut [u16],
    from: usize,
    to: usize,
    k: u16,
    width_v: u16,
    width_u: u16,
) -> u16
    requires neighbours_value { graph_refusal starts.now neighbours.now ≡ 0 }
    requires given { Given (graph_now starts neighbours) from to k width_v width_u (words_of (size_now starts) scratch.old) (tally_of (size_now starts) scratch.old) }
    ensures value { result ≡ width_of k (combined (graph_was starts neighbours) (ends_in (graph_was starts neighbours) from scratch.old)) }
    ensures scratch_value { scratch.new ≡ with_levels (graph_was starts neighbours) from scratch.old (zeroed (members_area (size_was starts)) (words_of (size_was starts) scratch.old)) }
{
    let n = starts.len() - 1;
    blank(scratch, MERGED * n, to - from);
    level(
        starts,
        neighbours,
        &mut scratch[..AREAS * n],
        from,
        to,
        k,
        width_u < width_v,
    );
    let w = widest(scratch, n, usize::from(k));
    tidy(scratch, n, from, to, usize::from(k));
    move_levels(scratch, n, from, to);
    w as u16
}
