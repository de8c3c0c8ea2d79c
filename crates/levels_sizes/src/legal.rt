// Of the scratch's areas (`graph_words::areas`) TALLY has the sizes of the levels of one search, in order from level 1; it is 0 before and
// after. The levels of the search stand by old number from word `base` on, and its queue behind them: `count` nodes, none deeper than k.
ghost use Rattle.std.specs.Prelude.{◌≡◌, ℕ, ◌≤◌, ◌<◌, length, get_or, replicate};
ghost use Rattle.std.proofs.lemmas.List.Edits.{sets};
ghost use Rattle.basis.specs.Lists.{greatest};
ghost use Rattle.spec.specs.Combined.{width_of};
ghost use Rattle.spec.specs.Graph.{Graph};
ghost use Rattle.spec.specs.Levels.{levels, size_list};
ghost use Rattle.laws.specs.Scratch.{second_area, tally_area, areas_end};
ghost use Rattle.levels_laws.specs.Areas.{tally_of};
ghost use Rattle.levels_sizes.specs.Sizes.{levels_at, level_sizes, Listable, RootedAt};

use crate::shape::Widths;
use graph_words::areas::{SECOND, TALLY};
use graph_words::legal::clear;

// The word at `at`, where the one at `last` is `size`: the nodes of a level follow one another in the queue, so that it is seldom read.
fn size_at(scratch: &[u16], last: usize, size: u16, at: usize) -> u16
    requires at_in_bounds { at < length scratch.now }
    requires size_value { size ≡ get_or scratch.now last 0 }
    ensures { result ≡ get_or scratch.now at 0 }
{
    if at == last {
        return size;
    }
    scratch[at]
}

// The size of each level, n words in order from level 1, zeros after the depth: each node of the queue adds 1 to the word of its level.
// Returns the greatest: sizes only grow, so it is the greatest that is written.
fn list_sizes(scratch: &mut [u16], n: usize, base: usize, count: usize) -> u16
    requires { Listable n base count n scratch.old }
    ensures value { result ≡ greatest (level_sizes n (levels_at n base scratch.old)) }
    ensures scratch_value { scratch.new ≡ sets scratch.old (tally_area n) (level_sizes n (levels_at n base scratch.old)) }
    ensures scratch_value_2 { (g : Graph) (r : ℕ) → RootedAt g r n (levels_at n base scratch.old) → tally_of n scratch.new ≡ size_list g (levels g r) }
{
    let mut last = TALLY * n;
    let mut size = 0;
    let mut top: u16 = 0;
    for i in 0..count {
        let p = usize::from(scratch[base + n + i]);
        let level = usize::from(scratch[base + p - 1]);
        let at = TALLY * n + level - 1;
        size = size_at(scratch, last, size, at) + 1;
        scratch[at] = size;
        top = top.max(size);
        last = at;
    }
    top
}

// Sets the sizes of the levels 1..k to 0.
fn wipe_sizes(scratch: &mut [u16], n: usize, k: usize)
    requires { (n ≤ 4096) × (k ≤ n) × (areas_end n ≤ length scratch.old) }
    ensures { scratch.new ≡ sets scratch.old (tally_area n) (replicate k 0) }
{
    let from = TALLY * n;
    clear(&mut scratch[from..from + k], k);
}

// The width of the levels of one search: the greatest of the list of their sizes, which is then 0 again.
pub fn width_of(scratch: &mut [u16], n: usize, base: usize, count: usize, k: usize) -> u16
    requires { Listable n base count k scratch.old }
    ensures value { result ≡ width_of k (levels_at n base scratch.old) }
    ensures scratch_value { scratch.new ≡ scratch.old }
{
    let top = list_sizes(scratch, n, base, count);
    wipe_sizes(scratch, n, k);
    top
}

// The widths at v and u, whose searches begin at FIRST and SECOND.
pub fn end_widths(scratch: &mut [u16], n: usize, count: u16, k: u16) -> Widths
    requires listable { Listable n 0 count k scratch.old }
    requires listable_2 { Listable n (second_area n) count k scratch.old }
    ensures v_value { result.v ≡ width_of k (levels_at n 0 scratch.old) }
    ensures u_value { result.u ≡ width_of k (levels_at n (second_area n) scratch.old) }
    ensures scratch_value { scratch.new ≡ scratch.old }
{
    let count = usize::from(count);
    let k = usize::from(k);
    let v = width_of(scratch, n, 0, count, k);
    let u = width_of(scratch, n, SECOND * n, count, k);
    Widths { v, u }
}
