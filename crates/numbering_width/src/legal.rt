// Of the scratch's areas (`graph_words::areas`) MEMBERS has the members of the parts and TALLY the levels of one part by old number, with 0
// for all other nodes. Word i - 1 of FIRST, which is 0 before and after, adds up the unknowns of level i. Linear in the part's members and
// levels: nothing here is n.
ghost use Rattle.std.specs.Prelude.{◌≡◌, set};
ghost use Rattle.spec.specs.Graph.{Graph};
ghost use Rattle.spec.specs.Unknowns.{unknown_width};
ghost use Rattle.levels_laws.specs.Areas.{tally_of};
ghost use Rattle.numbering_width.specs.Width.{word_of, with_count, Addable, Weighable};

use graph_words::areas::{MEMBERS, TALLY};
use graph_words::legal::clear;

// Adds the count of node z to the unknowns of its level, and returns the sum.
fn add_count(counts: &[u16], scratch: &mut [u16], n: usize, z: usize) -> u16
    requires { Addable n z counts.now scratch.old }
    ensures value { result ≡ with_count n z counts.now scratch.old }
    ensures scratch_value { scratch.new ≡ set scratch.old (word_of n z scratch.old) (with_count n z counts.now scratch.old) }
{
    let at = usize::from(scratch[TALLY * n + z - 1]) - 1;
    let size = scratch[at] + counts[z - 1];
    scratch[at] = size;
    size
}

// "the greatest number of unknowns in a level", of the levels 1..k of the part whose members stand from..to: sums only grow, so it is the
// greatest that is written. The scratch is as before.
pub fn width_of(
    counts: &[u16],
    scratch: &mut [u16],
    n: usize,
    from: usize,
    to: usize,
    k: u16,
) -> u16
    requires { Weighable n from to k counts.now scratch.old }
    ensures value { (g : Graph) → g.size ≡ n → result ≡ unknown_width g counts.now k (tally_of n scratch.old) }
    ensures scratch_value { scratch.new ≡ scratch.old }
{
    let mut top: u16 = 0;
    for i in from..to {
        let z = usize::from(scratch[MEMBERS * n + i]);
        let size = add_count(counts, scratch, n, z);
        top = top.max(size);
    }
    clear(scratch, usize::from(k));
    top
}
