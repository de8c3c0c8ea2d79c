// Of the scratch's areas (`graph_words::areas`) FIRST and SECOND have the first and the second numbers, QUEUE the nodes, MERGED the levels by
// old number, and TALLY ends in the counts of the levels: level i has the word 6n - i, in the model 4n - i. The callers have seen to the
// room and the ranges.
ghost use Rattle.std.specs.Prelude.{◌≡◌, cond, ◌+◌, ◌*◌, ◌≤◌, ◌<◌, length, map};
ghost use Rattle.basis.specs.Lists.{up_from, greatest};
ghost use Rattle.laws.specs.Scratch.{second_area, areas_end};
ghost use Rattle.levels_laws.specs.Areas.{work_of, held_of};
ghost use Rattle.levels_laws.specs.Tally.{tally, untally};
ghost use Rattle.levels_laws.specs.Model.{slot_at, count_of, slots, peak_of, words_by, levels_by, goes_second, chosen, Readable, Countable, Full, Placeable};

use graph_words::areas::{AREAS, MERGED, SECOND};

// The count word of the p-th node of the queue, by the numbers that start at base.
fn slot(scratch: &[u16], n: usize, base: usize, s: usize, t: usize, p: usize) -> usize
    requires n_in_bounds { areas_end n ≤ length scratch.now }
    requires readable { Readable n base s t (work_of n scratch.now) }
    requires s_le_p { (s ≤ p) × (p < t) }
    ensures { result ≡ 2 * n + slot_at n base (work_of n scratch.now) p }
{
    let z = usize::from(scratch[n + p]);
    let i = usize::from(scratch[base + z - 1]);
    AREAS * n - i
}

// Adds the nodes s..t of the queue to the counts. Returns the greatest count that it writes: counts only grow, so it is the
// greatest of the levels that the nodes touch.
fn raise(scratch: &mut [u16], n: usize, base: usize, s: usize, t: usize) -> usize
    requires n_in_bounds { areas_end n ≤ length scratch.old }
    requires countable { Countable n base s t (work_of n scratch.old) }
    ensures value { result ≡ peak_of n base s t (work_of n scratch.old) }
    ensures scratch_value { work_of n scratch.new ≡ tally (work_of n scratch.old) (slots n base s t (work_of n scratch.old)) }
    ensures scratch_value_2 { held_of n scratch.new ≡ held_of n scratch.old }
{
    let mut top: usize = 0;
    for p in s..t {
        let at = slot(scratch, n, base, s, t, p);
        let c = scratch[at] + 1;
        scratch[at] = c;
        top = top.max(usize::from(c));
    }
    top
}

// Takes the nodes s..t of the queue from the counts, which hold them.
fn lower(scratch: &mut [u16], n: usize, base: usize, s: usize, t: usize)
    requires n_in_bounds { areas_end n ≤ length scratch.old }
    requires full { Full n base s t (work_of n scratch.old) }
    ensures scratch_value { work_of n scratch.new ≡ untally (work_of n scratch.old) (slots n base s t (work_of n scratch.old)) }
    ensures scratch_value_2 { held_of n scratch.new ≡ held_of n scratch.old }
{
    for p in s..t {
        let at = slot(scratch, n, base, s, t, p);
        scratch[at] -= 1;
    }
}

// h, or l: the greatest count among the levels that the piece touches. The counts are as before.
fn peak(scratch: &mut [u16], n: usize, base: usize, s: usize, t: usize) -> usize
    requires n_in_bounds { areas_end n ≤ length scratch.old }
    requires countable { Countable n base s t (work_of n scratch.old) }
    ensures value { result ≡ peak_of n base s t (work_of n scratch.old) }
    ensures scratch_value { work_of n scratch.new ≡ work_of n scratch.old }
    ensures scratch_value_2 { held_of n scratch.new ≡ held_of n scratch.old }
{
    let h = raise(scratch, n, base, s, t);
    lower(scratch, n, base, s, t);
    h
}

// Gives the nodes s..t of the queue their numbers as levels.
fn put(scratch: &mut [u16], n: usize, base: usize, s: usize, t: usize)
    requires readable { Readable n base s t (work_of n scratch.old) }
    requires n_in_bounds { n ≤ length (held_of n scratch.old) }
    ensures scratch_value { work_of n scratch.new ≡ work_of n scratch.old }
    ensures scratch_value_2 { held_of n scratch.new ≡ levels_by n base s t (work_of n scratch.old) (held_of n scratch.old) }
{
    for p in s..t {
        let z = usize::from(scratch[n + p]);
        scratch[MERGED * n + z - 1] = scratch[base + z - 1];
    }
}

// Places the nodes s..t of the queue by the numbers that start at base.
pub fn settle(scratch: &mut [u16], n: usize, base: usize, s: usize, t: usize)
    requires countable { Countable n base s t (work_of n scratch.old) }
    requires n_in_bounds { n ≤ length (held_of n scratch.old) }
    ensures scratch_value { work_of n scratch.new ≡ words_by n base s t (work_of n scratch.old) }
    ensures scratch_value_2 { held_of n scratch.new ≡ levels_by n base s t (work_of n scratch.old) (held_of n scratch.old) }
{
    put(scratch, n, base, s, t);
    raise(scratch, n, base, s, t);
}

// Where the numbers start that a piece goes by: "by first numbers if h < l, by second if l < h. If equal, by first unless u's
// width is less than v's", which narrow says.
fn choose(n: usize, h: usize, l: usize, narrow: bool) -> usize
    requires { n ≤ 4096 }
    ensures { result ≡ cond (goes_second h l narrow) (second_area n) 0 }
{
    if l < h {
        return SECOND * n;
    }
    if h < l {
        return 0;
    }
    if narrow { SECOND * n } else { 0 }
}

// Places the piece s..t of the queue against the counts as they now are.
pub fn place(scratch: &mut [u16], n: usize, s: usize, t: usize, narrow: bool)
    requires { Placeable n s t (work_of n scratch.old) (held_of n scratch.old) }
    ensures scratch_value { work_of n scratch.new ≡ words_by n (chosen n s t narrow (work_of n scratch.old)) s t (work_of n scratch.old) }
    ensures scratch_value_2 { held_of n scratch.new ≡ levels_by n (chosen n s t narrow (work_of n scratch.old)) s t (work_of n scratch.old) (held_of n scratch.old) }
{
    let h = peak(scratch, n, 0, s, t);
    let l = peak(scratch, n, SECOND * n, s, t);
    let base = choose(n, h, l, narrow);
    settle(scratch, n, base, s, t);
}

// The greatest count of the levels 1..k.
pub fn widest(scratch: &[u16], n: usize, k: usize) -> usize
    requires { (n ≤ 4096) × (k ≤ n) × (areas_end n ≤ length scratch.now) }
    ensures { result ≡ greatest (map (count_of n (work_of n scratch.now)) (up_from 1 k)) }
{
    let mut top: usize = 0;
    for i in 1..=k {
        top = top.max(usize::from(scratch[AREAS * n - i]));
    }
    top
}
