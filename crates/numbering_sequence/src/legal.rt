// The order of one part of a legal graph in lent words, where the crates below leave its combined levels and its nodes. Linear in the part's
// nodes and entries: nothing here is n.
ghost use Rattle.std.specs.Prelude.{◌≡◌, false, List, map, ℕ, ◌+◌, ◌≤◌, ltb};
ghost use Rattle.std.proofs.lemmas.List.Edits.{sets};
ghost use Rattle.std.proofs.Math.Seq.{slice};
ghost use Rattle.spec.specs.Graph.{graph_of, graph_refusal, degree};
ghost use Rattle.spec.specs.Combined.{mirrored};
ghost use Rattle.spec.specs.Numbering.{turns};
ghost use Rattle.spec.specs.Unknowns.{bad_counts};
ghost use Rattle.laws.specs.Handed.{graph_now, graph_was, size_now, size_was};
ghost use Rattle.laws.specs.Legal.{Starts};
ghost use Rattle.numbering_sequence.specs.Answer.{forward_by, sequence_of, ends_in, result_in, with_result, Sequenceable, Named, Mirrorable};

use crate::shape::Sequence;
use graph::legal::degree;

// "If u has lower degree than v, v and u change names": whether they do.
fn renames(starts: &[u16], v: u16, u: u16) -> bool
    requires by_index { (neighbours : List ℕ) × Starts starts.now neighbours }
    requires le_v { (1 ≤ v) × (v ≤ size_now starts) × (1 ≤ u) × (u ≤ size_now starts) }
    ensures { (neighbours : List ℕ) → Starts starts.now neighbours → result ≡ ltb (degree (graph_of starts.now neighbours) u) (degree (graph_of starts.now neighbours) v) }
{
    let a = degree(starts, usize::from(u));
    let b = degree(starts, usize::from(v));
    a < b
}

// "level i becomes k + 1 − i", for the part's nodes; all other nodes have no level.
fn mirror(work: &mut [u16], n: usize, at: usize, from: usize, m: usize, k: u16)
    requires { Mirrorable n at from m k work.old }
    ensures { work.new ≡ sets work.old at (map (mirrored k) (slice at (at + n) work.old)) }
{
    for j in 0..m {
        let p = at + (usize::from(work[from + j]) - 1);
        let level = work[p];
        work[p] = k + 1 - level;
    }
}

// The part's order from v as now named, turned end for end if that makes its profile in unknowns less: whether it is.
fn arrange(
    starts: &[u16],
    neighbours: &[u16],
    counts: &[u16],
    work: &mut [u16],
    at: usize,
    from: usize,
    m: usize,
    k: u16,
    v: u16,
) -> bool
    requires neighbours_value { graph_refusal starts.now neighbours.now ≡ 0 }
    requires counts_value { bad_counts (size_now starts) counts.now ≡ false }
    requires named { Named (graph_now starts neighbours) at from m k v work.old }
    ensures value { result ≡ turns (graph_was starts neighbours) counts.now (forward_by (graph_was starts neighbours) (ends_in (graph_was starts neighbours) from work.old)) }
    ensures work_value { work.new ≡ sets work.old (size_was starts) (result_in (graph_was starts neighbours) counts.now from work.old).order }
{
    let n = starts.len() - 1;
    numbering_order::legal::forward(starts, neighbours, work, at, from, m, k, v);
    numbering_reverse::legal::turn(starts, neighbours, counts, work, n, m)
}

// The order of a part with k levels and the ends v and u: its m nodes stand in rising order from `from` on, its combined levels by old
// number in the n words from `at` on, with 0 for other nodes. The order goes behind the first n words; the levels are then those counted
// from v as now named.
pub fn sequence(
    starts: &[u16],
    neighbours: &[u16],
    counts: &[u16],
    work: &mut [u16],
    at: usize,
    from: usize,
    m: usize,
    k: u16,
    v: u16,
    u: u16,
) -> Sequence
    requires neighbours_value { graph_refusal starts.now neighbours.now ≡ 0 }
    requires counts_value { bad_counts (size_now starts) counts.now ≡ false }
    requires sequenceable { Sequenceable (graph_now starts neighbours) at from m k v u work.old }
    ensures value { result ≡ sequence_of (graph_was starts neighbours) counts.now (ends_in (graph_was starts neighbours) from work.old) }
    ensures work_value { work.new ≡ with_result (size_was starts) at (result_in (graph_was starts neighbours) counts.now from work.old) work.old }
{
    if renames(starts, v, u) {
        let n = starts.len() - 1;
        mirror(work, n, at, from, m, k);
        let turned = arrange(starts, neighbours, counts, work, at, from, m, k, u);
        return Sequence { v: u, u: v, turned };
    }
    let turned = arrange(starts, neighbours, counts, work, at, from, m, k, v);
    Sequence { v, u, turned }
}
