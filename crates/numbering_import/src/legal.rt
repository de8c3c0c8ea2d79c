// A legal graph with legal counts, and buffers of n words each: the tests 13, 7 and 14.
ghost use Rattle.std.specs.Prelude.{◌≡◌, false, not, length, replicate};
ghost use Rattle.basis.specs.Lists.{sum};
ghost use Rattle.spec_import.specs.CallsImport.{supplied, refuses13};
ghost use Rattle.spec.specs.Lent.{outcome, filled, scratch_after};
ghost use Rattle.spec.specs.Unknowns.{bad_counts};
ghost use Rattle.laws.specs.Handed.{size_now, size_was};
ghost use Rattle.graph.specs.Facts.{LegalLists};
ghost use Rattle.numbering_import.specs.Answer.{sent_three, meaning};
ghost use Rattle.refusals.specs.Numbers.{number_in};
ghost use Rattle.numbering_import.specs.Late.{numbering_refusal, pairs_refusal};

use crate::answer::SuppliedFigures;
use crate::figures::same_figures;
use crate::numbers::supply;
use crate::pairs::bad_pairs;
use refusals::Refusal;

// 7, and then 14: the first that refuses. The n words lent end as 0.
fn test_numbering(
    starts: &[u16],
    neighbours: &[u16],
    counts: &[u16],
    numbering: &[u16],
    sent: SuppliedFigures,
    words: &mut [u16],
    total: usize,
) -> Result<(), Refusal>
    requires legal_lists { LegalLists starts.now neighbours.now }
    requires counts_value { bad_counts (size_now starts) counts.now ≡ false }
    requires words_len { length words.old ≡ size_now starts }
    requires total_value { total ≡ sum counts.now }
    ensures value { number_in result ≡ numbering_refusal starts.now neighbours.now counts.now numbering.now (sent_three sent) }
    ensures words_value { words.new ≡ replicate (size_was starts) 0 }
{
    let n = words.len();
    if !graph_envelope::legal::numbered(numbering, n, words) {
        return Err(Refusal::NoNumbering);
    }
    let found = numbering_measures::legal::figures(
        starts, neighbours, counts, numbering, words, total,
    );
    if same_figures(sent, found) {
        Ok(())
    } else {
        Err(Refusal::Figures)
    }
}

// The tests, with the full numbering in n words of `own`, which are 0 at first. It is handed over only where all have passed.
fn import_with(
    starts: &[u16],
    neighbours: &[u16],
    counts: &[u16],
    pairs: &[u16],
    sent: SuppliedFigures,
    numbers: &mut [u16],
    scratch: &mut [u16],
    own: &mut [u16],
    total: usize,
) -> Result<(), Refusal>
    requires legal_lists { LegalLists starts.now neighbours.now }
    requires counts_value { bad_counts (size_now starts) counts.now ≡ false }
    requires numbers_len { length numbers.old ≡ size_now starts }
    requires scratch_len { length scratch.old ≡ size_now starts }
    requires own_value { own.old ≡ replicate (size_now starts) 0 }
    requires total_value { total ≡ sum counts.now }
    ensures result_value { meaning result ≡ outcome (pairs_refusal starts.now neighbours.now counts.now pairs.now (sent_three sent)) tt }
    ensures numbers_value { numbers.new ≡ filled (pairs_refusal starts.now neighbours.now counts.now pairs.now (sent_three sent)) (supplied (size_was starts) pairs.now) numbers.old }
    ensures scratch_value { scratch.new ≡ scratch_after (not (refuses13 (size_was starts) pairs.now)) (size_was starts) scratch.old }
{
    if bad_pairs(pairs, own) {
        return Err(Refusal::Pairs);
    }
    supply(pairs, own);
    test_numbering(starts, neighbours, counts, own, sent, scratch, total)?;
    supply(pairs, numbers);
    Ok(())
}

// The same, with a local array for `own`: the lent numbering is not touched by 7 and 14, the scratch not by 13, and the measures want a
// numbering and n words more.
pub(crate) fn import(
    starts: &[u16],
    neighbours: &[u16],
    counts: &[u16],
    pairs: &[u16],
    sent: SuppliedFigures,
    numbers: &mut [u16],
    scratch: &mut [u16],
    total: usize,
) -> Result<(), Refusal>
    requires legal_lists { LegalLists starts.now neighbours.now }
    requires counts_value { bad_counts (size_now starts) counts.now ≡ false }
    requires numbers_len { length numbers.old ≡ size_now starts }
    requires scratch_len { length scratch.old ≡ size_now starts }
    requires total_value { total ≡ sum counts.now }
    ensures result_value { meaning result ≡ outcome (pairs_refusal starts.now neighbours.now counts.now pairs.now (sent_three sent)) tt }
    ensures numbers_value { numbers.new ≡ filled (pairs_refusal starts.now neighbours.now counts.now pairs.now (sent_three sent)) (supplied (size_was starts) pairs.now) numbers.old }
    ensures scratch_value { scratch.new ≡ scratch_after (not (refuses13 (size_was starts) pairs.now)) (size_was starts) scratch.old }
{
    let n = numbers.len();
    let mut own = [0u16; 4096];
    import_with(
        starts,
        neighbours,
        counts,
        pairs,
        sent,
        numbers,
        scratch,
        &mut own[..n],
        total,
    )
}
