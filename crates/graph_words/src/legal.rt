// Functions that ask for room: their callers have tested the lengths.
ghost use Rattle.std.specs.Prelude.{◌≡◌, cond, ◌≤◌, length, Ok, Err};
ghost use Rattle.basis.specs.Lists.{bit, sum};
ghost use Rattle.basis.specs.Stored.{stored, nought};
ghost use Rattle.spec.specs.Graph.{outside};
ghost use Rattle.spec.specs.Lent.{zeroed};
ghost use Rattle.spec.specs.Unknowns.{bad_counts, max_count};
ghost use Rattle.refusals.specs.declared.Refusal.TheVariants.{Counts};
ghost use Rattle.graph_words.specs.Erasable.{listed, Erasable};

use refusals::Refusal;

// Sets the first n words to 0.
pub fn clear(words: &mut [u16], n: usize)
    requires { n ≤ length words.old }
    ensures { words.new ≡ zeroed n words.old }
{
    words[..n].fill(0);
}

// Sets the word of each of the `count` numbers that stand from `at` on to 0: that of v is word base + v - 1.
pub fn erase(words: &mut [u16], base: usize, at: usize, count: usize)
    requires { Erasable base at count words.old }
    ensures { words.new ≡ stored base nought words.old (listed at count words.old) }
{
    for i in at..at + count {
        let v = usize::from(words[i]);
        words[base + v - 1] = 0;
    }
}

// 1 for a word that is no count, 0 or above 6; else 0.
fn stray(c: u16) -> u32
    ensures { result ≡ bit (outside max_count c) }
{
    u32::from(c == 0 || c > 6)
}

// How many unknowns n nodes have: the sum of their counts; refused where these are none (15), since a list has n words, each of 1 to 6. The
// loop has no way out before its end and strays are counted, so that the processor takes several words at a time.
pub fn unknowns(counts: &[u16], n: usize) -> Result<usize, Refusal>
    requires { n ≤ 4096 }
    ensures { result ≡ cond (bad_counts n counts.now) (Err Counts) (Ok (sum counts.now)) }
{
    if counts.len() != n {
        return Err(Refusal::Counts);
    }
    let mut total: u32 = 0;
    let mut strays: u32 = 0;
    // By index, so that the edit `past_n` plants a wrong end and nothing else.
    for p in 0..n {
        let c = counts[p];
        strays += stray(c);
        total += u32::from(c);
    }
    if strays != 0 {
        return Err(Refusal::Counts);
    }
    Ok(total as usize)
}
