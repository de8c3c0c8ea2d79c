// A list of pairs of words, old number then new.
ghost use Rattle.std.specs.Prelude.{◌≡◌, ◌||◌, length, replicate};
ghost use Rattle.basis.specs.Lists.{anyb};
ghost use Rattle.spec_import.specs.CallsImport.{old_numbers, given_twice, refuses13};
ghost use Rattle.spec.specs.Graph.{outside};

// Whether an old number is given twice or is none of 1..n. A word for each of n nodes is lent, 0 until the node is met; so at most n pairs are
// passed, however long the list.
fn bad_olds(pairs: &[u16], seen: &mut [u16]) -> bool
    requires { seen.old ≡ replicate (length seen.old) 0 }
    ensures { result ≡ given_twice (old_numbers pairs.now) || anyb (outside (length seen.old)) (old_numbers pairs.now) }
{
    let n = seen.len();
    for i in 0..pairs.len() / 2 {
        let old = usize::from(pairs[2 * i]);
        if old == 0 || old > n || seen[old - 1] != 0 {
            return true;
        }
        seen[old - 1] = 1;
    }
    false
}

// 13: an odd number of words, or an old number given twice or outside 1 to n, of as many nodes as words are lent.
pub(crate) fn bad_pairs(pairs: &[u16], seen: &mut [u16]) -> bool
    requires { seen.old ≡ replicate (length seen.old) 0 }
    ensures { result ≡ refuses13 (length seen.old) pairs.now }
{
    pairs.len() % 2 == 1 || bad_olds(pairs, seen)
}
