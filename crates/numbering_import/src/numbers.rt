// The full numbering of n nodes that a list of pairs gives.
ghost use Rattle.std.specs.Prelude.{◌≡◌, false, ◌≤◌, length};
ghost use Rattle.basis.specs.Lists.{up_from};
ghost use Rattle.spec_import.specs.CallsImport.{refuses13, supplied};

// Every node has its own number.
fn own_numbers(numbers: &mut [u16])
    requires { length numbers.old ≤ 4096 }
    ensures { numbers.new ≡ up_from 1 (length numbers.old) }
{
    for (i, number) in numbers.iter_mut().enumerate() {
        *number = (i + 1) as u16;
    }
}

// The listed nodes get theirs.
fn put_pairs(pairs: &[u16], numbers: &mut [u16])
    requires pairs_value { refuses13 (length numbers.old) pairs.now ≡ false }
    requires numbers_value { numbers.old ≡ up_from 1 (length numbers.old) }
    ensures { numbers.new ≡ supplied (length numbers.old) pairs.now }
{
    for i in 0..pairs.len() / 2 {
        let old = usize::from(pairs[2 * i]);
        numbers[old - 1] = pairs[2 * i + 1];
    }
}

// The number of each node, whatever the words held.
pub(crate) fn supply(pairs: &[u16], numbers: &mut [u16])
    requires numbers_len_bound { length numbers.old ≤ 4096 }
    requires pairs_value { refuses13 (length numbers.old) pairs.now ≡ false }
    ensures { numbers.new ≡ supplied (length numbers.old) pairs.now }
{
    own_numbers(numbers);
    put_pairs(pairs, numbers);
}
