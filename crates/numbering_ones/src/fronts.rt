// The front. j is in the front at i exactly for f_j ≤ i ≤ j, so it is enough to count the j with f_j = i, for each i: the front at i is
// what is counted up to i, less the i − 1 numbers that are passed.
ghost use Rattle.std.specs.Prelude.{◌≡◌, map, ◌-◌, length, take, replicate};
ghost use Rattle.basis.specs.Lists.{greatest, sum, up_from};
ghost use Rattle.numbering_ones.specs.Fronts.{Sweeps};

// The greatest of what is opened up to i and not passed before i. The words end as 0.
pub(crate) fn sweep(counts: &mut [u16]) -> usize
    requires { Sweeps counts.old }
    ensures value { result ≡ greatest (map (λ i. sum (take i counts.old) - (i - 1)) (up_from 1 (length counts.old))) }
    ensures counts_value { counts.new ≡ replicate (length counts.old) 0 }
{
    let mut live = 0;
    let mut most = 0;
    for (i, count) in counts.iter_mut().enumerate() {
        live += usize::from(*count);
        most = most.max(live - i);
        *count = 0;
    }
    most
}
