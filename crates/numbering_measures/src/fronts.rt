// The front in unknowns. The unknowns of number j are in the front at i exactly for f_j ≤ i ≤ j, so it is enough to add them up by f_j: the
// front at i is what is opened up to i, less the unknowns of the numbers before i, which are passed. A word for each number holds both,
// 6 + opened − passed, and so is never below 0.
ghost use Rattle.std.specs.Prelude.{◌≡◌, map, ◌-◌, ◌*◌, length, take, replicate};
ghost use Rattle.basis.specs.Lists.{greatest, sum, up_from};
ghost use Rattle.numbering_measures.specs.Fronts.{Climbs, Sweeps, steps_of};

// In place of the unknowns ahead of each number: 6 less those of the number before it.
pub(crate) fn steps(words: &mut [u16])
    requires { Climbs words.old }
    ensures { words.new ≡ steps_of words.old }
{
    let mut last = 0;
    for word in words.iter_mut() {
        let here = usize::from(*word);
        *word = (6 + last - here) as u16;
        last = here;
    }
}

// The greatest of what is opened up to i and not passed before i. The words end as 0.
pub(crate) fn sweep(words: &mut [u16]) -> usize
    requires { Sweeps words.old }
    ensures value { result ≡ greatest (map (λ i. sum (take i words.old) - 6 * i) (up_from 1 (length words.old))) }
    ensures words_value { words.new ≡ replicate (length words.old) 0 }
{
    let mut live = 0;
    let mut most = 0;
    for (i, word) in words.iter_mut().enumerate() {
        live += usize::from(*word);
        most = most.max(live - 6 * (i + 1));
        *word = 0;
    }
    most
}
