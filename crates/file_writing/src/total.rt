// The sum of the passes of the parts, made where it is printed.
ghost use Rattle.std.specs.Prelude.{◌≡◌, ◌≤◌, length};
ghost use Rattle.basis.specs.Lists.{sum};

// At most 4,096 words of 16 bits, so that the sum has fewer than 32.
pub(crate) fn total(passes: &[u16]) -> u32
    requires { length passes.now ≤ 4096 }
    ensures { result ≡ sum passes.now }
{
    let mut sum: u32 = 0;
    // By index, so that the edit `second_word` plants a wrong start and nothing else.
    for i in 0..passes.len() {
        sum += u32::from(passes[i]);
    }
    sum
}
