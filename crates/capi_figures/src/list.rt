// A list of figures.
ghost use Rattle.std.specs.Prelude.{◌≡◌, ◌≤◌, length};
ghost use Rattle.basis.specs.Lists.{overwrite};

// Writes the figures into the front of the list, and returns 0: the call is accepted.
pub(crate) fn put(figures: &[u64], list: &mut [u64]) -> u16
    requires { length figures.now ≤ length list.old }
    ensures value { result ≡ 0 }
    ensures list_value { list.new ≡ overwrite figures.now list.old }
{
    list[..figures.len()].copy_from_slice(figures);
    0
}
