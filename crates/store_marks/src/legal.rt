// Functions that ask for room: their callers have tested the lengths.
ghost use Rattle.std.specs.Prelude.{◌≡◌, ◌/◌, ◌≤◌, ◌<◌, length};
ghost use Rattle.store_marks.specs.Marks.{marked, with_mark};

// Whether place t is marked.
pub fn test(bytes: &[u8], t: u32) -> bool
    requires { t / 8 < length bytes.now }
    ensures { result ≡ marked bytes.now t }
{
    let at = (t / 8) as usize;
    (bytes[at] >> (t % 8)) & 1 == 1
}

// Marks place t.
pub fn set(bytes: &mut [u8], t: u32)
    requires { t / 8 < length bytes.old }
    ensures { bytes.new ≡ with_mark bytes.old t }
{
    let at = (t / 8) as usize;
    bytes[at] |= 1u8 << (t % 8);
}

pub mod counting;
