// The marks that are 1, counted by words: "eight bytes gathered into one 64-bit number and its ones counted by the machine, the odd bytes at the
// end singly" (document 02, A.4).
ghost use Rattle.std.specs.Prelude.{◌≡◌, ◌+◌, ◌-◌, ◌%◌, ◌≤◌, ◌<◌, length};
ghost use Rattle.store_marks.specs.Marks.{ones, Countable, ones_in, gathered};

// Two bytes gathered into one number, the first lowest. Gathering by halves leaves one sum a function, and the compiler makes one load of it.
fn two(bytes: &[u8], at: usize) -> u64
    requires { at + 2 ≤ length bytes.now }
    ensures { (result ≡ gathered bytes.now at 2) × (result < 65536) }
{
    bytes[at + 1] as u64 * 256 + bytes[at] as u64
}

// Four bytes.
fn four(bytes: &[u8], at: usize) -> u64
    requires { at + 4 ≤ length bytes.now }
    ensures { (result ≡ gathered bytes.now at 4) × (result < 4294967296) }
{
    two(bytes, at + 2) * 65536 + two(bytes, at)
}

// Eight bytes.
fn eight(bytes: &[u8], at: usize) -> u64
    requires { at + 8 ≤ length bytes.now }
    ensures { result ≡ gathered bytes.now at 8 }
{
    four(bytes, at + 4) * 4294967296 + four(bytes, at)
}

// How many places of the first `to` bytes, a multiple of eight, are marked: eight bytes at a time.
fn count_words(bytes: &[u8], to: usize) -> u32
    requires { (to ≤ length bytes.now) × Countable bytes.now × (to % 8 ≡ 0) }
    ensures { result ≡ ones_in bytes.now 0 to }
{
    let mut total: u32 = 0;
    for word in 0..to / 8 {
        total += eight(bytes, 8 * word).count_ones();
    }
    total
}

// How many places from byte `from` on are marked: byte by byte.
fn count_bytes(bytes: &[u8], from: usize) -> u32
    requires { (from ≤ length bytes.now) × Countable bytes.now }
    ensures { result ≡ ones_in bytes.now from (length bytes.now - from) }
{
    let mut total: u32 = 0;
    for byte in &bytes[from..] {
        total += byte.count_ones();
    }
    total
}

// How many places are marked: those of the words, and those of the odd bytes.
pub fn count(bytes: &[u8]) -> u32
    requires { Countable bytes.now }
    ensures { result ≡ ones bytes.now }
{
    let to = bytes.len() - bytes.len() % 8;
    count_words(bytes, to) + count_bytes(bytes, to)
}
