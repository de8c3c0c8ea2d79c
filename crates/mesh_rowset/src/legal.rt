// Functions that ask for 64 words, and a mask that covers them.
ghost use Rattle.std.specs.Prelude.{◌≡◌, ℕ, ◌+◌, ◌≤◌, ◌<◌, length, get_or, set};
ghost use Rattle.std.proofs.lemmas.List.Edits.{sets};
ghost use Rattle.basis.specs.Lists.{memb};
ghost use Rattle.mesh_rowset.specs.Set.{Covered, Added, Empty, Wrote, members};

// Adds the nodes to the set, and returns its mask.
pub fn add(bits: &mut [u64], nodes: &[u16], mask: u64) -> u64
    requires bits_len { length bits.old ≡ 64 }
    requires by_index { (j : ℕ) → j < length nodes.now → (1 ≤ get_or nodes.now j 0) × (get_or nodes.now j 0 ≤ 4096) }
    requires covered { Covered mask bits.old }
    ensures covered_2 { Covered result bits.new }
    ensures added { Added (λ q. memb q nodes.now) bits.old bits.new }
{
    let mut cover = mask;
    for &node in nodes {
        let x = usize::from(node) - 1;
        let at = x / 64;
        bits[at] |= 1u64 << (x % 64);
        cover |= 1u64 << at;
    }
    cover
}

// Stores q at `at` where the list has room, and returns the next place; p is left out.
fn put(list: &mut [u16], at: usize, q: usize, p: usize) -> usize
    requires { (q ≤ 4096) × (at ≤ 4294967296) }
    ensures value { q ≡ p → (result ≡ at) × (list.new ≡ list.old) }
    ensures value_2 { (q ≡ p → ⊥) → (result ≡ at + 1) × (list.new ≡ set list.old at q) }
{
    if q == p {
        return at;
    }
    if at < list.len() {
        list[at] = q as u16;
    }
    at + 1
}

// Writes the nodes of one word, whose nodes follow base, from `at` on, p left out; returns where they end.
fn write_word(word: u64, base: usize, p: usize, at: usize, list: &mut [u16]) -> usize
    requires { (base + 64 ≤ 4096) × (at + 64 ≤ 4294967296) }
    ensures { Wrote word base p at list.old result list.new }
{
    let mut to = at;
    let mut k = 0;
    let mut rest = word;
    // A while: a step goes on to the next bit that is set.
    while rest != 0 {
        let z = rest.trailing_zeros() as usize;
        let q = base + k + z + 1;
        to = put(list, to, q, p);
        k = k + z + 1;
        rest = rest >> z >> 1;
    }
    to
}

// Empties the set: writes its nodes in rising order from `at` on, p left out, and returns where they end. Past its end the list is only counted.
pub fn empty(bits: &mut [u64], mask: u64, p: usize, at: usize, list: &mut [u16]) -> usize
    requires bits_len { (length bits.old ≡ 64) × (at ≤ 2147483648) }
    requires covered { Covered mask bits.old }
    ensures value { result ≡ at + length (members p bits.old) }
    ensures list_value { list.new ≡ sets list.old at (members p bits.old) }
    ensures empty { Empty bits.new }
{
    let mut to = at;
    let mut g = 0;
    let mut rest = mask;
    // A while: a step goes on to the next word whose bit is set.
    while rest != 0 {
        let z = rest.trailing_zeros() as usize;
        let w = g + z;
        to = write_word(bits[w], 64 * w, p, to, list);
        bits[w] = 0;
        g = w + 1;
        rest = rest >> z >> 1;
    }
    to
}
