// Marks moved and repeated within lent bytes. All functions ask for room: their callers have tested the lengths.
ghost use Rattle.std.specs.Prelude.{◌≡◌, ◌+◌, ◌/◌, ◌≤◌, ◌<◌, length};
ghost use Rattle.store_spread.specs.Places.{turned_mark, Room, Clear, Filled, Moved, Copied, row_start, Repeated};

// Unsets the mark of place t, which is set.
fn unset(bytes: &mut [u8], t: u32)
    requires { t / 8 < length bytes.old }
    ensures { bytes.new ≡ turned_mark bytes.old t }
{
    let at = (t / 8) as usize;
    bytes[at] ^= 1 << (t % 8);
}

// Marks c places from t on.
fn fill(bytes: &mut [u8], t: u32, c: u32)
    requires { Room (length bytes.old) (t + c) }
    ensures { Filled bytes.old bytes.new t c }
{
    for i in 0..c {
        store_marks::legal::set(bytes, t + i);
    }
}

// Moves the mark of place s to c places from t on.
pub fn shift(bytes: &mut [u8], s: u32, t: u32, c: u32)
    requires room { Room (length bytes.old) (t + c) }
    requires s_le_t { (s ≤ t) × (1 ≤ c) × Clear bytes.old (s + 1) (t + c) }
    ensures { Moved bytes.old bytes.new s t c }
{
    if store_marks::legal::test(bytes, s) {
        unset(bytes, s);
        fill(bytes, t, c);
    }
}

// Copies one mark from place s to place t, which is not marked.
fn copy_mark(bytes: &mut [u8], s: u32, t: u32)
    requires room { Room (length bytes.old) (t + 1) }
    requires s_lt_t { (s < t) × Clear bytes.old t (t + 1) }
    ensures { Copied bytes.old bytes.new s t 1 }
{
    if store_marks::legal::test(bytes, s) {
        store_marks::legal::set(bytes, t);
    }
}

// Copies w marks from place s on to places from t on, none of which is marked.
fn copy(bytes: &mut [u8], s: u32, t: u32, w: u32)
    requires room { Room (length bytes.old) (t + w) }
    requires w_bound { (s + w ≤ t) × Clear bytes.old t (t + w) }
    ensures { Copied bytes.old bytes.new s t w }
{
    for i in 0..w {
        copy_mark(bytes, s + i, t + i);
    }
}

// The rows of a node's c unknowns after row 0, that starts at s: each repeats its w marks, and has the pairs with the unknowns before of the same node.
pub fn repeat(bytes: &mut [u8], s: u32, w: u32, c: u32)
    requires room { Room (length bytes.old) (row_start s w c) }
    requires le_c { (1 ≤ c) × Clear bytes.old (s + w) (row_start s w c) }
    ensures { Repeated bytes.old bytes.new s w c }
{
    let mut t = s + w;
    for j in 1..c {
        copy(bytes, s, t, w);
        fill(bytes, t + w, j);
        t += w + j;
    }
}
