// The first nine bytes of a file: the letters, version, n and element count.
ghost use Rattle.std.specs.Prelude.{◌≡◌, ◌+◌, ◌<◌, ◌≤◌, length, get_or};
ghost use Rattle.spec.specs.File.{word, has_mark, bad_header};

// The word of two bytes, "low byte first".
pub(crate) fn word_at(file: &[u8], at: usize) -> u16
    requires { at + 1 < length file.now }
    ensures { result ≡ word (get_or file.now at 0) (get_or file.now (at + 1) 0) }
{
    let low = u16::from(file[at]);
    let high = u16::from(file[at + 1]);
    low + 256 * high
}

// Whether the file begins with the letters G, R and D.
fn has_mark(file: &[u8]) -> bool
    requires { 3 ≤ length file.now }
    ensures { result ≡ has_mark file.now }
{
    if file[0] != b'G' {
        return false;
    }
    if file[1] != b'R' {
        return false;
    }
    file[2] == b'D'
}

// "wrong mark or version, file too long, under 9 bytes"
pub(crate) fn bad_header(file: &[u8]) -> bool
    ensures { result ≡ bad_header file.now }
{
    let size = file.len();
    if 65535 < size {
        return true;
    }
    if size < 9 {
        return true;
    }
    if !has_mark(file) {
        return true;
    }
    let version = word_at(file, 3);
    if version == 1 {
        return false;
    }
    version != 2
}
