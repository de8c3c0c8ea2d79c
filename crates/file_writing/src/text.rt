// Text put into a buffer from a place on: bytes, a number in decimal, a label and a number. Each function returns the place behind.
ghost use Rattle.std.specs.Prelude.{◌≡◌, ◌++◌, ◌+◌, ◌<◌, length};
ghost use Rattle.spec.specs.Text.{decimal};
ghost use Rattle.file_writing.specs.Written.{Room, Put};

// The bytes of a text.
pub(crate) fn put_text(text: &[u8], out: &mut [u8], at: usize) -> usize
    requires { Room text.now at out.old }
    ensures { Put text.now at result out.old out.new }
{
    let end = at + text.len();
    out[at..end].copy_from_slice(text);
    end
}

// How many digits a number has.
pub(crate) fn digits(x: u32) -> usize
    ensures { result ≡ length (decimal x) }
{
    let mut count = 1;
    let mut rest = x;
    // A while: each step takes a digit off.
    while 10 <= rest {
        rest /= 10;
        count += 1;
    }
    count
}

// The digit of a number below 10.
fn digit(x: u32) -> u8
    requires { x < 10 }
    ensures { result ≡ 48 + x }
{
    b'0' + x as u8
}

// A number in decimal, the digits in front of the last one first.
pub(crate) fn put_number(x: u32, out: &mut [u8], at: usize) -> usize
    requires { Room (decimal x) at out.old }
    ensures { Put (decimal x) at result out.old out.new }
{
    let mut last = at;
    if 10 <= x {
        last = put_number(x / 10, out, at);
    }
    out[last] = digit(x % 10);
    last + 1
}

// A label and a number.
pub(crate) fn put_item(label: &[u8], x: u32, out: &mut [u8], at: usize) -> usize
    requires { Room (label.now ++ decimal x) at out.old }
    ensures { Put (label.now ++ decimal x) at result out.old out.new }
{
    let behind = put_text(label, out, at);
    put_number(x, out, behind)
}
