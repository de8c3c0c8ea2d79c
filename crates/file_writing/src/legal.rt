// Functions that ask for room, and the line of a refusal, which asks for none.
ghost use Rattle.std.specs.Prelude.{◌≡◌, cond, ◌≤◌, length, leb};
ghost use Rattle.basis.specs.Lists.{join_all, overwrite};
ghost use Rattle.spec.specs.File.{refused_line};
ghost use Rattle.file_writing.specs.Figures.{figures_of};
ghost use Rattle.file_writing.specs.Listed.{first_items, last_items, row_items, rows, listed};
ghost use Rattle.file_writing.specs.Written.{Room, Put};

use crate::figures::Figures;
use crate::text::{digits, put_item, put_number, put_text};
use crate::total::total;

// The first four figures.
fn put_first(f: Figures, out: &mut [u8], at: usize) -> usize
    requires { Room (join_all (first_items (figures_of f))) at out.old }
    ensures { Put (join_all (first_items (figures_of f))) at result out.old out.new }
{
    let mut end = put_item(b"nodes ", f.nodes, out, at);
    end = put_item(b" parts ", f.parts, out, end);
    end = put_item(b" bandwidth ", f.bandwidth, out, end);
    put_item(b" profile ", f.profile, out, end)
}

// The last three, the passes of all parts "under the old label", and the line's end.
fn put_last(f: Figures, total: u32, out: &mut [u8], at: usize) -> usize
    requires { Room (join_all (last_items (figures_of f) total)) at out.old }
    ensures { Put (join_all (last_items (figures_of f) total)) at result out.old out.new }
{
    let mut end = put_item(b" front ", f.front, out, at);
    end = put_item(b" levels ", f.levels, out, end);
    end = put_item(b" width ", f.width, out, end);
    end = put_item(b" passes ", total, out, end);
    put_text(b"\n", out, end)
}

// A row: "old number, new number, level".
fn put_row(node: u32, number: u16, level: u16, out: &mut [u8], at: usize) -> usize
    requires { Room (join_all (row_items node number level)) at out.old }
    ensures { Put (join_all (row_items node number level)) at result out.old out.new }
{
    let mut end = put_number(node, out, at);
    end = put_item(b" ", u32::from(number), out, end);
    end = put_item(b" ", u32::from(level), out, end);
    put_text(b"\n", out, end)
}

// The rows "by old number".
fn put_rows(numbers: &[u16], levels: &[u16], out: &mut [u8], at: usize) -> usize
    requires numbers_len { (length numbers.now ≡ length levels.now) × (length numbers.now ≤ 4096) }
    requires room { Room (rows numbers.now levels.now (length numbers.now)) at out.old }
    ensures { Put (rows numbers.now levels.now (length numbers.now)) at result out.old out.new }
{
    let mut end = at;
    for i in 0..numbers.len() {
        end = put_row((i + 1) as u32, numbers[i], levels[i], out, end);
    }
    end
}

// Writes the listing to the front of the buffer, and returns its length.
pub fn write_listing(
    f: Figures,
    numbers: &[u16],
    levels: &[u16],
    passes: &[u16],
    out: &mut [u8],
) -> usize
    requires numbers_len { (length numbers.now ≡ length levels.now) × (length numbers.now ≤ 4096) }
    requires passes_len_bound { length passes.now ≤ 4096 }
    requires passes_in_bounds { length (listed (figures_of f) numbers.now levels.now passes.now) ≤ length out.old }
    ensures value { result ≡ length (listed (figures_of f) numbers.now levels.now passes.now) }
    ensures out_value { out.new ≡ overwrite (listed (figures_of f) numbers.now levels.now passes.now) out.old }
{
    let mut end = put_first(f, out, 0);
    end = put_last(f, total(passes), out, end);
    put_rows(numbers, levels, out, end)
}

// Writes the line of a refusal to the front of the buffer, and returns its length; where it has no room, writes nothing and returns 0.
pub fn write_refusal(number: u16, out: &mut [u8]) -> usize
    ensures value { result ≡ cond (leb (length (refused_line number)) (length out.old)) (length (refused_line number)) 0 }
    ensures out_value { out.new ≡ cond (leb (length (refused_line number)) (length out.old)) (overwrite (refused_line number) out.old) out.old }
{
    let x = u32::from(number);
    if out.len() < 9 + digits(x) {
        return 0;
    }
    let end = put_item(b"refused ", x, out, 0);
    put_text(b"\n", out, end)
}
