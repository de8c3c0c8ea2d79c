// What the test programs share: numbers and lists read from standard input, lent buffers that hold a pattern, and answers and end contents
// written as text. The scripts of tests/vectors make the same input and text.
#![tactic(auto)]

mod input;
mod lent;
mod output;
mod places;

pub use input::{NONE, number, read, read_full};
pub use lent::{fill, lend, lend_bytes};
pub use output::{accepted, end_line, refused, show, show_bytes};
pub use places::{lend_places, show_places};
