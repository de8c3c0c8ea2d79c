// What the numbering of a part returns: v and u as now named, and whether its numbers were turned end for end.
#[derive(Clone, Copy)]
pub struct Sequence {
    pub v: u16,
    pub u: u16,
    pub turned: bool,
}
