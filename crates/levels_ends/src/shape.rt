// What the end search returns.
use levels_search::shape::Rooted;

// The ends v and u, k, the number of nodes of the part and the passes. The widths at v and u are counted in the levels that are left.
#[derive(Clone, Copy)]
pub struct Found {
    pub v: u16,
    pub u: u16,
    pub k: u16,
    pub reached: u16,
    pub passes: u16,
}

// What going through S gives: the first s deeper than v, or the s of least width, and its search.
#[derive(Clone, Copy)]
pub struct Tried {
    pub deeper: bool,
    pub node: u16,
    pub search: Rooted,
}
