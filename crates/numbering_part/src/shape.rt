// What is found of a part: v and u as now named, its levels, and whether its numbers were turned end for end.
#[derive(Clone, Copy)]
pub struct PartFound {
    pub v: u16,
    pub u: u16,
    // how many levels the part has
    pub k: u16,
    // the greatest number of unknowns in one of them
    pub width: u16,
    pub passes: u16,
    pub turned: bool,
}

// What the run sums up over the parts.
#[derive(Clone, Copy)]
pub struct PartFigures {
    pub k: u16,
    pub width: u16,
    pub passes: u16,
}
