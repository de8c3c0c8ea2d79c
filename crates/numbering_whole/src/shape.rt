// "seven figures", those of the program's first line but for the passes.
#[derive(Clone, Copy)]
pub struct RunFigures {
    pub nodes: u16,
    pub parts: u16,
    pub bandwidth: u32,
    pub profile: u32,
    pub front: u32,
    // the levels of all parts
    pub levels: u32,
    // the greatest number of unknowns in a level
    pub width: u16,
}
