// What is summed up over the parts that have their numbers.
#[derive(Clone, Copy)]
pub struct Tally {
    pub parts: u16,
    pub nodes: u16,
    // the levels of all these parts
    pub levels: u32,
    // the greatest number of unknowns in a level
    pub width: u16,
}
