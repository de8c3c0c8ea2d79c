// What is counted of the marks, in pairs of unknowns.

// "The marks that are 1 are counted, and so are the newly joined pairs, those not joined at first."
#[derive(Clone, Copy)]
pub struct Counts {
    pub marked: u32,
    pub new: u32,
}
