// What the call of the combined levels answers.

// "The call returns k and the greatest level count".
#[derive(Clone, Copy)]
pub struct CombinedFigures {
    pub k: u16,
    pub width: u16,
}
