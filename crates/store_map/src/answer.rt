// What the store map answers.

// The places of the store, and its rows.
#[derive(Clone, Copy)]
pub struct MapFigures {
    pub profile: u32,
    pub unknowns: u32,
}
