// What the C interface does of levels and mesh: the refusal of two lists, and each call with a lent list for its figures.
#![tactic(auto)]

pub mod calls_levels;
pub mod calls_mesh;
pub mod lists;
