// What the C interface does of numbering and store: each call with the counts of unknowns and a lent list for its figures.
#![tactic(auto)]

pub mod calls_cuthill;
pub mod calls_numbering;
pub mod calls_store;
