// Breadth-first search of a part with a queue, on one lent part of 2n words.
#![tactic(auto)]

pub mod legal;
pub mod shape;
