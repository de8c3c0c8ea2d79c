// A whole legal graph, numbered in one order or the other: one loop over the parts for both.
#![tactic(auto)]

pub mod legal;
pub mod shape;
