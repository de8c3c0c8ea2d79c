// The elimination in unknowns: the marks of the nodes' store first, then spread to those of the store in unknowns.
#![tactic(auto)]

pub mod answer;
pub mod legal;
