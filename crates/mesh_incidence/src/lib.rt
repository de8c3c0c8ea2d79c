// The elements that hold a node: a list for each of some rows, as many as the lent words have room for.
#![tactic(auto)]

pub mod legal;
