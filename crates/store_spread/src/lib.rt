// The marks of the nodes' store spread in place to those of the store in unknowns.
#![tactic(auto)]

pub mod legal;
