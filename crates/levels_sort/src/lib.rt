// Nodes sorted by E.
#![tactic(auto)]

pub mod legal;
