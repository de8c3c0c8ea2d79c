// The width of a part in unknowns (document 02, A.6), within the run's scratch.
#![tactic(auto)]

pub mod legal;
