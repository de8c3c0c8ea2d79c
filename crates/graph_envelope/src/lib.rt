// What the measures and the elimination share: the test of a numbering, its inverse, f and the profile; and the same in unknowns.
#![tactic(auto)]

pub mod legal;
