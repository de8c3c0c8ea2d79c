// Whether a part's numbers are turned end for end: the profile in unknowns of its order, and of the order reversed.
#![tactic(auto)]

pub mod legal;
