// Rooted levels and their sizes, in the two lists that the call is lent and no more.
#![tactic(auto)]

pub mod legal;
pub mod shape;
