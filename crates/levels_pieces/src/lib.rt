// The pieces of a part (document 01, "Combined levels"): found by a search of its loose nodes, and their starts put in order of size.
#![tactic(auto)]

pub mod legal;
mod order;
