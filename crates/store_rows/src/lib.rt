// The two lists of the store map, of a legal graph by a legal numbering, in unknowns: for the call.
#![tactic(auto)]

pub mod legal;
