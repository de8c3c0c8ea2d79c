// The run on the graph of a file and its counts of unknowns, and the text of its listing.
#![tactic(auto)]

pub mod legal;
