// One part more of a whole legal graph, in one order or the other: its numbers, its levels, its passes, and what is summed up with it.
#![tactic(auto)]

pub mod legal;
pub mod order;
pub mod shape;
