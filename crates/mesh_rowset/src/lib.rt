// A set of nodes in 64 words of bits, with a mask of the words that may hold any: it is filled and emptied in the time of its nodes.
#![tactic(auto)]

pub mod legal;
