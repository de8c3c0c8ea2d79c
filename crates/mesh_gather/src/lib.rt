// The rows after a base, 64 of them, in one pass over all elements: each row's nodes as a set of its own.
#![tactic(auto)]

pub mod legal;
