// The members of the parts of a legal graph, by a counting sort over the parts.
#![tactic(auto)]

pub mod legal;
