// The rows of a mesh's graph, one after another: their entries counted, and the two lists filled.
#![tactic(auto)]

pub mod legal;
