// The two ends of a part, by document 01's "Ends of a part" (the paper's Algorithm I, the endpoints of a pseudo-diameter).
#![tactic(auto)]

pub mod legal;
pub mod shape;
