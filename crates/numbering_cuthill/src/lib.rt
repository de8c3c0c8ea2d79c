// One part of the call for the reverse order of Cuthill and McKee (document 02, A.3): its levels, its order and its numbers, handed over to
// the caller's lists.
#![tactic(auto)]

pub mod legal;
pub mod shape;
