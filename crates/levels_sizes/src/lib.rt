// The list of level sizes of a search, and the width from it (document 02, A.2), within the scratch of the calls on one part.
#![tactic(auto)]

pub mod legal;
pub mod shape;
