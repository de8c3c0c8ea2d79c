// The order of one part as document 01 has it, "Numbering": the change of names, the order level by level, the turn.
#![tactic(auto)]

pub mod legal;
pub mod shape;
