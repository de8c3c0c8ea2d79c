// The nodes of a part by level, and within a level in E, in time linear in the part.
#![tactic(auto)]

pub mod legal;
