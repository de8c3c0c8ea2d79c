// One part of the whole run: its levels, its order and its numbers, handed over to the caller's lists.
#![tactic(auto)]

pub mod legal;
pub mod shape;
