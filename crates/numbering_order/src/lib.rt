// The order of one part: its nodes by the numbers that they get, before any turn.
#![tactic(auto)]

pub mod legal;
