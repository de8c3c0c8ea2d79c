// The combined levels of one part (document 01, "Combined levels"), from the levels rooted at its two ends.
#![tactic(auto)]

pub mod legal;
