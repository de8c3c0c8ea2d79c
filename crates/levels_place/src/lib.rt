// Placing nodes in levels by the counts of the levels (document 01, "Combined levels"): one piece, the settled nodes, the greatest count.
#![tactic(auto)]

pub mod legal;
