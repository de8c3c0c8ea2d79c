// Bandwidth, profile and front of a legal graph under a numbering, where each node has one unknown: one walk over the rows. Linear in nodes
// and entries.
#![tactic(auto)]

mod answer;
mod fronts;
pub mod legal;

pub use answer::Measures;
