// Small functions on words that every library above uses.
#![tactic(auto)]

pub mod areas;
pub mod legal;
