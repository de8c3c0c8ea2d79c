// Functions that ask for elements that are not refused.

pub mod adding;
pub mod listing;
