// What the program prints, written into a lent buffer: the listing, or the line of a refusal.
#![tactic(auto)]

mod figures;
pub mod legal;
mod text;
mod total;

pub use figures::Figures;
