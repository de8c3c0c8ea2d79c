// The C interface: the adjacency test, the calls of document 01, reverse Cuthill-McKee and the import of a numbering over plain numbers and
// slices, a slice being a pointer and a length. Each answers 0 or the number of a refusal, and an accepted call writes its figures into a lent list of 64-bit words. Nothing is
// required of the numbers and the lists.
#![tactic(auto)]

pub mod calls_cuthill;
pub mod calls_import;
pub mod calls_levels;
pub mod calls_map;
pub mod calls_mesh;
pub mod calls_numbering;
pub mod calls_store;
