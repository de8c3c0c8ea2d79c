// The static library for C, Fortran and Rust: each export is the call of `capi` of its name, with its clauses, which say what it answers and
// what the lent buffers hold.
#![tactic(auto)]

mod calls_cuthill;
mod calls_import;
mod calls_levels;
mod calls_map;
mod calls_mesh;
mod calls_numbering;
mod calls_store;
