// The program's inner function: from a file's bytes to the text that is printed, over the program's own memory.
#![tactic(auto)]

pub mod legal;
