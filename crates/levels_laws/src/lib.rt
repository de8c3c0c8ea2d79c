// Models of the functions that combine levels, and their laws: no code.
#![tactic(auto)]
