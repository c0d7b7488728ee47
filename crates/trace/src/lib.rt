// The trace of a case, for the programs from standard input to standard output.
#![tactic(auto)]

pub mod program;
