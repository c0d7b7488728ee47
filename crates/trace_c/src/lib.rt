// The traces of both drivers as functions of C, which call `trace_case::case::traced`.
#![tactic(auto)]

pub mod nand;
pub mod nor;
