// What is asked of either driver, and what it gives, whichever it is.
#![tactic(auto)]

pub mod call;
pub mod given;
