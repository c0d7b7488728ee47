// The text of a trace case, read line by line: what is the same for every driver.
#![tactic(auto)]

pub mod line;
pub mod word;
