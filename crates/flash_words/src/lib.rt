// Words of a case that speak of a driver: what a line asks for, what a turn asks of the driver, what is printed of what it gives; and each
// driver's own words.
#![tactic(auto)]

pub mod asked;
pub mod end;
pub mod nand;
pub mod nor;
pub mod words;
