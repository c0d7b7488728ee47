// Words of a case and lines of its trace that are the same for every driver: what a call's line says and lends, what answers an
// action, and what is printed beside the actions. And where a trace stands in its text, with the turns that
// need no driver.
#![tactic(auto)]

pub mod between;
pub mod budget;
pub mod heard;
pub mod loan;
pub mod place;
pub mod print;
pub mod request;
pub mod show;
