// Calls with scripted replies, read from a text, and the trace that is printed of them; and what is asked of the driver, with what its call
// lends.
#![tactic(auto)]

pub mod advance;
pub mod case;
pub mod lent;
