// Either driver as one machine that the host steps.
#![tactic(auto)]

pub mod drive;
pub mod side;
pub mod state;
