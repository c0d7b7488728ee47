//! SpiNorFlash (nor/driver.rs) as a machine that the host steps: each bus call of the Rust is an action given out. And what
//! follows each transfer.
#![tactic(auto)]

pub mod named;
pub mod next;
pub mod part;
pub mod wait;
