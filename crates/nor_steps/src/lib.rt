//! The calls of SpiNorFlash (nor/driver.rs), cut where they use the bus: how each begins, its reads, writes and erases, and what these are
//! made of; and the status registers.
#![tactic(auto)]

pub mod erase;
pub mod go;
pub mod opening;
pub mod protection;
pub mod read;
pub mod register;
pub mod then;
pub mod write;
