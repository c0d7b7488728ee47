//! The calls of SpiNandFlash (nand/driver.rs), cut where they use the bus: how each begins, what it does with the cache, pages and blocks,
//! and what these are made of; and the feature registers.
#![tactic(auto)]

pub mod block;
pub mod cache;
pub mod go;
pub mod opening;
pub mod page;
pub mod read;
pub mod register;
pub mod then;
