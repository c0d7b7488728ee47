//! Prints figures of both drivers' tables, one line each: a name, then its values. Ids and opcodes are hexadecimal, other numbers decimal.
#![tactic(auto)]

mod errors;
mod line;
mod nand;
mod nor;

use std::io;

fn main(rt: HostRuntime) -> io::Result<()> {
    nand::ids(&rt)?;
    nand::sizes(&rt)?;
    nand::waits(&rt)?;
    nand::bounds(&rt)?;
    nand::settings(&rt)?;
    nor::ids(&rt)?;
    nor::codes(&rt)?;
    nor::waits(&rt)?;
    nor::bounds(&rt)?;
    nor::settings(&rt)?;
    errors::all(&rt)
}
