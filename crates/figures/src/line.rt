//! A line: a name, its values with a blank before each, and its end.
use spi_flash::wait::Timings;
use std::io;

pub(crate) fn name(rt: &impl Print, text: &str) -> io::Result<()> {
    print!(rt; "{text}")
}

pub(crate) fn word(rt: &impl Print, text: &str) -> io::Result<()> {
    print!(rt; " {text}")
}

pub(crate) fn decimal(rt: &impl Print, n: u64) -> io::Result<()> {
    print!(rt; " {n}")
}

pub(crate) fn byte(rt: &impl Print, b: u8) -> io::Result<()> {
    print!(rt; " {b:02x}")
}

pub(crate) fn size(rt: &impl Print, n: usize) -> io::Result<()> {
    decimal(rt, n as u64)
}

pub(crate) fn answer(rt: &impl Print, yes: bool) -> io::Result<()> {
    if yes { word(rt, "yes") } else { word(rt, "no") }
}

// Whether an optional setting is there.
pub(crate) fn setting(rt: &impl Print, given: bool) -> io::Result<()> {
    if given {
        word(rt, "some")
    } else {
        word(rt, "none")
    }
}

pub(crate) fn end(rt: &impl Print) -> io::Result<()> {
    println!(rt; "")
}

// A row of a wait table: first delay, poll delay, limit.
pub(crate) fn wait(rt: &impl Print, text: &str, row: Timings) -> io::Result<()> {
    name(rt, text)?;
    decimal(rt, u64::from(row.initial_us))?;
    decimal(rt, u64::from(row.poll_us))?;
    decimal(rt, u64::from(row.timeout_us))?;
    end(rt)
}
