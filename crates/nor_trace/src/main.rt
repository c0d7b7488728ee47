// Prints the trace of the NOR case on standard input: a program for each driver, one line long.
#![tactic(auto)]

use flash_calls::call::Kind;
use std::io;
use trace::program;

fn main(rt: HostRuntime) -> io::Result<()> {
    program::trace(&rt, Kind::Nor)
}
