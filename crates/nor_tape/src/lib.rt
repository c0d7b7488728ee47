// What the replay program prints of a NOR call over a tape.
#![tactic(auto)]

pub mod program;
