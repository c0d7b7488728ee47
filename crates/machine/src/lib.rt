//! A driver as a machine that the host steps: what both drivers do alike, over what each part of flash has of its own.
#![tactic(auto)]

ghost use Rattle.machine.specs.Number.{NumbersAgree};

pub mod call;
pub mod ending;
pub mod part;
pub mod settle;
pub mod state;
pub mod step;
pub mod then;

/// The number of a step is that of the call's ending, whatever values its answers have.
pub fn numbers_agree<A>()
    ensures { NumbersAgree A }
{}
