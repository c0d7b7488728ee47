//! What both flash drivers share: their errors, what a call takes, whether it may begin, ranges and their pieces, reads of numbers, tables of
//! keys, the rule of their waits, and an answer's values as numbers.
#![tactic(auto)]

ghost use Rattle.spi_flash.specs.WaitLaw.{WaitInGeneral};

pub mod entry;
pub mod error;
pub mod loan;
pub mod number;
pub mod range;
pub mod rows;
pub mod value;
pub mod wait;

/// What holds of a wait, whatever its first delay, its limit and its poll delay of at least 1.
pub fn wait_in_general()
    ensures { WaitInGeneral }
{}
