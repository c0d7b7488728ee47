//! What holds of the NAND driver over whole runs: specs/ and proofs/, and a function for each theorem.
#![tactic(auto)]

ghost use Rattle.nand_runs.specs.Built.{NandBuiltInside};
ghost use Rattle.nand_runs.specs.Chip.{DeliversTheChip};
ghost use Rattle.nand_runs.specs.Loops.{NandLoops};
ghost use Rattle.nand_runs.specs.NothingWraps.{NothingWraps};
ghost use Rattle.nand_runs.specs.Promises.{NandPromises};
ghost use Rattle.nand_runs.specs.ShamDrivers.{NandShamsFail};
ghost use Rattle.nand_runs.specs.Run.{nand_driver};
ghost use Rattle.nand_runs.specs.SameWords.{SameWords};
ghost use Rattle.nand_runs.specs.Shams.{ShamsRuledOut};

/// Over every run of the NAND driver: who is refused and why, what happens to lent bytes, that every action, result and delivered
/// byte is the Rust's but for one listed difference, that no call asks more delay than its bound, and what a read shows on the bus.
pub fn nand_promises()
    ensures { NandPromises }
{}

/// A NAND driver that is built is inside the bounds and has a page of at most 4,096, whatever was asked of it before; so from a driver
/// before any construction on, the calls give what the Rust's give, but for the listed difference, where constructions alone are given a
/// geometry inside the bounds, and deliver the same bytes where nobody else writes into the buffer.
/// There is such a session: a construction, then a use of what it built.
pub fn nand_keeps_to_the_bounds()
    ensures { NandBuiltInside }
{}

/// Whatever the chip holds: where it answers each read of its cache with what it holds at the place that the bytes on the bus asked
/// for, `read`, `read_page`, and `read_cache` behind a `page_read`, deliver just the chip's bytes, at every step and at a good end; and a
/// `write_page` that ends well has read back the data lent.
pub fn nand_delivers_the_chip()
    ensures { DeliversTheChip nand_driver }
{}

/// No sham driver keeps the promises: one that refuses every request, claims success with no traffic, loads the first page and claims the
/// rest, runs for ever, gives up before it looks, gives the same result whatever was read, has a bound that is no sum of its delays, spoils
/// lent bytes, leaves select low, gives out a write of no bytes ahead of a command, forgets what it holds with a refusal, or says other codes
/// of errors and refusals.
pub fn nand_shams_fail()
    ensures { NandShamsFail }
{}

/// What is asked of a read's run tells lawful runs from sham ones, and no driver that gives out the actions of a sham run keeps it. Nor
/// does one deliver the chip that skips a load, leaves the buffer as it was, or programs, erases or reads back otherwise than a page write
/// does.
pub fn nand_shams_ruled_out()
    ensures { ShamsRuledOut }
{}

/// The transcribed loops of `read` and of `mark_bad_block`'s filler are those of the Rust, turn by turn.
pub fn nand_loops_turn_as_the_rusts()
    ensures { NandLoops }
{}

/// Inside the bounds the driver's words for sums, pieces, tests, transfers, geometries and settings come to those of the Rust.
pub fn nand_words_say_the_rusts()
    ensures { SameWords }
{}

/// Inside the bounds, where every driver that is built is, no operation of the Rust wraps, goes below 0, divides by 0 or slices past
/// an end.
pub fn nand_never_wraps()
    ensures { NothingWraps }
{}
