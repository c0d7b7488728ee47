//! What holds of the NOR driver over whole runs: specs/ and proofs/, and a function for each theorem.
#![tactic(auto)]

ghost use Rattle.nor_runs.specs.Built.{NorBuiltInside};
ghost use Rattle.nor_runs.specs.Chip.{DeliversTheChip};
ghost use Rattle.nor_runs.specs.Loops.{NorLoops};
ghost use Rattle.nor_runs.specs.NothingWraps.{NothingWraps};
ghost use Rattle.nor_runs.specs.Run.{nor_driver, NorPromises};
ghost use Rattle.nor_runs.specs.SameWords.{SameWords};
ghost use Rattle.nor_runs.specs.ShamReads.{ShamReadsFail};
ghost use Rattle.nor_runs.specs.ShamRuns.{ShamRunsFail};
ghost use Rattle.nor_runs.specs.Shams.{NorShamsFail};

/// Over every run of the NOR driver: who is refused and why, what happens to lent bytes, that every action, result and delivered byte
/// is the Rust's, and that no call asks more delay than its bound.
pub fn nor_promises()
    ensures { NorPromises }
{}

/// A NOR driver that is built is inside the bounds and has a page of at most 512, whatever was asked of it before; so from a driver
/// before any construction on, the calls give what the Rust's give where constructions alone are given a device inside the bounds, and
/// deliver the same bytes where nobody else writes into the buffer.
/// There is such a session: a construction, then a use of what it built.
pub fn nor_keeps_to_the_bounds()
    ensures { NorBuiltInside }
{}

/// No sham driver keeps the promises: one that refuses every request, claims success with no traffic, runs for ever, gives up before it looks,
/// gives the same result whatever was read, has a bound that is no sum of its delays, spoils lent bytes, leaves select low, gives out a
/// write of no bytes ahead of a command, forgets what it holds with a refusal, or says other codes of errors and refusals.
pub fn nor_shams_fail()
    ensures { NorShamsFail }
{}

/// Over any contents of the chip and every run of the NOR driver: a read delivers the chip's bytes from its offset on, at every step
/// and, when it ends well, all of them, as the bytes on the bus tell; and a write that ends well has read back the data from the places
/// written, each page as it was lent when it was compared.
pub fn nor_delivers_the_chip()
    ensures { DeliversTheChip nor_driver }
{}

/// The transcribed loops of `read`, `write` and `erase` are those of the Rust, turn by turn, and the read-back of a page is one transfer.
pub fn nor_loops_turn_as_the_rusts()
    ensures { NorLoops }
{}

/// Inside the bounds the driver's words for sums, pieces, tests, transfers, devices and settings come to those of the Rust.
pub fn nor_words_say_the_rusts()
    ensures { SameWords }
{}

/// Inside the bounds, where every driver that is built is, no operation of the Rust wraps, goes below 0, divides by 0 or slices past
/// an end.
pub fn nor_never_wraps()
    ensures { NothingWraps }
{}

/// What is seen on the bus tells sham runs from lawful ones: a piece read at the offset again, bytes of another address, a command that the
/// chip takes otherwise, a page not read back, not compared, or read back from another place than it was written to, another page
/// programmed beside it, however the bytes are cut into writes, or an erase.
pub fn nor_sham_runs_fail()
    ensures { ShamRunsFail }
{}

/// No sham driver delivers the chip: one that reads every piece from place 0, leaves the buffer full of zeros, passes a page that reads
/// back otherwise, or claims success with no traffic.
pub fn nor_sham_reads_fail()
    ensures { ShamReadsFail }
{}
