//! What holds over a whole replay, whichever driver it is of: specs/ and proofs/, and a function for each theorem.
#![tactic(auto)]

ghost use Rattle.tape.specs.Replay.{taped};
ghost use Rattle.tape_runs.specs.Exactly.{Exactly};
ghost use Rattle.tape_runs.specs.Player.{player_of};
ghost use Rattle.tape_runs.specs.Replays.{ReplayRuns};

use machine::part::Part;

/// A replay is the driver's run on the replies of the tape, whatever part the driver is of.
pub fn replayed<D: Part>()
    ensures { ReplayRuns (player_of (taped D.calls D.next)) }
{}

/// A replay ends with 16 just where no record is left, and with 14 just where the record does not fit, whatever part the driver is of.
pub fn refused<D: Part>()
    ensures { Exactly (player_of (taped D.calls D.next)) }
{}
