//! What holds over a whole replay of each driver: specs/ and proofs/, and a function for each theorem.
#![tactic(auto)]

ghost use Rattle.replay_runs.specs.Shams.{ReplayShamsFail};
ghost use Rattle.replay_runs.specs.Statements.{Replayed, Refused};

/// A replay of either driver is its run on the replies of the tape.
pub fn replayed()
    ensures { Replayed }
{}

/// A replay of either driver ends with 16 just where no record is left, and with 14 just where the record does not fit.
pub fn refused()
    ensures { Refused }
{}

/// No replay that calls the tape spent ahead of its look keeps the promise that 16 is for a tape with no record left.
pub fn replay_shams_fail()
    ensures { ReplayShamsFail }
{}
