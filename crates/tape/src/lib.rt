//! The reply tape: a test bench makes it, and a replay reads it. A replay is a call of a driver over a tape: bus actions are answered by its
//! records, select and delay by "done".
#![tactic(auto)]

ghost use Rattle.tape.specs.Statements.{TapeJudged, Example, ReaderWalks};

pub mod judge;
pub mod reader;
pub mod record;
pub mod replay;

/// A tape is accepted just where it is well formed: bytes that nobody reads, records, and a trailer that says where the first of them
/// stands.
pub fn tape_judged()
    ensures { TapeJudged }
{}

/// A tape of fourteen bytes, and the two records that it is made of.
pub fn example()
    ensures { Example }
{}

/// A reader gives the tape's records one by one, and gives no more only where it stands at the trailer.
pub fn reader_walks()
    ensures { ReaderWalks }
{}
