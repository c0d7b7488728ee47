//! Whether a tape is well formed, and where its first record stands. The whole tape is judged, records that no replay reaches too.
ghost use Rattle.std.specs.Prelude.{◌≡◌};
ghost use Rattle.tape.specs.Judge.{end_from, pointer_of, accepted_of, first_of, start_of};

use crate::reader::Reader;
use crate::record;
use crate::record::TRAILER_LEN;
use qspi::bytes;

/// The longest tape, and the furthest position that three bytes name.
pub const TAPE_MOST: usize = 16777215;

/// Where the records from a position on end.
pub fn end_from(tape: &[u8], from: usize) -> usize
    ensures { result ≡ end_from tape.now from }
{
    let mut reader = Reader::new(tape, from);
    // A `for` takes the reader, whose position is the answer; over `by_ref` the invariant has no name for it.
    while let Some(_) = reader.next() {}
    reader.at
}

/// The position in the trailer, highest byte first.
pub fn pointer(tape: &[u8]) -> usize
    ensures { result ≡ pointer_of tape.now }
{
    let end = record::trailer_at(tape);
    bytes::number(bytes::part(tape, end, TRAILER_LEN)) as usize
}

/// Whether the tape is made of records up to its trailer, from the position that the trailer tells.
#[tactic(auto, unfolding(crate::specs::Judge::accepted_of))]
pub fn well_formed(tape: &[u8]) -> bool
    ensures { result ≡ accepted_of tape.now }
{
    let n = tape.len();
    if n < TRAILER_LEN {
        return false;
    }
    if TAPE_MOST < n {
        return false;
    }
    let first = pointer(tape);
    let end = end_from(tape, first);
    end == n - TRAILER_LEN
}

/// The first record's position; none on a tape that is not well formed.
#[tactic(auto, unfolding(crate::specs::Judge::first_of))]
pub fn start(tape: &[u8]) -> Option<usize>
    ensures { result ≡ start_of tape.now }
{
    well_formed(tape).then_some(pointer(tape))
}

/// The same with 0 for none. A rule of the port: what is promised under a name stays promised under it.
#[tactic(auto, unfolding(crate::specs::Judge::first_of))]
pub fn first(tape: &[u8]) -> usize
    ensures { result ≡ first_of tape.now }
{
    start(tape).unwrap_or(0)
}
