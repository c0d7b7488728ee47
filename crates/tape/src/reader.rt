//! A reader: a tape, and where its next record stands.
//! It reads every tape at every position; where no record fits, it gives none and stays.
ghost use Rattle.std.specs.Prelude.{◌≡◌, ◌+◌, ◌-◌, ◌≤◌, ◌<◌, ◌^◌, length, None};
ghost use Rattle.std.specs.Iterator.{at_most};
ghost use Rattle.tape.specs.Tape.{header_length};
ghost use Rattle.tape.specs.Record.{trailer_at, ahead_of, length_in, taken, shaped_of, taken_at};
ghost use Rattle.tape.specs.Reader.{reader_at, read_to, next_of};

use crate::record;
use crate::record::{
    BUS_ERROR, BUS_ERROR_LEN, DATA, DONE, DONE_LEN, HEADER_LEN, KIND_LEN, Record, Taken,
};
use qspi::bytes;

/// A tape, and where its next record stands.
#[derive(Clone, Copy)]
pub struct Reader<'a> {
    pub tape: &'a [u8],
    pub at: usize,
}

// The length in a header, highest byte first.
fn length_in(s: &[u8]) -> usize
    requires { header_length ≤ length s.now }
    ensures { result ≡ length_in s.now }
{
    bytes::number(&s[KIND_LEN..HEADER_LEN]) as usize
}

// No record stands at a position, and the reader stays there.
fn nothing(at: usize) -> Taken
    ensures { result ≡ taken None at }
{
    Taken {
        given: None,
        next: at,
    }
}

// The record of a kind and a length that begins s, which stands at a position.
#[tactic(auto, unfolding(crate::specs::Record::shaped_of))]
fn shaped(s: &[u8], at: usize, kind: u8, len: usize) -> Taken
    requires { (header_length + len ≤ length s.now) × (at + length s.now < 2 ^ 64) }
    ensures { result ≡ shaped_of s.now at kind len }
{
    let from = at + HEADER_LEN;
    let record = match (kind, len) {
        (DONE, DONE_LEN) => Record::Done,
        (DATA, _) => Record::Data { from, len },
        (BUS_ERROR, BUS_ERROR_LEN) => Record::BusError(s[HEADER_LEN]),
        _ => return nothing(at),
    };
    Taken {
        given: Some(record),
        next: from + len,
    }
}

impl<'a> Reader<'a> {
    /// A reader at a position.
    pub fn new(tape: &'a [u8], at: usize) -> Reader<'a>
        ensures { result ≡ reader_at tape.entry at }
    {
        Reader { tape, at }
    }

    /// The bytes up to the trailer.
    #[tactic(auto, using(crate::proofs::Parts::part_slice, crate::proofs::Parts::none_ahead), unfolding(crate::specs::Record::ahead_of))]
    pub fn ahead(self) -> &'a [u8]
        ensures { result.now ≡ ahead_of self.entry.tape.now self.entry.at }
    {
        self.tape
            .get(self.at..record::trailer_at(self.tape))
            .unwrap_or(&[])
    }

    /// The record at the reader's position, and the position behind it.
    #[tactic(auto, using(crate::proofs::Parts::room), unfolding(crate::specs::Record::taken_in))]
    pub fn taken(self) -> Taken
        ensures { result ≡ taken_at self.entry.tape.now self.entry.at }
    {
        let s = self.ahead();
        let n = s.len();
        if n < HEADER_LEN {
            return nothing(self.at);
        }
        let len = length_in(s);
        if n - HEADER_LEN < len {
            return nothing(self.at);
        }
        shaped(s, self.at, s[0], len)
    }
}

impl Iterator for Reader<'_> {
    type Item = Record;

    // The record at the reader's position, and the reader of the same tape behind it.
    ghost next_gives = { λ old given new. read_to given new ≡ next_of old };

    ghost remaining = { λ s. at_most (trailer_at s.tape.now - s.at) };

    fn next(&mut self) -> Option<Record> {
        let t = self.taken();
        self.at = t.next;
        t.given
    }
}
