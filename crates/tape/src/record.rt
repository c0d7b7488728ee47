//! The records of a tape, and where its trailer stands.
ghost use Rattle.std.specs.Prelude.{◌≡◌, Some};
ghost use Rattle.tape.specs.Record.{trailer_at, number_of_record, length_of, data_of, reply_of};

use qspi::bus::Reply;
use qspi::bytes;
use spi_flash::error::FlashError;

/// The byte that a record begins with, by its kind: numbers, since they are the tape's format. `Record` is the enum of the kinds.
pub const DONE: u8 = 0;

/// Data behind the header.
pub const DATA: u8 = 1;

/// The code of a failed bus call.
pub const BUS_ERROR: u8 = 2;

/// The only lengths of the kinds other than data.
pub const DONE_LEN: usize = 0;

/// The length of a record of kind BUS_ERROR.
pub const BUS_ERROR_LEN: usize = 1;

/// A header is a record's kind, and its length in three bytes.
pub const KIND_LEN: usize = 1;

/// The bytes of a header.
pub const HEADER_LEN: usize = 4;

/// The trailer is the first record's position, in three bytes.
pub const TRAILER_LEN: usize = 3;

/// A record, by its kind.
#[derive(Clone, Copy)]
pub enum Record {
    Done,
    // The bytes by place and length: with a slice inside, each definition over records would hold a reference in place of two numbers.
    Data { from: usize, len: usize },
    BusError(u8),
}

/// Not an Option of both: without a record the position is the reader's own, and the definition that walks a tape goes by it.
#[derive(Clone, Copy)]
pub struct Taken {
    pub given: Option<Record>,
    // The position of the next record.
    pub next: usize,
}

/// Where the trailer starts.
pub fn trailer_at(tape: &[u8]) -> usize
    ensures { result ≡ trailer_at tape.now }
{
    tape.len().saturating_sub(TRAILER_LEN)
}

impl Record {
    /// The tape's number of it, as above.
    pub fn kind(self) -> u8
        ensures { result ≡ number_of_record (Some self) }
    {
        match self {
            Record::Done => DONE,
            Record::Data { .. } => DATA,
            Record::BusError(_) => BUS_ERROR,
        }
    }

    /// The length in the record's header.
    pub fn len(self) -> usize
        ensures { result ≡ length_of (Some self) }
    {
        match self {
            Record::Done => DONE_LEN,
            Record::Data { from: _, len } => len,
            Record::BusError(_) => BUS_ERROR_LEN,
        }
    }

    /// The bytes of data, as that part of the tape itself.
    pub fn data(self, tape: &[u8]) -> &[u8]
        ensures { result.now ≡ data_of tape.now (Some self) }
    {
        match self {
            Record::Data { from, len } => bytes::part(tape, from, len),
            Record::Done | Record::BusError(_) => &tape[..0],
        }
    }

    /// The reply that the record holds. No From: the reply's bytes are given beside it.
    pub fn reply(self) -> Reply
        ensures { result ≡ reply_of (Some self) }
    {
        match self {
            Record::Done => Reply::Done,
            Record::Data { .. } => Reply::Data,
            Record::BusError(code) => Reply::Error(code),
        }
    }
}

/// The number of an answer: a record's kind, or the refusal's. Like the three below it takes what a reader gave, without a record too.
pub fn number(answer: Option<Record>) -> u8
    ensures { result ≡ number_of_record answer }
{
    match answer {
        Some(record) => record.kind(),
        None => FlashError::TapeSpent.number(),
    }
}

/// The length in the answer's header; 0 where it has none.
pub fn length(answer: Option<Record>) -> usize
    ensures { result ≡ length_of answer }
{
    match answer {
        Some(record) => record.len(),
        None => 0,
    }
}

/// The bytes of the answer's data, as that part of the tape itself; none where it has no record.
pub fn data(tape: &[u8], answer: Option<Record>) -> &[u8]
    ensures { result.now ≡ data_of tape.now answer }
{
    match answer {
        Some(record) => record.data(tape),
        None => &tape[..0],
    }
}

/// The reply that the answer holds; done where it has no record.
pub fn reply(answer: Option<Record>) -> Reply
    ensures { result ≡ reply_of answer }
{
    match answer {
        Some(record) => record.reply(),
        None => Reply::Done,
    }
}
