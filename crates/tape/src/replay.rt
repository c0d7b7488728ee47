//! A call over a tape, step by step.
ghost use Rattle.std.specs.Prelude.{◌≡◌};
ghost use Rattle.qspi.specs.Loan.{SameLoan, lending, returning};
ghost use Rattle.tape.specs.Replaying.{begun_over, plain_over, record_over, advanced_over, played_to};
ghost use Rattle.tape.specs.Replay.{replay_at, taped};

use crate::judge;
use crate::reader::Reader;
use machine::part::{FlashOf, Part};
use machine::state::{Given, Stepped};
use machine::{call as calls, step};
use qspi::bus;
use qspi::bus::Reply;
use qspi::loan::{Lengths, Loan};
use spi_flash::error::FlashError;

/// The driver with what it gave last, and the position of the reader's next record: the tape itself is lent at each step. No Option where
/// no tape was begun: a replay that has ended is not read on, whatever its position.
#[derive(Clone, Copy)]
pub struct Replay<S, P, A> {
    pub stepped: Stepped<S, P, A>,
    pub at: usize,
}

impl<S, P, A> Replay<S, P, A> {
    /// A replay of which this was given last, with the reader at a position.
    pub fn new(stepped: Stepped<S, P, A>, at: usize) -> Replay<S, P, A>
        ensures { result ≡ replay_at stepped at }
    {
        Replay { stepped, at }
    }
}

/// A replay of the part's driver.
pub type ReplayOf<D> = Replay<<D as Part>::Setup, <D as Part>::Phase, <D as Part>::Answer>;

/// The whole tape is judged before the call is looked at.
#[tactic(auto, unfolding(crate::specs::Replaying::begun_over))]
pub fn begin<D: Part>(
    flash: FlashOf<D>,
    call: D::Call,
    tape: &[u8],
    lengths: Lengths,
) -> ReplayOf<D>
    ensures { result ≡ begun_over (taped D.calls D.next) flash call tape.now lengths.scratch lengths.buffer lengths.«data» }
{
    if let Some(at) = judge::start(tape) {
        return Replay::new(calls::begin::<D>(flash, call, lengths), at);
    }
    Replay::new(flash.refused(FlashError::MalformedTape), 0)
}

// The reply that is no record: select and delay.
#[tactic(auto, unfolding(crate::specs::Replaying::plain_over))]
fn plain<D: Part>(flash: FlashOf<D>, at: usize, lent: &mut Loan) -> ReplayOf<D>
    ensures same { SameLoan lent.old lent.new }
    ensures played { returning (played_to result) lent.new ≡ lending (plain_over (taped D.calls D.next) flash at) lent.old }
{
    Replay::new(step::step::<D>(flash, Reply::Done, &[], lent), at)
}

// The reply in the reader's next record. Where there is none, the call stays unfinished.
#[tactic(auto, unfolding(crate::specs::Replaying::record_over))]
fn recorded<D: Part>(flash: FlashOf<D>, mut reader: Reader, lent: &mut Loan) -> ReplayOf<D>
    ensures same { SameLoan lent.old lent.new }
    ensures played { returning (played_to result) lent.new ≡ lending (record_over (taped D.calls D.next) flash reader.entry.at reader.entry.tape.now) lent.old }
{
    let Some(record) = reader.next() else {
        return Replay::new(flash.refused(FlashError::TapeSpent), reader.at);
    };
    let bytes = record.data(reader.tape);
    let stepped = step::step::<D>(flash, record.reply(), bytes, lent);
    Replay::new(stepped, reader.at)
}

/// Performs the action that is out. A replay that has come to an end stays as it is.
#[tactic(auto, unfolding(crate::specs::Replaying::advanced_over, crate::specs::Replaying::advanced_then))]
pub fn advance<D: Part>(replay: ReplayOf<D>, tape: &[u8], lent: &mut Loan) -> ReplayOf<D>
    ensures same { SameLoan lent.old lent.new }
    ensures played { returning (played_to result) lent.new ≡ lending (advanced_over (taped D.calls D.next) replay tape.now) lent.old }
{
    let stepped = replay.stepped;
    let given = stepped.given;
    match given {
        Given::Act(action) => {
            if bus::on_bus(action) {
                recorded::<D>(stepped.flash, Reader::new(tape, replay.at), lent)
            } else {
                plain::<D>(stepped.flash, replay.at, lent)
            }
        }
        Given::Ended(_) | Given::Failed(_) | Given::Refused(_) => replay,
    }
}
