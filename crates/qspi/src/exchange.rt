//! What a reply does to the transfer that is out: whether it fits, what is read out of it, and which action follows.
ghost use Rattle.std.specs.Prelude.{◌≡◌};
ghost use Rattle.qspi.specs.Frame.{after_start, body_stage, after_command, next_stage, body_sink, sink_of, value_of, moved_on, advanced_of, taken_in, delivered_by, exchanged_to, exchange_of};
ghost use Rattle.qspi.specs.Loan.{SameLoan, lending, returning};

use crate::bus::{BusError, Reply};
use crate::frame::{Advanced, Exchanged, Frame, Outcome, Stage};
use crate::loan::Loan;
use crate::transfer::{Body, Sink, Transfer};
use crate::{bus, bytes, frame};

fn after_start(transfer: Transfer) -> Option<Stage>
    ensures { result ≡ after_start transfer }
{
    match transfer {
        Transfer::Raise | Transfer::Pause(_) => None,
        Transfer::Framed { body, .. } => Some(if frame::is_quad(body) {
            Stage::Payload
        } else {
            Stage::Command
        }),
    }
}

fn body_stage(body: Body) -> Stage
    ensures { result ≡ body_stage body }
{
    match body {
        Body::Read { .. } | Body::Write(_) => Stage::Payload,
        Body::None | Body::QuadRead { .. } | Body::QuadWrite(_) => Stage::High,
    }
}

fn after_command(transfer: Transfer) -> Stage
    ensures { result ≡ after_command transfer }
{
    match transfer {
        Transfer::Raise | Transfer::Pause(_) => Stage::High,
        Transfer::Framed { body, .. } => body_stage(body),
    }
}

// Nothing follows select high.
fn next_stage(transfer: Transfer, stage: Stage) -> Option<Stage>
    ensures { result ≡ next_stage transfer stage }
{
    match stage {
        Stage::Start => after_start(transfer),
        Stage::Command => Some(after_command(transfer)),
        Stage::Payload => Some(Stage::High),
        Stage::High => None,
    }
}

// What reads nothing counts as a Number, which changes no buffer: an Option would only add a match where the sink is asked for.
fn body_sink(body: Body) -> Sink
    ensures { result ≡ body_sink body }
{
    match body {
        Body::Read { sink, .. } | Body::QuadRead { sink, .. } => sink,
        Body::None | Body::Write(_) | Body::QuadWrite(_) => Sink::Number,
    }
}

fn sink_of(transfer: Transfer) -> Sink
    ensures { result ≡ sink_of transfer }
{
    match transfer {
        Transfer::Raise | Transfer::Pause(_) => Sink::Number,
        Transfer::Framed { body, .. } => body_sink(body),
    }
}

// The number that a data reply comes to: one for all three, and the phase knows what it says.
fn value_of(sink: Sink, s: &[u8], data: &[u8]) -> u64
    ensures { result ≡ value_of sink s.now «data».now }
{
    match sink {
        Sink::Number => bytes::number(s),
        Sink::Buffer(_) => 0,
        Sink::Compare(from) => u64::from(bytes::compare(s, data, from)),
    }
}

fn moved_on(transfer: Transfer, following: Option<Stage>, outcome: Outcome) -> Advanced
    ensures { result ≡ moved_on transfer following outcome }
{
    match following {
        Some(stage) => return Advanced::More(Frame {
            transfer,
            stage,
            outcome,
        }),
        None => return Advanced::Over(outcome),
    }
}

/// Where the frame goes on a reply that fits. After a bus error select goes high.
#[tactic(auto, unfolding(crate::specs::Frame::advanced_of))]
pub fn advance(frame: Frame, reply: Reply, s: &[u8], data: &[u8]) -> Advanced
    ensures { result ≡ advanced_of frame reply s.now «data».now }
{
    let transfer = frame.transfer;
    let next = next_stage(transfer, frame.stage);
    match reply {
        Reply::Done => return moved_on(transfer, next, frame.outcome),
        Reply::Data => return moved_on(transfer, next, Ok(value_of(sink_of(transfer), s, data))),
        Reply::Error(code) => return moved_on(transfer, Some(Stage::High), Err(BusError(code))),
    }
}

/// The caller's buffer after a reply that fits: only data read for the caller changes it.
#[tactic(auto, unfolding(crate::specs::Frame::taken_in))]
pub fn take_in(frame: Frame, reply: Reply, s: &[u8], buffer: &mut [u8])
    ensures { buffer.new ≡ taken_in frame reply s.now buffer.old }
{
    if let (Reply::Data, Sink::Buffer(at)) = (reply, sink_of(frame.transfer)) {
        bytes::deliver(buffer, at, s);
    }
}

/// One reply to the action that is out. One that does not fit changes nothing.
#[tactic(auto, unfolding(crate::specs::Frame::exchange_of))]
pub fn exchange(frame: Frame, reply: Reply, s: &[u8], lent: &mut Loan) -> Exchanged
    ensures same { SameLoan lent.old lent.new }
    ensures exchanged { returning (exchanged_to result) lent.new ≡ lending (exchange_of frame reply s.now) lent.old }
{
    if !bus::fits(frame::pending(frame), reply, s.len()) {
        return Exchanged::Misfit;
    }
    take_in(frame, reply, s, lent.buffer);
    match advance(frame, reply, s, lent.data) {
        Advanced::More(frame) => return Exchanged::Gave {
            frame,
            action: frame::give(frame, lent.scratch),
        },
        Advanced::Over(outcome) => return Exchanged::Over(outcome),
    }
}

/// How many bytes of the caller's buffer are delivered after a reply that fits, where `before` were. Lengths alone: no byte is looked at.
#[tactic(auto, unfolding(crate::specs::Frame::delivered_by))]
pub fn delivered_by(
    frame: Frame,
    reply: Reply,
    len: usize,
    buffer_len: usize,
    before: usize,
) -> usize
    ensures { result ≡ delivered_by frame reply len buffer_len before }
{
    match (reply, sink_of(frame.transfer)) {
        (Reply::Data, Sink::Buffer(at)) => bytes::end_of(at, len, buffer_len, before),
        _ => before,
    }
}
