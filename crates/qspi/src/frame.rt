//! One transfer, action by action: the Rust's `command` and `command_then_read`, cut where the bus is called.
//! This module has what a frame gives out; `exchange` has what a reply does.
ghost use Rattle.std.specs.Prelude.{◌≡◌};
ghost use Rattle.qspi.specs.Frame.{first_of, payload_part, command_part, with_payload, is_quad, start_action, command_action, body_action, payload_action, action_of, with_command_of, with_body, with_payload_of, given_scratch};

use crate::bus::{Action, BusError, Part};
use crate::command::Command;
use crate::transfer::{Body, Payload, Transfer};
use crate::{bytes, command};

/// Which action of the transfer is out. Not a closure: the host holds the frame between two replies, and no function hands a closure out.
#[derive(Clone, Copy)]
pub enum Stage {
    Start,
    Command,
    Payload,
    High,
}

/// What the transfer came to so far: the number that was read, or the code of a failed call.
pub type Outcome = Result<u64, BusError>;

/// A transfer under way: where it is, and what has come of it.
#[derive(Clone, Copy)]
pub struct Frame {
    pub transfer: Transfer,
    pub stage: Stage,
    pub outcome: Outcome,
}

/// Not a Result: neither variant is a failure, and the outcome of a transfer that is over is one itself.
#[derive(Clone, Copy)]
pub enum Advanced {
    More(Frame),
    Over(Outcome),
}

/// What a reply comes to: it does not fit, another action of the transfer is given out, or the transfer is over. Not a Result: two of
/// the three go on, and which error a misfit is the driver says.
#[derive(Clone, Copy)]
pub enum Exchanged {
    Misfit,
    Gave { frame: Frame, action: Action },
    Over(Outcome),
}

/// A transfer of which nothing has been done.
#[tactic(auto, unfolding(crate::specs::Frame::first_of))]
pub fn first(transfer: Transfer) -> Frame
    ensures { result ≡ first_of transfer }
{
    Frame {
        transfer,
        stage: Stage::Start,
        outcome: Ok(0),
    }
}

// ---- the actions

fn payload_part(payload: Payload) -> Part
    ensures { result ≡ payload_part payload }
{
    match payload {
        Payload::Data { from, len } => Part::Data { from, len },
        Payload::Filler(n) => Part::Scratch {
            from: bytes::FILLER_AT,
            len: bytes::filler_len(n),
        },
        Payload::Marker => Part::Scratch {
            from: bytes::MARKER_AT,
            len: 1,
        },
    }
}

fn command_part(command: Command) -> Part
    ensures { result ≡ command_part command }
{
    Part::Scratch {
        from: 0,
        len: command::command_len(command),
    }
}

/// A quad call has the command with its data.
pub fn is_quad(body: Body) -> bool
    ensures { result ≡ is_quad body }
{
    matches!(body, Body::QuadRead { .. } | Body::QuadWrite(_))
}

fn start_action(transfer: Transfer) -> Action
    ensures { result ≡ start_action transfer }
{
    match transfer {
        Transfer::Raise => Action::SelectHigh,
        Transfer::Pause(us) => Action::Delay(us),
        Transfer::Framed { .. } => Action::SelectLow,
    }
}

fn command_action(transfer: Transfer) -> Action
    ensures { result ≡ command_action transfer }
{
    match transfer {
        Transfer::Framed { command, body } if !is_quad(body) => {
            Action::Write(command_part(command))
        }
        _ => Action::SelectHigh,
    }
}

fn body_action(command: Command, body: Body) -> Action
    ensures { result ≡ body_action command body }
{
    match body {
        Body::None => Action::SelectHigh,
        Body::Read { len, .. } => Action::Read(len),
        Body::Write(payload) => Action::Write(payload_part(payload)),
        Body::QuadRead {
            tclqv_ns,
            margin,
            len,
            ..
        } => Action::QuadRead {
            command: command_part(command),
            tclqv_ns,
            margin,
            len,
        },
        Body::QuadWrite(payload) => Action::QuadWrite {
            command: command_part(command),
            payload: payload_part(payload),
        },
    }
}

fn payload_action(transfer: Transfer) -> Action
    ensures { result ≡ payload_action transfer }
{
    match transfer {
        Transfer::Raise | Transfer::Pause(_) => Action::SelectHigh,
        Transfer::Framed { command, body } => body_action(command, body),
    }
}

// Inlined: else its result is put into memory that is cleared first, twice in most steps.
/// The action that is out, whose reply is awaited.
#[inline(always)]
#[tactic(auto, unfolding(crate::specs::Frame::action_of))]
pub fn pending(frame: Frame) -> Action
    ensures { result ≡ action_of frame }
{
    match frame.stage {
        Stage::Start => start_action(frame.transfer),
        Stage::Command => command_action(frame.transfer),
        Stage::Payload => payload_action(frame.transfer),
        Stage::High => Action::SelectHigh,
    }
}

// ---- the scratch

fn put_payload(payload: Payload, scratch: &mut [u8])
    ensures { scratch.new ≡ with_payload payload scratch.old }
{
    match payload {
        Payload::Data { .. } => {}
        Payload::Filler(n) => bytes::put_filler(scratch, n),
        Payload::Marker => bytes::put_marker(scratch),
    }
}

fn put_at_command(transfer: Transfer, scratch: &mut [u8])
    ensures { scratch.new ≡ with_command_of transfer scratch.old }
{
    match transfer {
        Transfer::Framed { command, body } if !is_quad(body) => {
            command::put_command(command, scratch);
        }
        _ => {}
    }
}

fn put_body(command: Command, body: Body, scratch: &mut [u8])
    ensures { scratch.new ≡ with_body command body scratch.old }
{
    match body {
        Body::None | Body::Read { .. } => {}
        Body::Write(payload) => put_payload(payload, scratch),
        Body::QuadRead { .. } => command::put_command(command, scratch),
        Body::QuadWrite(payload) => {
            command::put_command(command, scratch);
            put_payload(payload, scratch);
        }
    }
}

fn put_at_payload(transfer: Transfer, scratch: &mut [u8])
    ensures { scratch.new ≡ with_payload_of transfer scratch.old }
{
    if let Transfer::Framed { command, body } = transfer {
        put_body(command, body, scratch);
    }
}

/// Gives the frame's action out, with its command, filler or marker put into the scratch.
#[tactic(auto, unfolding(crate::specs::Frame::action_of, crate::specs::Frame::given_scratch))]
pub fn give(frame: Frame, scratch: &mut [u8]) -> Action
    ensures value { result ≡ action_of frame }
    ensures scratch_after { scratch.new ≡ given_scratch frame scratch.old }
{
    match frame.stage {
        Stage::Start | Stage::High => {}
        Stage::Command => put_at_command(frame.transfer, scratch),
        Stage::Payload => put_at_payload(frame.transfer, scratch),
    }
    pending(frame)
}
