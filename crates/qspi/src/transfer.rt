//! One exchange with the chip: the Rust's command, command_then_read and the quad calls between cs_low and cs_high.
ghost use Rattle.std.specs.Prelude.{◌≡◌};
ghost use Rattle.qspi.specs.Transfer.{command_only};

use crate::command::Command;

/// The bytes behind a command that writes. A place and a length, as in `bus::Part`.
#[derive(Clone, Copy)]
pub enum Payload {
    // A part of the caller's data, sent uncopied.
    Data { from: usize, len: usize },
    // FF from place 5 of the scratch, 256 bytes at most.
    Filler(usize),
    // 00 at place 261 of the scratch.
    Marker,
}

/// Where the bytes of a read go.
#[derive(Clone, Copy)]
pub enum Sink {
    // A number, highest byte first: registers and ids.
    Number,
    // The caller's buffer, from a place on.
    Buffer(usize),
    // A comparison with the caller's data, from a place on.
    Compare(usize),
}

/// What follows a command while select is low. The quad calls have the command with their data. None is one of the arms that each reader
/// takes apart.
#[derive(Clone, Copy)]
pub enum Body {
    None,
    Read {
        len: usize,
        sink: Sink,
    },
    Write(Payload),
    QuadRead {
        tclqv_ns: u32,
        margin: u8,
        len: usize,
        sink: Sink,
    },
    QuadWrite(Payload),
}

/// What a call does with the bus at once: it raises select, asks for a delay, or exchanges bytes in a frame.
#[derive(Clone, Copy)]
pub enum Transfer {
    // Select high alone, with which a construction begins.
    Raise,
    Pause(u32),
    // Select low, the command, its body, select high.
    Framed { command: Command, body: Body },
}

/// The Rust's `command`.
pub fn command_only(command: Command) -> Transfer
    ensures { result ≡ command_only command }
{
    Transfer::Framed {
        command,
        body: Body::None,
    }
}
