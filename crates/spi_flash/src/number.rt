//! Reads of registers and ids.
ghost use Rattle.std.specs.Prelude.{◌≡◌};
ghost use Rattle.spi_flash.specs.Number.{number_transfer};

use qspi::command::Command;
use qspi::transfer::{Body, Sink, Transfer};

/// A read whose bytes are a number.
pub fn number_transfer(command: Command, len: usize) -> Transfer
    ensures { result ≡ number_transfer command len }
{
    Transfer::Framed {
        command,
        body: Body::Read {
            len,
            sink: Sink::Number,
        },
    }
}
