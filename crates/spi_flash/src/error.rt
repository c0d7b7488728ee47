//! The errors of both drivers (spi_flash/error.rs), with the refusals that stepping and the tape add.
ghost use Rattle.std.specs.Prelude.{◌≡◌};
ghost use Rattle.spi_flash.specs.Error.{error_number, kind_of};

use qspi::bus::BusError;

/// Why a call has failed or has been turned away.
#[derive(Clone, Copy, Debug, PartialEq, Eq)]
pub enum FlashError {
    // The bus failed, with its code.
    Spi(u8),
    // The part stayed busy past the operation's limit.
    Timeout,
    NotAligned,
    InvalidLength,
    OutOfBounds,
    // What was read back is not what was written.
    VerifyFailed,
    // The write-enable latch did not set.
    WriteEnableFailed,
    UncorrectableEcc,
    EraseFailed,
    ProgramFailed,
    NotSupported,
    // Added: a geometry outside the bounds.
    InvalidGeometry,
    // Added: a call during another or without a driver, or a reply where none is awaited.
    OutOfTurn,
    // Added: a reply or something lent that does not fit the action awaited.
    Misfit,
    // Added: a tape that is no tape.
    MalformedTape,
    // Added: a bus action awaits and the tape has no record left.
    TapeSpent,
}

/// embedded_storage's NorFlashErrorKind.
#[derive(Clone, Copy)]
pub enum NorFlashErrorKind {
    NotAligned,
    OutOfBounds,
    Other,
}

impl FlashError {
    /// The error's number, from 1 to 16. No discriminant has it, since Spi carries its code, and no From, since that code is a u8 of the error too.
    pub fn number(self) -> u8
        ensures { result ≡ error_number self }
    {
        match self {
            FlashError::Spi(_) => 1,
            FlashError::Timeout => 2,
            FlashError::NotAligned => 3,
            FlashError::InvalidLength => 4,
            FlashError::OutOfBounds => 5,
            FlashError::VerifyFailed => 6,
            FlashError::WriteEnableFailed => 7,
            FlashError::UncorrectableEcc => 8,
            FlashError::EraseFailed => 9,
            FlashError::ProgramFailed => 10,
            FlashError::NotSupported => 11,
            FlashError::InvalidGeometry => 12,
            FlashError::OutOfTurn => 13,
            FlashError::Misfit => 14,
            FlashError::MalformedTape => 15,
            FlashError::TapeSpent => 16,
        }
    }

    /// A method of this name is the Rust's, and no From.
    pub fn nor_flash_kind(self) -> NorFlashErrorKind
        ensures { result ≡ kind_of self }
    {
        match self {
            FlashError::NotAligned | FlashError::InvalidLength => NorFlashErrorKind::NotAligned,
            FlashError::OutOfBounds => NorFlashErrorKind::OutOfBounds,
            _ => NorFlashErrorKind::Other,
        }
    }
}

// A failed bus call ends the driver's call.
impl From<BusError> for FlashError {
    ghost use Rattle.spi_flash.specs.declared.error.FlashError.{FlashError};

    ghost from_gives = { λ error made. made ≡ FlashError.Spi error.0 };

    fn from(error: BusError) -> FlashError
        ensures { result ≡ FlashError.Spi error.0 }
    {
        FlashError::Spi(error.0)
    }
}
