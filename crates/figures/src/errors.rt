//! The number of each error, and its kind.
use crate::line;
use spi_flash::error::{FlashError, NorFlashErrorKind};
use std::io;

pub(crate) fn all(rt: &impl Print) -> io::Result<()> {
    for (name, e) in [
        ("spi", FlashError::Spi(255)),
        ("timeout", FlashError::Timeout),
        ("not_aligned", FlashError::NotAligned),
        ("invalid_length", FlashError::InvalidLength),
        ("out_of_bounds", FlashError::OutOfBounds),
        ("verify_failed", FlashError::VerifyFailed),
        ("write_enable_failed", FlashError::WriteEnableFailed),
        ("uncorrectable_ecc", FlashError::UncorrectableEcc),
        ("erase_failed", FlashError::EraseFailed),
        ("program_failed", FlashError::ProgramFailed),
        ("not_supported", FlashError::NotSupported),
        ("invalid_geometry", FlashError::InvalidGeometry),
        ("out_of_turn", FlashError::OutOfTurn),
        ("misfit", FlashError::Misfit),
        ("malformed_tape", FlashError::MalformedTape),
        ("tape_spent", FlashError::TapeSpent),
    ] {
        error(rt, name, e)?;
    }
    Ok(())
}

fn error(rt: &impl Print, name: &str, e: FlashError) -> io::Result<()> {
    line::name(rt, name)?;
    line::decimal(rt, u64::from(e.number()))?;
    kind(rt, e.nor_flash_kind())?;
    line::end(rt)
}

// Words of this program's lines: the type is another crate's, where a Display would say them to all.
fn kind(rt: &impl Print, k: NorFlashErrorKind) -> io::Result<()> {
    match k {
        NorFlashErrorKind::NotAligned => line::word(rt, "kind_not_aligned"),
        NorFlashErrorKind::OutOfBounds => line::word(rt, "kind_out_of_bounds"),
        NorFlashErrorKind::Other => line::word(rt, "kind_other"),
    }
}
