//! erase, unit by unit, and both single erases. Address and end stay two, as in the Rust: each is compared or passed on at once.
ghost use Rattle.std.specs.Prelude.{◌≡◌};
ghost use Rattle.nor_steps.specs.Erase.{erase_unit, erase_from, erase_then, erase_one};

use crate::go;
use crate::then::Then;
use spi_flash::error::FlashError;
use spi_flash::range;
use spi_nor::answer::Answer;
use spi_nor::phase::{EraseKind, Task};
use spi_nor::setup::Setup;
use spi_nor::transfer;

/// erase_sector and erase_block, and their part in `erase`.
#[tactic(auto, unfolding(crate::specs::Erase::erase_unit, spi_nor::specs::Transfer::multiple_of))]
pub fn erase_unit(setup: Setup, kind: EraseKind, address: u32, end: u32) -> Then
    ensures { result ≡ erase_unit setup kind address end }
{
    let size = transfer::unit_size(setup.device, kind);
    if !range::range_in_bounds(setup.device.capacity, address as usize, size) {
        return Err(FlashError::OutOfBounds);
    }
    if !(address as usize).is_multiple_of(size) {
        return Err(FlashError::NotAligned);
    }
    go::enabled(setup, Task::Erase { kind, address, end })
}

/// The next step of `erase`, or its end.
#[tactic(auto, unfolding(crate::specs::Erase::erase_from))]
pub fn erase_from(setup: Setup, address: u32, end_at: u32) -> Then
    ensures { result ≡ erase_from setup address end_at }
{
    if address < end_at {
        return erase_unit(
            setup,
            transfer::step_kind(setup.device, address, end_at),
            address,
            end_at,
        );
    }
    go::end(setup, Answer::Done)
}

/// `erase` from its beginning: the range before the alignment.
#[tactic(auto, unfolding(crate::specs::Erase::erase_then, spi_nor::specs::Transfer::multiple_of))]
pub fn erase_then(setup: Setup, from: u32, to: u32) -> Then
    ensures { result ≡ erase_then setup from to }
{
    let sector = setup.device.sector_size;
    if from > to || to as usize > setup.device.capacity {
        return Err(FlashError::OutOfBounds);
    }
    if !(from as usize).is_multiple_of(sector) || !(to as usize).is_multiple_of(sector) {
        return Err(FlashError::NotAligned);
    }
    erase_from(setup, from, to)
}

/// A sector or block for itself.
pub fn erase_one(setup: Setup, kind: EraseKind, offset: u32) -> Then
    ensures { result ≡ erase_one setup kind offset }
{
    erase_unit(
        setup,
        kind,
        offset,
        transfer::after_unit(setup.device, kind, offset),
    )
}
