//! Blocks: erase_block, the bad-block marker, and mark_bad_block.
ghost use Rattle.std.specs.Prelude.{◌≡◌};
ghost use Rattle.nand_steps.specs.Block.{erase_then, erased_then, checked_then, confirmed_then, marker_then, fill_from, filled_then, mark_then};

use crate::then::Then;
use crate::{cache, go, page};
use qspi::transfer::Payload;
use spi_flash::error::FlashError;
use spi_nand::answer::Answer;
use spi_nand::phase::{EnableFor, EraseFor, MarkerFor, Phase, ProgramFor};
use spi_nand::setup::Setup;
use spi_nand::status::Status;
use spi_nand::transfer;

/// The marker of a good block.
pub const GOOD_MARKER: u8 = 0xFF;

// ---- erase_block

/// erase_block, and its part in mark_bad_block.
#[tactic(auto, unfolding(crate::specs::Block::erase_then))]
pub fn erase_block(setup: Setup, block: usize, why: EraseFor) -> Then
    ensures { result ≡ erase_then setup block why }
{
    if block >= setup.geometry.block_count {
        return Err(FlashError::OutOfBounds);
    }
    go::enable(setup, EnableFor::Erase { block, why })
}

/// page::programmed tests another bit and goes on otherwise; only the two branches are alike.
#[tactic(auto, unfolding(crate::specs::Block::erased_then))]
pub fn erased(setup: Setup, why: EraseFor, status: Status) -> Then
    ensures { result ≡ erased_then setup why status }
{
    if status.erase_failed() {
        return Err(FlashError::EraseFailed);
    }
    match why {
        EraseFor::Call => go::done(setup),
        EraseFor::MarkBad(block) => go::enable(setup, EnableFor::MarkBad(block)),
    }
}

// ---- the marker

// A block that is marked stays as it is.
fn checked(setup: Setup, block: usize, bad: bool) -> Then
    ensures { result ≡ checked_then setup block bad }
{
    if bad {
        return go::done(setup);
    }
    erase_block(setup, block, EraseFor::MarkBad(block))
}

fn confirmed(setup: Setup, bad: bool) -> Then
    ensures { result ≡ confirmed_then setup bad }
{
    if bad {
        return go::done(setup);
    }
    Err(FlashError::VerifyFailed)
}

/// is_bad_block's answer, and what it is for.
#[tactic(auto, unfolding(crate::specs::Block::marker_then))]
pub fn marker(setup: Setup, why: MarkerFor, marker: u8) -> Then
    ensures { result ≡ marker_then setup why marker }
{
    let bad = marker != GOOD_MARKER;
    match why {
        MarkerFor::Call => go::end(setup, Answer::Flag(bad)),
        MarkerFor::Check(block) => checked(setup, block, bad),
        MarkerFor::Confirm => confirmed(setup, bad),
    }
}

// ---- mark_bad_block: filler over the whole page, then the marker behind it

/// The loop's head: `while column < page_size`.
#[tactic(auto, unfolding(crate::specs::Block::fill_from))]
pub fn fill(setup: Setup, block: usize, column: usize) -> Then
    ensures { result ≡ fill_from setup block column }
{
    let geometry = setup.geometry;
    let page_size = geometry.page_size;
    if column < page_size {
        return cache::load_program_data(
            setup,
            column,
            Payload::Filler(transfer::filler(geometry, column)),
            Phase::LoadingFiller { block, column },
        );
    }
    cache::load_program_data(
        setup,
        page_size,
        Payload::Marker,
        Phase::LoadingMarker(block),
    )
}

/// A load of filler is done.
pub fn filled(setup: Setup, block: usize, column: usize) -> Then
    ensures { result ≡ filled_then setup block column }
{
    fill(setup, block, transfer::past_filler(setup.geometry, column))
}

/// The cache holds filler and marker.
pub fn mark(setup: Setup, block: usize) -> Then
    ensures { result ≡ mark_then setup block }
{
    let geometry = setup.geometry;
    page::program(
        setup,
        geometry.first_page(block),
        ProgramFor::MarkBad(block),
    )
}
