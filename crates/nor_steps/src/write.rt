//! write, page by page: each is programmed and read back.
ghost use Rattle.std.specs.Prelude.{◌≡◌};
ghost use Rattle.nor_steps.specs.Write.{program_from, verify_then, verified_then, write_then};

use crate::go;
use crate::then::Then;
use qspi::transfer::Sink;
use spi_flash::error::FlashError;
use spi_flash::range;
use spi_flash::range::Span;
use spi_nor::answer::Answer;
use spi_nor::phase::{Phase, Task};
use spi_nor::setup::Setup;
use spi_nor::transfer;

/// The next page of `write`, or its end.
#[tactic(auto, unfolding(crate::specs::Write::program_from))]
pub fn program_from(setup: Setup, span: Span<u32>) -> Then
    ensures { result ≡ program_from setup span.offset span.len span.done }
{
    if span.done < span.len {
        return go::enabled(setup, Task::PageProgram(span));
    }
    go::end(setup, Answer::Done)
}

/// The read-back of a page, compared with the caller's data.
#[tactic(auto, unfolding(crate::specs::Write::verify_then))]
pub fn verify(setup: Setup, span: Span<u32>) -> Then
    ensures { result ≡ verify_then setup span.offset span.len span.done }
{
    let n = transfer::page_chunk(setup.device, span);
    let at = transfer::place(span);
    if !range::range_in_bounds(setup.device.capacity, at as usize, n) {
        return Err(FlashError::OutOfBounds);
    }
    go::go(
        setup,
        transfer::read_transfer(setup, at, n, Sink::Compare(span.done)),
        Phase::Verifying(span),
    )
}

/// The comparison's number, 0 where the bytes differ: what a transfer gives is a number, also here. (The NAND's `compared` likewise, with
/// another end.)
#[tactic(auto, unfolding(crate::specs::Write::verified_then))]
pub fn verified(setup: Setup, span: Span<u32>, same: u64) -> Then
    ensures { result ≡ verified_then setup span.offset span.len span.done same }
{
    if same == 0 {
        return Err(FlashError::VerifyFailed);
    }
    program_from(setup, transfer::past_page(setup.device, span))
}

/// `write` from its beginning: the range before the alignment.
#[tactic(auto, unfolding(crate::specs::Write::write_then, spi_nor::specs::Transfer::multiple_of))]
pub fn write_then(setup: Setup, offset: u32, len: usize) -> Then
    ensures { result ≡ write_then setup offset len }
{
    let page = setup.device.page_size;
    if !range::range_in_bounds(setup.device.capacity, offset as usize, len) {
        return Err(FlashError::OutOfBounds);
    }
    if !(offset as usize).is_multiple_of(page) || !len.is_multiple_of(page) {
        return Err(FlashError::NotAligned);
    }
    program_from(setup, Span::whole(offset, len))
}
