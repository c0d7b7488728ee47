//! read, piece by piece.
ghost use Rattle.std.specs.Prelude.{◌+◌, ◌≡◌};
ghost use Rattle.spi_nor.specs.Transfer.{chunk_of};
ghost use Rattle.nor_steps.specs.Read.{read_from, read_then};

use crate::go;
use crate::then::Then;
use qspi::transfer::Sink;
use spi_flash::error::FlashError;
use spi_flash::range;
use spi_flash::range::Span;
use spi_nor::answer::Answer;
use spi_nor::phase::Phase;
use spi_nor::setup::Setup;
use spi_nor::transfer;

/// The next piece of `read`, or its end.
#[tactic(auto, unfolding(crate::specs::Read::read_from))]
pub fn read_from(setup: Setup, span: Span<u32>) -> Then
    ensures { result ≡ read_from setup span.offset span.len span.done }
{
    if span.done < span.len {
        return go::go(
            setup,
            transfer::read_transfer(
                setup,
                transfer::place(span),
                transfer::chunk(span),
                Sink::Buffer(span.done),
            ),
            Phase::Reading(span),
        );
    }
    go::end(setup, Answer::Done)
}

/// `read` from its beginning: the range is tested first. The NAND's begins alike, over the Rust's other type of offset and other pieces.
#[tactic(auto, unfolding(crate::specs::Read::read_then))]
pub fn read_then(setup: Setup, offset: u32, len: usize) -> Then
    ensures { result ≡ read_then setup offset len }
{
    if !range::range_in_bounds(setup.device.capacity, offset as usize, len) {
        return Err(FlashError::OutOfBounds);
    }
    read_from(setup, Span::whole(offset, len))
}

/// `done += length`
pub fn piece_read(setup: Setup, span: Span<u32>) -> Then
    ensures { result ≡ read_from setup span.offset span.len (span.done + chunk_of span.len span.done) }
{
    read_from(setup, transfer::past_chunk(span))
}
