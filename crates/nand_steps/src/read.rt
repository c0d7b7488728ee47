//! read, page by page: each piece waits for the load of its page and for the verdict.
ghost use Rattle.std.specs.Prelude.{◌≡◌};
ghost use Rattle.spi_flash.specs.Range.{checked};
ghost use Rattle.spi_nand.specs.Transfer.{in_range};
ghost use Rattle.nand_steps.specs.Read.{read_from, read_then, piece_read_then};

use crate::then::Then;
use crate::{go, page};
use spi_flash::error::FlashError;
use spi_flash::range;
use spi_flash::range::Span;
use spi_nand::config::NandGeometry;
use spi_nand::phase::LoadFor;
use spi_nand::setup::Setup;
use spi_nand::transfer;

fn check_range(geometry: NandGeometry, offset: usize, length: usize) -> Result<(), FlashError>
    ensures { result ≡ checked (in_range geometry offset length) }
{
    range::checked(transfer::in_range(geometry, offset, length))
}

/// The NOR's `read` begins alike, over the Rust's other type of offset and other pieces: what they share is range_in_bounds and Span.
#[tactic(auto, unfolding(crate::specs::Read::read_then))]
pub fn read(setup: Setup, offset: usize, len: usize) -> Then
    ensures { result ≡ read_then setup offset len }
{
    check_range(setup.geometry, offset, len)?;
    read_from(setup, Span::whole(offset, len))
}

// The loop's head: `while done < buffer.len()`.
#[tactic(auto, unfolding(crate::specs::Read::read_from))]
fn read_from(setup: Setup, span: Span<usize>) -> Then
    ensures { result ≡ read_from setup span.offset span.len span.done }
{
    if span.done < span.len {
        return page::page_read(
            setup,
            transfer::page_at(setup.geometry, transfer::place(span)),
            LoadFor::Read(span),
        );
    }
    go::done(setup)
}

/// A piece is in the buffer.
pub fn piece_read(setup: Setup, span: Span<usize>) -> Then
    ensures { result ≡ piece_read_then setup span.offset span.len span.done }
{
    read_from(setup, transfer::past_chunk(setup.geometry, span))
}
