//! The chip's cache: what is read from it and loaded into it.
ghost use Rattle.std.specs.Prelude.{◌≡◌};
ghost use Rattle.spi_flash.specs.Range.{checked};
ghost use Rattle.spi_nand.specs.Transfer.{in_cache};
ghost use Rattle.nand_steps.specs.Cache.{read_cache_then, whole_then, read_marker_then, piece_then, compared_then, payload_length, load_program_then};

use crate::go;
use crate::then::Then;
use qspi::transfer::{Payload, Sink};
use spi_flash::error::FlashError;
use spi_flash::range;
use spi_flash::range::Span;
use spi_nand::config::NandGeometry;
use spi_nand::phase::{MarkerFor, Phase};
use spi_nand::setup::Setup;
use spi_nand::transfer;

// Column and length stay two, as in the Rust: a Span is of many pieces, this of one.
fn check_cache_range(geometry: NandGeometry, column: usize, length: usize) -> Result<(), FlashError>
    ensures { result ≡ checked (in_cache geometry column length) }
{
    range::checked(transfer::in_cache(geometry, column, length))
}

/// read_cache, and every read of the cache in another call.
#[tactic(auto, unfolding(crate::specs::Cache::read_cache_then))]
pub fn read_cache(setup: Setup, column: usize, len: usize, sink: Sink, phase: Phase) -> Then
    ensures { result ≡ read_cache_then setup column len sink phase }
{
    check_cache_range(setup.geometry, column, len)?;
    go::go(
        setup,
        transfer::cache_read_transfer(setup.config, column, len, sink),
        phase,
    )
}

fn whole(setup: Setup, sink: Sink, phase: Phase) -> Then
    ensures { result ≡ whole_then setup sink phase }
{
    read_cache(setup, 0, setup.geometry.page_size, sink, phase)
}

/// read_page's whole page, into the buffer.
pub fn read_whole(setup: Setup) -> Then
    ensures { result ≡ whole_then setup (Sink.Buffer 0) Phase.ReadingCache }
{
    whole(setup, Sink::Buffer(0), Phase::ReadingCache)
}

/// write_page's read-back, compared with the data.
pub fn read_back(setup: Setup) -> Then
    ensures { result ≡ whole_then setup (Sink.Compare 0) Phase.Comparing }
{
    whole(setup, Sink::Compare(0), Phase::Comparing)
}

/// is_bad_block's marker, in the first spare byte.
pub fn read_marker(setup: Setup, why: MarkerFor) -> Then
    ensures { result ≡ read_marker_then setup why }
{
    read_cache(
        setup,
        setup.geometry.page_size,
        1,
        Sink::Number,
        Phase::ReadingMarker(why),
    )
}

/// The piece of read behind `done` bytes.
#[tactic(auto, unfolding(crate::specs::Cache::piece_then))]
pub fn read_piece(setup: Setup, span: Span<usize>) -> Then
    ensures { result ≡ piece_then setup span.offset span.len span.done }
{
    let geometry = setup.geometry;
    read_cache(
        setup,
        transfer::column_at(geometry, transfer::place(span)),
        transfer::chunk(geometry, span),
        Sink::Buffer(span.done),
        Phase::Reading(span),
    )
}

/// write_page's comparison, 0 where the bytes differ: what a transfer gives is a number, also here.
#[tactic(auto, unfolding(crate::specs::Cache::compared_then))]
pub fn compared(setup: Setup, same: u64) -> Then
    ensures { result ≡ compared_then setup same }
{
    if same == 0 {
        return Err(FlashError::VerifyFailed);
    }
    go::done(setup)
}

fn payload_len(payload: Payload) -> usize
    ensures { result ≡ payload_length payload }
{
    match payload {
        Payload::Data { len, .. } => len,
        Payload::Filler(n) => n,
        Payload::Marker => 1,
    }
}

/// load_program_data: of the caller's data, of filler, or of the marker.
#[tactic(auto, unfolding(crate::specs::Cache::load_program_then))]
pub fn load_program_data(setup: Setup, column: usize, payload: Payload, phase: Phase) -> Then
    ensures { result ≡ load_program_then setup column payload phase }
{
    check_cache_range(setup.geometry, column, payload_len(payload))?;
    go::go(
        setup,
        transfer::cache_load_transfer(setup.config, column, payload),
        phase,
    )
}
