//! The transfers of the calls, at the configured bus width.
ghost use Rattle.std.specs.Prelude.{◌≡◌, ◌+◌, ◌-◌};
ghost use Rattle.spi_flash.specs.Range.{span};
ghost use Rattle.spi_nand.specs.Transfer.{register_transfer, id_transfer, cache_read_transfer, cache_load_transfer, task_operation, in_cache, in_range, place_of, page_at, column_at, chunk_of, filler_of};

use crate::command;
use crate::config::{NandGeometry, SpiNandConfig};
use crate::opcode::Operation;
use crate::phase::Task;
use qspi::transfer::{Body, Payload, Sink, Transfer};
use spi_flash::range::Span;
use spi_flash::{number, range};

/// read_register: a byte, taken as a number.
pub fn register_transfer(register: u8) -> Transfer
    ensures { result ≡ register_transfer register }
{
    number::number_transfer(command::get_feature_command(register), 1)
}

/// jedec_id: three bytes, taken as a number.
pub fn id_transfer() -> Transfer
    ensures { result ≡ id_transfer }
{
    number::number_transfer(command::read_id_command(), 3)
}

// Both widths stand here, and in the NOR's transfers likewise: a common form would take both commands, the timing and the
// margin beside what is read, and the match would stand at each call of it.
/// read_cache, on one line or four.
#[tactic(auto, unfolding(crate::specs::Transfer::cache_read_transfer))]
pub fn cache_read_transfer(config: SpiNandConfig, column: usize, len: usize, sink: Sink) -> Transfer
    ensures { result ≡ cache_read_transfer config column len sink }
{
    match config.quad {
        None => Transfer::Framed {
            command: command::read_cache_command(column),
            body: Body::Read { len, sink },
        },
        Some(q) => Transfer::Framed {
            command: command::quad_read_cache_command(q, column),
            body: Body::QuadRead {
                tclqv_ns: q.tclqv_ns,
                margin: q.dummy_margin,
                len,
                sink,
            },
        },
    }
}

/// load_program_data, on one line or four.
#[tactic(auto, unfolding(crate::specs::Transfer::cache_load_transfer))]
pub fn cache_load_transfer(config: SpiNandConfig, column: usize, payload: Payload) -> Transfer
    ensures { result ≡ cache_load_transfer config column payload }
{
    match config.quad {
        None => Transfer::Framed {
            command: command::load_program_data_command(column),
            body: Body::Write(payload),
        },
        Some(q) => Transfer::Framed {
            command: command::quad_load_program_data_command(q, column),
            body: Body::QuadWrite(payload),
        },
    }
}

/// Whose wait follows.
#[tactic(auto, unfolding(crate::specs::Transfer::task_operation))]
pub fn task_operation(task: Task) -> Operation
    ensures { result ≡ task_operation task }
{
    match task {
        Task::Reset(_) => Operation::Reset,
        Task::Register(_) => Operation::WriteRegister,
        Task::Load(_) => Operation::PageRead,
        Task::Program(_) => Operation::Program,
        Task::Erase(_) => Operation::Erase,
    }
}

/// What check_cache_range tests.
#[tactic(auto, unfolding(crate::specs::Transfer::in_cache))]
pub fn in_cache(geometry: NandGeometry, column: usize, length: usize) -> bool
    ensures { result ≡ in_cache geometry column length }
{
    range::range_in_bounds(geometry.cache_size(), column, length)
}

/// What check_range tests.
#[tactic(auto, unfolding(crate::specs::Transfer::in_range))]
pub fn in_range(geometry: NandGeometry, offset: usize, length: usize) -> bool
    ensures { result ≡ in_range geometry offset length }
{
    range::range_in_bounds(geometry.capacity(), offset, length)
}

// ---- the pieces of read

/// Where the next piece begins: `offset + done`.
#[tactic(auto, unfolding(crate::specs::Transfer::place_of))]
pub fn place(span: Span<usize>) -> usize
    ensures { result ≡ place_of span.offset span.done }
{
    span.offset.wrapping_add(span.done)
}

/// The page of a byte; no construction takes a page of 0 bytes.
pub fn page_at(geometry: NandGeometry, address: usize) -> usize
    ensures { result ≡ page_at geometry address }
{
    address.checked_div(geometry.page_size).unwrap_or(0)
}

/// The column of a byte.
pub fn column_at(geometry: NandGeometry, address: usize) -> usize
    ensures { result ≡ column_at geometry address }
{
    address.checked_rem(geometry.page_size).unwrap_or(address)
}

// The bytes from the next piece's column to the end of its page.
fn page_rest(geometry: NandGeometry, span: Span<usize>) -> usize
    ensures { result ≡ geometry.page_size - column_at geometry (place_of span.offset span.done) }
{
    let column = column_at(geometry, place(span));
    geometry.page_size.saturating_sub(column)
}

/// The bytes of the next piece: what is left of its page, or of the buffer.
#[tactic(auto, unfolding(crate::specs::Transfer::chunk_of))]
pub fn chunk(geometry: NandGeometry, span: Span<usize>) -> usize
    ensures { result ≡ chunk_of geometry span.offset span.len span.done }
{
    range::piece(page_rest(geometry, span), span.len, span.done)
}

/// Where the call stands after that piece.
#[tactic(auto, unfolding(crate::specs::Transfer::chunk_of))]
pub fn past_chunk(geometry: NandGeometry, s: Span<usize>) -> Span<usize>
    ensures { result ≡ span s.offset s.len (s.done + chunk_of geometry s.offset s.len s.done) }
{
    s.past(page_rest(geometry, s))
}

// ---- mark_bad_block's filler

/// The bytes of FF_CHUNK, a constant of the Rust. What the scratch has room for is FILLER_MOST of qspi.
pub const FILLER_CHUNK: usize = 256;

/// The bytes of the next load of filler.
#[tactic(auto, unfolding(crate::specs::Transfer::filler_of))]
pub fn filler(geometry: NandGeometry, column: usize) -> usize
    ensures { result ≡ filler_of geometry column }
{
    range::piece(FILLER_CHUNK, geometry.page_size, column)
}

// By `range::past_piece`, as in `Span::past`. A column is no Span, which would hold an offset and the page's
// size beside it.
/// The column after that load.
#[tactic(auto, unfolding(crate::specs::Transfer::filler_of))]
pub fn past_filler(geometry: NandGeometry, column: usize) -> usize
    ensures { result ≡ column + filler_of geometry column }
{
    range::past_piece(FILLER_CHUNK, geometry.page_size, column)
}
