//! The transfers of the calls, at the configured bus width.
ghost use Rattle.std.specs.Prelude.{◌≡◌, ◌+◌};
ghost use Rattle.qspi.specs.Transfer.{command_only};
ghost use Rattle.spi_flash.specs.Range.{span};
ghost use Rattle.spi_nor.specs.Command.{write_status1_command, write_status2_command};
ghost use Rattle.spi_nor.specs.Transfer.{place_of, chunk_of, page_of, read_transfer, program_transfer, erase_transfer, task_transfer, task_operation, unit_size, step_kind, after_unit};

use crate::config::NorDeviceInfo;
use crate::opcode::Operation;
use crate::phase::{EraseKind, Task};
use crate::setup::Setup;
use crate::{command, opcode, status};
use qspi::transfer::{Body, Payload, Sink, Transfer};
use spi_flash::range;
use spi_flash::range::Span;

/// `offset + done as u32`; the NAND's offset is a usize, as in the Rust.
#[tactic(auto, unfolding(crate::specs::Transfer::place_of))]
pub fn place(span: Span<u32>) -> u32
    ensures { result ≡ place_of span.offset span.done }
{
    span.offset.wrapping_add((span.done % 4294967296) as u32)
}

/// The bytes of the next piece of `read`.
#[tactic(auto, unfolding(crate::specs::Transfer::chunk_of))]
pub fn chunk(span: Span<u32>) -> usize
    ensures { result ≡ chunk_of span.len span.done }
{
    range::piece(opcode::MAX_BULK_LEN, span.len, span.done)
}

/// Where the call stands after that piece.
#[tactic(auto, unfolding(crate::specs::Transfer::chunk_of))]
pub fn past_chunk(s: Span<u32>) -> Span<u32>
    ensures { result ≡ span s.offset s.len (s.done + chunk_of s.len s.done) }
{
    s.past(opcode::MAX_BULK_LEN)
}

/// The bytes of the next page of `write`.
#[tactic(auto, unfolding(crate::specs::Transfer::page_of))]
pub fn page_chunk(device: NorDeviceInfo, span: Span<u32>) -> usize
    ensures { result ≡ page_of device span.len span.done }
{
    range::piece(device.page_size, span.len, span.done)
}

/// Where the call stands after that page.
#[tactic(auto, unfolding(crate::specs::Transfer::page_of))]
pub fn past_page(device: NorDeviceInfo, s: Span<u32>) -> Span<u32>
    ensures { result ≡ span s.offset s.len (s.done + page_of device s.len s.done) }
{
    s.past(device.page_size)
}

// Both widths stand here, and in the NAND's transfers likewise: a common form would take both commands, the timing and the margin
// beside what is read, and the match would stand at each call of it.
/// A piece of read, or the read-back of a page, on one line or four.
#[tactic(auto, unfolding(crate::specs::Transfer::read_transfer))]
pub fn read_transfer(setup: Setup, offset: u32, len: usize, sink: Sink) -> Transfer
    ensures { result ≡ read_transfer setup offset len sink }
{
    match setup.config.quad {
        None => Transfer::Framed {
            command: command::read_command(offset),
            body: Body::Read { len, sink },
        },
        Some(q) => Transfer::Framed {
            command: command::quad_read_command(q, offset),
            body: Body::QuadRead {
                tclqv_ns: q.tclqv_ns,
                margin: q.dummy_margin,
                len,
                sink,
            },
        },
    }
}

// The data by place and length, as in `Payload`.
#[tactic(auto, unfolding(crate::specs::Transfer::program_transfer))]
fn program_transfer(setup: Setup, offset: u32, from: usize, len: usize) -> Transfer
    ensures { result ≡ program_transfer setup offset from len }
{
    let payload = Payload::Data { from, len };
    match setup.config.quad {
        None => Transfer::Framed {
            command: command::page_program_command(offset),
            body: Body::Write(payload),
        },
        Some(q) => Transfer::Framed {
            command: command::quad_page_program_command(q, offset),
            body: Body::QuadWrite(payload),
        },
    }
}

fn erase_transfer(kind: EraseKind, address: u32) -> Transfer
    ensures { result ≡ erase_transfer kind address }
{
    match kind {
        EraseKind::Sector => qspi::transfer::command_only(command::sector_erase_command(address)),
        EraseKind::Block => qspi::transfer::command_only(command::block_erase_command(address)),
    }
}

/// What a task sends once the write-enable latch is set.
#[tactic(auto, unfolding(crate::specs::Transfer::task_transfer))]
pub fn task_transfer(setup: Setup, task: Task) -> Transfer
    ensures { result ≡ task_transfer setup task }
{
    match task {
        Task::EnableQuad2(status2) => write_status2(status::with(status::QE_SR2, status2)),
        Task::EnableQuad1(status1) => write_status1(status::with(status::QE_SR1, status1)),
        Task::DisableQuad2(status2) => write_status2(status::without(status::QE_SR2, status2)),
        Task::DisableQuad1(status1) => write_status1(status::without(status::QE_SR1, status1)),
        Task::Unprotect1 { before, .. } => {
            write_status1(status::without(status::SR1_PROTECT_MASK, before))
        }
        Task::Unprotect2 { status2, .. } => {
            write_status2(status::without(status::SR2_PROTECT_MASK, status2))
        }
        Task::PageProgram(span) => program_transfer(
            setup,
            place(span),
            span.done,
            page_chunk(setup.device, span),
        ),
        Task::Erase { kind, address, .. } => erase_transfer(kind, address),
    }
}

// The Rust's write_status1 and write_status2. What they share is command_only.
fn write_status1(value: u8) -> Transfer
    ensures { result ≡ command_only (write_status1_command value) }
{
    qspi::transfer::command_only(command::write_status1_command(value))
}

fn write_status2(value: u8) -> Transfer
    ensures { result ≡ command_only (write_status2_command value) }
{
    qspi::transfer::command_only(command::write_status2_command(value))
}

/// Whose wait follows.
#[tactic(auto, unfolding(crate::specs::Transfer::task_operation))]
pub fn task_operation(task: Task) -> Operation
    ensures { result ≡ task_operation task }
{
    match task {
        Task::EnableQuad2(_)
        | Task::EnableQuad1(_)
        | Task::DisableQuad2(_)
        | Task::DisableQuad1(_)
        | Task::Unprotect1 { .. }
        | Task::Unprotect2 { .. } => Operation::StatusWrite,
        Task::PageProgram(_) => Operation::PageProgram,
        Task::Erase { kind, .. } => match kind {
            EraseKind::Sector => Operation::SectorErase,
            EraseKind::Block => Operation::BlockErase,
        },
    }
}

/// The bytes that an erase clears.
pub fn unit_size(device: NorDeviceInfo, kind: EraseKind) -> usize
    ensures { result ≡ unit_size device kind }
{
    match kind {
        EraseKind::Sector => device.sector_size,
        EraseKind::Block => device.block_size,
    }
}

/// erase_step: a whole block where one fits, else a sector. Address and end stay two, as in `erase`.
#[tactic(auto, unfolding(crate::specs::Transfer::step_kind, crate::specs::Transfer::multiple_of))]
pub fn step_kind(device: NorDeviceInfo, address: u32, end: u32) -> EraseKind
    ensures { result ≡ step_kind device address end }
{
    let block = device.block_size;
    if (address as usize).is_multiple_of(block)
        && address <= end
        && block <= (end - address) as usize
    {
        EraseKind::Block
    } else {
        EraseKind::Sector
    }
}

/// erase_step's next address
#[tactic(auto, unfolding(crate::specs::Transfer::after_unit))]
pub fn after_unit(device: NorDeviceInfo, kind: EraseKind, address: u32) -> u32
    ensures { result ≡ after_unit device kind address }
{
    let size = unit_size(device, kind);
    address.wrapping_add((size % 4294967296) as u32)
}
