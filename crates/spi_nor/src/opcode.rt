//! Opcodes and wait limits (nor/opcode.rs). The Rust has such a file for each part, and they share no more than numbers.
ghost use Rattle.std.specs.Prelude.{◌≡◌};
ghost use Rattle.spi_nor.specs.Opcode.{timings_of};

use spi_flash::wait::Timings;

/// Sets the write-enable latch.
pub const WRITE_ENABLE: u8 = 0x06;

/// Asks for status register 1.
pub const READ_STATUS1: u8 = 0x05;

/// Asks for status register 2.
pub const READ_STATUS2: u8 = 0x35;

/// Followed by the byte for status register 1.
pub const WRITE_STATUS1: u8 = 0x01;

/// Followed by the byte for status register 2.
pub const WRITE_STATUS2: u8 = 0x31;
/// Followed by an address in three bytes and a page, on a single line.
pub const PAGE_PROGRAM: u8 = 0x02;
/// Of 4 KiB; followed by an address in three bytes.
pub const SECTOR_ERASE: u8 = 0x20;
/// Of 64 KiB; followed by an address in three bytes.
pub const BLOCK_ERASE: u8 = 0xD8;
/// Followed by an address in three bytes, on a single line.
pub const READ: u8 = 0x03;

/// Answered by three bytes.
pub const READ_ID: u8 = 0x9F;
/// Followed by four dummy bytes.
pub const READ_UNIQUE_ID: u8 = 0x4B;

/// READ on four lines: the number of the Rust's NorQuadConfig::W25Q128JV.
pub const QUAD_READ: u8 = 0x6B;

/// PAGE_PROGRAM on four lines, likewise.
pub const QUAD_PAGE_PROGRAM: u8 = 0x32;

/// Delay between two looks at the busy bit.
pub const POLL_INTERVAL_US: u32 = 100;

/// Limit of the wait for a page.
pub const PAGE_PROGRAM_TIMEOUT_US: u32 = 20_000;

/// Limit of the wait for a sector.
pub const SECTOR_ERASE_TIMEOUT_US: u32 = 1_000_000;

/// Limit of the wait for a block.
pub const BLOCK_ERASE_TIMEOUT_US: u32 = 5_000_000;

/// Limit of the wait for a status register.
pub const STATUS_WRITE_TIMEOUT_US: u32 = 100_000;
/// Most bytes of one transfer.
pub const MAX_BULK_LEN: usize = 64 * 1024;

/// What is waited for.
#[derive(Clone, Copy)]
pub enum Operation {
    PageProgram,
    SectorErase,
    BlockErase,
    StatusWrite,
}

// The waits: a row for each operation, in the order of Operation's variants. The first look comes at once.
const WAITS: [Timings; 4] = [
    Timings {
        initial_us: 0,
        poll_us: POLL_INTERVAL_US,
        timeout_us: PAGE_PROGRAM_TIMEOUT_US,
    },
    Timings {
        initial_us: 0,
        poll_us: POLL_INTERVAL_US,
        timeout_us: SECTOR_ERASE_TIMEOUT_US,
    },
    Timings {
        initial_us: 0,
        poll_us: POLL_INTERVAL_US,
        timeout_us: BLOCK_ERASE_TIMEOUT_US,
    },
    Timings {
        initial_us: 0,
        poll_us: POLL_INTERVAL_US,
        timeout_us: STATUS_WRITE_TIMEOUT_US,
    },
];

/// The row of an operation.
#[tactic(auto, unfolding(crate::specs::Opcode::timings_of))]
pub fn timings(operation: Operation) -> Timings
    ensures { result ≡ timings_of operation }
{
    WAITS[operation as usize]
}
