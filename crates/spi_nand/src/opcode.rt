//! Opcodes, register addresses and wait limits (nand/opcode.rs). The Rust has such a file for each part, and they share no more than
//! numbers.
ghost use Rattle.std.specs.Prelude.{◌≡◌};
ghost use Rattle.spi_nand.specs.Opcode.{timings_of};

use spi_flash::wait::Timings;

/// Resets the part.
pub const RESET: u8 = 0xFF;
/// Followed by a dummy byte.
pub const READ_ID: u8 = 0x9F;
/// Followed by a register.
pub const GET_FEATURE: u8 = 0x0F;
/// Followed by a register and its value.
pub const SET_FEATURE: u8 = 0x1F;

/// Sets the write-enable latch.
pub const WRITE_ENABLE: u8 = 0x06;
/// From the array into the cache. Followed by a page in three bytes.
pub const PAGE_READ: u8 = 0x13;
/// Followed by a column in two bytes and a dummy byte.
pub const READ_CACHE: u8 = 0x03;
/// Followed by the block's first page in three bytes.
pub const BLOCK_ERASE: u8 = 0xD8;
/// Followed by a column in two bytes.
pub const LOAD_PROGRAM_DATA: u8 = 0x02;
/// From the cache into the array. Followed by a page in three bytes.
pub const PROGRAM_EXECUTE: u8 = 0x10;

/// READ_CACHE on four lines: the number of the Rust's NandQuadConfig::W25N01GV.
pub const QUAD_READ_CACHE: u8 = 0x6B;

/// LOAD_PROGRAM_DATA on four lines, likewise.
pub const QUAD_LOAD_PROGRAM_DATA: u8 = 0x32;

/// Address of the protection register.
pub const REG_BLOCK_PROTECTION: u8 = 0xA0;

/// Address of the configuration register.
pub const REG_CONFIGURATION: u8 = 0xB0;

/// Address of the status register.
pub const REG_STATUS: u8 = 0xC0;

/// What a wait waits for.
#[derive(Clone, Copy)]
pub enum Operation {
    Reset,
    PageRead,
    Program,
    Erase,
    WriteRegister,
}

// The waits: a row for each operation, in the order of Operation's variants.
const WAITS: [Timings; 5] = [
    Timings {
        initial_us: 10,
        poll_us: 10,
        timeout_us: 500_000,
    },
    Timings {
        initial_us: 10,
        poll_us: 10,
        timeout_us: 400_000,
    },
    Timings {
        initial_us: 75,
        poll_us: 15,
        timeout_us: 400_000,
    },
    Timings {
        initial_us: 250,
        poll_us: 50,
        timeout_us: 400_000,
    },
    Timings {
        initial_us: 10,
        poll_us: 10,
        timeout_us: 10_000,
    },
];

/// The row of an operation.
#[tactic(auto, unfolding(crate::specs::Opcode::timings_of))]
pub fn timings(operation: Operation) -> Timings
    ensures { result ≡ timings_of operation }
{
    WAITS[operation as usize]
}
