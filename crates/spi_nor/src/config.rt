//! Device parameters and quad configuration (nor/config.rs).
ghost use Rattle.std.specs.Prelude.{◌≡◌};
ghost use Rattle.spi_nor.specs.Config.{capacity_bytes_of, from_jedec, in_bounds_of, quad_w25q128jv, single_config, quad_config};

use crate::opcode;
use spi_flash::rows;

/// Program page size in bytes.
pub const NOR_PAGE_SIZE: usize = 256;
/// Erase sector size in bytes.
pub const NOR_SECTOR_SIZE: usize = 4096;
/// 64 KiB erase block size in bytes.
pub const NOR_BLOCK_SIZE_64K: usize = 65536;
/// Least read unit in bytes.
pub const NOR_READ_SIZE: usize = 1;

/// Added: the bounds of a caller's own geometry. A capacity and a block end where three address bytes do.
pub const MAX_CAPACITY: usize = 16_777_216;
/// Added: the largest page of a caller's own geometry.
pub const MAX_PAGE_SIZE: usize = 65_536;

/// What READ ID (9F) answers.
#[derive(Clone, Copy, Debug, PartialEq, Eq)]
pub struct NorJedecId {
    /// EF for Winbond.
    pub manufacturer: u8,
    /// 40 for Winbond W25QJV.
    pub memory_type: u8,
    /// The capacity code: 2 to this power bytes.
    pub capacity: u8,
}

impl NorJedecId {
    /// The bytes that the capacity code stands for.
    #[tactic(auto, unfolding(crate::specs::Config::capacity_bytes_of))]
    pub fn capacity_bytes(self) -> Option<usize>
        ensures { result ≡ capacity_bytes_of self }
    {
        let code = self.capacity;
        if code >= 16 && code <= 24 {
            Some(1usize << code)
        } else {
            None
        }
    }
}

/// The sizes of a SPI NOR.
#[derive(Clone, Copy, Debug, PartialEq, Eq)]
pub struct NorDeviceInfo {
    pub capacity: usize,
    pub sector_size: usize,
    pub block_size: usize,
    pub page_size: usize,
}

const KNOWN_NOR_DEVICES: [(NorJedecId, NorDeviceInfo); 3] = [
    (
        NorJedecId {
            manufacturer: 0xEF,
            memory_type: 0x40,
            capacity: 0x17,
        },
        NorDeviceInfo::W25Q64JV,
    ),
    (
        NorJedecId {
            manufacturer: 0xEF,
            memory_type: 0x40,
            capacity: 0x18,
        },
        NorDeviceInfo::W25Q128JV,
    ),
    (
        NorJedecId {
            manufacturer: 0xC8,
            memory_type: 0x40,
            capacity: 0x18,
        },
        NorDeviceInfo::W25Q128JV,
    ),
];

impl NorDeviceInfo {
    /// 8 MiB, three address bytes.
    pub const W25Q64JV: Self = Self {
        capacity: 8 * 1024 * 1024,
        sector_size: NOR_SECTOR_SIZE,
        block_size: NOR_BLOCK_SIZE_64K,
        page_size: NOR_PAGE_SIZE,
    };

    /// 16 MiB, three address bytes.
    pub const W25Q128JV: Self = Self {
        capacity: 16 * 1024 * 1024,
        sector_size: NOR_SECTOR_SIZE,
        block_size: NOR_BLOCK_SIZE_64K,
        page_size: NOR_PAGE_SIZE,
    };

    /// The geometry that an id stands for, or else W25Q128JV.
    #[tactic(auto, unfolding(crate::specs::Config::from_jedec))]
    pub fn from_jedec(id: NorJedecId) -> Self
        ensures { result ≡ from_jedec id }
    {
        let unknown = match id.capacity_bytes() {
            Some(capacity) => Self {
                capacity,
                sector_size: NOR_SECTOR_SIZE,
                block_size: NOR_BLOCK_SIZE_64K,
                page_size: NOR_PAGE_SIZE,
            },
            None => Self::W25Q128JV,
        };
        rows::known(&KNOWN_NOR_DEVICES, id).unwrap_or(unknown)
    }

    /// Added: whether a caller's own geometry is one that the driver takes.
    #[tactic(auto, unfolding(crate::specs::Config::in_bounds_of))]
    pub fn in_bounds(self) -> bool
        ensures { result ≡ in_bounds_of self }
    {
        self.capacity <= MAX_CAPACITY
            && self.page_size >= 1
            && self.page_size <= MAX_PAGE_SIZE
            && self.sector_size >= 1
            && self.block_size >= 1
            && self.block_size <= MAX_CAPACITY
            && self.block_size.is_multiple_of(self.sector_size)
    }
}

/// Quad data-phase parameters.
#[derive(Clone, Copy, Debug, PartialEq, Eq)]
pub struct NorQuadConfig {
    /// Clock-to-output valid time in nanoseconds.
    pub tclqv_ns: u32,
    /// Quad-output fast read (6B by default).
    pub read_opcode: u8,
    /// Quad-input page program (32 by default).
    pub page_program_opcode: u8,
    /// Dummy bytes beyond the computed count.
    pub dummy_margin: u8,
}

impl NorQuadConfig {
    /// The Rust's numbers, also the default.
    pub const W25Q128JV: Self = Self {
        tclqv_ns: 8,
        read_opcode: opcode::QUAD_READ,
        page_program_opcode: opcode::QUAD_PAGE_PROGRAM,
        dummy_margin: 0,
    };
}

impl Default for NorQuadConfig {
    ghost is_default = { λ q. q ≡ quad_w25q128jv };

    fn default() -> Self {
        Self::W25Q128JV
    }
}

/// How the driver works, and on which part; the default is one data line, and the part found by its id.
#[derive(Clone, Copy, Debug, PartialEq, Eq, Default)]
pub struct SpiNorConfig {
    /// None for single-line transfers.
    pub quad: Option<NorQuadConfig>,
    /// None to detect it by READ ID.
    pub device: Option<NorDeviceInfo>,
}

// The Rust's, as the NAND's are: one config over the types of the fields would lose the names of the fields.
impl SpiNorConfig {
    /// One data line, and the part found by its id.
    pub fn single() -> Self
        ensures { result ≡ single_config }
    {
        Self {
            quad: None,
            device: None,
        }
    }

    /// Four data lines, and the part found by its id.
    pub fn quad(quad: NorQuadConfig) -> Self
        ensures { result ≡ quad_config quad }
    {
        Self {
            quad: Some(quad),
            device: None,
        }
    }
}
