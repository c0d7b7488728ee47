//! Geometry and settings of a SPI NAND (nand/config.rs).
ghost use Rattle.std.specs.Prelude.{◌≡◌, ◌*◌};
ghost use Rattle.spi_nand.specs.Config.{jedec_id_of, block_size_of, page_count_of, capacity_of, cache_size_of, first_page_of, in_bounds, from_jedec, QUAD-W25N01GV, single_config, quad_config};

use crate::opcode;
use crate::status::{Configuration, Protection};
use spi_flash::rows;

/// What READ ID answers.
#[derive(Clone, Copy, Debug, PartialEq, Eq)]
pub struct NandJedecId {
    pub manufacturer: u8,
    pub device: u16,
}

impl NandJedecId {
    /// The id in the three bytes. (The Rust's name, in place of a From.)
    #[tactic(auto, unfolding(crate::specs::Config::jedec_id_of))]
    pub fn from_bytes(bytes: [u8; 3]) -> Self
        ensures { result ≡ jedec_id_of bytes }
    {
        Self {
            manufacturer: bytes[0],
            device: u16::from_be_bytes([bytes[1], bytes[2]]),
        }
    }
}

/// The sizes of a SPI NAND.
#[derive(Clone, Copy, Debug, PartialEq, Eq)]
pub struct NandGeometry {
    /// Main bytes of a page.
    pub page_size: usize,
    /// Spare bytes of a page.
    pub oob_size: usize,
    pub pages_per_block: usize,
    pub block_count: usize,
}

const KNOWN_NAND_DEVICES: [(NandJedecId, NandGeometry); 4] = [
    (
        NandJedecId {
            manufacturer: 0xEF,
            device: 0xAA21,
        },
        NandGeometry::W25N01GV,
    ),
    (
        NandJedecId {
            manufacturer: 0xEF,
            device: 0xAB21,
        },
        NandGeometry::W25N02KV,
    ),
    (
        NandJedecId {
            manufacturer: 0xC8,
            device: 0xD148,
        },
        NandGeometry::W25N01GV,
    ),
    (
        NandJedecId {
            manufacturer: 0xC8,
            device: 0xF148,
        },
        NandGeometry::W25N01GV,
    ),
];

// The bounds of a caller's own geometry: a column goes out in two bytes, a page in three.
const MAX_PAGE_AND_OOB: usize = 65_535;

const MAX_PAGE_COUNT: usize = 16_777_216;

// A product that is too large stops at the largest usize.
impl NandGeometry {
    /// A part of 1 Gbit.
    pub const W25N01GV: Self = Self {
        page_size: 2048,
        oob_size: 64,
        pages_per_block: 64,
        block_count: 1024,
    };

    /// A part of 2 Gbit.
    pub const W25N02KV: Self = Self {
        page_size: 2048,
        oob_size: 128,
        pages_per_block: 64,
        block_count: 2048,
    };

    /// Bytes of an erase block.
    #[tactic(auto, unfolding(crate::specs::Config::block_size_of))]
    pub fn block_size(self) -> usize
        ensures { result ≡ block_size_of self }
    {
        self.page_size.saturating_mul(self.pages_per_block)
    }

    /// Pages of the whole device.
    #[tactic(auto, unfolding(crate::specs::Config::page_count_of))]
    pub fn page_count(self) -> usize
        ensures { result ≡ page_count_of self }
    {
        self.pages_per_block.saturating_mul(self.block_count)
    }

    /// Main bytes of the whole device.
    #[tactic(auto, using(crate::proofs::Saturating::twice), unfolding(crate::specs::Config::capacity_of, crate::specs::Config::block_size_of))]
    pub fn capacity(self) -> usize
        ensures { result ≡ capacity_of self }
    {
        self.block_size().saturating_mul(self.block_count)
    }

    /// Bytes of the cache: a page and its spare bytes.
    #[tactic(auto, unfolding(crate::specs::Config::cache_size_of))]
    pub fn cache_size(self) -> usize
        ensures { result ≡ cache_size_of self }
    {
        self.page_size.saturating_add(self.oob_size)
    }

    /// The first page of a block.
    #[tactic(auto, unfolding(crate::specs::Config::first_page_of))]
    pub fn first_page(self, block: usize) -> usize
        ensures { result ≡ first_page_of self block }
    {
        block.saturating_mul(self.pages_per_block)
    }

    /// Whether the driver takes this geometry from a caller.
    #[tactic(auto, using(crate::proofs::Saturating::below), unfolding(crate::specs::Config::in_bounds, crate::specs::Config::page_count_of, crate::specs::Config::cache_size_of))]
    pub fn in_bounds(self) -> bool
        ensures { result ≡ in_bounds self }
    {
        self.page_size >= 1
            && self.pages_per_block >= 1
            && self.block_count >= 1
            && self.cache_size() <= MAX_PAGE_AND_OOB
            && self.page_count() <= MAX_PAGE_COUNT
    }

    /// The geometry of a known id, else that of a W25N01GV.
    #[tactic(auto, unfolding(crate::specs::Config::from_jedec))]
    pub fn from_jedec(id: NandJedecId) -> Self
        ensures { result ≡ from_jedec id }
    {
        rows::known(&KNOWN_NAND_DEVICES, id).unwrap_or(Self::W25N01GV)
    }
}

/// Four-line transfers of the cache.
#[derive(Clone, Copy, Debug, PartialEq, Eq)]
pub struct NandQuadConfig {
    /// From the clock to valid output, in nanoseconds.
    pub tclqv_ns: u32,
    pub read_cache_opcode: u8,
    pub load_program_opcode: u8,
    /// Dummy bytes on top of the computed count.
    pub dummy_margin: u8,
}

impl NandQuadConfig {
    /// The Rust's numbers, also the default.
    pub const W25N01GV: Self = Self {
        tclqv_ns: 10,
        read_cache_opcode: opcode::QUAD_READ_CACHE,
        load_program_opcode: opcode::QUAD_LOAD_PROGRAM_DATA,
        dummy_margin: 0,
    };
}

impl Default for NandQuadConfig {
    ghost is_default = { λ q. q ≡ QUAD-W25N01GV };

    fn default() -> Self {
        Self::W25N01GV
    }
}

/// How the driver works, and on which part; the default is one data line, and the part found by its id.
#[derive(Clone, Copy, Debug, PartialEq, Eq, Default)]
pub struct SpiNandConfig {
    /// None for one data line.
    pub quad: Option<NandQuadConfig>,
    /// None to go by the id that the part answers.
    pub geometry: Option<NandGeometry>,
}

// The Rust's, as the NOR's are: one config over the types of the fields would lose the names of the fields.
impl SpiNandConfig {
    /// One data line, and the part found by its id.
    pub fn single() -> Self
        ensures { result ≡ single_config }
    {
        Self {
            quad: None,
            geometry: None,
        }
    }

    /// Four data lines, and the part found by its id.
    pub fn quad(quad: NandQuadConfig) -> Self
        ensures { result ≡ quad_config quad }
    {
        Self {
            quad: Some(quad),
            geometry: None,
        }
    }
}

/// The id and the registers as a construction found and left them.
#[derive(Clone, Copy, Debug, PartialEq, Eq)]
pub struct NandInit {
    pub id: NandJedecId,
    pub configuration_before: Configuration,
    pub configuration_after: Configuration,
    pub protection_before: Protection,
}

impl NandInit {
    /// What is not known yet: the Rust's zeros, in place of a None.
    pub const UNKNOWN: Self = Self {
        id: NandJedecId {
            manufacturer: 0,
            device: 0,
        },
        configuration_before: Configuration::ZERO,
        configuration_after: Configuration::ZERO,
        protection_before: Protection::ZERO,
    };
}
