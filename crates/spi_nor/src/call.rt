//! The public calls of SpiNorFlash, with their numbers.
use crate::config::SpiNorConfig;

/// A call under the Rust's name; what it lends stands beside it.
#[derive(Clone, Copy)]
pub enum Call {
    New,
    WithConfig(SpiNorConfig),
    Config,
    Device,
    Id,
    Free,
    ReadStatus1,
    ReadStatus2,
    IsBusy,
    JedecId,
    UniqueId,
    QuadEnabled,
    EnableQuad,
    DisableQuad,
    Read { offset: u32 },
    Write { offset: u32 },
    Unprotect,
    Erase { from: u32, to: u32 },
    EraseSector { offset: u32 },
    EraseBlock { offset: u32 },
}
