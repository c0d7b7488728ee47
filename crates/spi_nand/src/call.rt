//! The public calls of SpiNandFlash, with their numbers.
use crate::config::SpiNandConfig;

/// A call under the Rust's name; what it lends stands beside it.
#[derive(Clone, Copy)]
pub enum Call {
    New,
    WithConfig(SpiNandConfig),
    Info,
    Config,
    Geometry,
    Free,
    DisableQuad,
    WriteRegister { register: u8, value: u8 },
    WriteEnable,
    ReadStatus,
    ReadConfiguration,
    ReadProtection,
    Reset,
    JedecId,
    ResetAndIdentify,
    EnsureConfiguration,
    Unprotect,
    PageRead { page: usize },
    ReadCache { column: usize },
    LoadProgramData { column: usize },
    ProgramExecute { page: usize },
    ReadPage { page: usize },
    WritePage { page: usize },
    EraseBlock { block: usize },
    Read { offset: usize },
    IsBadBlock { block: usize },
    MarkBadBlock { block: usize },
}
