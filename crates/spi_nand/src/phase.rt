//! Where a call stands: which of its transfers is out, and what that is for.
//! Enums and no closures: the host holds this between two replies, by value, and no function may hand a closure out.
ghost use Rattle.std.specs.Prelude.{◌≡◌};
ghost use Rattle.spi_nand.specs.Verdict.{asks_verdict};

use crate::status::{Configuration, Protection};
use spi_flash::range::Span;

// Here and below `bring_up` tells a part of bring_up from a call of its own: the same value is kept in both, so it is no Option.
// `Reset`, and below `Call`, is a call of its own, which the None of an Option would not say.
/// What a reset is for.
#[derive(Clone, Copy)]
pub enum ResetFor {
    Reset,
    Identify { bring_up: bool },
}

/// What write_register is for.
#[derive(Clone, Copy)]
pub enum RegisterFor {
    Call,
    // ensure_configuration, with the register as it was read: of its own type, so that no call takes one register for another.
    Configure {
        before: Configuration,
        bring_up: bool,
    },
    DisableQuad,
    // unprotect, likewise.
    Unprotect {
        before: Protection,
        bring_up: bool,
    },
}

/// What is_bad_block is for.
#[derive(Clone, Copy)]
pub enum MarkerFor {
    Call,
    // mark_bad_block: its first look at this block, and its last.
    Check(usize),
    Confirm,
}

/// What a page is loaded for.
#[derive(Clone, Copy)]
pub enum LoadFor {
    PageRead,
    ReadPage,
    // write_page's read-back.
    Verify,
    // is_bad_block, which asks for no verdict.
    Marker(MarkerFor),
    // read: the page of the next piece.
    Read(Span<usize>),
}

impl LoadFor {
    /// Whether the page is judged: is_bad_block takes it whatever its verdict.
    pub fn asks_verdict(self) -> bool
        ensures { result ≡ asks_verdict self }
    {
        !matches!(self, LoadFor::Marker(_))
    }
}

/// What program_execute is for: a page, or the block that is marked.
#[derive(Clone, Copy)]
pub enum ProgramFor {
    Call,
    WritePage(usize),
    MarkBad(usize),
}

/// What erase_block is for.
#[derive(Clone, Copy)]
pub enum EraseFor {
    Call,
    MarkBad(usize),
}

/// What the write-enable latch is set for.
#[derive(Clone, Copy)]
pub enum EnableFor {
    Call,
    Register {
        register: u8,
        value: u8,
        why: RegisterFor,
    },
    WritePage(usize),
    Erase {
        block: usize,
        why: EraseFor,
    },
    MarkBad(usize),
}

/// Where write_enable stands: its command is out, or the look at its latch.
#[derive(Clone, Copy)]
pub enum EnableStep {
    Command,
    Latch,
}

/// A command with a wait behind it.
#[derive(Clone, Copy)]
pub enum Task {
    Reset(ResetFor),
    Register(RegisterFor),
    Load(LoadFor),
    Program(ProgramFor),
    Erase(EraseFor),
}

/// Where a task stands: its command is out, a look at the status, a delay between two looks, or the status that tells how it went.
/// The number is the microseconds asked so far, those of the delay that is out among them.
#[derive(Clone, Copy)]
pub enum WaitStep {
    Command,
    Look(u32),
    Pause(u32),
    Verdict,
}

/// What a register or the id is read for.
#[derive(Clone, Copy)]
pub enum Asked {
    // read_status, read_configuration, read_protection
    Status,
    Configuration,
    Protection,
    // jedec_id, reset_and_identify; bring_up
    Id {
        bring_up: bool,
    },
    // ensure_configuration: before the write, and after it
    Configure {
        bring_up: bool,
    },
    Configured {
        before: Configuration,
        bring_up: bool,
    },
    Unprotect {
        bring_up: bool,
    },
    // bring_up's last
    BroughtUp,
    // disable_quad, likewise
    DisableQuad,
    QuadDisabled,
}

/// Which transfer of a call is out.
#[derive(Clone, Copy)]
pub enum Phase {
    // with_config
    Raised,
    Asking(Asked),
    // write_enable
    Enabling { why: EnableFor, at: EnableStep },
    // a command, wait_ready, and how it went
    Waiting { task: Task, at: WaitStep },
    // read_cache: into the caller's buffer, for write_page's comparison, for is_bad_block, for a piece of read
    ReadingCache,
    Comparing,
    ReadingMarker(MarkerFor),
    Reading(Span<usize>),
    // load_program_data: of the caller's data, of write_page, and of mark_bad_block's filler and marker
    LoadingData,
    LoadingPage(usize),
    LoadingFiller { block: usize, column: usize },
    LoadingMarker(usize),
}
