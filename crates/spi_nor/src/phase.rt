//! Where a call stands: which of its transfers is out.
//! Enums and no closures: the host holds this between two replies, by value, and no function may hand a closure out.
use spi_flash::range::Span;

/// Which of the two erases.
#[derive(Clone, Copy, Debug, PartialEq, Eq)]
pub enum EraseKind {
    Sector,
    Block,
}

/// A write to the part, from its write enable to the end of its wait.
#[derive(Clone, Copy)]
pub enum Task {
    // enable_quad, with the register as it was read.
    EnableQuad2(u8),
    EnableQuad1(u8),
    // disable_quad, likewise.
    DisableQuad2(u8),
    DisableQuad1(u8),
    // unprotect, with both registers as they were read.
    Unprotect1 {
        before: u8,
        status2: u8,
    },
    Unprotect2 {
        before: u8,
        status2: u8,
    },
    // write, page by page.
    PageProgram(Span<u32>),
    // erase, and both single erases.
    Erase {
        kind: EraseKind,
        address: u32,
        end: u32,
    },
}

/// Where a task stands: write_enable is out, the look at its latch, the command, a look at the status, or a delay between two looks.
#[derive(Clone, Copy)]
pub enum WriteStep {
    Enable,
    Latch,
    Command,
    // Look and Pause: the microseconds asked so far.
    Look(u32),
    Pause(u32),
}

/// Which transfer of a call is out.
#[derive(Clone, Copy)]
pub enum Phase {
    // with_config
    Raised,
    Identify,
    // read_status1, read_status2, is_busy, jedec_id, unique_id
    Status1,
    Status2,
    Busy,
    JedecId,
    UniqueId,
    // quad_enabled
    QuadEnabled2,
    QuadEnabled1,
    // enable_quad
    EnableCheck2,
    EnableCheck1,
    EnableRead2,
    EnableVerify2,
    EnableRead1,
    EnableVerify1,
    // disable_quad
    DisableRead2,
    DisableVerify2,
    DisableRead1,
    DisableVerify1,
    // unprotect
    UnprotectRead1,
    UnprotectRead2(u8),
    UnprotectAfter(u8),
    // read, and the read-back of page_program
    Reading(Span<u32>),
    Verifying(Span<u32>),
    // write_enable, the command, and wait_ready
    Writing { task: Task, at: WriteStep },
}
