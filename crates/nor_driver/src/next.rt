//! What follows each transfer: the Rust's calls, cut where they use the bus.
ghost use Rattle.std.specs.Prelude.{◌≡◌};
ghost use Rattle.nor_driver.specs.Next.{after_phase, next_of};

use crate::wait;
use nor_steps::then::Then;
use nor_steps::{go, protection, read, register, write};
use qspi::bytes;
use qspi::frame::Outcome;
use spi_nor::answer::Answer;
use spi_nor::phase::{Phase, Task};
use spi_nor::setup::Setup;
use spi_nor::status;

// ---- what follows a transfer that gave v

#[tactic(auto, unfolding(crate::specs::Next::after_phase))]
fn after(setup: Setup, phase: Phase, v: u64) -> Then
    ensures { result ≡ after_phase setup phase v }
{
    let b = bytes::byte(v);
    match phase {
        Phase::Raised => return go::read_id(setup, Phase::Identify),
        Phase::Identify => return register::identified(setup, v),
        Phase::Status1 => return go::end(setup, Answer::Byte(b)),
        Phase::Status2 => return go::end(setup, Answer::Byte(b)),
        Phase::Busy => return go::end(setup, Answer::Flag(status::any(status::BUSY, b))),
        Phase::JedecId => return go::end(setup, Answer::Id(register::id_of(v))),
        Phase::UniqueId => return go::end(setup, Answer::UniqueId(v)),
        Phase::QuadEnabled2 => return register::quad_flag(setup, b),
        Phase::QuadEnabled1 => return go::end(setup, Answer::Flag(status::any(status::QE_SR1, b))),
        Phase::EnableCheck2 => return register::enable_by2(setup, b, Phase::EnableCheck1),
        Phase::EnableCheck1 => return register::enable_by1(setup, b),
        Phase::EnableRead2 => return go::enabled(setup, Task::EnableQuad2(b)),
        Phase::EnableVerify2 => return register::enable_by2(setup, b, Phase::EnableRead1),
        Phase::EnableRead1 => return go::enabled(setup, Task::EnableQuad1(b)),
        Phase::EnableVerify1 => return go::supported_if(status::any(status::QE_SR1, b), setup),
        Phase::DisableRead2 => return register::disable_first(setup, b),
        Phase::DisableVerify2 => return go::supported_if(!status::any(status::QE_SR2, b), setup),
        Phase::DisableRead1 => return register::disable_second(setup, b),
        Phase::DisableVerify1 => return go::supported_if(!status::any(status::QE_SR1, b), setup),
        Phase::UnprotectRead1 => return go::read2(setup, Phase::UnprotectRead2(b)),
        Phase::UnprotectRead2(before) => return protection::unprotect_first(setup, before, b),
        Phase::UnprotectAfter(before) => return protection::unprotected(setup, before, b),
        Phase::Reading(span) => return read::piece_read(setup, span),
        Phase::Verifying(span) => return write::verified(setup, span, v),
        Phase::Writing { task, at } => return wait::writing(setup, task, at, b),
    }
}

/// What follows a transfer's outcome. A bus error ends the call. One line in each driver, over its own `after`.
#[tactic(auto, unfolding(crate::specs::Next::next_of))]
pub fn next(setup: Setup, phase: Phase, outcome: Outcome) -> Then
    ensures { result ≡ next_of setup phase outcome }
{
    after(setup, phase, outcome?)
}
