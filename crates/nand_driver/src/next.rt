//! What follows each transfer.
ghost use Rattle.std.specs.Prelude.{◌≡◌};
ghost use Rattle.spi_nand.specs.BringUp.{in_bring_up};
ghost use Rattle.nand_steps.specs.Go.{look, reset};
ghost use Rattle.nand_driver.specs.Next.{write_then, load_page_then, start_erase, enabled_then, latched_then, enabling_then, identify_then, answered_then, after_phase, next_of};

use crate::wait;
use nand_steps::then::Then;
use nand_steps::{block, cache, go, page, read, register};
use qspi::bytes;
use qspi::frame::Outcome;
use qspi::transfer::Payload;
use spi_flash::error::FlashError;
use spi_nand::answer::Answer;
use spi_nand::command;
use spi_nand::config::NandJedecId;
use spi_nand::phase::{
    Asked, EnableFor, EnableStep, EraseFor, Phase, ProgramFor, RegisterFor, ResetFor, Task,
};
use spi_nand::setup::Setup;
use spi_nand::status::{Configuration, Protection, Status};

// ---- write_enable, and what it is for

// write_register's command.
fn write(setup: Setup, register: u8, value: u8, why: RegisterFor) -> Then
    ensures { result ≡ write_then setup register value why }
{
    go::send(
        setup,
        command::set_feature_command(register, value),
        Task::Register(why),
    )
}

// write_page's load.
fn load_page(setup: Setup, page: usize) -> Then
    ensures { result ≡ load_page_then setup page }
{
    let geometry = setup.geometry;
    let data = Payload::Data {
        from: 0,
        len: geometry.page_size,
    };
    cache::load_program_data(setup, 0, data, Phase::LoadingPage(page))
}

// erase_block's command.
fn start_erase(setup: Setup, block: usize, why: EraseFor) -> Then
    ensures { result ≡ start_erase setup block why }
{
    let geometry = setup.geometry;
    go::send(
        setup,
        command::block_erase_command(geometry.first_page(block)),
        Task::Erase(why),
    )
}

#[tactic(auto, unfolding(crate::specs::Next::enabled_then))]
fn enabled(setup: Setup, why: EnableFor) -> Then
    ensures { result ≡ enabled_then setup why }
{
    match why {
        EnableFor::Call => return go::done(setup),
        EnableFor::Register {
            register,
            value,
            why,
        } => return write(setup, register, value, why),
        EnableFor::WritePage(page) => return load_page(setup, page),
        EnableFor::Erase { block, why } => return start_erase(setup, block, why),
        EnableFor::MarkBad(block) => return block::fill(setup, block, 0),
    }
}

fn latch(setup: Setup, why: EnableFor) -> Then
    ensures { result ≡ look setup (Phase.Enabling why EnableStep.Latch) }
{
    go::look(
        setup,
        Phase::Enabling {
            why,
            at: EnableStep::Latch,
        },
    )
}

// The NOR's latch is alike, over another register and with another end.
#[tactic(auto, unfolding(crate::specs::Next::latched_then))]
fn latched(setup: Setup, why: EnableFor, status: Status) -> Then
    ensures { result ≡ latched_then setup why status }
{
    if status.write_enabled() {
        return enabled(setup, why);
    }
    Err(FlashError::WriteEnableFailed)
}

// What follows each step of write_enable.
#[tactic(auto, unfolding(crate::specs::Next::enabling_then))]
fn enabling(setup: Setup, why: EnableFor, at: EnableStep, status: Status) -> Then
    ensures { result ≡ enabling_then setup why at status }
{
    match at {
        EnableStep::Command => return latch(setup, why),
        EnableStep::Latch => return latched(setup, why, status),
    }
}

// ---- what was asked

#[tactic(auto, unfolding(crate::specs::Next::identify_then))]
fn identify(setup: Setup, id: NandJedecId, bring_up: bool) -> Then
    ensures { result ≡ identify_then setup id bring_up }
{
    if bring_up {
        return register::identified(setup, id);
    }
    go::end(setup, Answer::Id(id))
}

// The value of the register that was asked for.
#[tactic(auto, unfolding(crate::specs::Next::answered_then))]
fn answered(setup: Setup, asked: Asked, v: u64) -> Then
    ensures { result ≡ answered_then setup asked v }
{
    let b = bytes::byte(v);
    match asked {
        Asked::Status => return go::end(setup, Answer::Status(Status::from_byte(b))),
        Asked::Configuration => {
            return go::end(setup, Answer::Configuration(Configuration::from_byte(b)));
        }
        Asked::Protection => return go::end(setup, Answer::Protection(Protection::from_byte(b))),
        Asked::Id { bring_up } => return identify(setup, register::id_of(v), bring_up),
        Asked::Configure { bring_up } => {
            return register::configure(setup, Configuration::from_byte(b), bring_up);
        }
        Asked::Configured { before, bring_up } => {
            return register::check_configuration(
                setup,
                before,
                bring_up,
                Configuration::from_byte(b),
            );
        }
        Asked::Unprotect { bring_up } => {
            return register::unprotect(setup, Protection::from_byte(b), bring_up);
        }
        Asked::BroughtUp => return register::brought_up(setup, Configuration::from_byte(b)),
        Asked::DisableQuad => return register::disable_quad(setup, Configuration::from_byte(b)),
        Asked::QuadDisabled => return register::quad_disabled(setup, Configuration::from_byte(b)),
    }
}

// ---- what follows a transfer that gave v

// with_config's select high.
fn raised(setup: Setup) -> Then
    ensures { result ≡ reset setup (ResetFor.Identify in_bring_up) }
{
    go::reset(setup, ResetFor::Identify { bring_up: true })
}

#[tactic(auto, unfolding(crate::specs::Next::after_phase))]
fn after(setup: Setup, phase: Phase, v: u64) -> Then
    ensures { result ≡ after_phase setup phase v }
{
    let b = bytes::byte(v);
    match phase {
        Phase::Raised => return raised(setup),
        Phase::Asking(asked) => return answered(setup, asked, v),
        Phase::Enabling { why, at } => return enabling(setup, why, at, Status::from_byte(b)),
        Phase::Waiting { task, at } => return wait::waiting(setup, task, at, Status::from_byte(b)),
        Phase::ReadingCache => return go::done(setup),
        Phase::Comparing => return cache::compared(setup, v),
        Phase::ReadingMarker(why) => return block::marker(setup, why, b),
        Phase::Reading(span) => return read::piece_read(setup, span),
        Phase::LoadingData => return go::done(setup),
        Phase::LoadingPage(page) => return page::program(setup, page, ProgramFor::WritePage(page)),
        Phase::LoadingFiller { block, column } => return block::filled(setup, block, column),
        Phase::LoadingMarker(block) => return block::mark(setup, block),
    }
}

/// What follows a transfer's outcome. A bus error ends the call. One line in each driver, over its own `after`.
#[tactic(auto, unfolding(crate::specs::Next::next_of))]
pub fn next(setup: Setup, phase: Phase, outcome: Outcome) -> Then
    ensures { result ≡ next_of setup phase outcome }
{
    after(setup, phase, outcome?)
}
