//! The steps that calls are made of.
ghost use Rattle.std.specs.Prelude.{◌≡◌};
ghost use Rattle.nand_steps.specs.Go.{done, ask, ask_id, look, verdict, send, reset, enable};

use crate::then::Then;
pub use machine::then::{end, go};
use qspi::command::Command;
use qspi::transfer::Transfer;
use spi_nand::answer::Answer;
use spi_nand::phase::{Asked, EnableFor, EnableStep, Phase, ResetFor, Task, WaitStep};
use spi_nand::setup::Setup;
use spi_nand::{command, opcode, transfer};

/// `Ok(())`
pub fn done(setup: Setup) -> Then
    ensures { result ≡ done setup }
{
    end(setup, Answer::Done)
}

/// read_register
pub fn ask(setup: Setup, register: u8, asked: Asked) -> Then
    ensures { result ≡ ask setup register asked }
{
    go(
        setup,
        transfer::register_transfer(register),
        Phase::Asking(asked),
    )
}

/// jedec_id
pub fn ask_id(setup: Setup, bring_up: bool) -> Then
    ensures { result ≡ ask_id setup bring_up }
{
    go(
        setup,
        transfer::id_transfer(),
        Phase::Asking(Asked::Id { bring_up }),
    )
}

/// A look at the status: of a wait, or of the write-enable latch.
pub fn look(setup: Setup, phase: Phase) -> Then
    ensures { result ≡ look setup phase }
{
    go(
        setup,
        transfer::register_transfer(opcode::REG_STATUS),
        phase,
    )
}

/// How a task went, by the status behind its wait.
pub fn verdict(setup: Setup, task: Task) -> Then
    ensures { result ≡ verdict setup task }
{
    look(
        setup,
        Phase::Waiting {
            task,
            at: WaitStep::Verdict,
        },
    )
}

/// A command that is waited for.
pub fn send(setup: Setup, command: Command, task: Task) -> Then
    ensures { result ≡ send setup command task }
{
    go(
        setup,
        qspi::transfer::command_only(command),
        Phase::Waiting {
            task,
            at: WaitStep::Command,
        },
    )
}

/// reset
pub fn reset(setup: Setup, why: ResetFor) -> Then
    ensures { result ≡ reset setup why }
{
    send(setup, command::reset_command(), Task::Reset(why))
}

/// write_enable
pub fn enable(setup: Setup, why: EnableFor) -> Then
    ensures { result ≡ enable setup why }
{
    go(
        setup,
        qspi::transfer::command_only(command::write_enable_command()),
        Phase::Enabling {
            why,
            at: EnableStep::Command,
        },
    )
}
