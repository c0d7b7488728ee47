//! The steps that calls are made of.
ghost use Rattle.std.specs.Prelude.{◌≡◌};
ghost use Rattle.spi_flash.specs.Number.{number_transfer};
ghost use Rattle.nor_steps.specs.Go.{go_to, read1_then, read2_then, read_id_then, read_unique_id_then, enabled_then, done_if, supported_if};

use crate::then::Then;
pub use machine::then::{end, go};
use qspi::command::Command;
use qspi::transfer::Transfer;
use spi_flash::error::FlashError;
use spi_flash::number;
use spi_nor::answer::Answer;
use spi_nor::command;
use spi_nor::phase::{Phase, Task, WriteStep};
use spi_nor::setup::Setup;

// A read of a register or an id: the calls below differ in the command and the number of bytes.
fn read(setup: Setup, command: Command, len: usize, phase: Phase) -> Then
    ensures { result ≡ go_to setup (number_transfer command len) phase }
{
    go(setup, number::number_transfer(command, len), phase)
}

/// read_status1
pub fn read1(setup: Setup, phase: Phase) -> Then
    ensures { result ≡ read1_then setup phase }
{
    read(setup, command::read_status1_command(), 1, phase)
}

/// read_status2
pub fn read2(setup: Setup, phase: Phase) -> Then
    ensures { result ≡ read2_then setup phase }
{
    read(setup, command::read_status2_command(), 1, phase)
}

/// jedec_id
pub fn read_id(setup: Setup, phase: Phase) -> Then
    ensures { result ≡ read_id_then setup phase }
{
    read(setup, command::read_id_command(), 3, phase)
}

/// unique_id
pub fn read_unique_id(setup: Setup, phase: Phase) -> Then
    ensures { result ≡ read_unique_id_then setup phase }
{
    read(setup, command::read_unique_id_command(), 8, phase)
}

/// As the NAND's `enable`, over the NOR's phases.
pub fn enabled(setup: Setup, task: Task) -> Then
    ensures { result ≡ enabled_then setup task }
{
    go(
        setup,
        qspi::transfer::command_only(command::write_enable_command()),
        Phase::Writing {
            task,
            at: WriteStep::Enable,
        },
    )
}

/// The call is done where the test holds, and else goes on.
pub fn done_if(test: bool, setup: Setup, other: Then) -> Then
    ensures { result ≡ done_if test setup other }
{
    if test {
        return end(setup, Answer::Done);
    }
    other
}

/// The part has taken the quad bit as it was written, or does not support that.
pub fn supported_if(test: bool, setup: Setup) -> Then
    ensures { result ≡ supported_if test setup }
{
    done_if(test, setup, Err(FlashError::NotSupported))
}
