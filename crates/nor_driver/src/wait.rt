//! A write to the part: its command behind write_enable, and wait_ready.
//! nand_driver cuts its wait alike, over other phases: a trait of the five steps that differ is longer.
//! A task and what it has waited stay two parameters: each function here would take a struct of the two apart at once.
ghost use Rattle.std.specs.Prelude.{◌≡◌};
ghost use Rattle.nor_driver.specs.Wait.{latch_then, latched_then, resume_task, look_then, pause_then, wait_then, sent_then, looked_then, writing_then};

use nor_steps::then::Then;
use nor_steps::{erase, go, protection, write};
use qspi::transfer::Transfer;
use spi_flash::error::FlashError;
use spi_flash::wait;
use spi_flash::wait::Wait;
use spi_nor::phase::{Phase, Task, WriteStep};
use spi_nor::setup::Setup;
use spi_nor::{opcode, status, transfer};

fn latch(setup: Setup, task: Task) -> Then
    ensures { result ≡ latch_then setup task }
{
    go::read1(
        setup,
        Phase::Writing {
            task,
            at: WriteStep::Latch,
        },
    )
}

// write_enable has been sent: the command goes out where the latch is set. The NAND's latch is alike, over another register, phase
// and end.
#[tactic(auto, unfolding(crate::specs::Wait::latched_then))]
fn latched(setup: Setup, task: Task, status1: u8) -> Then
    ensures { result ≡ latched_then setup task status1 }
{
    if status::any(status::WRITE_ENABLE_LATCH, status1) {
        return go::go(
            setup,
            transfer::task_transfer(setup, task),
            Phase::Writing {
                task,
                at: WriteStep::Command,
            },
        );
    }
    Err(FlashError::WriteEnableFailed)
}

// The wait of a task is over.
#[tactic(auto, unfolding(crate::specs::Wait::resume_task))]
fn resume(setup: Setup, task: Task) -> Then
    ensures { result ≡ resume_task setup task }
{
    match task {
        Task::EnableQuad2(_) => return go::read2(setup, Phase::EnableVerify2),
        Task::EnableQuad1(_) => return go::read1(setup, Phase::EnableVerify1),
        Task::DisableQuad2(_) => return go::read2(setup, Phase::DisableVerify2),
        Task::DisableQuad1(_) => return go::read1(setup, Phase::DisableVerify1),
        Task::Unprotect1 { before, status2 } => {
            return protection::unprotect_second(setup, before, status2);
        }
        Task::Unprotect2 { before, status2: _ } => {
            return go::read1(setup, Phase::UnprotectAfter(before));
        }
        Task::PageProgram(span) => return write::verify(setup, span),
        Task::Erase { kind, address, end } => {
            return erase::erase_from(
                setup,
                transfer::after_unit(setup.device, kind, address),
                end,
            );
        }
    }
}

fn look(setup: Setup, task: Task, waited: u32) -> Then
    ensures { result ≡ look_then setup task waited }
{
    go::read1(
        setup,
        Phase::Writing {
            task,
            at: WriteStep::Look(waited),
        },
    )
}

fn pause(setup: Setup, task: Task, us: u32, waited: u32) -> Then
    ensures { result ≡ pause_then setup task us waited }
{
    go::go(
        setup,
        Transfer::Pause(us),
        Phase::Writing {
            task,
            at: WriteStep::Pause(waited),
        },
    )
}

#[tactic(auto, unfolding(crate::specs::Wait::wait_then))]
fn waited_then(setup: Setup, task: Task, step: Wait) -> Then
    ensures { result ≡ wait_then setup task step }
{
    match step {
        Wait::Look => return look(setup, task, 0),
        Wait::Pause { us, waited } => return pause(setup, task, us, waited),
        Wait::Ready => return resume(setup, task),
        Wait::Timeout => return Err(FlashError::Timeout),
    }
}

// The command is out: the first delay, or a look at once.
fn sent(setup: Setup, task: Task) -> Then
    ensures { result ≡ sent_then setup task }
{
    waited_then(
        setup,
        task,
        wait::begin(opcode::timings(transfer::task_operation(task))),
    )
}

// The status of a look.
fn looked(setup: Setup, task: Task, waited: u32, status1: u8) -> Then
    ensures { result ≡ looked_then setup task waited status1 }
{
    waited_then(
        setup,
        task,
        wait::after_look(
            opcode::timings(transfer::task_operation(task)),
            waited,
            status::any(status::BUSY, status1),
        ),
    )
}

/// What follows each step of a task. The status is looked at only behind a look.
#[tactic(auto, unfolding(crate::specs::Wait::writing_then))]
pub fn writing(setup: Setup, task: Task, at: WriteStep, status1: u8) -> Then
    ensures { result ≡ writing_then setup task at status1 }
{
    match at {
        WriteStep::Enable => return latch(setup, task),
        WriteStep::Latch => return latched(setup, task, status1),
        WriteStep::Command => return sent(setup, task),
        WriteStep::Look(waited) => return looked(setup, task, waited, status1),
        WriteStep::Pause(waited) => return look(setup, task, waited),
    }
}
