//! wait_ready: the pauses and looks behind a command, and what they are for.
//! nor_driver cuts its wait alike, over other phases: a trait of the five steps that differ is longer.
//! A task and what it has waited stay two parameters: each function here would take a struct of the two apart at once.
ghost use Rattle.std.specs.Prelude.{◌≡◌};
ghost use Rattle.nand_driver.specs.Wait.{reset_then, resume_task, judge_task, look_then, pause_then, wait_then, sent_then, looked_then, waiting_then};

use nand_steps::then::Then;
use nand_steps::{block, go, page, register};
use qspi::transfer::Transfer;
use spi_flash::error::FlashError;
use spi_flash::wait;
use spi_flash::wait::Wait;
use spi_nand::phase::{Phase, ResetFor, Task, WaitStep};
use spi_nand::setup::Setup;
use spi_nand::status::Status;
use spi_nand::{opcode, transfer};

#[tactic(auto, unfolding(crate::specs::Wait::reset_then))]
fn reset_done(setup: Setup, why: ResetFor) -> Then
    ensures { result ≡ reset_then setup why }
{
    match why {
        ResetFor::Reset => return go::done(setup),
        ResetFor::Identify { bring_up } => return go::ask_id(setup, bring_up),
    }
}

// The wait of a task is over.
#[tactic(auto, unfolding(crate::specs::Wait::resume_task))]
fn resume(setup: Setup, task: Task) -> Then
    ensures { result ≡ resume_task setup task }
{
    match task {
        Task::Reset(why) => return reset_done(setup, why),
        Task::Register(why) => return register::written(setup, why),
        Task::Load(why) => return page::loaded(setup, why),
        Task::Program(why) => return go::verdict(setup, Task::Program(why)),
        Task::Erase(why) => return go::verdict(setup, Task::Erase(why)),
    }
}

// How a task went. A reset and a write to a register are not judged.
#[tactic(auto, unfolding(crate::specs::Wait::judge_task))]
fn judged(setup: Setup, task: Task, status: Status) -> Then
    ensures { result ≡ judge_task setup task status }
{
    match task {
        Task::Reset(why) => return reset_done(setup, why),
        Task::Register(why) => return register::written(setup, why),
        Task::Load(why) => return page::judged(setup, why, status),
        Task::Program(why) => return page::programmed(setup, why, status),
        Task::Erase(why) => return block::erased(setup, why, status),
    }
}

fn look(setup: Setup, task: Task, waited: u32) -> Then
    ensures { result ≡ look_then setup task waited }
{
    go::look(
        setup,
        Phase::Waiting {
            task,
            at: WaitStep::Look(waited),
        },
    )
}

fn pause(setup: Setup, task: Task, us: u32, waited: u32) -> Then
    ensures { result ≡ pause_then setup task us waited }
{
    go::go(
        setup,
        Transfer::Pause(us),
        Phase::Waiting {
            task,
            at: WaitStep::Pause(waited),
        },
    )
}

#[tactic(auto, unfolding(crate::specs::Wait::wait_then))]
fn go_on(setup: Setup, task: Task, step: Wait) -> Then
    ensures { result ≡ wait_then setup task step }
{
    match step {
        Wait::Look => return look(setup, task, 0),
        Wait::Pause { us, waited } => return pause(setup, task, us, waited),
        Wait::Ready => return resume(setup, task),
        Wait::Timeout => return Err(FlashError::Timeout),
    }
}

// The command is out: the first delay, or a look at once.
fn sent(setup: Setup, task: Task) -> Then
    ensures { result ≡ sent_then setup task }
{
    go_on(
        setup,
        task,
        wait::begin(opcode::timings(transfer::task_operation(task))),
    )
}

// The status of a look.
fn looked(setup: Setup, task: Task, waited: u32, status: Status) -> Then
    ensures { result ≡ looked_then setup task waited status }
{
    go_on(
        setup,
        task,
        wait::after_look(
            opcode::timings(transfer::task_operation(task)),
            waited,
            status.busy(),
        ),
    )
}

/// What follows each step of a task. A status is looked at only behind a look and at the end.
#[tactic(auto, unfolding(crate::specs::Wait::waiting_then))]
pub fn waiting(setup: Setup, task: Task, at: WaitStep, status: Status) -> Then
    ensures { result ≡ waiting_then setup task at status }
{
    match at {
        WaitStep::Command => return sent(setup, task),
        WaitStep::Look(waited) => return looked(setup, task, waited, status),
        WaitStep::Pause(waited) => return look(setup, task, waited),
        WaitStep::Verdict => return judged(setup, task, status),
    }
}
