//! The status registers: the identification in with_config, and quad mode.
ghost use Rattle.std.specs.Prelude.{◌≡◌};
ghost use Rattle.spi_nor.specs.Status.{quad_enabled1_of, quad_enabled2_of};
ghost use Rattle.nor_steps.specs.Go.{read1_then, read2_then, done_if};
ghost use Rattle.nor_steps.specs.Register.{id_of, device_for, identified_then, quad_flag, disable_first, disable_second};

use crate::go;
use crate::then::Then;
use spi_flash::error::FlashError;
use spi_nor::answer::Answer;
use spi_nor::config::{NorDeviceInfo, NorJedecId};
use spi_nor::phase::{Phase, Task};
use spi_nor::setup::Setup;
use spi_nor::status;

/// The largest page that a read-back is made of.
pub const MAX_VERIFY_PAGE_SIZE: usize = 512;

/// The id in the number that READ ID gives. No From<u64>: not each number is an id. (The NAND's likewise: its id is another type.)
pub fn id_of(v: u64) -> NorJedecId
    ensures { result ≡ id_of v }
{
    let [.., manufacturer, memory_type, capacity] = v.to_be_bytes();
    NorJedecId {
        manufacturer,
        memory_type,
        capacity,
    }
}

// The caller's own device stays; else it is that of the id. The NAND's geometry likewise: each type and lookup is another.
#[tactic(auto, unfolding(crate::specs::Register::device_for))]
fn device_for(setup: Setup, id: NorJedecId) -> NorDeviceInfo
    ensures { result ≡ device_for setup id }
{
    match setup.config.device {
        None => NorDeviceInfo::from_jedec(id),
        Some(_) => setup.device,
    }
}

/// with_config, once the id has been read. A page that is too large is refused before anything is written to the part. The NAND's tests
/// its page alike; the setup, the lookup, the limit and what follows are other ones, and a trait that holds them is longer than both.
#[tactic(auto, unfolding(crate::specs::Register::identified_then))]
pub fn identified(setup: Setup, v: u64) -> Then
    ensures { result ≡ identified_then setup v }
{
    let id = id_of(v);
    let device = device_for(setup, id);
    let known = Setup {
        device,
        id,
        ..setup
    };
    if device.page_size > MAX_VERIFY_PAGE_SIZE {
        return Err(FlashError::NotSupported);
    }
    if setup.config.quad.is_some() {
        return go::read2(known, Phase::EnableCheck2);
    }
    go::end(known, Answer::Done)
}

/// quad_enabled, once status register 2 has been read. `disable_first` begins alike and goes on with a write: what they share is `any`.
pub fn quad_flag(setup: Setup, status2: u8) -> Then
    ensures { result ≡ quad_flag setup status2 }
{
    if status::any(status::QE_SR2, status2) {
        return go::end(setup, Answer::Flag(true));
    }
    go::read1(setup, Phase::QuadEnabled1)
}

// ---- enable_quad: two looks, each with its own bit and the other register behind it. What they share is done_if.

/// The bit in status register 2: where it is not set, status register 1 is read, for its own bit or to set it there.
pub fn enable_by2(setup: Setup, status2: u8, next: Phase) -> Then
    ensures { result ≡ done_if (quad_enabled2_of status2) setup (read1_then setup next) }
{
    go::done_if(
        status::any(status::QE_SR2, status2),
        setup,
        go::read1(setup, next),
    )
}

/// The bit in status register 1, as it was before.
pub fn enable_by1(setup: Setup, status1: u8) -> Then
    ensures { result ≡ done_if (quad_enabled1_of status1) setup (read2_then setup Phase.EnableRead2) }
{
    go::done_if(
        status::any(status::QE_SR1, status1),
        setup,
        go::read2(setup, Phase::EnableRead2),
    )
}

// ---- disable_quad: two looks, with another bit, task and end each

/// Status register 2 first: where its bit is not set, status register 1 is looked at.
pub fn disable_first(setup: Setup, status2: u8) -> Then
    ensures { result ≡ disable_first setup status2 }
{
    if status::any(status::QE_SR2, status2) {
        return go::enabled(setup, Task::DisableQuad2(status2));
    }
    go::read1(setup, Phase::DisableRead1)
}

/// Status register 1: where its bit is not set, quad mode is off.
pub fn disable_second(setup: Setup, status1: u8) -> Then
    ensures { result ≡ disable_second setup status1 }
{
    if status::any(status::QE_SR1, status1) {
        return go::enabled(setup, Task::DisableQuad1(status1));
    }
    go::end(setup, Answer::Done)
}
