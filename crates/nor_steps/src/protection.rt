//! unprotect: the block protection in both status registers. The Rust's two ifs, each with its mask, its task and what follows.
ghost use Rattle.std.specs.Prelude.{◌≡◌};
ghost use Rattle.nor_steps.specs.Go.{end_with};
ghost use Rattle.nor_steps.specs.Protection.{unprotect_first, unprotect_second};

use crate::go;
use crate::then::Then;
use spi_nor::answer::Answer;
use spi_nor::phase::{Phase, Task};
use spi_nor::setup::Setup;
use spi_nor::status;

/// `if wanted_sr1 != before`
#[tactic(auto, unfolding(crate::specs::Protection::unprotect_first))]
pub fn unprotect_first(setup: Setup, before: u8, status2: u8) -> Then
    ensures { result ≡ unprotect_first setup before status2 }
{
    if status::without(status::SR1_PROTECT_MASK, before) == before {
        return unprotect_second(setup, before, status2);
    }
    go::enabled(setup, Task::Unprotect1 { before, status2 })
}

/// `if wanted_sr2 != sr2`
#[tactic(auto, unfolding(crate::specs::Protection::unprotect_second))]
pub fn unprotect_second(setup: Setup, before: u8, status2: u8) -> Then
    ensures { result ≡ unprotect_second setup before status2 }
{
    if status::without(status::SR2_PROTECT_MASK, status2) == status2 {
        return go::read1(setup, Phase::UnprotectAfter(before));
    }
    go::enabled(setup, Task::Unprotect2 { before, status2 })
}

/// `Ok((before, after))`
pub fn unprotected(setup: Setup, before: u8, after: u8) -> Then
    ensures { result ≡ end_with setup (Answer.Unprotected before after) }
{
    go::end(setup, Answer::Unprotected { before, after })
}
