//! What the NAND has of its own, of which machine makes the driver. An instance of its trait: what is alike is in machine.
ghost use Rattle.std.specs.Prelude.{◌≡◌};
ghost use Rattle.nand_driver.specs.Call.{nand_calls, not_built};
ghost use Rattle.nand_driver.specs.Step.{nand_next};

use crate::next;
use machine::part::Part;
use machine::state;
use nand_steps::opening;
use nand_steps::then::{Opening, Then};
use qspi::frame::Outcome;
use qspi::loan::Lengths;
use spi_nand::answer::Answer;
use spi_nand::call::Call;
use spi_nand::config::SpiNandConfig;
use spi_nand::phase::Phase;
use spi_nand::setup::Setup;

/// The NAND driver's state.
pub type SpiNandFlash = state::Flash<Setup, Phase>;

/// What a step of the NAND driver gives.
pub type Stepped = state::Stepped<Setup, Phase, Answer>;

/// The NAND as a part.
#[derive(Clone, Copy)]
pub struct Nand;

impl Part for Nand {
    type Setup = Setup;

    type Phase = Phase;

    type Answer = Answer;

    type Call = Call;

    ghost calls = { nand_calls };

    ghost next = { nand_next };

    fn opening(setup: Setup, call: Call, lengths: Lengths) -> Opening {
        opening::opening_of(setup, call, lengths)
    }

    fn raised() -> Phase {
        Phase::Raised
    }

    fn done() -> Answer {
        Answer::Done
    }

    fn in_bounds(setup: Setup) -> bool {
        setup.geometry.in_bounds()
    }

    fn next(setup: Setup, phase: Phase, outcome: Outcome) -> Then {
        next::next(setup, phase, outcome)
    }
}

/// A driver before any construction: a line over `Flash::resting`, in which both are alike. A member of `Part` for `fresh` would be longer.
pub fn not_built() -> SpiNandFlash
    ensures { result ≡ not_built }
{
    state::Flash::resting(opening::fresh(SpiNandConfig::single()), false, 0)
}
