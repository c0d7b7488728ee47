//! What the NOR has of its own, of which machine makes the driver. An instance of its trait: what is alike is in machine.
ghost use Rattle.std.specs.Prelude.{◌≡◌};
ghost use Rattle.nor_driver.specs.Call.{nor_calls, not_built};
ghost use Rattle.nor_driver.specs.Step.{nor_next};

use crate::next;
use machine::part::Part;
use machine::state;
use nor_steps::opening;
use nor_steps::then::{Opening, Then};
use qspi::frame::Outcome;
use qspi::loan::Lengths;
use spi_nor::answer::Answer;
use spi_nor::call::Call;
use spi_nor::config::SpiNorConfig;
use spi_nor::phase::Phase;
use spi_nor::setup::Setup;

/// The NOR driver's state.
pub type SpiNorFlash = state::Flash<Setup, Phase>;

/// What a step of the NOR driver gives.
pub type Stepped = state::Stepped<Setup, Phase, Answer>;

/// The NOR as a part.
#[derive(Clone, Copy)]
pub struct Nor;

impl Part for Nor {
    type Setup = Setup;

    type Phase = Phase;

    type Answer = Answer;

    type Call = Call;

    ghost calls = { nor_calls };

    ghost next = { nor_next };

    fn opening(setup: Setup, call: Call, lengths: Lengths) -> Opening {
        opening::opening_of(setup, call, lengths)
    }

    fn raised() -> Phase {
        Phase::Raised
    }

    fn done() -> Answer {
        Answer::Done
    }

    fn in_bounds(setup: Setup) -> bool {
        setup.device.in_bounds()
    }

    fn next(setup: Setup, phase: Phase, outcome: Outcome) -> Then {
        next::next(setup, phase, outcome)
    }
}

/// A driver before any construction: a line over `Flash::resting`, in which both are alike. A member of `Part` for `fresh` would be longer.
pub fn not_built() -> SpiNorFlash
    ensures { result ≡ not_built }
{
    state::Flash::resting(opening::fresh(SpiNorConfig::single()), false, 0)
}
