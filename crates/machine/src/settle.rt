//! A driver's state put together, and what a step comes to: the next transfer's first action, the call's end, or a refusal.
ghost use Rattle.std.specs.Prelude.{◌≡◌};
ghost use Rattle.spi_flash.specs.Settling.{started, settled};
ghost use Rattle.machine.specs.Shape.{then_as, shape, flash_of, started_of, refused_of};

use crate::state::{Flash, Given, Job, Stepped};
use crate::then::{Next, Then};
use qspi::bus::Action;
use qspi::frame;
use qspi::transfer::Transfer;
use spi_flash::error::FlashError;
use spi_flash::loan::Takes;

impl<S: Copy, P: Copy> Flash<S, P> {
    /// The driver at rest. Setup, built and delivered stand side by side here alone, where a Flash is made of nothing else.
    pub fn resting(setup: S, built: bool, delivered: usize) -> Flash<S, P>
        ensures { result ≡ flash_of setup built delivered None }
    {
        Flash {
            setup,
            built,
            delivered,
            running: None,
        }
    }

    /// The state unchanged, and why.
    pub fn refused<A>(self, error: FlashError) -> Stepped<S, P, A>
        ensures { result ≡ refused_of self error }
    {
        Stepped {
            flash: self,
            given: Given::Refused(error),
        }
    }

    /// An action for the host.
    pub fn acting<A>(self, action: Action) -> Stepped<S, P, A>
        ensures { result ≡ started_of self action }
    {
        Stepped {
            flash: self,
            given: Given::Act(action),
        }
    }

    /// Gives out the first action of a transfer.
    pub fn start<A>(self, takes: Takes, setup: S, transfer: Transfer, phase: P) -> Stepped<S, P, A>
        ensures { result ≡ started shape self takes setup transfer phase }
    {
        let frame = frame::first(transfer);
        let job = Job {
            phase,
            frame,
            takes,
        };
        Flash {
            setup,
            running: Some(job),
            ..self
        }
        .acting(frame::pending(frame))
    }

    // Inlined: else its result, a few hundred bytes, is cleared and copied once more where a transfer is over.
    /// Goes on with the next transfer, or ends the call. A call that has succeeded leaves the driver built.
    #[inline(always)]
    #[tactic(auto, unfolding(spi_flash::specs::Settling::settled))]
    pub fn settle<A>(self, takes: Takes, then: Then<S, P, A>) -> Stepped<S, P, A>
        ensures { result ≡ settled shape self takes (then_as «then») }
    {
        match then {
            Ok(
                Next::Go {
                    setup,
                    transfer,
                    phase,
                },
            ) => return self.start(takes, setup, transfer, phase),
            Ok(Next::End { setup, answer }) => return Stepped {
                flash: Flash {
                    setup,
                    built: true,
                    running: None,
                    ..self
                },
                given: Given::Ended(answer),
            },
            Err(error) => return Stepped {
                flash: Flash {
                    running: None,
                    ..self
                },
                given: Given::Failed(error),
            },
        }
    }
}
