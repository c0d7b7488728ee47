//! What is a part's own.
ghost use Rattle.std.specs.Prelude.{◌≡◌};
ghost use Rattle.qspi.specs.Frame.{Outcome};
ghost use Rattle.spi_flash.specs.Beginning.{Calls};
ghost use Rattle.spi_flash.specs.Shape.{Then};
ghost use Rattle.machine.specs.Shape.{then_as, opening_as};

use crate::state::{Flash, Stepped};
use crate::then::{Opening, Then};
use qspi::frame::Outcome;
use qspi::loan::Lengths;

/// A part of flash: what it has of its own, of which the machine makes its driver.
pub trait Part {
    type Setup: Copy;

    type Phase: Copy;

    type Answer: Copy;

    type Call: Copy;

    ghost calls: { Calls Self.Setup Self.Phase Self.Answer Self.Call };

    ghost next: { Self.Setup → Self.Phase → Outcome → Then Self.Setup Self.Phase Self.Answer };

    fn opening(setup: Self::Setup, call: Self::Call, lengths: Lengths) -> OpeningOf<Self>
        ensures { opening_as result ≡ calls.opening setup call lengths.buffer lengths.«data» };

    fn raised() -> Self::Phase
        ensures { result ≡ calls.raised };

    fn done() -> Self::Answer
        ensures { result ≡ calls.done };

    fn in_bounds(setup: Self::Setup) -> bool
        ensures { result ≡ calls.in_bounds setup };

    fn next(setup: Self::Setup, phase: Self::Phase, outcome: Outcome) -> ThenOf<Self>
        ensures { then_as result ≡ next setup phase outcome };
}

/// The machine's types at a part.
pub type FlashOf<D> = Flash<<D as Part>::Setup, <D as Part>::Phase>;

/// What a step of the part's driver gives.
pub type SteppedOf<D> = Stepped<<D as Part>::Setup, <D as Part>::Phase, <D as Part>::Answer>;

/// What follows a transfer of the part's driver.
pub type ThenOf<D> = Then<<D as Part>::Setup, <D as Part>::Phase, <D as Part>::Answer>;

/// What a call is to the part's driver at rest.
pub type OpeningOf<D> = Opening<<D as Part>::Setup, <D as Part>::Phase, <D as Part>::Answer>;
