//! How a call begins, and how it is turned away.
ghost use Rattle.std.specs.Prelude.{◌≡◌};
ghost use Rattle.spi_flash.specs.Beginning.{constructed, told, freed, opened, begun, at_rest, begins};
ghost use Rattle.machine.specs.Shape.{then_as, opening_as, shape};

use crate::part::{FlashOf, OpeningOf, Part, SteppedOf, ThenOf};
use crate::state::{Flash, Given, Stepped};
use crate::then::Opening;
use qspi::loan::Lengths;
use qspi::transfer::Transfer;
use spi_flash::entry;
use spi_flash::error::FlashError;
use spi_flash::loan::Takes;

// Select is raised, with which a construction begins.
#[tactic(auto, unfolding(spi_flash::specs::Beginning::constructed, spi_flash::specs::Settling::settled))]
fn construct<D: Part>(flash: FlashOf<D>, setup: D::Setup, scratch_len: usize) -> SteppedOf<D>
    ensures { result ≡ constructed shape D.calls flash setup scratch_len }
{
    match entry::may_begin(true, scratch_len, D::in_bounds(setup)) {
        Ok(()) => Flash::resting(setup, false, 0).start(
            Takes::Nothing,
            setup,
            Transfer::Raise,
            D::raised(),
        ),
        Err(error) => flash.refused(error),
    }
}

// What the driver holds.
#[tactic(auto, unfolding(spi_flash::specs::Beginning::told))]
fn told<S: Copy, P: Copy, A: Copy>(flash: Flash<S, P>, answer: A) -> Stepped<S, P, A>
    ensures { result ≡ told shape flash answer }
{
    if !flash.built {
        return flash.refused(FlashError::OutOfTurn);
    }
    Stepped {
        flash,
        given: Given::Ended(answer),
    }
}

// The Rust gives its bus back, and nothing can be called on what it was.
#[tactic(auto, unfolding(spi_flash::specs::Beginning::freed))]
fn freed<D: Part>(flash: FlashOf<D>) -> SteppedOf<D>
    ensures { result ≡ freed shape D.calls flash }
{
    if !flash.built {
        return flash.refused(FlashError::OutOfTurn);
    }
    Stepped {
        flash: Flash {
            built: false,
            running: None,
            ..flash
        },
        given: Given::Ended(D::done()),
    }
}

// What is turned away before its first action has not begun.
#[tactic(auto, unfolding(spi_flash::specs::Beginning::opened))]
fn opened<D: Part>(flash: FlashOf<D>, takes: Takes, then: ThenOf<D>) -> SteppedOf<D>
    ensures { result ≡ opened shape flash takes (then_as «then») }
{
    match then {
        Ok(_) => Flash {
            delivered: 0,
            running: None,
            ..flash
        }
        .settle(takes, then),
        Err(error) => flash.refused(error),
    }
}

// The Rust's own refusals come last.
#[tactic(auto, unfolding(spi_flash::specs::Beginning::begun))]
fn begun<D: Part>(
    flash: FlashOf<D>,
    scratch_len: usize,
    takes: Takes,
    then: ThenOf<D>,
) -> SteppedOf<D>
    ensures { result ≡ begun shape D.calls flash scratch_len takes (then_as «then») }
{
    match entry::may_begin(flash.built, scratch_len, D::in_bounds(flash.setup)) {
        Ok(()) => opened::<D>(flash, takes, then),
        Err(error) => flash.refused(error),
    }
}

#[tactic(auto, unfolding(spi_flash::specs::Beginning::at_rest))]
fn idle<D: Part>(flash: FlashOf<D>, opening: OpeningOf<D>, scratch_len: usize) -> SteppedOf<D>
    ensures { result ≡ at_rest shape D.calls flash (opening_as opening) scratch_len }
{
    match opening {
        Opening::Constructs(setup) => construct::<D>(flash, setup, scratch_len),
        Opening::Tells(answer) => told(flash, answer),
        Opening::Releases => freed::<D>(flash),
        Opening::Uses { takes, then } => begun::<D>(flash, scratch_len, takes, then),
    }
}

/// Begins a call, by the lengths of what is lent. Nothing lent changes: a command is put into the scratch only in a later step.
#[tactic(auto, unfolding(spi_flash::specs::Beginning::begins))]
pub fn begin<D: Part>(flash: FlashOf<D>, call: D::Call, lengths: Lengths) -> SteppedOf<D>
    ensures { result ≡ begins shape D.calls flash call lengths.scratch lengths.buffer lengths.«data» }
{
    if flash.running.is_some() {
        return flash.refused(FlashError::OutOfTurn);
    }
    let opening = D::opening(flash.setup, call, lengths);
    idle::<D>(flash, opening, lengths.scratch)
}
