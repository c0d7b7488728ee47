//! A driver's state and what a step gives, over its setup S, its phases P and its answers A.
use qspi::bus::Action;
use qspi::frame::Frame;
use spi_flash::error::FlashError;
use spi_flash::loan::Takes;

/// A call under way.
#[derive(Clone, Copy)]
pub struct Job<P> {
    pub phase: P,
    pub frame: Frame,
    pub takes: Takes,
}

/// A driver's state.
#[derive(Clone, Copy)]
pub struct Flash<S, P> {
    pub setup: S,
    // The last construction begun has succeeded. No Option of the setup: a construction works on one before it is built.
    pub built: bool,
    // Bytes that the last call begun has put into the caller's buffer: a count, as the buffer is lent anew at each step.
    pub delivered: usize,
    pub running: Option<Job<P>>,
}

/// Not a Result: an action neither succeeds nor fails, and a refusal is no failure of the call under way.
#[derive(Clone, Copy)]
pub enum Given<A> {
    Act(Action),
    // The call has succeeded.
    Ended(A),
    // A call that had begun has failed.
    Failed(FlashError),
    // Turned away: nothing has changed.
    Refused(FlashError),
}

/// What a step gives, and the state after it.
#[derive(Clone, Copy)]
pub struct Stepped<S, P, A> {
    pub flash: Flash<S, P>,
    pub given: Given<A>,
}
