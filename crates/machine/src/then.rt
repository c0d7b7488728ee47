//! What a call is, and what follows each of its transfers. Enums and no closures: no function may hand a closure out.
ghost use Rattle.std.specs.Prelude.{◌≡◌};
ghost use Rattle.machine.specs.Then.{go_to, end_with, plain, filling, sending};

use qspi::transfer::Transfer;
use spi_flash::error::FlashError;
use spi_flash::loan::Takes;

/// On with what the driver holds from here: another transfer, or the call's end.
#[derive(Clone, Copy)]
pub enum Next<S, P, A> {
    Go {
        setup: S,
        transfer: Transfer,
        phase: P,
    },
    End {
        setup: S,
        answer: A,
    },
}

/// What follows a transfer: on, or the error with which the call ends.
pub type Then<S, P, A> = Result<Next<S, P, A>, FlashError>;

/// A transfer, and where the call stands while it is out.
pub fn go<S, P, A>(setup: S, transfer: Transfer, phase: P) -> Then<S, P, A>
    ensures { result ≡ go_to setup transfer phase }
{
    Ok(Next::Go {
        setup,
        transfer,
        phase,
    })
}

/// The call's end.
pub fn end<S, P, A>(setup: S, answer: A) -> Then<S, P, A>
    ensures { result ≡ end_with setup answer }
{
    Ok(Next::End { setup, answer })
}

/// What a call is to a driver at rest.
#[derive(Clone, Copy)]
pub enum Opening<S, P, A> {
    // A construction, with what the driver holds before the id is known.
    Constructs(S),
    // It only tells what the driver holds.
    Tells(A),
    Releases,
    // Its first transfer or the Rust's own refusal, and what it takes.
    Uses { takes: Takes, then: Then<S, P, A> },
}

impl<S, P, A> Opening<S, P, A> {
    /// A call that takes nothing. These three are the three variants of what a call takes.
    pub fn plain(then: Then<S, P, A>) -> Opening<S, P, A>
        ensures { result ≡ plain «then» }
    {
        Opening::Uses {
            takes: Takes::Nothing,
            then,
        }
    }

    /// One that takes the caller's buffer.
    pub fn filling(len: usize, then: Then<S, P, A>) -> Opening<S, P, A>
        ensures { result ≡ filling len «then» }
    {
        Opening::Uses {
            takes: Takes::Buffer(len),
            then,
        }
    }

    /// One that takes the caller's data.
    pub fn sending(len: usize, then: Then<S, P, A>) -> Opening<S, P, A>
        ensures { result ≡ sending len «then» }
    {
        Opening::Uses {
            takes: Takes::Data(len),
            then,
        }
    }
}
