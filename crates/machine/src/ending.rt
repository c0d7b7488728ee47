//! The number with which a step has ended the call.
ghost use Rattle.std.specs.Prelude.{◌≡◌};
ghost use Rattle.machine.specs.Number.{number_of};

use crate::state::Given;

impl<A> Given<A> {
    /// How the call has ended: 0 is success, and also an action, with which the call goes on. No From, as 0 is said of two things.
    pub fn number(&self) -> u32
        ensures { result ≡ number_of self.now }
    {
        match self {
            Given::Act(_) | Given::Ended(_) => 0,
            Given::Failed(error) | Given::Refused(error) => u32::from(error.number()),
        }
    }
}
