//! The rule of both drivers' `wait_ready`: look, and while busy below the limit ask another delay.
ghost use Rattle.std.specs.Prelude.{◌≡◌};
ghost use Rattle.spi_flash.specs.Wait.{first_wait, next_wait};

/// Polling parameters in microseconds, as in nand/opcode.rs.
#[derive(Clone, Copy, Debug)]
pub struct Timings {
    pub initial_us: u32,
    pub poll_us: u32,
    pub timeout_us: u32,
}

/// Not a Result: `begin` cannot fail, and both drivers take the four apart in one match, whether a wait begins or goes on.
#[derive(Clone, Copy)]
pub enum Wait {
    // Look at the status.
    Look,
    // Ask this delay; the sum asked is then `waited`.
    Pause { us: u32, waited: u32 },
    // The part is ready.
    Ready,
    Timeout,
}

/// How a wait begins: with its first delay, or at once where that is 0.
#[tactic(auto, unfolding(crate::specs::Wait::first_wait))]
pub fn begin(timings: Timings) -> Wait
    ensures { result ≡ first_wait timings }
{
    let first = timings.initial_us;
    if first == 0 {
        Wait::Look
    } else {
        Wait::Pause {
            us: first,
            waited: first,
        }
    }
}

/// What follows a look, after delays of `waited` in all.
#[tactic(auto, unfolding(crate::specs::Wait::next_wait))]
pub fn after_look(timings: Timings, waited: u32, busy: bool) -> Wait
    ensures { result ≡ next_wait timings waited busy }
{
    if !busy {
        return Wait::Ready;
    }
    if timings.timeout_us <= waited {
        return Wait::Timeout;
    }
    Wait::Pause {
        us: timings.poll_us,
        waited: waited.saturating_add(timings.poll_us),
    }
}
