//! One reply to the action that is out.
ghost use Rattle.std.specs.Prelude.{◌≡◌, take};
ghost use Rattle.qspi.specs.Loan.{SameLoan, lending, returning};
ghost use Rattle.spi_flash.specs.Replying.{exchanged, stepped_to, steps};
ghost use Rattle.machine.specs.Shape.{job_as, shape};

use crate::part::{FlashOf, Part, SteppedOf};
use crate::state::{Flash, Job};
use qspi::bus::Reply;
use qspi::exchange;
use qspi::frame::Exchanged;
use qspi::loan::Loan;
use spi_flash::error::FlashError;
use spi_flash::loan;

// What does not fit is refused; what fits brings the transfer that is out on, or ends it. The job is the flash's own, where it is known to
// be there. Each arm returns, so that its value is written where the caller wants it (docs/DECISIONS.md).
fn exchanged<D: Part>(
    flash: FlashOf<D>,
    job: Job<D::Phase>,
    delivered: usize,
    heard: Exchanged,
) -> SteppedOf<D>
    ensures { result ≡ exchanged shape D.next flash (job_as job) delivered heard }
{
    match heard {
        Exchanged::Misfit => return flash.refused(FlashError::Misfit),
        Exchanged::Gave { frame, action } => {
            let running = Some(Job { frame, ..job });
            return Flash {
                delivered,
                running,
                ..flash
            }
            .acting(action);
        }
        Exchanged::Over(outcome) => return flash.settle(
            job.takes,
            D::next(flash.setup, job.phase, outcome),
        ),
    }
}

/// Takes the reply to the action that is out, and gives the next action or the call's end.
#[tactic(auto, unfolding(spi_flash::specs::Replying::steps))]
pub fn step<D: Part>(flash: FlashOf<D>, reply: Reply, bytes: &[u8], lent: &mut Loan) -> SteppedOf<D>
    ensures same { SameLoan lent.old lent.new }
    ensures stepped { returning (stepped_to result) lent.new ≡ lending (steps shape D.next flash reply bytes.now) lent.old }
{
    let running = flash.running;
    let Some(job) = running else {
        return flash.refused(FlashError::OutOfTurn);
    };
    let delivered = exchange::delivered_by(
        job.frame,
        reply,
        bytes.len(),
        lent.buffer.len(),
        flash.delivered,
    );
    let heard = loan::exchange(job.takes, job.frame, reply, bytes, lent);
    exchanged::<D>(flash, job, delivered, heard)
}

impl<S: Copy, P: Copy> Flash<S, P> {
    /// The beginning of the caller's buffer that holds the bytes read by the last call begun, as that part of the buffer itself.
    pub fn delivered(self, buffer: &[u8]) -> &[u8]
        ensures { result.now ≡ take self.delivered buffer.now }
    {
        qspi::bytes::delivered(buffer, self.delivered)
    }
}
