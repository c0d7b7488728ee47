//! What a call takes of what a host lends at each step.
ghost use Rattle.std.specs.Prelude.{◌≡◌};
ghost use Rattle.qspi.specs.Frame.{exchanged_to};
ghost use Rattle.qspi.specs.Loan.{SameLoan, lending, returning};
ghost use Rattle.spi_flash.specs.Loan.{ready_of, exchange_for};

use qspi::bus::Reply;
use qspi::command::SCRATCH_LEN;
use qspi::exchange;
use qspi::frame::{Exchanged, Frame};
use qspi::loan::{Lengths, Loan};

/// What a call takes beside the scratch, with its length at the beginning: later steps are held to that length alone.
/// Nothing is one of the arms that each reader takes apart, and no None around the other two.
#[derive(Clone, Copy)]
pub enum Takes {
    Nothing,
    Buffer(usize),
    Data(usize),
}

/// Whether the lengths lent are fit for a step of the call.
#[tactic(auto, unfolding(crate::specs::Loan::ready_of))]
pub fn ready(takes: Takes, lengths: Lengths) -> bool
    ensures { result ≡ ready_of takes lengths.scratch lengths.buffer lengths.«data» }
{
    SCRATCH_LEN <= lengths.scratch
        && match takes {
            Takes::Nothing => true,
            Takes::Buffer(n) => lengths.buffer == n,
            Takes::Data(n) => lengths.data == n,
        }
}

/// One reply to the action that is out, in a call that takes this. What is lent and not fit for it changes nothing, like a reply that
/// does not fit.
#[tactic(auto, unfolding(crate::specs::Loan::exchange_for))]
pub fn exchange(
    takes: Takes,
    frame: Frame,
    reply: Reply,
    bytes: &[u8],
    lent: &mut Loan,
) -> Exchanged
    ensures same { SameLoan lent.old lent.new }
    ensures exchanged { returning (exchanged_to result) lent.new ≡ lending (exchange_for takes frame reply bytes.now) lent.old }
{
    if !ready(takes, lent.lengths()) {
        return Exchanged::Misfit;
    }
    exchange::exchange(frame, reply, bytes, lent)
}
