// Calls and replies handed to whichever driver it is.
ghost use Rattle.std.specs.Prelude.{◌≡◌};
ghost use Rattle.qspi.specs.Loan.{SameLoan, lending, returning};
ghost use Rattle.flash.specs.Drive.{not_built, refused_of, fresh_of, count_of, given_by, stepped_by, begin_of, stepped_to, step_of};

use crate::side::Side;
use crate::state::{Flash, Stepped};
use flash_calls::call::{Call, Kind};
use flash_calls::given::Answer;
use machine::part::SteppedOf;
use machine::state::Given;
use machine::{call, step};
use nand_driver::part::Nand;
use nor_driver::part::Nor;
use qspi::bus::Reply;
use qspi::loan::{Lengths, Loan};
use spi_flash::error::FlashError;

// A driver before any construction.
fn not_built(kind: Kind) -> Flash
    ensures { result ≡ not_built kind }
{
    match kind {
        Kind::Nor => Flash::Nor(nor_driver::part::not_built()),
        Kind::Nand => Flash::Nand(nand_driver::part::not_built()),
    }
}

fn count(flash: Flash) -> usize
    ensures { result ≡ count_of flash }
{
    match flash {
        Flash::Nor(nor) => nor.delivered,
        Flash::Nand(nand) => nand.delivered,
    }
}

// The state unchanged, and why.
pub fn refused(flash: Flash, error: FlashError) -> Stepped
    ensures { result ≡ refused_of flash error }
{
    Stepped {
        flash,
        given: Given::Refused(error),
        delivered: count(flash),
    }
}

// Before the first call: nothing has been given.
pub fn fresh(kind: Kind) -> Stepped
    ensures { result ≡ fresh_of kind }
{
    refused(not_built(kind), FlashError::OutOfTurn)
}

// What the one or the other answers. A function of its own, so that its arms can return, as those of `machine::step` do.
fn given<D: Side>(own: Given<D::Answer>) -> Given<Answer>
    ensures { result ≡ given_by D.flash_as D.answer_as own }
{
    match own {
        Given::Act(action) => return Given::Act(action),
        Given::Ended(answer) => return Given::Ended(D::answer(answer)),
        Given::Failed(error) => return Given::Failed(error),
        Given::Refused(error) => return Given::Refused(error),
    }
}

// What the one or the other has given.
fn stepped<D: Side>(stepped: SteppedOf<D>) -> Stepped
    ensures { result ≡ stepped_by D.flash_as D.answer_as stepped }
{
    Stepped {
        flash: D::flash(stepped.flash),
        given: given::<D>(stepped.given),
        delivered: stepped.flash.delivered,
    }
}

// Begins a call, by the lengths of what is lent. A call of the other driver is refused.
#[tactic(auto, unfolding(crate::specs::Drive::begin_of))]
pub fn begin(flash: Flash, call: Call, lengths: Lengths) -> Stepped
    ensures { result ≡ begin_of flash call lengths.scratch lengths.buffer lengths.«data» }
{
    match (flash, call) {
        (Flash::Nor(nor), Call::Nor(own)) => stepped::<Nor>(call::begin::<Nor>(nor, own, lengths)),
        (Flash::Nand(nand), Call::Nand(own)) => {
            stepped::<Nand>(call::begin::<Nand>(nand, own, lengths))
        }
        _ => refused(flash, FlashError::OutOfTurn),
    }
}

// Takes the reply to the action that is out, and gives the next action or the call's end.
#[tactic(auto, unfolding(crate::specs::Drive::step_of))]
pub fn step(flash: Flash, reply: Reply, bytes: &[u8], lent: &mut Loan) -> Stepped
    ensures same { SameLoan lent.old lent.new }
    ensures stepped { returning (stepped_to result) lent.new ≡ lending (step_of flash reply bytes.now) lent.old }
{
    match flash {
        Flash::Nor(nor) => return stepped::<Nor>(step::step::<Nor>(nor, reply, bytes, lent)),
        Flash::Nand(nand) => return stepped::<Nand>(step::step::<Nand>(nand, reply, bytes, lent)),
    }
}
