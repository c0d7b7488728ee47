// A driver's calls and steps, with what a call lends at the beginning of the room.
ghost use Rattle.std.specs.Prelude.{[], ◌≡◌};
ghost use Rattle.flash.specs.Drive.{stepped_to, step_of};
ghost use Rattle.trace_case.specs.Lent.{begun_over, none_over, buffer_over, data_over, answered_over, asked_over};

use flash::drive;
use flash::state::{Flash, Stepped};
use flash_calls::call::Call;
use flash_words::asked::Ask;
use qspi::bus::Reply;
use qspi::bytes;
use qspi::loan::{Lengths, Loan};
use spi_flash::error::FlashError;
use spi_flash::loan::Takes;
use trace_words::loan;

// Hands a call to the driver, its loan being laid.
#[tactic(auto, unfolding(crate::specs::Lent::begun_over))]
fn begin<'a>(flash: Flash, call: Call, takes: Takes, scratch: &'a [u8], room: &'a [u8]) -> Stepped
    ensures { stepped_to result scratch.now room.now ≡ begun_over flash call takes scratch.now room.now }
{
    let lengths = Lengths::new(scratch, loan::buffer(takes, room), loan::data(takes, room));
    drive::begin(flash, call, lengths)
}

// ---- a reply to the action that is out: three ways to lend, each with slices of its own. The memory is lent one by one, as C lends it,
// and reply and bytes are two, as in the reply of the bus.

// Makes the loan of three slices: where a struct is given a part of a slice itself, it is not known what comes back into the slice.
fn step(
    flash: Flash,
    reply: Reply,
    bytes: &[u8],
    scratch: &mut [u8],
    buffer: &mut [u8],
    data: &[u8],
) -> Stepped
    ensures { stepped_to result scratch.new buffer.new ≡ step_of flash reply bytes.now scratch.old buffer.old «data».now }
{
    let mut lent = Loan {
        scratch,
        buffer,
        data,
    };
    drive::step(flash, reply, bytes, &mut lent)
}

#[tactic(auto, unfolding(crate::specs::Lent::none_over))]
fn with_none(flash: Flash, reply: Reply, bytes: &[u8], scratch: &mut [u8]) -> Stepped
    ensures { stepped_to result scratch.new [] ≡ none_over flash reply bytes.now scratch.old [] }
{
    step(flash, reply, bytes, scratch, &mut [], &[])
}

// A room that is shorter than the buffer that was lent is a misfit.
#[tactic(auto, unfolding(crate::specs::Lent::buffer_over))]
fn with_buffer(
    flash: Flash,
    reply: Reply,
    bytes: &[u8],
    n: usize,
    scratch: &mut [u8],
    room: &mut [u8],
) -> Stepped
    ensures { stepped_to result scratch.new room.new ≡ buffer_over flash reply bytes.now n scratch.old room.old }
{
    if n <= room.len() {
        return step(flash, reply, bytes, scratch, &mut room[..n], &[]);
    }
    drive::refused(flash, FlashError::Misfit)
}

#[tactic(auto, unfolding(crate::specs::Lent::data_over))]
fn with_data(
    flash: Flash,
    reply: Reply,
    bytes: &[u8],
    n: usize,
    scratch: &mut [u8],
    room: &[u8],
) -> Stepped
    ensures { stepped_to result scratch.new room.now ≡ data_over flash reply bytes.now n scratch.old room.now }
{
    let data = bytes::delivered(room, n);
    step(flash, reply, bytes, scratch, &mut [], data)
}

// Hands a reply to the driver, with what its call takes.
#[tactic(auto, unfolding(crate::specs::Lent::answered_over))]
fn answered(
    flash: Flash,
    reply: Reply,
    bytes: &[u8],
    takes: Takes,
    scratch: &mut [u8],
    room: &mut [u8],
) -> Stepped
    ensures { stepped_to result scratch.new room.new ≡ answered_over flash reply bytes.now takes scratch.old room.old }
{
    match takes {
        Takes::Nothing => return with_none(flash, reply, bytes, scratch),
        Takes::Buffer(n) => return with_buffer(flash, reply, bytes, n, scratch, room),
        Takes::Data(n) => return with_data(flash, reply, bytes, n, scratch, room),
    }
}

// ---- whatever a turn asks

#[tactic(auto, unfolding(crate::specs::Lent::asked_over))]
pub fn asked(
    stepped: Stepped,
    ask: Ask,
    scratch: &mut [u8],
    room: &mut [u8],
    reply: &[u8],
) -> Stepped
    ensures { stepped_to result scratch.new room.new ≡ asked_over stepped ask scratch.old room.old reply.now }
{
    let flash = stepped.flash;
    match ask {
        Ask::Nothing => return stepped,
        Ask::Begin(asked) => return begin(flash, asked.call, asked.takes, scratch, room),
        Ask::Answer {
            reply: by,
            n,
            takes,
        } => return answered(flash, by, bytes::delivered(reply, n), takes, scratch, room),
        Ask::Stop(error) => return drive::refused(flash, error),
    }
}
