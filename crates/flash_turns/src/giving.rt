// A turn that prints what the driver has given. The memory is lent one by one, as C lends it.
ghost use Rattle.std.specs.Prelude.{◌≡◌};
ghost use Rattle.lines.specs.Writing.{text_in, SameRoom};
ghost use Rattle.trace_words.specs.Show.{shown_to};
ghost use Rattle.flash_turns.specs.Giving.{given_mode, giving_of};

use flash_calls::given::Given;
use flash_words::end;
use lines::text::Writer;
use spi_flash::loan::Takes;
use trace_words::place;
use trace_words::place::{Mode, Place};

fn given_mode(given: Given, takes: Takes) -> Mode
    ensures { result ≡ given_mode given takes }
{
    match given {
        Given::Act(_) => Mode::Awaiting,
        Given::Ended(_) | Given::Failed(_) | Given::Refused(_) => place::end_mode(takes),
    }
}

// The driver's count tells how much the call has delivered.
#[tactic(auto, unfolding(crate::specs::Giving::giving_of))]
pub fn giving<'a>(
    place: Place,
    given: Given,
    count: usize,
    scratch: &'a [u8],
    room: &'a [u8],
    out: &mut Writer,
) -> Place
    ensures same { SameRoom out.old out.new }
    ensures shown { shown_to result (text_in out.new) ≡ giving_of place given count scratch.now room.now (text_in out.old) }
{
    let takes = place.takes;
    end::given_lines(out, given, takes, place.counted(count), scratch, room);
    place.in_mode(given_mode(given, takes))
}
