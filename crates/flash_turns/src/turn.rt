// Any turn of a trace. The settings and the place stay two: all turns but one leave the settings as they are, and most do not read them. The
// memory is lent one by one, as C lends it. What was given and the count stay two: the struct of both, Stepped, holds a driver, and no turn
// does.
ghost use Rattle.std.specs.Prelude.{◌≡◌};
ghost use Rattle.lines.specs.Writing.{text_in, SameRoom};
ghost use Rattle.flash_turns.specs.Turn.{next_turn, taken_to, turn_of};

use crate::answering::Next;
use crate::settings::Settings;
use crate::state::Turn;
use crate::{answering, giving, reading};
use flash_calls::given::Given;
use lines::text::Writer;
use trace_words::place::{Mode, Place};
use trace_words::show;

fn asking(settings: Settings, next: Next) -> Turn
    ensures { result ≡ next_turn settings next }
{
    Turn {
        settings,
        place: next.place,
        ask: next.ask,
    }
}

// One turn, from what the driver gave last and its count of bytes delivered. A trace that is over stays as it is.
#[tactic(auto, unfolding(crate::specs::Turn::turn_of))]
pub fn turn(
    settings: Settings,
    place: Place,
    given: Given,
    count: usize,
    text: &[u8],
    scratch: &[u8],
    room: &mut [u8],
    reply: &mut [u8],
    out: &mut Writer,
) -> Turn
    ensures same { SameRoom out.old out.new }
    ensures taken { taken_to result.settings result.place result.ask room.new reply.new (text_in out.new) ≡ turn_of settings place given count text.now scratch.now room.old reply.old (text_in out.old) }
{
    match place.mode {
        Mode::Reading => return reading::reading(settings, place, text, room, out),
        Mode::Giving => return Turn::shown(
            settings,
            giving::giving(place, given, count, scratch, room, out),
        ),
        Mode::Awaiting => return asking(
            settings,
            answering::answering(settings, place, given, text, room.len(), reply),
        ),
        Mode::Showing(from) => return Turn::shown(settings, show::showing(place, from, room, out)),
        Mode::Bad => return Turn::shown(settings, show::bad(place, text, out)),
        Mode::Over => return Turn::shown(settings, place),
    }
}
