// A turn that takes a line between two calls. Settings and place stay two, and the memory one by one, as in `turn`.
ghost use Rattle.std.specs.Prelude.{◌≡◌};
ghost use Rattle.lines.specs.Writing.{text_in, SameRoom};
ghost use Rattle.flash_turns.specs.Reading.{called_to, called_of, reading_of};

use crate::settings::Settings;
use crate::state::Turn;
use crate::{settings, words};
use case_text::{line, word};
use flash_words::asked::Ask;
use lines::text::Writer;
use trace_words::place::{Mode, Place};
use trace_words::{between, heard, loan, print};

// Asks for the call of the next line, lays what it lends into the room, and prints its name.
#[tactic(auto, unfolding(crate::specs::Reading::called_of))]
fn called(settings: Settings, place: Place, text: &[u8], room: &mut [u8], out: &mut Writer) -> Turn
    ensures same { SameRoom out.old out.new }
    ensures called { called_to result.settings result.place result.ask room.new (text_in out.new) ≡ called_of settings place text.now room.old (text_in out.old) }
{
    let line = line::line_at(text, place.at);
    let Some(asked) = words::asked_by(line, settings, room.len()) else {
        return Turn::shown(settings, place.in_mode(Mode::Bad));
    };
    loan::lay(asked.takes, line, room);
    print::call(out, word::word(line, 1));
    Turn {
        settings,
        place: Place::started(asked.takes, false, line::next_line(text, place.at)),
        ask: Ask::Begin(asked),
    }
}

#[tactic(auto, unfolding(crate::specs::Reading::reading_of))]
pub fn reading(
    settings: Settings,
    place: Place,
    text: &[u8],
    room: &mut [u8],
    out: &mut Writer,
) -> Turn
    ensures same { SameRoom out.old out.new }
    ensures called { called_to result.settings result.place result.ask room.new (text_in out.new) ≡ reading_of settings place text.now room.old (text_in out.old) }
{
    let Some(line) = words::line_of(text, place.at, settings) else {
        return Turn::shown(settings, place.in_mode(Mode::Bad));
    };
    if heard::is_call(line) {
        return called(settings, place, text, room, out);
    }
    Turn::shown(
        settings::after(settings, line),
        between::between(place, line, line::next_line(text, place.at)),
    )
}
