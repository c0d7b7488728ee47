// A turn that prints a piece of the caller's buffer, or that a line is bad.
ghost use Rattle.std.specs.Prelude.{◌≡◌};
ghost use Rattle.lines.specs.Writing.{text_in, SameRoom};
ghost use Rattle.trace_words.specs.Show.{shown_to, shown_mode, showing_of, bad_of};

use crate::place::{Mode, Place};
use crate::{loan, print};
use case_text::line;
use lines::text::Writer;

fn shown_mode(len: usize, from: usize) -> Mode
    ensures { result ≡ shown_mode len from }
{
    if print::more(len, from) {
        return Mode::Showing(from + print::PIECE);
    }
    Mode::Reading
}

// Where the trace stands behind a piece.
#[tactic(auto, unfolding(crate::specs::Show::showing_of))]
pub fn showing(place: Place, from: usize, room: &[u8], out: &mut Writer) -> Place
    ensures same { SameRoom out.old out.new }
    ensures shown { shown_to result (text_in out.new) ≡ showing_of place from room.now (text_in out.old) }
{
    let buffer = loan::buffer(place.takes, room);
    print::piece(out, buffer, from);
    place.in_mode(shown_mode(buffer.len(), from))
}

#[tactic(auto, unfolding(crate::specs::Show::bad_of))]
pub fn bad(place: Place, text: &[u8], out: &mut Writer) -> Place
    ensures same { SameRoom out.old out.new }
    ensures shown { shown_to result (text_in out.new) ≡ bad_of place text.now (text_in out.old) }
{
    print::bad(out, line::number_at(text, place.at));
    place.in_mode(Mode::Over)
}
