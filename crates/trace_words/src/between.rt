// A line between two calls: a setting, a reply that is left over, or none of these.
ghost use Rattle.std.specs.Prelude.{◌≡◌};
ghost use Rattle.trace_words.specs.Between.{left_over, between_at};

use crate::place::{Mode, Place};
use case_text::line::Line;

// Replies left when a call ends are passed over. Where no call came before, a reply is bad.
#[tactic(auto, unfolding(crate::specs::Between::left_over))]
fn left_over(place: Place, next: usize) -> Place
    ensures { result ≡ left_over place next }
{
    if place.replies {
        return place.read_to(next);
    }
    place.in_mode(Mode::Bad)
}

// Any line but a call, which changes nothing here. What a setting says is the driver's, and no reply follows one.
#[tactic(auto, unfolding(crate::specs::Between::between_at))]
pub fn between(place: Place, line: Line, next: usize) -> Place
    ensures { result ≡ between_at place line next }
{
    match line {
        Line::End => place.in_mode(Mode::Over),
        Line::Passed => place.read_to(next),
        Line::Done | Line::Data | Line::BusError(_) => left_over(place, next),
        Line::Quad(_) | Line::Own(_) => Place {
            at: next,
            replies: false,
            ..place
        },
        Line::Call => place,
    }
}
