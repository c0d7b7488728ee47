// Where a turn leaves a trace, and what it asks of the driver.
ghost use Rattle.std.specs.Prelude.{◌≡◌};
ghost use Rattle.flash_turns.specs.State.{shown_turn, begun_of, begun_in};

use crate::settings::Settings;
use flash_calls::given::Given;
use flash_words::asked::Ask;
use trace_words::place::Place;

#[derive(Clone, Copy)]
pub struct Turn {
    // The settings for the next `new`.
    pub settings: Settings,
    pub place: Place,
    pub ask: Ask,
}

impl Turn {
    // The driver is not asked.
    pub(crate) fn shown(settings: Settings, place: Place) -> Turn
        ensures { result ≡ shown_turn settings place }
    {
        Turn {
            settings,
            place,
            ask: Ask::Nothing,
        }
    }
}

// A call that is turned away before its first action has not begun.
fn has_begun(given: Given) -> bool
    ensures { result ≡ begun_of given }
{
    !matches!(given, Given::Refused(_))
}

// The place once the driver has been asked: of a call it is known now whether it has begun.
#[tactic(auto, unfolding(crate::specs::State::begun_in))]
pub fn begun_in(place: Place, ask: Ask, given: Given) -> Place
    ensures { result ≡ begun_in place ask given }
{
    match ask {
        Ask::Begin(asked) => Place::started(asked.takes, has_begun(given), place.at),
        Ask::Nothing | Ask::Answer { .. } | Ask::Stop(_) => place,
    }
}
