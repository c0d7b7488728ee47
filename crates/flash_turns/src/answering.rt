// A turn that answers the action that is out. Settings and place stay two, and the memory one by one, as in `turn`.
ghost use Rattle.std.specs.Prelude.{◌≡◌};
ghost use Rattle.flash_turns.specs.Answering.{heard_then, answered_to, answering_of};

use crate::hears;
use crate::hears::Hears;
use crate::settings::Settings;
use flash_calls::given::Given;
use flash_words::asked::Ask;
use trace_words::place::Place;

// A Turn without its settings, which no reply changes.
#[derive(Clone, Copy)]
pub struct Next {
    pub place: Place,
    pub ask: Ask,
}

// What is heard, as a question to the driver.
#[tactic(auto, unfolding(crate::specs::Answering::heard_then))]
fn heard(place: Place, hears: Hears) -> Next
    ensures { result ≡ heard_then place hears }
{
    match hears {
        Hears::Answer { reply, n, next } => return Next {
            place: place.gave(next),
            ask: Ask::Answer {
                reply,
                n,
                takes: place.takes,
            },
        },
        Hears::Stop { error, next } => return Next {
            place: place.gave(next),
            ask: Ask::Stop(error),
        },
        Hears::Stay(stays) => return Next {
            place: stays,
            ask: Ask::Nothing,
        },
    }
}

#[tactic(auto, unfolding(crate::specs::Answering::answering_of))]
pub fn answering(
    settings: Settings,
    place: Place,
    given: Given,
    text: &[u8],
    room_len: usize,
    reply: &mut [u8],
) -> Next
    ensures { answered_to result reply.new ≡ answering_of settings place given text.now room_len reply.old }
{
    let hears = hears::awaited(given, place, settings, text, room_len, reply);
    heard(place, hears)
}
