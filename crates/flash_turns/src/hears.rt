// What the turn that awaits a reply hears: decided before the driver is asked.
ghost use Rattle.std.specs.Prelude.{◌≡◌};
ghost use Rattle.flash_turns.specs.Hears.{hears_to, data_hears, replied_of, awaited_of};

use crate::heard;
use crate::settings::Settings;
use case_text::{line, word};
use flash_calls::given::Given;
use qspi::bus;
use qspi::bus::Reply;
use spi_flash::error::FlashError;
use trace_words::heard::Heard;
use trace_words::place::{Mode, Place};

// Where a line is taken, the next one begins at next. Not a Result: a call that stops and one that waits are no failures of this turn.
// And an enum: no closure may be handed out. n is a count and no slice, which would keep the reply's memory lent.
#[derive(Clone, Copy)]
pub enum Hears {
    // A reply to the action that is out; its bytes are the first n of the reply's memory.
    Answer { reply: Reply, n: usize, next: usize },
    // No reply that fits: the call stays unfinished.
    Stop { error: FlashError, next: usize },
    // The driver is not asked.
    Stay(Place),
}

// A reply of more bytes than there is room for fits no action.
#[tactic(auto, unfolding(crate::specs::Hears::data_hears))]
fn data_reply(line: &[u8], next: usize, reply: &mut [u8]) -> Hears
    ensures { hears_to result reply.new ≡ data_hears line.now next reply.old }
{
    let n = word::decode(word::behind(line, 1), reply);
    if reply.len() < n {
        return Hears::Stop {
            error: FlashError::Misfit,
            next,
        };
    }
    Hears::Answer {
        reply: Reply::Data,
        n,
        next,
    }
}

// The reply in the next line. `awaited` takes the same and what was given beside: a struct of them would be made and taken apart once.
#[tactic(auto, unfolding(crate::specs::Hears::replied_of))]
fn replied(
    place: Place,
    settings: Settings,
    text: &[u8],
    room_len: usize,
    reply: &mut [u8],
) -> Hears
    ensures { hears_to result reply.new ≡ replied_of place settings text.now room_len reply.old }
{
    let from = place.at;
    let next = line::next_line(text, from);
    let Some(heard) = heard::heard_at(text, from, settings, room_len) else {
        return Hears::Stay(place.in_mode(Mode::Bad));
    };
    match heard {
        Heard::Passed => Hears::Stay(place.read_to(next)),
        Heard::Reply(given) => Hears::Answer {
            reply: given,
            n: 0,
            next,
        },
        Heard::Bytes => data_reply(line::line_at(text, from), next, reply),
        Heard::Spent => Hears::Stop {
            error: FlashError::TapeSpent,
            next: from,
        },
    }
}

// Select and delay are answered by "done" without a line.
#[tactic(auto, unfolding(crate::specs::Hears::awaited_of))]
pub fn awaited(
    given: Given,
    place: Place,
    settings: Settings,
    text: &[u8],
    room_len: usize,
    reply: &mut [u8],
) -> Hears
    ensures { hears_to result reply.new ≡ awaited_of given place settings text.now room_len reply.old }
{
    let Given::Act(action) = given else {
        return Hears::Stay(place.in_mode(Mode::Giving));
    };
    if bus::on_bus(action) {
        return replied(place, settings, text, room_len, reply);
    }
    Hears::Answer {
        reply: Reply::Done,
        n: 0,
        next: place.at,
    }
}
