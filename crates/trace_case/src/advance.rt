// One turn of a trace, and what it asks of the driver.
ghost use Rattle.std.specs.Prelude.{◌≡◌};
ghost use Rattle.lines.specs.Writing.{text_in, SameRoom};
ghost use Rattle.trace_case.specs.Case.{start_of, traced_by, traced_to, turn_after};

use crate::lent;
use flash::drive;
use flash::state::Stepped;
use flash_calls::call::Kind;
use flash_turns::settings::Settings;
use flash_turns::state::Turn;
use flash_turns::{settings, state, turn};
use lines::text::Writer;
use trace_words::place::Place;

#[derive(Clone, Copy)]
pub struct Trace {
    // The driver with what it gave last.
    pub stepped: Stepped,
    // The settings for the next `new`.
    pub settings: Settings,
    pub place: Place,
}

// Before the first line.
pub fn start(kind: Kind) -> Trace
    ensures { result ≡ start_of kind }
{
    Trace {
        stepped: drive::fresh(kind),
        settings: settings::none(kind),
        place: Place::start(),
    }
}

// What the turn asks has been answered by the driver.
fn traced_by(turn: Turn, stepped: Stepped) -> Trace
    ensures { result ≡ traced_by turn stepped }
{
    Trace {
        stepped,
        settings: turn.settings,
        place: state::begun_in(turn.place, turn.ask, stepped.given),
    }
}

// One turn, which prints behind what is written. A trace that is over stays as it is. The memory is lent as C lends it, one by one.
pub fn advance(
    trace: Trace,
    text: &[u8],
    scratch: &mut [u8],
    room: &mut [u8],
    reply: &mut [u8],
    out: &mut Writer,
) -> Trace
    ensures same { SameRoom out.old out.new }
    ensures traced { traced_to result scratch.new room.new reply.new (text_in out.new) ≡ turn_after text.now (traced_to trace scratch.old room.old reply.old (text_in out.old)) }
{
    let stepped = trace.stepped;
    let turn = turn::turn(
        trace.settings,
        trace.place,
        stepped.given,
        stepped.delivered,
        text,
        scratch,
        room,
        reply,
        out,
    );
    traced_by(turn, lent::asked(stepped, turn.ask, scratch, room, reply))
}
