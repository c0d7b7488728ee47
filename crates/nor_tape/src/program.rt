// What the replay program prints: the construction of a single-line NOR over a tape, a line for each action and one for the end.
ghost use Rattle.std.specs.Prelude.{◌≡◌, length};
ghost use Rattle.lines.specs.Writing.{Appends};
ghost use Rattle.nor_tape.specs.Program.{begun_input, over_of, line_at};

use lines::text::Writer;
use machine::state::Given;
use nor_driver::part;
use nor_driver::part::Nor;
use qspi::loan::Lengths;
use spi_flash::error::FlashError;
use spi_nor::call::Call;
use tape::replay;
use tape::replay::{Replay, ReplayOf};

// The longest tape that the program takes.
pub const INPUT_MOST: usize = 65536;

// A longer input is refused like a malformed tape.
#[tactic(auto, unfolding(crate::specs::Program::begun_input))]
pub fn begin(input: &[u8], scratch: &[u8]) -> ReplayOf<Nor>
    ensures { result ≡ begun_input input.now (length scratch.now) }
{
    let flash = part::not_built();
    if input.len() <= INPUT_MOST {
        return replay::begin::<Nor>(
            flash,
            Call::New,
            input,
            Lengths::new(scratch, scratch, scratch),
        );
    }
    Replay::new(flash.refused(FlashError::MalformedTape), 0)
}

// Whether there is nothing left to perform.
#[tactic(auto, unfolding(crate::specs::Program::over_of, crate::specs::Program::over_at))]
pub fn over(replay: ReplayOf<Nor>) -> bool
    ensures { result ≡ over_of replay }
{
    !matches!(replay.stepped.given, Given::Act(_))
}

// The line of what was given last.
#[tactic(auto, unfolding(crate::specs::Program::line_at))]
pub fn line(replay: ReplayOf<Nor>, scratch: &[u8], out: &mut Writer)
    ensures { Appends (line_at replay.stepped.given scratch.now) out.old out.new }
{
    match replay.stepped.given {
        Given::Act(action) => out.action(action, scratch, scratch),
        given @ (Given::Ended(_) | Given::Failed(_) | Given::Refused(_)) => out.end(given.number()),
    }
}
