// How many turns a whole case takes at most.
ghost use Rattle.std.specs.Prelude.{◌≡◌};
ghost use Rattle.trace_words.specs.Budget.{budget_of};

use crate::{print, request};
use case_text::line;

// A line is taken in one turn, and its reply brings at most four actions that need no line, of two turns each, and the line of
// one that does: with the end of a call and a turn that finds no reply these are fewer than 16. Two turns are left for the end.
const LINE_TURNS: usize = 16;

// More turns than any text of this length takes: a line has one character at least, and brings one buffer at most.
#[tactic(auto, unfolding(crate::specs::Budget::budget_of))]
pub fn budget(text_len: usize, room_len: usize) -> usize
    ensures { result ≡ budget_of text_len room_len }
{
    let lines = line::TEXT_MOST.min(text_len) + 2;
    let pieces = request::BUFFER_MOST.min(room_len) / print::PIECE;
    lines * (pieces + LINE_TURNS)
}
