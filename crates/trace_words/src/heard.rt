// What a line says where a reply is awaited.
ghost use Rattle.std.specs.Prelude.{◌≡◌};
ghost use Rattle.trace_words.specs.Heard.{is_call, heard_in};

use case_text::line::Line;
use qspi::bus::Reply;

#[derive(Clone, Copy)]
pub enum Heard {
    // Empty, or a comment.
    Passed,
    // A reply without bytes.
    Reply(Reply),
    // The digits of the reply's bytes stand behind the first character.
    Bytes,
    // No reply is left.
    Spent,
}

pub fn is_call(line: Line) -> bool
    ensures { result ≡ is_call line }
{
    matches!(line, Line::Call)
}

// A call is taken for a good one: its line has to be looked at first. The name says more than a From would.
pub fn heard_in(line: Line) -> Heard
    ensures { result ≡ heard_in line }
{
    match line {
        Line::Passed => Heard::Passed,
        Line::Done => Heard::Reply(Reply::Done),
        Line::Data => Heard::Bytes,
        Line::BusError(code) => Heard::Reply(Reply::Error(code)),
        Line::End | Line::Quad(_) | Line::Own(_) | Line::Call => Heard::Spent,
    }
}
