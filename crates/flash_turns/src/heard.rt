// What a line says where a reply is awaited. Text and place stay two, as in `case_text`.
ghost use Rattle.std.specs.Prelude.{◌≡◌};
ghost use Rattle.flash_turns.specs.Heard.{heard_of};

use crate::settings::Settings;
use crate::words;
use case_text::line;
use trace_words::heard;
use trace_words::heard::Heard;

// A line that follows no rule says nothing. A call tells that no reply is left.
#[tactic(auto, unfolding(crate::specs::Heard::heard_of, crate::specs::Heard::call_heard))]
pub fn heard_at(text: &[u8], at: usize, settings: Settings, room_len: usize) -> Option<Heard>
    ensures { result ≡ heard_of text.now at settings room_len }
{
    let line = words::line_of(text, at, settings)?;
    if heard::is_call(line) {
        words::asked_by(line::line_at(text, at), settings, room_len)?;
        return Some(Heard::Spent);
    }
    Some(heard::heard_in(line))
}
