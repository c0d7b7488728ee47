// A line and a call in the words that the settings tell. Text and place stay two, as in `case_text`.
ghost use Rattle.std.specs.Prelude.{◌≡◌};
ghost use Rattle.flash_turns.specs.Words.{line_of, asked_of};

use crate::settings::Settings;
use case_text::line;
use case_text::line::Line;
use flash_words::asked::Asked;
use flash_words::words;

// The line that begins at a place.
#[tactic(auto, unfolding(crate::specs::Words::line_of))]
pub fn line_of(text: &[u8], at: usize, settings: Settings) -> Option<Line>
    ensures { result ≡ line_of text.now at settings }
{
    match settings {
        Settings::Nor(_) => line::read_at(text, at, b"device"),
        Settings::Nand(_) => line::read_at(text, at, b"geometry"),
    }
}

// The call that a line asks for, with the room for what it lends.
pub fn asked_by(line: &[u8], settings: Settings, room_len: usize) -> Option<Asked>
    ensures { result ≡ asked_of line.now settings room_len }
{
    match settings {
        Settings::Nor(config) => {
            words::asked_by::<flash_words::nor::Name>(line, config, room_len)
        }
        Settings::Nand(config) => {
            words::asked_by::<flash_words::nand::Name>(line, config, room_len)
        }
    }
}
