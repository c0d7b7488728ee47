// A driver's words in a case: the names of its calls, what each takes, and its settings.
ghost use Rattle.std.specs.Prelude.{◌≤◌, ◌≡◌, ℕ, List, Option};
ghost use Rattle.case_text.specs.declared.line.Four.{Four};
ghost use Rattle.case_text.specs.declared.line.Quad.{Quad};
ghost use Rattle.flash_calls.specs.declared.call.Call.{Call};
ghost use Rattle.trace_words.specs.declared.request.Form.{Form};
ghost use Rattle.flash_words.specs.Words.{named_in, config_by, asked_by};

use crate::asked::Asked;
use case_text::line::{Four, Line, Quad};
use case_text::word;
use flash_calls::call::Call;
use spi_flash::rows;
use trace_words::request;
use trace_words::request::Form;

// A call's name. It tells whose words a case is written in.
pub trait Words: Copy {
    // The driver's settings.
    type Config: Copy;

    ghost named: { List ℕ → Option Self };

    ghost form: { Self → Form };

    ghost most: { Self → ℕ };

    ghost call: { Self → Self.Config → ℕ → ℕ → Call };

    ghost with_quad: { Self.Config → Option Quad → Self.Config };

    ghost with_own: { Self.Config → Option Four → Self.Config };

    // The name that is written so.
    fn named(word: &[u8]) -> Option<Self>
        ensures { result ≡ named word.now };

    // How the call is written.
    fn form(self) -> Form
        ensures { result ≡ form self };

    // The largest number that it takes.
    fn most(self) -> u64
        ensures { result ≡ most self };

    // That call with its numbers, and the settings for a construction. The numbers and no Request: what it lends is no part of a call.
    fn call(self, config: Self::Config, first: u64, second: u64) -> Call
        ensures { (first ≤ most self) → (second ≤ most self) → result ≡ call self config first second };

    // The settings with another quad setting.
    fn with_quad(config: Self::Config, quad: Option<Quad>) -> Self::Config
        ensures { result ≡ with_quad config quad };

    // The settings with another device or geometry of the caller's own.
    fn with_own(config: Self::Config, own: Option<Four>) -> Self::Config
        ensures { result ≡ with_own config own };
}

// The name that is written so, in a table of the names as they are written.
#[tactic(auto, using(crate::proofs::Named::first))]
pub fn named<N: Copy>(names: &[(&[u8], N)], word: &[u8]) -> Option<N>
    ensures { result ≡ named_in names.now word.now }
{
    rows::known(names, word)
}

// What a line between two calls makes of the settings.
pub fn config_at<W: Words>(config: W::Config, line: Line) -> W::Config
    ensures { result ≡ config_by W.with_quad W.with_own config line }
{
    match line {
        Line::Quad(quad) => W::with_quad(config, quad),
        Line::Own(own) => W::with_own(config, own),
        Line::End | Line::Passed | Line::Done | Line::Data | Line::BusError(_) | Line::Call =>
            config,
    }
}

// The call that a line asks for, with the settings for a construction and the room for what it lends.
pub fn asked_by<W: Words>(line: &[u8], config: W::Config, room_len: usize) -> Option<Asked>
    ensures { result ≡ asked_by W.named W.form W.most W.call line.now config room_len }
{
    let name = W::named(word::word(line, 1))?;
    let request = request::said(line, name.form(), name.most(), room_len)?;
    Some(Asked {
        call: name.call(config, request.first, request.second),
        takes: request.takes,
    })
}
