// What a line of the text is.
ghost use Rattle.std.specs.Prelude.{◌≡◌, ◌≤◌, length};
ghost use Rattle.case_text.specs.Word.{count_of};
ghost use Rattle.case_text.specs.Line.{line_at, next_of, line_number, comment_of, done_of, data_of, error_of, four_of, setting_of, quad_at, quad_of, own_of, named_of, read_of, read_at};

use crate::word;
use qspi::bytes;

const NEWLINE: u8 = b'\n';

// A longer text is not taken.
pub const TEXT_MOST: usize = 4194304;

// The name of a setting, and "none" or four numbers behind it.
const WORDS_NONE: usize = 2;

const WORDS_FOUR: usize = 5;

// By name and no array: the definitions take each by its name, and of a list by place they would want its length too.
#[derive(Clone, Copy)]
pub struct Four {
    pub first: u64,
    pub second: u64,
    pub third: u64,
    pub fourth: u64,
}

// The quad setting: four numbers as the drivers take them. A type beside the drivers' own two: what reads a line is one for both, and knows
// neither driver.
#[derive(Clone, Copy)]
pub struct Quad {
    pub tclqv_ns: u32,
    pub read_opcode: u8,
    pub program_opcode: u8,
    pub margin: u8,
}

// A setting is its numbers, or none.
#[derive(Clone, Copy)]
pub enum Line {
    // No line is left. A case may end there: it breaks no rule.
    End,
    // Empty, or a comment.
    Passed,
    Done,
    // The digits of the bytes stand behind the first character.
    Data,
    BusError(u8),
    Quad(Option<Quad>),
    // The caller's own device or geometry.
    Own(Option<Four>),
    Call,
}

// ---- lines in the text. Text and place stay two, here and where lines are read: a reader of both, as the tape's, would be made anew for
// each line and read once.

// The line that begins at a place, without its line feed.
#[tactic(auto, unfolding(crate::specs::Line::line_at))]
pub fn line_at(text: &[u8], at: usize) -> &[u8]
    ensures { result.now ≡ line_at text.now at }
{
    let left = word::behind(text, at);
    let n = word::before(left, NEWLINE);
    &left[..n]
}

// Where the line after it begins. A last line needs no line feed.
#[tactic(auto, unfolding(crate::specs::Line::next_of))]
pub fn next_line(text: &[u8], at: usize) -> usize
    ensures { result ≡ next_of text.now at }
{
    if text.len() <= at {
        return text.len();
    }
    let left = word::behind(text, at);
    let n = word::before(left, NEWLINE);
    if n < text.len() - at {
        return at + n + 1;
    }
    text.len()
}

#[tactic(auto, unfolding(crate::specs::Word::count_of))]
fn line_feeds(text: &[u8]) -> usize
    ensures value { result ≡ count_of 10 text.now }
    ensures upper_bound { result ≤ length text.now }
{
    text.iter().filter(|c| **c == NEWLINE).count()
}

// The number of the line that begins at a place, counted from 1.
#[tactic(auto, unfolding(crate::specs::Line::line_number))]
pub fn number_at(text: &[u8], at: usize) -> usize
    ensures { result ≡ line_number text.now at }
{
    line_feeds(bytes::delivered(text, at)) + 1
}

// ---- replies. What follows no rule is no line.

#[tactic(auto, using(crate::proofs::Numbers::ascii_is), unfolding(crate::specs::Line::comment_of))]
fn comment(line: &[u8]) -> Option<Line>
    ensures { result ≡ comment_of line.now }
{
    line.is_ascii().then_some(Line::Passed)
}

#[tactic(auto, unfolding(crate::specs::Line::done_of))]
fn done(line: &[u8]) -> Option<Line>
    ensures { result ≡ done_of line.now }
{
    (line.len() == 1).then_some(Line::Done)
}

#[tactic(auto, unfolding(crate::specs::Line::data_of))]
fn data(line: &[u8]) -> Option<Line>
    ensures { result ≡ data_of line.now }
{
    word::is_hex(word::behind(line, 1)).then_some(Line::Data)
}

#[tactic(auto, unfolding(crate::specs::Line::error_of))]
fn bus_error(line: &[u8]) -> Option<Line>
    ensures { result ≡ error_of line.now }
{
    let code = word::parsed(word::behind(line, 1))?;
    Some(Line::BusError(u8::try_from(code).ok()?))
}

// ---- settings

#[tactic(auto, unfolding(crate::specs::Line::four_of))]
fn four_numbers(line: &[u8]) -> Option<Four>
    ensures { result ≡ four_of line.now }
{
    Some(Four {
        first: word::parsed(word::word(line, 1))?,
        second: word::parsed(word::word(line, 2))?,
        third: word::parsed(word::word(line, 3))?,
        fourth: word::parsed(word::word(line, 4))?,
    })
}

// What stands behind a setting's name: "none", or four numbers.
#[tactic(auto, unfolding(crate::specs::Line::setting_of))]
fn setting_of(line: &[u8]) -> Option<Option<Four>>
    ensures { result ≡ setting_of line.now }
{
    match (word::words(line), word::word(line, 1)) {
        (WORDS_NONE, b"none") => Some(None),
        (WORDS_FOUR, _) => Some(Some(four_numbers(line)?)),
        _ => None,
    }
}

// Four numbers of the widths of a quad setting.
#[tactic(auto, unfolding(crate::specs::Line::quad_at))]
fn quad_of(numbers: Four) -> Option<Quad>
    ensures { result ≡ quad_at numbers }
{
    Some(Quad {
        tclqv_ns: u32::try_from(numbers.first).ok()?,
        read_opcode: u8::try_from(numbers.second).ok()?,
        program_opcode: u8::try_from(numbers.third).ok()?,
        margin: u8::try_from(numbers.fourth).ok()?,
    })
}

#[tactic(auto, unfolding(crate::specs::Line::quad_of))]
fn quad_setting(line: &[u8]) -> Option<Line>
    ensures { result ≡ quad_of line.now }
{
    match setting_of(line)? {
        None => Some(Line::Quad(None)),
        Some(numbers) => Some(Line::Quad(Some(quad_of(numbers)?))),
    }
}

#[tactic(auto, unfolding(crate::specs::Line::own_of))]
fn own_setting(line: &[u8]) -> Option<Line>
    ensures { result ≡ own_of line.now }
{
    Some(Line::Own(setting_of(line)?))
}

// ---- every line

// A line that begins with a word; own is the name of the driver's own setting.
#[tactic(auto, unfolding(crate::specs::Line::named_of))]
fn named(line: &[u8], own: &[u8]) -> Option<Line>
    ensures { result ≡ named_of line.now own.now }
{
    match word::word(line, 0) {
        b"call" => Some(Line::Call),
        b"quad" => quad_setting(line),
        name if name == own => own_setting(line),
        _ => None,
    }
}

// A line that follows no rule is none.
#[tactic(auto, unfolding(crate::specs::Line::read_of))]
pub fn read(line: &[u8], own: &[u8]) -> Option<Line>
    ensures { result ≡ read_of line.now own.now }
{
    match line.first() {
        None => Some(Line::Passed),
        Some(b'#') => comment(line),
        Some(b'.') => done(line),
        Some(b'=') => data(line),
        Some(b'!') => bus_error(line),
        Some(_) => named(line, own),
    }
}

// The line that begins at a place. The line with which the text grows too long follows no rule.
#[tactic(auto, unfolding(crate::specs::Line::read_at))]
pub fn read_at(text: &[u8], at: usize, own: &[u8]) -> Option<Line>
    ensures { result ≡ read_at text.now at own.now }
{
    if text.len() <= at {
        return Some(Line::End);
    }
    if TEXT_MOST < next_line(text, at) {
        return None;
    }
    read(line_at(text, at), own)
}
