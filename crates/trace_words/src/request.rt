// What the line of a call says behind its name: numbers, and what the call lends. What follows no rule says nothing.
ghost use Rattle.std.specs.Prelude.{◌≡◌, ◌≤◌, IfSome};
ghost use Rattle.trace_words.specs.Request.{number_up_to, buffer_loan, data_loan, plain_of, one_number, two_numbers, lending_of, said_of};

use case_text::word;
use spi_flash::loan::Takes;

// The longest buffer that is passed on.
pub const BUFFER_MOST: usize = 16777216;

// The words of a call without a number, with one, and with two.
const WORDS_PLAIN: usize = 2;

const WORDS_ONE: usize = 3;

const WORDS_TWO: usize = 4;

// The words of the first number and of the second.
const FIRST: usize = 2;

const SECOND: usize = 3;

// How a call is written. An enum and no closure: a method hands it out.
#[derive(Clone, Copy)]
pub enum Form {
    // Its name alone.
    Plain,
    One,
    Two,
    // A number, and the length of a buffer.
    Buffer,
    // A number, and the bytes of the data.
    Data,
}

// A number that is not written is 0 and no None: a call reads only the numbers of its form.
#[derive(Clone, Copy)]
pub struct Request {
    pub first: u64,
    pub second: u64,
    pub takes: Takes,
}

// A number that is not too large.
#[tactic(auto, unfolding(crate::specs::Request::number_up_to))]
fn bounded(s: &[u8], most: u64) -> Option<u64>
    ensures value { result ≡ number_up_to most s.now }
    ensures upper_bound { IfSome result (λ n. n ≤ most) }
{
    let n = word::parsed(s)?;
    (n <= most).then_some(n)
}

// ---- what a call lends

// The length of a buffer for which there is room.
#[tactic(auto, unfolding(crate::specs::Request::buffer_loan))]
fn buffer(line: &[u8], room_len: usize) -> Option<Takes>
    ensures { result ≡ buffer_loan line.now room_len }
{
    let n = bounded(word::last(line), BUFFER_MOST.min(room_len) as u64)?;
    Some(Takes::Buffer(n as usize))
}

// The digits of a call's data stand behind the @ of the last word.
#[tactic(auto, unfolding(crate::specs::Request::data_loan, crate::specs::Request::data_fits, crate::specs::Request::digits_after))]
fn data(line: &[u8], room_len: usize) -> Option<Takes>
    ensures { result ≡ data_loan line.now room_len }
{
    let [b'@', digits @ ..] = word::last(line) else {
        return None;
    };
    let n = digits.len() / 2;
    (word::is_hex(digits) && n <= room_len).then_some(Takes::Data(n))
}

// ---- the forms: each has its words and reads its own of them. One for all would take how many, which, and what is lent. Line and bound
// stay two: `plain` takes no bound.

#[tactic(auto, unfolding(crate::specs::Request::plain_of))]
fn plain(line: &[u8]) -> Option<Request>
    ensures value { result ≡ plain_of line.now }
    ensures none_written { IfSome result (λ r. (r.first ≡ 0) × (r.second ≡ 0)) }
{
    if word::words(line) != WORDS_PLAIN {
        return None;
    }
    Some(Request {
        first: 0,
        second: 0,
        takes: Takes::Nothing,
    })
}

// Here and below the bound is a clause and no ghost field: each definition that makes a Request would have to name it.
#[tactic(auto, unfolding(crate::specs::Request::one_number))]
fn one(line: &[u8], most: u64) -> Option<Request>
    ensures value { result ≡ one_number line.now most }
    ensures within { IfSome result (λ r. (r.first ≤ most) × (r.second ≤ most)) }
{
    if word::words(line) != WORDS_ONE {
        return None;
    }
    Some(Request {
        first: bounded(word::word(line, FIRST), most)?,
        second: 0,
        takes: Takes::Nothing,
    })
}

#[tactic(auto, unfolding(crate::specs::Request::two_numbers))]
fn two(line: &[u8], most: u64) -> Option<Request>
    ensures value { result ≡ two_numbers line.now most }
    ensures within { IfSome result (λ r. (r.first ≤ most) × (r.second ≤ most)) }
{
    if word::words(line) != WORDS_TWO {
        return None;
    }
    Some(Request {
        first: bounded(word::word(line, FIRST), most)?,
        second: bounded(word::word(line, SECOND), most)?,
        takes: Takes::Nothing,
    })
}

// A number, and what is lent in the last word.
#[tactic(auto, unfolding(crate::specs::Request::lending_of))]
fn lending(line: &[u8], most: u64, lent: Option<Takes>) -> Option<Request>
    ensures value { result ≡ lending_of line.now most lent }
    ensures within { IfSome result (λ r. (r.first ≤ most) × (r.second ≤ most)) }
{
    if word::words(line) != WORDS_TWO {
        return None;
    }
    Some(Request {
        first: bounded(word::word(line, FIRST), most)?,
        second: 0,
        takes: lent?,
    })
}

// What a line of a form says, with numbers up to a bound and the room for what is lent.
#[tactic(auto, unfolding(crate::specs::Request::said_of))]
pub fn said(line: &[u8], form: Form, most: u64, room_len: usize) -> Option<Request>
    ensures value { result ≡ said_of line.now form most room_len }
    ensures within { IfSome result (λ r. (r.first ≤ most) × (r.second ≤ most)) }
{
    match form {
        Form::Plain => plain(line),
        Form::One => one(line, most),
        Form::Two => two(line, most),
        Form::Buffer => lending(line, most, buffer(line, room_len)),
        Form::Data => lending(line, most, data(line, room_len)),
    }
}
