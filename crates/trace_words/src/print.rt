// Lines of a trace beside those of actions and of a call's number: the same for every driver.
ghost use Rattle.std.specs.Prelude.{◌+◌, ◌≡◌, ltb};
ghost use Rattle.lines.specs.Writing.{Appends};
ghost use Rattle.spi_flash.specs.Error.{error_values};
ghost use Rattle.trace_words.specs.Print.{call_line, bad_line, count_line, values_line, solid_of, head_of, piece_of};

use case_text::word;
use lines::text;
use lines::text::Writer;
use qspi::bytes;
use spi_flash::error::FlashError;
use spi_flash::loan::Takes;

// Before the values of an answer.
pub const VALUES: u8 = b'V';

const DELIVERED: u8 = b'G';

const BUFFER: u8 = b'B';

// So many bytes of a buffer are printed in one turn: a program's output needs no more room.
pub const PIECE: usize = 16384;

#[tactic(auto, using(lines::proofs::Appending::appended_behind), unfolding(lines::specs::Text::appended, crate::specs::Print::call_line))]
pub fn call(out: &mut Writer, name: &[u8])
    ensures { Appends (call_line name.now) out.old out.new }
{
    out.put_all(b"call ");
    out.put_all(name);
    out.put(text::NEWLINE)
}

#[tactic(auto, using(lines::proofs::Appending::appended_behind), unfolding(lines::specs::Text::appended, crate::specs::Print::bad_line))]
pub fn bad(out: &mut Writer, number: usize)
    ensures { Appends (bad_line number) out.old out.new }
{
    out.put_all(b"bad case");
    out.field(number as u64);
    out.put(text::NEWLINE)
}

// Only a call with a buffer tells how much was delivered.
#[tactic(auto, using(lines::proofs::Appending::appended_behind), unfolding(lines::specs::Text::appended, crate::specs::Print::delivered_line))]
pub fn count(out: &mut Writer, takes: Takes, n: usize)
    ensures { Appends (count_line takes n) out.old out.new }
{
    if let Takes::Buffer(_) = takes {
        out.numbered(DELIVERED, n as u64)
    }
}

// Only a bus error has a value: its code.
#[tactic(auto, using(lines::proofs::Appending::appended_behind), unfolding(lines::specs::Text::appended, crate::specs::Print::values_line))]
pub fn error_values(out: &mut Writer, error: FlashError)
    ensures { Appends (values_line (error_values error)) out.old out.new }
{
    if let FlashError::Spi(code) = error {
        out.numbered(VALUES, u64::from(code))
    }
}

// ---- the buffer

// Bytes without blanks.
#[tactic(auto, unfolding(lines::specs::Text::appended))]
fn solid(out: &mut Writer, s: &[u8])
    ensures { Appends (solid_of s.now) out.old out.new }
{
    let mut writer = Writer {
        room: &mut *out.room,
        len: out.len,
    };
    for b in s {
        writer.byte(*b);
    }
    out.len = writer.len;
}

// Before the first piece B, and a blank where a byte follows. It takes the piece's place and the buffer's length: no byte is looked at.
#[tactic(auto, using(lines::proofs::Appending::appended_behind), unfolding(lines::specs::Text::appended, crate::specs::Print::head_of))]
fn head(out: &mut Writer, from: usize, len: usize)
    ensures { Appends (head_of from len) out.old out.new }
{
    if from == 0 {
        out.put(BUFFER);
        if len != 0 {
            out.put(text::BLANK);
        }
    }
}

// Whether bytes are left behind the piece that begins at a place.
pub fn more(len: usize, from: usize) -> bool
    ensures { result ≡ ltb (from + 16384) len }
{
    PIECE < len.saturating_sub(from)
}

// A piece of the buffer's line. The first begins it, the last ends it.
#[tactic(auto, using(lines::proofs::Appending::appended_behind), unfolding(lines::specs::Text::appended, crate::specs::Print::piece_of))]
pub fn piece(out: &mut Writer, buffer: &[u8], from: usize)
    ensures { Appends (piece_of buffer.now from) out.old out.new }
{
    head(out, from, buffer.len());
    solid(out, bytes::delivered(word::behind(buffer, from), PIECE));
    if !more(buffer.len(), from) {
        out.put(text::NEWLINE)
    }
}
