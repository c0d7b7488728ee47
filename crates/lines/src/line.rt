// A line for an action, and one for the end of a call: a letter, and what belongs to it.
ghost use Rattle.std.specs.Prelude.{[], ◌∷◌, ◌++◌};
ghost use Rattle.qspi.specs.Shown.{shown_of};
ghost use Rattle.lines.specs.Text.{hex_of};
ghost use Rattle.lines.specs.Line.{field_of, quad_read_line, quad_write_line, line_of, end_line};
ghost use Rattle.lines.specs.Writing.{Appends};

use crate::text;
use crate::text::Writer;
use qspi::bus::Action;
use qspi::bytes;

const LOW: u8 = b'L';

const HIGH: u8 = b'H';

const WRITE: u8 = b'W';

const READ: u8 = b'R';

const QUAD_READ: u8 = b'Q';

const QUAD_WRITE: u8 = b'P';

const DELAY: u8 = b'D';

const END: u8 = b'E';

// Parts a command from what follows it.
const COLON: &[u8] = b" :";

impl Writer<'_> {
    // A blank and a number.
    #[tactic(auto, using(crate::proofs::Appending::appended_behind), unfolding(crate::specs::Text::appended, crate::specs::Line::field_of))]
    pub fn field(&mut self, n: u64)
        ensures { Appends (field_of n) self.old self.new }
    {
        self.put(text::BLANK);
        self.decimal(n)
    }

    // A letter, a number and the line feed.
    #[tactic(auto, using(crate::proofs::Appending::appended_behind), unfolding(crate::specs::Text::appended))]
    pub fn numbered(&mut self, letter: u8, n: u64)
        ensures { Appends ((letter ∷ field_of n) ++ 10 ∷ []) self.old self.new }
    {
        self.put(letter);
        self.field(n);
        self.put(text::NEWLINE)
    }

    #[tactic(auto, using(crate::proofs::Appending::appended_behind), unfolding(crate::specs::Text::appended))]
    fn bare(&mut self, letter: u8)
        ensures { Appends (letter ∷ 10 ∷ []) self.old self.new }
    {
        self.put(letter);
        self.put(text::NEWLINE)
    }

    #[tactic(auto, using(crate::proofs::Appending::appended_behind), unfolding(crate::specs::Text::appended))]
    fn with_bytes(&mut self, letter: u8, s: &[u8])
        ensures { Appends ((letter ∷ hex_of s.now) ++ 10 ∷ []) self.old self.new }
    {
        self.put(letter);
        self.hex(s);
        self.put(text::NEWLINE)
    }

    #[tactic(auto, using(crate::proofs::Appending::appended_behind), unfolding(crate::specs::Text::appended, crate::specs::Line::quad_read_line))]
    fn quad_read(&mut self, command: &[u8], tclqv_ns: u32, margin: u8, len: usize)
        ensures { Appends (quad_read_line command.now tclqv_ns margin len) self.old self.new }
    {
        self.put(QUAD_READ);
        self.hex(command);
        self.put_all(COLON);
        self.field(u64::from(tclqv_ns));
        self.field(u64::from(margin));
        self.field(len as u64);
        self.put(text::NEWLINE)
    }

    #[tactic(auto, using(crate::proofs::Appending::appended_behind), unfolding(crate::specs::Text::appended, crate::specs::Line::quad_write_line))]
    fn quad_write(&mut self, command: &[u8], payload: &[u8])
        ensures { Appends (quad_write_line command.now payload.now) self.old self.new }
    {
        self.put(QUAD_WRITE);
        self.hex(command);
        self.put_all(COLON);
        self.hex(payload);
        self.put(text::NEWLINE)
    }

    // The line of an action, with the bytes that it shows.
    #[tactic(auto, unfolding(crate::specs::Line::line_of))]
    pub fn action<'a>(&mut self, action: Action, scratch: &'a [u8], data: &'a [u8])
        ensures { Appends (line_of (shown_of action scratch.now «data».now)) self.old self.new }
    {
        match action {
            Action::SelectLow => self.bare(LOW),
            Action::SelectHigh => self.bare(HIGH),
            Action::Write(part) => self.with_bytes(WRITE, bytes::sent(part, scratch, data)),
            Action::Read(n) => self.numbered(READ, n as u64),
            Action::QuadRead {
                command,
                tclqv_ns,
                margin,
                len,
            } => self.quad_read(bytes::sent(command, scratch, data), tclqv_ns, margin, len),
            Action::QuadWrite { command, payload } => self.quad_write(
                bytes::sent(command, scratch, data),
                bytes::sent(payload, scratch, data),
            ),
            Action::Delay(us) => self.numbered(DELAY, u64::from(us)),
        }
    }

    // The line of a call's end.
    #[tactic(auto, unfolding(crate::specs::Line::end_line))]
    pub fn end(&mut self, number: u32)
        ensures { Appends (end_line number) self.old self.new }
    {
        self.numbered(END, u64::from(number))
    }
}
