// Characters, bytes in hexadecimal and numbers in decimal, put into a slice one behind the other.
// They are put by hand: `write!` says what it wrote only where it gives Ok, and nothing says that it does. The kit's hex writes upper case
// only where it allocates, and from_digit of std lower case.
ghost use Rattle.std.specs.Prelude.{◌≡◌, ◌∷◌, [], take};
ghost use Rattle.lines.specs.Text.{text_of, digit_of, two_digits, hex_of, decimal_of};
ghost use Rattle.lines.specs.Writing.{text_in, SameRoom, Appends};

use qspi::bytes;

pub const BLANK: u8 = b' ';

pub const NEWLINE: u8 = b'\n';

// A slice, and how much of it the text so far takes. No String, as there is no heap, and no ArrayString of the kit, which holds its room:
// this one is lent. Where bytes are put in a loop, the loop runs over a writer of the function's own, into the same slice: its place lies
// in a register, where that of a lent writer is read from memory again behind each byte.
#[derive(Drop)]
pub struct Writer<'a> {
    pub room: &'a mut [u8],
    pub len: usize,
}

// The upper-case hexadecimal digit of the low four bits.
#[tactic(auto, unfolding(crate::specs::Text::digit_of))]
pub fn digit(n: u8) -> u8
    ensures { result ≡ digit_of n }
{
    let d = n % 16;
    if d < 10 { b'0' + d } else { b'A' - 10 + d }
}

impl<'a> Writer<'a> {
    // No text yet.
    pub fn new(room: &'a mut [u8]) -> Writer<'a>
        ensures same { result.room.ghost_name ≡ room.entry.ghost_name }
        ensures text { text_in result ≡ text_of room.old 0 }
    {
        Writer { room, len: 0 }
    }

    // Where there is no room, nothing changes.
    #[tactic(auto, unfolding(crate::specs::Text::appended, crate::specs::Text::put_of))]
    pub fn put(&mut self, b: u8)
        ensures { Appends (b ∷ []) self.old self.new }
    {
        if self.len < self.room.len() {
            self.room[self.len] = b;
            self.len += 1;
        }
    }

    #[tactic(auto, using(crate::proofs::Appending::appended_behind), unfolding(crate::specs::Text::appended))]
    pub fn put_all(&mut self, s: &[u8])
        ensures { Appends s.now self.old self.new }
    {
        let mut writer = Writer {
            room: &mut *self.room,
            len: self.len,
        };
        for b in s {
            writer.put(*b);
        }
        self.len = writer.len;
    }

    // Two hexadecimal digits.
    #[tactic(auto, using(crate::proofs::Appending::appended_behind), unfolding(crate::specs::Text::appended, crate::specs::Text::two_digits))]
    pub fn byte(&mut self, b: u8)
        ensures { Appends (two_digits b) self.old self.new }
    {
        self.put(digit(b / 16));
        self.put(digit(b));
    }

    // A blank and two digits for each byte.
    #[tactic(auto, using(crate::proofs::Appending::appended_behind), unfolding(crate::specs::Text::appended))]
    pub fn hex(&mut self, s: &[u8])
        ensures { Appends (hex_of s.now) self.old self.new }
    {
        let mut writer = Writer {
            room: &mut *self.room,
            len: self.len,
        };
        for b in s {
            writer.put(BLANK);
            writer.byte(*b);
        }
        self.len = writer.len;
    }

    // The digits of a number.
    #[tactic(auto, using(crate::proofs::Decimal::decimal_is))]
    pub fn decimal(&mut self, n: u64)
        ensures { Appends (decimal_of n) self.old self.new }
    {
        self.put_all(itoa::Buffer::new().format(n).as_bytes())
    }

    // The text so far.
    pub fn written(&self) -> &[u8]
        ensures { result.now ≡ take self.now.len self.now.room.now }
    {
        bytes::delivered(self.room, self.len)
    }
}
