// Words of a line, and the numbers and bytes that they write.
ghost use Rattle.std.specs.Prelude.{◌≤◌, ◌<◌, ◌/◌, ◌≡◌, length, drop};
ghost use Rattle.qspi.specs.Bytes.{delivered_of};
ghost use Rattle.case_text.specs.Word.{before_of, word_of, words_of, last_of};
ghost use Rattle.case_text.specs.Number.{number_in, number_of, is_hex_of, digit_or_zero, byte_of, bytes_of, pairs_over};

/// What parts two words: a single blank.
pub const BLANK: u8 = b' ';

const DECIMAL: u32 = 10;

const HEXADECIMAL: u32 = 16;

// ---- parts of a text

// How many characters stand before the first mark: all where there is none.
pub fn before(s: &[u8], mark: u8) -> usize
    ensures value { result ≡ before_of mark s.now }
    ensures upper_bound { result ≤ length s.now }
{
    s.iter().position(|c| *c == mark).unwrap_or(s.len())
}

// What stands behind the first n characters.
pub fn behind(s: &[u8], n: usize) -> &[u8]
    ensures { result.now ≡ drop n s.now }
{
    s.get(n..).unwrap_or(&[])
}

// ---- words

// The word with the number k, from 0 on. Past the last one it is empty.
pub fn word(line: &[u8], k: usize) -> &[u8]
    ensures { result.now ≡ word_of k line.now }
{
    line.split(|c| *c == BLANK).nth(k).unwrap_or(b"")
}

// One more than the blanks: a word may be empty.
pub fn words(line: &[u8]) -> usize
    ensures { result ≡ words_of line.now }
{
    line.split(|c| *c == BLANK).count()
}

#[tactic(auto, unfolding(crate::specs::Word::last_of), using(crate::proofs::Words::words_some))]
pub fn last(line: &[u8]) -> &[u8]
    ensures { result.now ≡ last_of line.now }
{
    word(line, words(line) - 1)
}

// ---- numbers and bytes

// The number that digits write. One past 64 bits is none. By hand: from_str_radix of std takes a plus too, and text in place of bytes.
#[tactic(auto, unfolding(crate::specs::Number::number_in))]
fn in_radix(digits: &[u8], radix: u32) -> Option<u64>
    requires { (2 ≤ radix) × (radix ≤ 16) }
    ensures { result ≡ number_in radix digits.now }
{
    if digits.is_empty() {
        return None;
    }
    let mut value: u64 = 0;
    for c in digits {
        let digit = char::from(*c).to_digit(radix)?;
        value = value
            .checked_mul(u64::from(radix))?
            .checked_add(u64::from(digit))?;
    }
    Some(value)
}

// Decimal, or hexadecimal after 0x.
#[tactic(auto, unfolding(crate::specs::Number::number_of))]
pub fn parsed(s: &[u8]) -> Option<u64>
    ensures { result ≡ number_of s.now }
{
    match s {
        [b'0', b'x', digits @ ..] => in_radix(digits, HEXADECIMAL),
        _ => in_radix(s, DECIMAL),
    }
}

// An even number of hexadecimal digits, possibly none. By % 2: with is_multiple_of of std its proof did not close.
pub fn is_hex(s: &[u8]) -> bool
    ensures { result ≡ is_hex_of s.now }
{
    s.len() % 2 == 0 && s.iter().all(|c| c.is_ascii_hexdigit())
}

// `to_digit` of std, where `is_hex` has been asked before.
#[tactic(auto, unfolding(crate::specs::Number::digit_or_zero))]
fn digit(c: u8) -> u8
    ensures value { result ≡ digit_or_zero c }
    ensures upper_bound { result < 16 }
{
    char::from(c).to_digit(HEXADECIMAL).unwrap_or(0) as u8
}

// The byte of two digits. What is no digit counts as 0. By hand: the kit's hex::decode_to_slice does not say what it leaves where a digit is
// bad.
#[tactic(auto, unfolding(crate::specs::Number::byte_of))]
fn byte(high: u8, low: u8) -> u8
    ensures { result ≡ byte_of high low }
{
    digit(high) * 16 + digit(low)
}

fn write_pairs(s: &[u8], room: &mut [u8])
    requires { length s.now / 2 ≤ length room.old }
    ensures { room.new ≡ pairs_over s.now room.old }
{
    // By number: the pairs would be zipped to the room's `iter_mut`, and behind an adapter of it nothing is known of the bytes.
    for i in 0..s.len() / 2 {
        room[i] = byte(s[2 * i], s[2 * i + 1]);
    }
}

// Puts the bytes that the digits write at the beginning of the room, and gives their number. Where they do not fit, nothing changes.
#[tactic(auto, using(crate::proofs::Numbers::delivered, crate::proofs::Numbers::too_many))]
pub fn decode(s: &[u8], room: &mut [u8]) -> usize
    ensures room_after { room.new ≡ delivered_of room.old 0 (bytes_of s.now) }
    ensures value { result ≡ length s.now / 2 }
{
    let n = s.len() / 2;
    if n <= room.len() {
        write_pairs(s, room);
    }
    n
}
