//! The bytes behind actions and replies: parts of what is lent, numbers, comparisons and deliveries.
ghost use Rattle.std.specs.Prelude.{◌≡◌, ◌≤◌, ◌+◌, length, take, drop, leb};
ghost use Rattle.std.proofs.Math.Seq.{paste};
ghost use Rattle.qspi.specs.Bytes.{part_of, sent_of, number_of, byte_of, begins_of, delivered_of, end_of, filler_length, with_filler, with_marker};

use crate::bus::Part;
use crate::command::SCRATCH_LEN;

/// A bad-block mark: where its filler starts in the scratch, and the most that a chunk has of it.
pub const FILLER_AT: usize = 5;

/// The most bytes of filler in one chunk.
pub const FILLER_MOST: usize = 256;

/// The byte of the filler.
pub const FILLER: u8 = 0xFF;
/// Where its marker goes.
pub const MARKER_AT: usize = 261;

/// The byte of the marker.
pub const MARKER: u8 = 0x00;

// What the low seven bytes of a u64 stay below.
const TOP_BYTE: u64 = 1 << 56;

/// len bytes from a place, or none where they run past the end: a `Part`'s two numbers.
pub fn part(s: &[u8], from: usize, len: usize) -> &[u8]
    ensures { result.now ≡ part_of s.now from len }
{
    s.get(from..)
        .and_then(|rest| rest.get(..len))
        .unwrap_or(&[])
}

/// What is to be sent: that part of the scratch itself, or of the caller's data.
pub fn sent<'a>(p: Part, scratch: &'a [u8], data: &'a [u8]) -> &'a [u8]
    ensures { result.now ≡ sent_of p scratch.now «data».now }
{
    match p {
        Part::Scratch { from, len } => part(scratch, from, len),
        Part::Data { from, len } => part(data, from, len),
    }
}

/// The first n bytes of the caller's buffer, which have been delivered: that part of it.
pub fn delivered(buffer: &[u8], n: usize) -> &[u8]
    ensures { result.now ≡ take n buffer.now }
{
    buffer.get(..n).unwrap_or(buffer)
}

/// A number of up to eight bytes, highest first. `from_be_bytes` takes eight and no fewer.
pub fn number(s: &[u8]) -> u64
    ensures { result ≡ number_of s.now }
{
    s.iter()
        .fold(0, |value, byte| value % TOP_BYTE * 256 + u64::from(*byte))
}

/// The byte that the number of a reply of one byte is: both drivers' `buffer[0]`.
pub fn byte(value: u64) -> u8
    ensures { result ≡ byte_of value }
{
    let [.., byte] = value.to_be_bytes();
    byte
}

/// Whether the caller's data has the bytes s at a place.
pub fn compare(s: &[u8], data: &[u8], from: usize) -> bool
    ensures { result ≡ begins_of s.now (drop from «data».now) }
{
    data.get(from..).unwrap_or(&[]).starts_with(s)
}

// Whether a delivery of len bytes at a place fits.
fn has_room(buffer_len: usize, at: usize, len: usize) -> bool
    ensures { result ≡ leb (at + len) buffer_len }
{
    len <= buffer_len && at <= buffer_len - len
}

// Puts the bytes at a place where they fit, one by one: std's `copy_from_slice` would make the archive for C need `memmove`.
fn copy(buffer: &mut [u8], at: usize, s: &[u8])
    requires { at + length s.now ≤ length buffer.old }
    ensures { buffer.new ≡ paste buffer.old at s.now (length s.now) }
{
    for (i, b) in s.iter().enumerate() {
        buffer[at + i] = *b;
    }
}

/// Puts the bytes into the buffer at a place. Where they do not fit, it keeps every byte.
pub fn deliver(buffer: &mut [u8], at: usize, s: &[u8])
    ensures { buffer.new ≡ delivered_of buffer.old at s.now }
{
    if has_room(buffer.len(), at, s.len()) {
        copy(buffer, at, s);
    }
}

/// How many bytes of filler a chunk of n has.
pub fn filler_len(n: usize) -> usize
    ensures { result ≡ filler_length n }
{
    n.min(FILLER_MOST)
}

/// Puts n bytes of filler into the scratch. A scratch that is too short keeps every byte.
#[tactic(auto, unfolding(crate::specs::Bytes::with_filler))]
pub fn put_filler(scratch: &mut [u8], n: usize)
    ensures { scratch.new ≡ with_filler n scratch.old }
{
    if SCRATCH_LEN <= scratch.len() {
        scratch[FILLER_AT..FILLER_AT + filler_len(n)].fill(FILLER);
    }
}

/// Puts the marker into the scratch. A scratch that is too short keeps every byte. One place and no slice, unlike the filler.
#[tactic(auto, unfolding(crate::specs::Bytes::with_marker))]
pub fn put_marker(scratch: &mut [u8])
    ensures { scratch.new ≡ with_marker scratch.old }
{
    if SCRATCH_LEN <= scratch.len() {
        scratch[MARKER_AT] = MARKER;
    }
}

/// Where a delivery of len bytes at a place ends. One that does not fit leaves what was delivered before. Lengths alone: no byte is looked at.
pub fn end_of(at: usize, len: usize, buffer_len: usize, before: usize) -> usize
    ensures { result ≡ end_of at len buffer_len before }
{
    if has_room(buffer_len, at, len) {
        at + len
    } else {
        before
    }
}
