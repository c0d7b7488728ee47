//! Ranges of a part, and the pieces in which many bytes go.
ghost use Rattle.std.specs.Prelude.{◌≡◌, ◌+◌};
ghost use Rattle.spi_flash.specs.Range.{range_in_bounds, checked, piece_of, span};

use crate::error::FlashError;

/// The Rust's range_in_bounds, and what its check_range and check_cache_range test.
#[tactic(auto, unfolding(crate::specs::Range::range_in_bounds))]
pub fn range_in_bounds(capacity: usize, offset: usize, length: usize) -> bool
    ensures { result ≡ range_in_bounds capacity offset length }
{
    offset <= capacity && length <= capacity - offset
}

/// What the NAND's checks come to: what is not in bounds is refused.
pub fn checked(in_bounds: bool) -> Result<(), FlashError>
    ensures { result ≡ checked in_bounds }
{
    if in_bounds {
        Ok(())
    } else {
        Err(FlashError::OutOfBounds)
    }
}

/// The bytes of the next piece: what is left, or as many as go at once.
pub fn piece(most: usize, len: usize, done: usize) -> usize
    ensures { result ≡ piece_of most len done }
{
    len.saturating_sub(done).min(most)
}

/// What is done after that piece.
pub fn past_piece(most: usize, len: usize, done: usize) -> usize
    ensures { result ≡ done + piece_of most len done }
{
    done + piece(most, len, done)
}

/// Where a call over many bytes stands: `done` of the `len` bytes behind `offset` are done.
#[derive(Clone, Copy)]
pub struct Span<Offset> {
    pub offset: Offset,
    pub len: usize,
    pub done: usize,
}

impl<O: Copy> Span<O> {
    /// None of its bytes are done.
    pub fn whole(offset: O, len: usize) -> Span<O>
        ensures { result ≡ span offset len 0 }
    {
        Span {
            offset,
            len,
            done: 0,
        }
    }

    /// Where it stands after its next piece.
    pub fn past(self, most: usize) -> Span<O>
        ensures { result ≡ span self.offset self.len (self.done + piece_of most self.len self.done) }
    {
        Span {
            done: past_piece(most, self.len, self.done),
            ..self
        }
    }
}
