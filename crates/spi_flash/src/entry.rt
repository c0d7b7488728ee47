//! Whether a call that uses the bus may begin.
ghost use Rattle.std.specs.Prelude.{◌≡◌};
ghost use Rattle.spi_flash.specs.Entry.{entry_of};

use crate::error::FlashError;
use qspi::command::SCRATCH_LEN;

/// Of a driver that is built or not, with a scratch of this length and a device inside the bounds or not: 13, 14, 12.
#[tactic(auto, unfolding(crate::specs::Entry::entry_of))]
pub fn may_begin(built: bool, scratch_len: usize, in_bounds: bool) -> Result<(), FlashError>
    ensures { result ≡ entry_of built scratch_len in_bounds }
{
    if !built {
        Err(FlashError::OutOfTurn)
    } else if scratch_len < SCRATCH_LEN {
        Err(FlashError::Misfit)
    } else if !in_bounds {
        Err(FlashError::InvalidGeometry)
    } else {
        Ok(())
    }
}
