//! The calls under the Rust's names, a line each: what they do alike is `machine::call::begin`. What a call does not take has no length.
//! And a step of a call under way, and what a read has delivered. Functions, as a type of another crate takes no methods.
ghost use Rattle.std.specs.Prelude.{◌≡◌, length};
ghost use Rattle.qspi.specs.Loan.{SameLoan, lending, returning};
ghost use Rattle.nor_driver.specs.Call.{begin_of};
ghost use Rattle.nor_driver.specs.Step.{stepped_to, step_of, delivered_part};

use crate::part::{Nor, SpiNorFlash, Stepped};
use machine::call::begin;
use machine::step;
use qspi::bus::Reply;
use qspi::loan::{Lengths, Loan};
use spi_nor::call::Call;
use spi_nor::config::SpiNorConfig;

/// Constructs a driver of the part that its id tells, on a single line.
pub fn new(flash: SpiNorFlash, scratch: &[u8]) -> Stepped
    ensures { result ≡ begin_of flash Call.New (length scratch.now) 0 0 }
{
    begin::<Nor>(flash, Call::New, Lengths::of_scratch(scratch))
}

/// Constructs a driver with these settings: its quad mode, and the device where it is given.
pub fn with_config(flash: SpiNorFlash, config: SpiNorConfig, scratch: &[u8]) -> Stepped
    ensures { result ≡ begin_of flash (Call.WithConfig config) (length scratch.now) 0 0 }
{
    begin::<Nor>(
        flash,
        Call::WithConfig(config),
        Lengths::of_scratch(scratch),
    )
}

/// The settings that the driver was constructed with.
pub fn config(flash: SpiNorFlash) -> Stepped
    ensures { result ≡ begin_of flash Call.Config 0 0 0 }
{
    begin::<Nor>(flash, Call::Config, Lengths::of_scratch(&[]))
}

/// The device that is driven: its sizes.
pub fn device(flash: SpiNorFlash) -> Stepped
    ensures { result ≡ begin_of flash Call.Device 0 0 0 }
{
    begin::<Nor>(flash, Call::Device, Lengths::of_scratch(&[]))
}

/// The id that was read at the construction.
pub fn id(flash: SpiNorFlash) -> Stepped
    ensures { result ≡ begin_of flash Call.Id 0 0 0 }
{
    begin::<Nor>(flash, Call::Id, Lengths::of_scratch(&[]))
}

/// Ends the driver: it is no longer built.
pub fn free(flash: SpiNorFlash) -> Stepped
    ensures { result ≡ begin_of flash Call.Free 0 0 0 }
{
    begin::<Nor>(flash, Call::Free, Lengths::of_scratch(&[]))
}

/// Reads status register 1.
pub fn read_status1(flash: SpiNorFlash, scratch: &[u8]) -> Stepped
    ensures { result ≡ begin_of flash Call.ReadStatus1 (length scratch.now) 0 0 }
{
    begin::<Nor>(flash, Call::ReadStatus1, Lengths::of_scratch(scratch))
}

/// Reads status register 2.
pub fn read_status2(flash: SpiNorFlash, scratch: &[u8]) -> Stepped
    ensures { result ≡ begin_of flash Call.ReadStatus2 (length scratch.now) 0 0 }
{
    begin::<Nor>(flash, Call::ReadStatus2, Lengths::of_scratch(scratch))
}

/// Whether the part is busy.
pub fn is_busy(flash: SpiNorFlash, scratch: &[u8]) -> Stepped
    ensures { result ≡ begin_of flash Call.IsBusy (length scratch.now) 0 0 }
{
    begin::<Nor>(flash, Call::IsBusy, Lengths::of_scratch(scratch))
}

/// Reads the part's id.
pub fn jedec_id(flash: SpiNorFlash, scratch: &[u8]) -> Stepped
    ensures { result ≡ begin_of flash Call.JedecId (length scratch.now) 0 0 }
{
    begin::<Nor>(flash, Call::JedecId, Lengths::of_scratch(scratch))
}

/// Reads the part's own number of 64 bits.
pub fn unique_id(flash: SpiNorFlash, scratch: &[u8]) -> Stepped
    ensures { result ≡ begin_of flash Call.UniqueId (length scratch.now) 0 0 }
{
    begin::<Nor>(flash, Call::UniqueId, Lengths::of_scratch(scratch))
}

/// Whether quad mode is on, in either status register.
pub fn quad_enabled(flash: SpiNorFlash, scratch: &[u8]) -> Stepped
    ensures { result ≡ begin_of flash Call.QuadEnabled (length scratch.now) 0 0 }
{
    begin::<Nor>(flash, Call::QuadEnabled, Lengths::of_scratch(scratch))
}

/// Turns quad mode on.
pub fn enable_quad(flash: SpiNorFlash, scratch: &[u8]) -> Stepped
    ensures { result ≡ begin_of flash Call.EnableQuad (length scratch.now) 0 0 }
{
    begin::<Nor>(flash, Call::EnableQuad, Lengths::of_scratch(scratch))
}

/// Turns quad mode off.
pub fn disable_quad(flash: SpiNorFlash, scratch: &[u8]) -> Stepped
    ensures { result ≡ begin_of flash Call.DisableQuad (length scratch.now) 0 0 }
{
    begin::<Nor>(flash, Call::DisableQuad, Lengths::of_scratch(scratch))
}

/// Fills the buffer with the part's bytes from an offset on.
pub fn read(flash: SpiNorFlash, offset: u32, scratch: &[u8], buffer: &[u8]) -> Stepped
    ensures { result ≡ begin_of flash (Call.Read offset) (length scratch.now) (length buffer.now) 0 }
{
    begin::<Nor>(
        flash,
        Call::Read { offset },
        Lengths::new(scratch, buffer, &[]),
    )
}

/// Programs the data from an offset on, page by page, and reads each page back.
pub fn write(flash: SpiNorFlash, offset: u32, scratch: &[u8], data: &[u8]) -> Stepped
    ensures { result ≡ begin_of flash (Call.Write offset) (length scratch.now) 0 (length «data».now) }
{
    begin::<Nor>(
        flash,
        Call::Write { offset },
        Lengths::new(scratch, &[], data),
    )
}

/// Clears the block protection in both status registers.
pub fn unprotect(flash: SpiNorFlash, scratch: &[u8]) -> Stepped
    ensures { result ≡ begin_of flash Call.Unprotect (length scratch.now) 0 0 }
{
    begin::<Nor>(flash, Call::Unprotect, Lengths::of_scratch(scratch))
}

/// Erases a range, in blocks where one fits and sectors elsewhere.
pub fn erase(flash: SpiNorFlash, from: u32, to: u32, scratch: &[u8]) -> Stepped
    ensures { result ≡ begin_of flash (Call.Erase from to) (length scratch.now) 0 0 }
{
    begin::<Nor>(
        flash,
        Call::Erase { from, to },
        Lengths::of_scratch(scratch),
    )
}

/// Erases the sector at an offset.
pub fn erase_sector(flash: SpiNorFlash, offset: u32, scratch: &[u8]) -> Stepped
    ensures { result ≡ begin_of flash (Call.EraseSector offset) (length scratch.now) 0 0 }
{
    begin::<Nor>(
        flash,
        Call::EraseSector { offset },
        Lengths::of_scratch(scratch),
    )
}

/// Erases the block at an offset.
pub fn erase_block(flash: SpiNorFlash, offset: u32, scratch: &[u8]) -> Stepped
    ensures { result ≡ begin_of flash (Call.EraseBlock offset) (length scratch.now) 0 0 }
{
    begin::<Nor>(
        flash,
        Call::EraseBlock { offset },
        Lengths::of_scratch(scratch),
    )
}

/// Takes the reply to the action that is out, and gives the next action or the call's end.
pub fn step(flash: SpiNorFlash, reply: Reply, bytes: &[u8], lent: &mut Loan) -> Stepped
    ensures same { SameLoan lent.old lent.new }
    ensures stepped { returning (stepped_to result) lent.new ≡ lending (step_of flash reply bytes.now) lent.old }
{
    step::step::<Nor>(flash, reply, bytes, lent)
}

/// The beginning of the caller's buffer that holds the bytes read by the last call begun, as that part of the buffer itself.
pub fn delivered(flash: SpiNorFlash, buffer: &[u8]) -> &[u8]
    ensures { result.now ≡ delivered_part flash buffer.now }
{
    flash.delivered(buffer)
}
