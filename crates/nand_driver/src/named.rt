//! The calls under the Rust's names, a line each: what they do alike is `machine::call::begin`. What a call does not take has no length.
//! And a step of a call under way, and what a read has delivered. Functions, as a type of another crate takes no methods.
ghost use Rattle.std.specs.Prelude.{◌≡◌, length};
ghost use Rattle.qspi.specs.Loan.{SameLoan, lending, returning};
ghost use Rattle.nand_driver.specs.Call.{begin_of};
ghost use Rattle.nand_driver.specs.Step.{stepped_to, step_of, delivered_part};

use crate::part::{Nand, SpiNandFlash, Stepped};
use machine::call::begin;
use machine::step;
use qspi::bus::Reply;
use qspi::loan::{Lengths, Loan};
use spi_nand::call::Call;
use spi_nand::config::SpiNandConfig;

/// Constructs a driver of the part that its id tells, on a single line.
pub fn new(flash: SpiNandFlash, scratch: &[u8]) -> Stepped
    ensures { result ≡ begin_of flash Call.New (length scratch.now) 0 0 }
{
    begin::<Nand>(flash, Call::New, Lengths::of_scratch(scratch))
}

/// Constructs a driver with these settings: its quad mode, and the geometry where it is given.
pub fn with_config(flash: SpiNandFlash, config: SpiNandConfig, scratch: &[u8]) -> Stepped
    ensures { result ≡ begin_of flash (Call.WithConfig config) (length scratch.now) 0 0 }
{
    begin::<Nand>(
        flash,
        Call::WithConfig(config),
        Lengths::of_scratch(scratch),
    )
}

/// The id and the registers that were read at the construction.
pub fn info(flash: SpiNandFlash) -> Stepped
    ensures { result ≡ begin_of flash Call.Info 0 0 0 }
{
    begin::<Nand>(flash, Call::Info, Lengths::of_scratch(&[]))
}

/// The settings that the driver was constructed with.
pub fn config(flash: SpiNandFlash) -> Stepped
    ensures { result ≡ begin_of flash Call.Config 0 0 0 }
{
    begin::<Nand>(flash, Call::Config, Lengths::of_scratch(&[]))
}

/// The geometry that is driven.
pub fn geometry(flash: SpiNandFlash) -> Stepped
    ensures { result ≡ begin_of flash Call.Geometry 0 0 0 }
{
    begin::<Nand>(flash, Call::Geometry, Lengths::of_scratch(&[]))
}

/// Ends the driver: it is no longer built.
pub fn free(flash: SpiNandFlash) -> Stepped
    ensures { result ≡ begin_of flash Call.Free 0 0 0 }
{
    begin::<Nand>(flash, Call::Free, Lengths::of_scratch(&[]))
}

/// Turns quad mode off.
pub fn disable_quad(flash: SpiNandFlash, scratch: &[u8]) -> Stepped
    ensures { result ≡ begin_of flash Call.DisableQuad (length scratch.now) 0 0 }
{
    begin::<Nand>(flash, Call::DisableQuad, Lengths::of_scratch(scratch))
}

/// Writes a feature register.
pub fn write_register(flash: SpiNandFlash, register: u8, value: u8, scratch: &[u8]) -> Stepped
    ensures { result ≡ begin_of flash (Call.WriteRegister register value) (length scratch.now) 0 0 }
{
    begin::<Nand>(
        flash,
        Call::WriteRegister { register, value },
        Lengths::of_scratch(scratch),
    )
}

/// Sets the write-enable latch.
pub fn write_enable(flash: SpiNandFlash, scratch: &[u8]) -> Stepped
    ensures { result ≡ begin_of flash Call.WriteEnable (length scratch.now) 0 0 }
{
    begin::<Nand>(flash, Call::WriteEnable, Lengths::of_scratch(scratch))
}

/// Reads the status register, C0.
pub fn read_status(flash: SpiNandFlash, scratch: &[u8]) -> Stepped
    ensures { result ≡ begin_of flash Call.ReadStatus (length scratch.now) 0 0 }
{
    begin::<Nand>(flash, Call::ReadStatus, Lengths::of_scratch(scratch))
}

/// Reads the configuration register, B0.
pub fn read_configuration(flash: SpiNandFlash, scratch: &[u8]) -> Stepped
    ensures { result ≡ begin_of flash Call.ReadConfiguration (length scratch.now) 0 0 }
{
    begin::<Nand>(flash, Call::ReadConfiguration, Lengths::of_scratch(scratch))
}

/// Reads the protection register, A0.
pub fn read_protection(flash: SpiNandFlash, scratch: &[u8]) -> Stepped
    ensures { result ≡ begin_of flash Call.ReadProtection (length scratch.now) 0 0 }
{
    begin::<Nand>(flash, Call::ReadProtection, Lengths::of_scratch(scratch))
}

/// Resets the part.
pub fn reset(flash: SpiNandFlash, scratch: &[u8]) -> Stepped
    ensures { result ≡ begin_of flash Call.Reset (length scratch.now) 0 0 }
{
    begin::<Nand>(flash, Call::Reset, Lengths::of_scratch(scratch))
}

/// Reads the part's id.
pub fn jedec_id(flash: SpiNandFlash, scratch: &[u8]) -> Stepped
    ensures { result ≡ begin_of flash Call.JedecId (length scratch.now) 0 0 }
{
    begin::<Nand>(flash, Call::JedecId, Lengths::of_scratch(scratch))
}

/// Resets the part and reads its id.
pub fn reset_and_identify(flash: SpiNandFlash, scratch: &[u8]) -> Stepped
    ensures { result ≡ begin_of flash Call.ResetAndIdentify (length scratch.now) 0 0 }
{
    begin::<Nand>(flash, Call::ResetAndIdentify, Lengths::of_scratch(scratch))
}

/// Turns ECC and buffer reads on, and quad mode where it is set; answers the register as it was.
pub fn ensure_configuration(flash: SpiNandFlash, scratch: &[u8]) -> Stepped
    ensures { result ≡ begin_of flash Call.EnsureConfiguration (length scratch.now) 0 0 }
{
    begin::<Nand>(
        flash,
        Call::EnsureConfiguration,
        Lengths::of_scratch(scratch),
    )
}

/// Clears the block protection; answers the register as it was.
pub fn unprotect(flash: SpiNandFlash, scratch: &[u8]) -> Stepped
    ensures { result ≡ begin_of flash Call.Unprotect (length scratch.now) 0 0 }
{
    begin::<Nand>(flash, Call::Unprotect, Lengths::of_scratch(scratch))
}

/// Loads a page into the part's cache.
pub fn page_read(flash: SpiNandFlash, page: usize, scratch: &[u8]) -> Stepped
    ensures { result ≡ begin_of flash (Call.PageRead page) (length scratch.now) 0 0 }
{
    begin::<Nand>(flash, Call::PageRead { page }, Lengths::of_scratch(scratch))
}

/// Fills the buffer from the cache, from a column on.
pub fn read_cache(flash: SpiNandFlash, column: usize, scratch: &[u8], buffer: &[u8]) -> Stepped
    ensures { result ≡ begin_of flash (Call.ReadCache column) (length scratch.now) (length buffer.now) 0 }
{
    begin::<Nand>(
        flash,
        Call::ReadCache { column },
        Lengths::new(scratch, buffer, &[]),
    )
}

/// Puts the data into the cache, from a column on.
pub fn load_program_data(flash: SpiNandFlash, column: usize, scratch: &[u8], data: &[u8]) -> Stepped
    ensures { result ≡ begin_of flash (Call.LoadProgramData column) (length scratch.now) 0 (length «data».now) }
{
    begin::<Nand>(
        flash,
        Call::LoadProgramData { column },
        Lengths::new(scratch, &[], data),
    )
}

/// Programs the cache into a page.
pub fn program_execute(flash: SpiNandFlash, page: usize, scratch: &[u8]) -> Stepped
    ensures { result ≡ begin_of flash (Call.ProgramExecute page) (length scratch.now) 0 0 }
{
    begin::<Nand>(
        flash,
        Call::ProgramExecute { page },
        Lengths::of_scratch(scratch),
    )
}

/// Fills the buffer with a whole page.
pub fn read_page(flash: SpiNandFlash, page: usize, scratch: &[u8], buffer: &[u8]) -> Stepped
    ensures { result ≡ begin_of flash (Call.ReadPage page) (length scratch.now) (length buffer.now) 0 }
{
    begin::<Nand>(
        flash,
        Call::ReadPage { page },
        Lengths::new(scratch, buffer, &[]),
    )
}

/// Programs a whole page, and reads it back.
pub fn write_page(flash: SpiNandFlash, page: usize, scratch: &[u8], data: &[u8]) -> Stepped
    ensures { result ≡ begin_of flash (Call.WritePage page) (length scratch.now) 0 (length «data».now) }
{
    begin::<Nand>(
        flash,
        Call::WritePage { page },
        Lengths::new(scratch, &[], data),
    )
}

/// Erases a block.
pub fn erase_block(flash: SpiNandFlash, block: usize, scratch: &[u8]) -> Stepped
    ensures { result ≡ begin_of flash (Call.EraseBlock block) (length scratch.now) 0 0 }
{
    begin::<Nand>(
        flash,
        Call::EraseBlock { block },
        Lengths::of_scratch(scratch),
    )
}

/// Fills the buffer with the part's bytes from an offset on, page by page.
pub fn read(flash: SpiNandFlash, offset: usize, scratch: &[u8], buffer: &[u8]) -> Stepped
    ensures { result ≡ begin_of flash (Call.Read offset) (length scratch.now) (length buffer.now) 0 }
{
    begin::<Nand>(
        flash,
        Call::Read { offset },
        Lengths::new(scratch, buffer, &[]),
    )
}

/// Whether the block's marker tells that it is bad.
pub fn is_bad_block(flash: SpiNandFlash, block: usize, scratch: &[u8]) -> Stepped
    ensures { result ≡ begin_of flash (Call.IsBadBlock block) (length scratch.now) 0 0 }
{
    begin::<Nand>(
        flash,
        Call::IsBadBlock { block },
        Lengths::of_scratch(scratch),
    )
}

/// Erases a block and marks it as bad, unless it is marked already.
pub fn mark_bad_block(flash: SpiNandFlash, block: usize, scratch: &[u8]) -> Stepped
    ensures { result ≡ begin_of flash (Call.MarkBadBlock block) (length scratch.now) 0 0 }
{
    begin::<Nand>(
        flash,
        Call::MarkBadBlock { block },
        Lengths::of_scratch(scratch),
    )
}

/// Takes the reply to the action that is out, and gives the next action or the call's end.
pub fn step(flash: SpiNandFlash, reply: Reply, bytes: &[u8], lent: &mut Loan) -> Stepped
    ensures same { SameLoan lent.old lent.new }
    ensures stepped { returning (stepped_to result) lent.new ≡ lending (step_of flash reply bytes.now) lent.old }
{
    step::step::<Nand>(flash, reply, bytes, lent)
}

/// The beginning of the caller's buffer that holds the bytes read by the last call begun, as that part of the buffer itself.
pub fn delivered(flash: SpiNandFlash, buffer: &[u8]) -> &[u8]
    ensures { result.now ≡ delivered_part flash buffer.now }
{
    flash.delivered(buffer)
}
