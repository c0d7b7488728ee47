//! Status register bits (nor/status.rs), and what the driver asks and makes of them.
ghost use Rattle.std.specs.Prelude.{◌≡◌};
ghost use Rattle.spi_flash.specs.Bits.{any_of};
ghost use Rattle.spi_nor.specs.Status.{with_of, without_of};

/// Status register 1 bit 0: erase, program or write in progress.
pub const BUSY: u8 = 1 << 0;
/// Status register 1 bit 1: write-enable latch.
pub const WRITE_ENABLE_LATCH: u8 = 1 << 1;
/// Status register 1 bit 6: quad enable on Macronix and ISSI style parts.
pub const QE_SR1: u8 = 1 << 6;
/// Status register 2 bit 1: quad enable on Winbond and GigaDevice parts.
pub const QE_SR2: u8 = 1 << 1;
/// Status register 1 block-protection mask: BP0 to BP2, TB, SEC, SRP0.
pub const SR1_PROTECT_MASK: u8 = 0xFC;
/// Status register 2 protection mask; on Winbond LB3, CMP, SUS.
pub const SR2_PROTECT_MASK: u8 = 0xE0;

/// Whether a bit of the mask is set.
pub fn any(mask: u8, status: u8) -> bool
    ensures { result ≡ any_of mask status }
{
    status & mask != 0
}

/// The register with the mask's bits set.
pub fn with(mask: u8, status: u8) -> u8
    ensures { result ≡ with_of mask status }
{
    status | mask
}

/// The register with the mask's bits cleared.
pub fn without(mask: u8, status: u8) -> u8
    ensures { result ≡ without_of mask status }
{
    status & !mask
}
