//! The feature registers C0, B0 and A0, decoded (nand/status.rs). Three types, each with its own from_byte, byte and tests of a mask:
//! these are the names and the structure of the Rust.
ghost use Rattle.std.specs.Prelude.{◌≡◌};
ghost use Rattle.spi_nand.specs.Status.{status_of, status_byte, busy_of, write_enabled_of, erase_failed_of, program_failed_of, verdict_of, label_of, configuration_of, configuration_byte, ecc_enabled_of, buffer_read_of, otp_enabled_of, quad_enabled_of, with_bits, protection_of, protection_byte, block_protect_bits, is_unlocked};

/// The status register (C0).
#[derive(Clone, Copy, Debug, PartialEq, Eq)]
pub struct Status(u8);

impl Status {
    /// An operation is in progress.
    pub const BUSY: u8 = 1 << 0;
    /// The write-enable latch.
    pub const WRITE_ENABLED: u8 = 1 << 1;

    /// The last erase failed.
    pub const ERASE_FAILED: u8 = 1 << 2;

    /// The last program failed.
    pub const PROGRAM_FAILED: u8 = 1 << 3;
    /// Bits 5 and 4: the ECC verdict.
    pub const ECC_MASK: u8 = 0b11 << 4;

    /// The register with this byte.
    pub fn from_byte(byte: u8) -> Self
        ensures { result ≡ status_of byte }
    {
        Self(byte)
    }

    /// Its byte.
    pub fn byte(self) -> u8
        ensures { result ≡ status_byte self }
    {
        self.0
    }

    /// Whether an operation is in progress.
    #[tactic(auto, unfolding(crate::specs::Status::busy_of))]
    pub fn busy(self) -> bool
        ensures { result ≡ busy_of self }
    {
        self.0 & Self::BUSY != 0
    }

    /// Whether the write-enable latch is set.
    #[tactic(auto, unfolding(crate::specs::Status::write_enabled_of))]
    pub fn write_enabled(self) -> bool
        ensures { result ≡ write_enabled_of self }
    {
        self.0 & Self::WRITE_ENABLED != 0
    }

    /// Whether the last erase failed.
    #[tactic(auto, unfolding(crate::specs::Status::erase_failed_of))]
    pub fn erase_failed(self) -> bool
        ensures { result ≡ erase_failed_of self }
    {
        self.0 & Self::ERASE_FAILED != 0
    }

    /// Whether the last program failed.
    #[tactic(auto, unfolding(crate::specs::Status::program_failed_of))]
    pub fn program_failed(self) -> bool
        ensures { result ≡ program_failed_of self }
    {
        self.0 & Self::PROGRAM_FAILED != 0
    }

    /// What bits 5 and 4 say.
    #[tactic(auto, unfolding(crate::specs::Status::verdict_of))]
    pub fn ecc_verdict(self) -> EccVerdict
        ensures { result ≡ verdict_of self }
    {
        // Two bits of the register, which the datasheet numbers: a match over numbers is where they become the enum.
        match (self.0 & Self::ECC_MASK) >> 4 {
            0 => EccVerdict::NoBitFlips,
            1 => EccVerdict::Corrected,
            2 => EccVerdict::Uncorrectable,
            _ => EccVerdict::Reserved,
        }
    }
}

/// What the on-die ECC says of the page loaded last.
#[derive(Clone, Copy, Debug, PartialEq, Eq)]
pub enum EccVerdict {
    /// No flips.
    NoBitFlips,
    /// Flips that the ECC has corrected.
    Corrected,
    /// More flips than the ECC can correct.
    Uncorrectable,
    /// Both bits set. The Rust takes it for no failure; the parts differ (docs/DIFFERENCES.md).
    Reserved,
}

impl EccVerdict {
    /// The verdict in words.
    pub fn label(self) -> &'static str
        ensures { result.now ≡ label_of self }
    {
        match self {
            Self::NoBitFlips => "no bit flips",
            Self::Corrected => "corrected",
            Self::Uncorrectable => "uncorrectable",
            Self::Reserved => "reserved",
        }
    }
}

/// The configuration register (B0).
#[derive(Clone, Copy, Debug, PartialEq, Eq)]
pub struct Configuration(u8);

impl Configuration {
    /// The Rust's quad enable; on Winbond's parts it is none.
    pub const QUAD_ENABLE: u8 = 1 << 0;

    /// Reads take the buffer from the column asked for.
    pub const BUFFER_READ: u8 = 1 << 3;

    /// The on-die ECC is on.
    pub const ECC_ENABLE: u8 = 1 << 4;
    /// Access to the one-time-programmable pages.
    pub const OTP_ENABLE: u8 = 1 << 6;

    /// The mode that the driver works in.
    pub const OPERATIONAL: Self = Self(Self::ECC_ENABLE | Self::BUFFER_READ);
    /// No bit set. (A constant's value calls no function, so not even from_byte.)
    pub const ZERO: Self = Self(0);

    /// The register with this byte.
    pub fn from_byte(byte: u8) -> Self
        ensures { result ≡ configuration_of byte }
    {
        Self(byte)
    }

    /// Its byte.
    pub fn byte(self) -> u8
        ensures { result ≡ configuration_byte self }
    {
        self.0
    }

    /// Whether the on-die ECC is on.
    #[tactic(auto, unfolding(crate::specs::Status::ecc_enabled_of))]
    pub fn ecc_enabled(self) -> bool
        ensures { result ≡ ecc_enabled_of self }
    {
        self.0 & Self::ECC_ENABLE != 0
    }

    /// Whether buffer read is on.
    #[tactic(auto, unfolding(crate::specs::Status::buffer_read_of))]
    pub fn buffer_read(self) -> bool
        ensures { result ≡ buffer_read_of self }
    {
        self.0 & Self::BUFFER_READ != 0
    }

    /// Whether the one-time-programmable pages are in reach.
    #[tactic(auto, unfolding(crate::specs::Status::otp_enabled_of))]
    pub fn otp_enabled(self) -> bool
        ensures { result ≡ otp_enabled_of self }
    {
        self.0 & Self::OTP_ENABLE != 0
    }

    /// Whether bit 0 is set.
    #[tactic(auto, unfolding(crate::specs::Status::quad_enabled_of))]
    pub fn quad_enabled(self) -> bool
        ensures { result ≡ quad_enabled_of self }
    {
        self.0 & Self::QUAD_ENABLE != 0
    }

    /// A copy with the bits of the mask taken from the value.
    #[tactic(auto, unfolding(crate::specs::Status::with_bits))]
    pub fn with_bits(self, mask: u8, value: u8) -> Self
        ensures { result ≡ with_bits self mask value }
    {
        Self((self.0 & !mask) | (mask & value))
    }
}

/// The block-protection register (A0).
#[derive(Clone, Copy, Debug, PartialEq, Eq)]
pub struct Protection(u8);

impl Protection {
    /// Bits 6 to 3: which blocks are locked.
    pub const BLOCK_PROTECT_MASK: u8 = 0b1111 << 3;
    /// No bit set. (A constant's value calls no function, so not even from_byte.)
    pub const ZERO: Self = Self(0);

    /// The register with this byte.
    pub fn from_byte(byte: u8) -> Self
        ensures { result ≡ protection_of byte }
    {
        Self(byte)
    }

    /// Its byte.
    pub fn byte(self) -> u8
        ensures { result ≡ protection_byte self }
    {
        self.0
    }

    /// Bits 6 to 3, as a number.
    #[tactic(auto, unfolding(crate::specs::Status::block_protect_bits))]
    pub fn block_protect_bits(self) -> u8
        ensures { result ≡ block_protect_bits self }
    {
        (self.0 & Self::BLOCK_PROTECT_MASK) >> 3
    }

    /// Whether no block is locked.
    #[tactic(auto, unfolding(crate::specs::Status::is_unlocked))]
    pub fn is_unlocked(self) -> bool
        ensures { result ≡ is_unlocked self }
    {
        self.block_protect_bits() == 0
    }
}
