//! The commands that the driver sends (nor/driver.rs). A function a row: a generic one would take the opcode in place of a name.
ghost use Rattle.std.specs.Prelude.{◌≡◌};
ghost use Rattle.spi_nor.specs.Command.{write_enable_command, read_status1_command, read_status2_command, write_status1_command, write_status2_command, read_id_command, read_unique_id_command, read_command, page_program_command, sector_erase_command, block_erase_command, quad_read_command, quad_page_program_command};

use crate::config::NorQuadConfig;
use crate::opcode;
use qspi::command::Command;

/// Sets the write-enable latch.
pub fn write_enable_command() -> Command
    ensures { result ≡ write_enable_command }
{
    Command::Opcode(opcode::WRITE_ENABLE)
}

/// Asks for status register 1.
pub fn read_status1_command() -> Command
    ensures { result ≡ read_status1_command }
{
    Command::Opcode(opcode::READ_STATUS1)
}

/// Asks for status register 2.
pub fn read_status2_command() -> Command
    ensures { result ≡ read_status2_command }
{
    Command::Opcode(opcode::READ_STATUS2)
}

/// Writes status register 1.
pub fn write_status1_command(value: u8) -> Command
    ensures { result ≡ write_status1_command value }
{
    Command::Byte {
        opcode: opcode::WRITE_STATUS1,
        byte: value,
    }
}

/// Writes status register 2.
pub fn write_status2_command(value: u8) -> Command
    ensures { result ≡ write_status2_command value }
{
    Command::Byte {
        opcode: opcode::WRITE_STATUS2,
        byte: value,
    }
}

/// Asks for the id.
pub fn read_id_command() -> Command
    ensures { result ≡ read_id_command }
{
    Command::Opcode(opcode::READ_ID)
}

/// Asks for the unique id.
pub fn read_unique_id_command() -> Command
    ensures { result ≡ read_unique_id_command }
{
    Command::FourDummies(opcode::READ_UNIQUE_ID)
}

/// Reads from an address on.
pub fn read_command(offset: u32) -> Command
    ensures { result ≡ read_command offset }
{
    Command::Address {
        opcode: opcode::READ,
        address: offset,
    }
}

/// Programs a page.
pub fn page_program_command(offset: u32) -> Command
    ensures { result ≡ page_program_command offset }
{
    Command::Address {
        opcode: opcode::PAGE_PROGRAM,
        address: offset,
    }
}

/// Erases the sector at an address.
pub fn sector_erase_command(offset: u32) -> Command
    ensures { result ≡ sector_erase_command offset }
{
    Command::Address {
        opcode: opcode::SECTOR_ERASE,
        address: offset,
    }
}

/// Erases the block at an address.
pub fn block_erase_command(offset: u32) -> Command
    ensures { result ≡ block_erase_command offset }
{
    Command::Address {
        opcode: opcode::BLOCK_ERASE,
        address: offset,
    }
}

/// Reads on four lines.
pub fn quad_read_command(quad: NorQuadConfig, offset: u32) -> Command
    ensures { result ≡ quad_read_command quad offset }
{
    Command::Address {
        opcode: quad.read_opcode,
        address: offset,
    }
}

/// Programs a page on four lines.
pub fn quad_page_program_command(quad: NorQuadConfig, offset: u32) -> Command
    ensures { result ≡ quad_page_program_command quad offset }
{
    Command::Address {
        opcode: quad.page_program_opcode,
        address: offset,
    }
}
