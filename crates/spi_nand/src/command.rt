//! The commands that the driver sends: the arrays of nand/driver.rs. A function a row: a generic one would take the opcode in place of
//! a name.
ghost use Rattle.std.specs.Prelude.{◌≡◌, ◌%◌};
ghost use Rattle.spi_nand.specs.Command.{row_address, column_address, reset_command, read_id_command, get_feature_command, set_feature_command, write_enable_command, page_read_command, read_cache_command, block_erase_command, load_program_data_command, program_execute_command, quad_read_cache_command, quad_load_program_data_command};

use crate::config::NandQuadConfig;
use crate::opcode;
use qspi::command::Command;

// What the three address bytes hold of a page, as the Rust's page_address.
fn row_address(page: usize) -> u32
    ensures { result ≡ row_address page }
{
    (page % 16_777_216) as u32
}

// What the two address bytes hold of a column, as the Rust's `column as u16`.
fn column_address(column: usize) -> u16
    ensures { result ≡ column_address column }
{
    (column % 65_536) as u16
}

/// Resets the part.
pub fn reset_command() -> Command
    ensures { result ≡ reset_command }
{
    Command::Opcode(opcode::RESET)
}

/// Asks for the id.
pub fn read_id_command() -> Command
    ensures { result ≡ read_id_command }
{
    Command::Byte {
        opcode: opcode::READ_ID,
        byte: 0x00,
    }
}

/// Asks for a register.
pub fn get_feature_command(register: u8) -> Command
    ensures { result ≡ get_feature_command register }
{
    Command::Byte {
        opcode: opcode::GET_FEATURE,
        byte: register,
    }
}

/// Writes a register.
pub fn set_feature_command(register: u8, value: u8) -> Command
    ensures { result ≡ set_feature_command register value }
{
    Command::RegisterValue {
        opcode: opcode::SET_FEATURE,
        register: register,
        value: value,
    }
}

/// Sets the write-enable latch.
pub fn write_enable_command() -> Command
    ensures { result ≡ write_enable_command }
{
    Command::Opcode(opcode::WRITE_ENABLE)
}

/// Loads a page into the cache.
pub fn page_read_command(page: usize) -> Command
    ensures { result ≡ page_read_command page }
{
    Command::Address {
        opcode: opcode::PAGE_READ,
        address: row_address(page),
    }
}

/// Reads the cache from a column on.
pub fn read_cache_command(column: usize) -> Command
    ensures { result ≡ read_cache_command column }
{
    Command::ColumnDummy {
        opcode: opcode::READ_CACHE,
        column: column_address(column),
    }
}

/// Erases the block whose first page this is.
pub fn block_erase_command(page: usize) -> Command
    ensures { result ≡ block_erase_command page }
{
    Command::Address {
        opcode: opcode::BLOCK_ERASE,
        address: row_address(page),
    }
}

/// Loads data into the cache from a column on.
pub fn load_program_data_command(column: usize) -> Command
    ensures { result ≡ load_program_data_command column }
{
    Command::Column {
        opcode: opcode::LOAD_PROGRAM_DATA,
        column: column_address(column),
    }
}

/// Programs the cache into a page.
pub fn program_execute_command(page: usize) -> Command
    ensures { result ≡ program_execute_command page }
{
    Command::Address {
        opcode: opcode::PROGRAM_EXECUTE,
        address: row_address(page),
    }
}

// On four lines the bus makes the dummy bytes itself, from tCLQV and the margin.
/// Reads the cache on four lines.
pub fn quad_read_cache_command(quad: NandQuadConfig, column: usize) -> Command
    ensures { result ≡ quad_read_cache_command quad column }
{
    Command::Column {
        opcode: quad.read_cache_opcode,
        column: column_address(column),
    }
}

/// Loads data into the cache on four lines.
pub fn quad_load_program_data_command(quad: NandQuadConfig, column: usize) -> Command
    ensures { result ≡ quad_load_program_data_command quad column }
{
    Command::Column {
        opcode: quad.load_program_opcode,
        column: column_address(column),
    }
}
