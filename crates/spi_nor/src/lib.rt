//! The SPI NOR part: its opcodes, registers, geometries and commands; what a call of SpiNorFlash (nor/driver.rs) is: where it stands,
//! what it works on, its transfers and its answer; and a function for each theorem about the part.
#![tactic(auto)]

ghost use Rattle.spi_nor.specs.WaitTable.{WaitTable};
ghost use Rattle.spi_nor.specs.StatusBits.{StatusBits};
ghost use Rattle.spi_nor.specs.DeviceBounds.{DeviceBounds};
ghost use Rattle.spi_nor.specs.DatasheetAgrees.{DatasheetAgrees};
ghost use Rattle.spi_nor.specs.DatasheetAgrees.{RustDeparts};

pub mod answer;
pub mod call;
pub mod command;
pub mod config;
pub mod opcode;
pub mod phase;
pub mod setup;
pub mod status;
pub mod transfer;

/// What holds of the table of wait limits: the rule of its rows, and at each operation the law of its waits, the largest sum and the looks.
pub fn wait_table()
    ensures { WaitTable }
{}

/// What each mask expression of the Rust comes to, for every byte.
pub fn status_bits()
    ensures { StatusBits }
{}

/// Which geometries are within the bounds, and that every one that an id gives is.
pub fn device_bounds()
    ensures { DeviceBounds }
{}

/// Commands, addresses, status bits, ids and sizes are those of the datasheets, and no wait gives up before the parts' longest time.
pub fn datasheet_agrees()
    ensures { DatasheetAgrees }
{}

/// Where the Rust, and the port with it, departs from the datasheets.
pub fn rust_departs()
    ensures { RustDeparts }
{}
