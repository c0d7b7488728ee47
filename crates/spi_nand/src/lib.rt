//! The SPI NAND part: its opcodes, registers, geometries and commands; what a call of SpiNandFlash (nand/driver.rs) is: where it stands,
//! what it works on, its transfers and its answer; and a function for each theorem about the part.
#![tactic(auto)]

ghost use Rattle.spi_nand.specs.WaitTable.{WaitTable};
ghost use Rattle.spi_nand.specs.Geometries.{GeometriesHold};
ghost use Rattle.spi_nand.specs.DatasheetAgrees.{DatasheetAgrees};
ghost use Rattle.spi_nand.specs.DatasheetAgrees.{RustDeparts};

pub mod answer;
pub mod call;
pub mod command;
pub mod config;
pub mod opcode;
pub mod phase;
pub mod setup;
pub mod status;
pub mod transfer;

/// What holds of the table of wait limits: the rule of its rows, and at each operation the law of its waits, the largest sum and the looks.
pub fn wait_table()
    ensures { WaitTable }
{}

/// Which geometries are within the bounds, that no product of theirs is cut short, and that every one that an id gives is supported.
pub fn geometries_hold()
    ensures { GeometriesHold }
{}

/// Commands, registers and geometries are those of the datasheets, for every page, column and byte, and no wait gives up before the parts'
/// longest time.
pub fn datasheet_agrees()
    ensures { DatasheetAgrees }
{}

/// Where the Rust, and the port with it, departs from the datasheets.
pub fn rust_departs()
    ensures { RustDeparts }
{}
