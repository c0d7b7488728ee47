//! The values of an answer in the order in which a trace prints them: how many, and each by its place. As a list they would be an ArrayVec
//! of the kit, which takes a slice by a call that may fail, or one value after the other, for each of which its room must be shown. Past the
//! last one a value is 0.
ghost use Rattle.std.specs.Prelude.{◌≡◌, get_or, length};
ghost use Rattle.spi_nor.specs.Answer.{id_values, device_values, quad_numbers, answer_values};

use crate::config::{NorDeviceInfo, NorJedecId, NorQuadConfig, SpiNorConfig};
use spi_flash::value;

/// What a call that succeeds answers.
#[derive(Clone, Copy)]
pub enum Answer {
    Done,
    Byte(u8),
    Flag(bool),
    Id(NorJedecId),
    UniqueId(u64),
    Unprotected { before: u8, after: u8 },
    Device(NorDeviceInfo),
    Config(SpiNorConfig),
}

// Here and below functions and no From: a name says what the numbers are, and an array made `from` an id does not.
fn id_numbers(id: NorJedecId) -> [u64; 3]
    ensures { result ≡ id_values id }
{
    [
        u64::from(id.manufacturer),
        u64::from(id.memory_type),
        u64::from(id.capacity),
    ]
}

fn device_numbers(device: NorDeviceInfo) -> [u64; 4]
    ensures { result ≡ device_values device }
{
    [
        device.capacity as u64,
        device.sector_size as u64,
        device.block_size as u64,
        device.page_size as u64,
    ]
}

fn quad_numbers(quad: NorQuadConfig) -> [u64; 4]
    ensures { result ≡ quad_numbers quad }
{
    [
        u64::from(quad.tclqv_ns),
        u64::from(quad.read_opcode),
        u64::from(quad.page_program_opcode),
        u64::from(quad.dummy_margin),
    ]
}

// What is alike in the NAND's answers is in `spi_flash::value`: here stands which answer has which numbers.
impl Answer {
    /// How many numbers a trace prints of it.
    pub fn value_count(self) -> usize
        ensures { result ≡ length (answer_values self) }
    {
        match self {
            Answer::Done => 0,
            Answer::Byte(_) | Answer::Flag(_) | Answer::UniqueId(_) => 1,
            Answer::Id(id) => id_numbers(id).len(),
            Answer::Unprotected { .. } => 2,
            Answer::Device(device) => device_numbers(device).len(),
            Answer::Config(config) => value::settings_count(
                config.quad.map(quad_numbers),
                config.device.map(device_numbers),
            ),
        }
    }

    /// The number at a place; 0 past the last one.
    pub fn value(self, i: usize) -> u64
        ensures { result ≡ get_or (answer_values self) i 0 }
    {
        match self {
            Answer::Done => 0,
            Answer::Byte(b) => value::at(&[u64::from(b)], i),
            Answer::Flag(f) => value::at(&[value::flag(f)], i),
            Answer::Id(id) => value::at(&id_numbers(id), i),
            Answer::UniqueId(v) => value::at(&[v], i),
            Answer::Unprotected { before, after } => {
                value::at(&[u64::from(before), u64::from(after)], i)
            }
            Answer::Device(device) => value::at(&device_numbers(device), i),
            Answer::Config(config) => value::settings_value(
                config.quad.map(quad_numbers),
                config.device.map(device_numbers),
                i,
            ),
        }
    }
}
