//! The values of an answer in the order in which a trace prints them: how many, and each by its place. As a list they would be an ArrayVec
//! of the kit, which takes a slice by a call that may fail, or one value after the other, for each of which its room must be shown. Past the
//! last one a value is 0.
ghost use Rattle.std.specs.Prelude.{◌≡◌, get_or, length};
ghost use Rattle.spi_nand.specs.Answer.{id_values, info_values, geometry_values, quad_numbers, answer_values};

use crate::config::{NandGeometry, NandInit, NandJedecId, NandQuadConfig, SpiNandConfig};
use crate::status::{Configuration, Protection, Status};
use spi_flash::value;

/// What a call that succeeds answers.
#[derive(Clone, Copy)]
pub enum Answer {
    Done,
    Flag(bool),
    Status(Status),
    Configuration(Configuration),
    Protection(Protection),
    Id(NandJedecId),
    Info(NandInit),
    Geometry(NandGeometry),
    Config(SpiNandConfig),
}

// Here and below functions and no From: a name says what the numbers are, and an array made `from` an id does not.
fn id_numbers(id: NandJedecId) -> [u64; 2]
    ensures { result ≡ id_values id }
{
    [u64::from(id.manufacturer), u64::from(id.device)]
}

fn info_numbers(info: NandInit) -> [u64; 5]
    ensures { result ≡ info_values info }
{
    [
        u64::from(info.id.manufacturer),
        u64::from(info.id.device),
        u64::from(info.configuration_before.byte()),
        u64::from(info.configuration_after.byte()),
        u64::from(info.protection_before.byte()),
    ]
}

fn geometry_numbers(geometry: NandGeometry) -> [u64; 4]
    ensures { result ≡ geometry_values geometry }
{
    [
        geometry.page_size as u64,
        geometry.oob_size as u64,
        geometry.pages_per_block as u64,
        geometry.block_count as u64,
    ]
}

fn quad_numbers(quad: NandQuadConfig) -> [u64; 4]
    ensures { result ≡ quad_numbers quad }
{
    [
        u64::from(quad.tclqv_ns),
        u64::from(quad.read_cache_opcode),
        u64::from(quad.load_program_opcode),
        u64::from(quad.dummy_margin),
    ]
}

// What is alike in the NOR's answers is in `spi_flash::value`: here stands which answer has which numbers.
impl Answer {
    /// How many numbers a trace prints of it.
    pub fn value_count(self) -> usize
        ensures { result ≡ length (answer_values self) }
    {
        match self {
            Answer::Done => 0,
            Answer::Flag(_)
            | Answer::Status(_)
            | Answer::Configuration(_)
            | Answer::Protection(_) => 1,
            Answer::Id(id) => id_numbers(id).len(),
            Answer::Info(info) => info_numbers(info).len(),
            Answer::Geometry(geometry) => geometry_numbers(geometry).len(),
            Answer::Config(config) => value::settings_count(
                config.quad.map(quad_numbers),
                config.geometry.map(geometry_numbers),
            ),
        }
    }

    /// The number at a place; 0 past the last one.
    pub fn value(self, i: usize) -> u64
        ensures { result ≡ get_or (answer_values self) i 0 }
    {
        match self {
            Answer::Done => 0,
            Answer::Flag(f) => value::at(&[value::flag(f)], i),
            Answer::Status(s) => value::at(&[u64::from(s.byte())], i),
            Answer::Configuration(c) => value::at(&[u64::from(c.byte())], i),
            Answer::Protection(p) => value::at(&[u64::from(p.byte())], i),
            Answer::Id(id) => value::at(&id_numbers(id), i),
            Answer::Info(info) => value::at(&info_numbers(info), i),
            Answer::Geometry(geometry) => value::at(&geometry_numbers(geometry), i),
            Answer::Config(config) => value::settings_value(
                config.quad.map(quad_numbers),
                config.geometry.map(geometry_numbers),
                i,
            ),
        }
    }
}
