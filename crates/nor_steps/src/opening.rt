//! How each call begins.
ghost use Rattle.std.specs.Prelude.{◌≡◌};
ghost use Rattle.nor_steps.specs.Opening.{given_device, fresh_setup, opening_of};

use crate::then::Opening;
use crate::{erase, go, read, write};
use qspi::loan::Lengths;
use spi_nor::answer::Answer;
use spi_nor::call::Call;
use spi_nor::config::{NorDeviceInfo, NorJedecId, SpiNorConfig};
use spi_nor::phase::{EraseKind, Phase};
use spi_nor::setup::Setup;

// The device before the id is known.
fn given_device(config: SpiNorConfig) -> NorDeviceInfo
    ensures { result ≡ given_device config }
{
    config.device.unwrap_or(NorDeviceInfo::W25Q128JV)
}

/// What the driver holds before the id is known: the Rust's zeros, in place of a None. The NAND's differs in each type and constant.
pub fn fresh(config: SpiNorConfig) -> Setup
    ensures { result ≡ fresh_setup config }
{
    Setup {
        config,
        device: given_device(config),
        id: NorJedecId {
            manufacturer: 0,
            memory_type: 0,
            capacity: 0,
        },
    }
}

/// Each call, with what is lent of these lengths.
#[tactic(auto, unfolding(crate::specs::Opening::opening_of))]
pub fn opening_of(setup: Setup, call: Call, lengths: Lengths) -> Opening
    ensures { result ≡ opening_of setup call lengths.buffer lengths.«data» }
{
    match call {
        Call::New => Opening::Constructs(fresh(SpiNorConfig::single())),
        Call::WithConfig(config) => Opening::Constructs(fresh(config)),
        Call::Config => Opening::Tells(Answer::Config(setup.config)),
        Call::Device => Opening::Tells(Answer::Device(setup.device)),
        Call::Id => Opening::Tells(Answer::Id(setup.id)),
        Call::Free => Opening::Releases,
        Call::ReadStatus1 => Opening::plain(go::read1(setup, Phase::Status1)),
        Call::ReadStatus2 => Opening::plain(go::read2(setup, Phase::Status2)),
        Call::IsBusy => Opening::plain(go::read1(setup, Phase::Busy)),
        Call::JedecId => Opening::plain(go::read_id(setup, Phase::JedecId)),
        Call::UniqueId => Opening::plain(go::read_unique_id(setup, Phase::UniqueId)),
        Call::QuadEnabled => Opening::plain(go::read2(setup, Phase::QuadEnabled2)),
        Call::EnableQuad => Opening::plain(go::read2(setup, Phase::EnableCheck2)),
        Call::DisableQuad => Opening::plain(go::read2(setup, Phase::DisableRead2)),
        Call::Read { offset } => {
            Opening::filling(
                lengths.buffer,
                read::read_then(setup, offset, lengths.buffer),
            )
        }
        Call::Write { offset } => {
            Opening::sending(lengths.data, write::write_then(setup, offset, lengths.data))
        }
        Call::Unprotect => Opening::plain(go::read1(setup, Phase::UnprotectRead1)),
        Call::Erase { from, to } => Opening::plain(erase::erase_then(setup, from, to)),
        Call::EraseSector { offset } => {
            Opening::plain(erase::erase_one(setup, EraseKind::Sector, offset))
        }
        Call::EraseBlock { offset } => {
            Opening::plain(erase::erase_one(setup, EraseKind::Block, offset))
        }
    }
}
