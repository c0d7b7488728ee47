//! How each call begins.
ghost use Rattle.std.specs.Prelude.{◌≡◌};
ghost use Rattle.machine.specs.Then.{plain, filling, sending};
ghost use Rattle.nand_steps.specs.Cache.{read_cache_then, load_program_then};
ghost use Rattle.nand_steps.specs.Go.{ask};
ghost use Rattle.nand_steps.specs.Opening.{given_geometry, fresh_setup, opening_of};

use crate::then::Opening;
use crate::{block, cache, go, page, read};
use qspi::loan::Lengths;
use qspi::transfer::{Payload, Sink};
use spi_nand::answer::Answer;
use spi_nand::call::Call;
use spi_nand::config::{NandGeometry, NandInit, SpiNandConfig};
use spi_nand::opcode;
use spi_nand::phase::{
    Asked, EnableFor, EraseFor, LoadFor, MarkerFor, Phase, ProgramFor, RegisterFor, ResetFor,
};
use spi_nand::setup::Setup;

// The geometry before the id is known.
fn given_geometry(config: SpiNandConfig) -> NandGeometry
    ensures { result ≡ given_geometry config }
{
    config.geometry.unwrap_or(NandGeometry::W25N01GV)
}

/// What the driver holds before the id is known. The NOR's differs in each type and constant.
pub fn fresh(config: SpiNandConfig) -> Setup
    ensures { result ≡ fresh_setup config }
{
    Setup {
        config,
        geometry: given_geometry(config),
        init: NandInit::UNKNOWN,
    }
}

// A read of a register.
fn asks(setup: Setup, register: u8, asked: Asked) -> Opening
    ensures { result ≡ plain (ask setup register asked) }
{
    Opening::plain(go::ask(setup, register, asked))
}

fn read_cache(setup: Setup, column: usize, len: usize) -> Opening
    ensures { result ≡ filling len (read_cache_then setup column len (Sink.Buffer 0) Phase.ReadingCache) }
{
    let sink = Sink::Buffer(0);
    Opening::filling(
        len,
        cache::read_cache(setup, column, len, sink, Phase::ReadingCache),
    )
}

fn load_program_data(setup: Setup, column: usize, len: usize) -> Opening
    ensures { result ≡ sending len (load_program_then setup column (Payload.Data 0 len) Phase.LoadingData) }
{
    let payload = Payload::Data { from: 0, len };
    Opening::sending(
        len,
        cache::load_program_data(setup, column, payload, Phase::LoadingData),
    )
}

/// Each call, with what is lent of these lengths: one arm a call.
#[tactic(auto, unfolding(crate::specs::Opening::opening_of))]
pub fn opening_of(setup: Setup, call: Call, lengths: Lengths) -> Opening
    ensures { result ≡ opening_of setup call lengths.buffer lengths.«data» }
{
    match call {
        Call::New => Opening::Constructs(fresh(SpiNandConfig::single())),
        Call::WithConfig(config) => Opening::Constructs(fresh(config)),
        Call::Info => Opening::Tells(Answer::Info(setup.init)),
        Call::Config => Opening::Tells(Answer::Config(setup.config)),
        Call::Geometry => Opening::Tells(Answer::Geometry(setup.geometry)),
        Call::Free => Opening::Releases,
        Call::DisableQuad => asks(setup, opcode::REG_CONFIGURATION, Asked::DisableQuad),
        Call::WriteRegister { register, value } => {
            let why = RegisterFor::Call;
            Opening::plain(go::enable(
                setup,
                EnableFor::Register {
                    register,
                    value,
                    why,
                },
            ))
        }
        Call::WriteEnable => Opening::plain(go::enable(setup, EnableFor::Call)),
        Call::ReadStatus => asks(setup, opcode::REG_STATUS, Asked::Status),
        Call::ReadConfiguration => asks(setup, opcode::REG_CONFIGURATION, Asked::Configuration),
        Call::ReadProtection => asks(setup, opcode::REG_BLOCK_PROTECTION, Asked::Protection),
        Call::Reset => Opening::plain(go::reset(setup, ResetFor::Reset)),
        Call::JedecId => Opening::plain(go::ask_id(setup, false)),
        Call::ResetAndIdentify => {
            Opening::plain(go::reset(setup, ResetFor::Identify { bring_up: false }))
        }
        Call::EnsureConfiguration => {
            asks(
                setup,
                opcode::REG_CONFIGURATION,
                Asked::Configure { bring_up: false },
            )
        }
        Call::Unprotect => {
            asks(
                setup,
                opcode::REG_BLOCK_PROTECTION,
                Asked::Unprotect { bring_up: false },
            )
        }
        Call::PageRead { page } => Opening::plain(page::page_read(setup, page, LoadFor::PageRead)),
        Call::ReadCache { column } => read_cache(setup, column, lengths.buffer),
        Call::LoadProgramData { column } => load_program_data(setup, column, lengths.data),
        Call::ProgramExecute { page } => Opening::plain(page::program(
            setup,
            page,
            ProgramFor::Call,
        )),
        Call::ReadPage { page } => {
            Opening::filling(lengths.buffer, page::read_page(setup, page, lengths.buffer))
        }
        Call::WritePage { page } => {
            Opening::sending(lengths.data, page::write_page(setup, page, lengths.data))
        }
        Call::EraseBlock { block } => {
            Opening::plain(block::erase_block(setup, block, EraseFor::Call))
        }
        Call::Read { offset } => Opening::filling(
            lengths.buffer,
            read::read(setup, offset, lengths.buffer),
        ),
        Call::IsBadBlock { block } => {
            Opening::plain(page::is_bad_block(setup, block, MarkerFor::Call))
        }
        Call::MarkBadBlock { block } => {
            Opening::plain(page::is_bad_block(setup, block, MarkerFor::Check(block)))
        }
    }
}
