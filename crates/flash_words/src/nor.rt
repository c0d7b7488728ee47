// The NOR's words: the Rust's names of its calls, what each takes, and its settings.
ghost use Rattle.std.specs.Prelude.{◌≡◌};
ghost use Rattle.flash_words.specs.NorName.{named_by, form_of, most_of, call_of};
ghost use Rattle.flash_words.specs.NorSetting.{quad_config, device_info, quad_given, own_given};

use crate::words;
use crate::words::Words;
use case_text::line::{Four, Quad};
use flash_calls::call;
use spi_nor::call::Call;
use spi_nor::config::{NorDeviceInfo, NorQuadConfig, SpiNorConfig};
use trace_words::request::Form;

// An offset of the Rust has 32 bits.
const OFFSET_MOST: u64 = u32::MAX as u64;

// How many offsets there are. A number past OFFSET_MOST is cut to 32 bits; no case passes one on (`most`).
const OFFSETS: u64 = OFFSET_MOST + 1;

// The calls without their numbers and settings, which stand elsewhere in a case: `new` is `with_config` at the settings above, and
// `new_single` is `new`.
#[derive(Clone, Copy)]
pub enum Name {
    New,
    NewSingle,
    Config,
    Device,
    Id,
    Free,
    ReadStatus1,
    ReadStatus2,
    IsBusy,
    JedecId,
    UniqueId,
    QuadEnabled,
    EnableQuad,
    DisableQuad,
    Unprotect,
    Read,
    Write,
    Erase,
    EraseSector,
    EraseBlock,
}

// As they are written in a case: a table and no match, since what searches it is one function for both drivers, proved once.
const NAMES: [(&[u8], Name); 20] = [
    (b"new", Name::New),
    (b"new_single", Name::NewSingle),
    (b"config", Name::Config),
    (b"device", Name::Device),
    (b"id", Name::Id),
    (b"free", Name::Free),
    (b"read_status1", Name::ReadStatus1),
    (b"read_status2", Name::ReadStatus2),
    (b"is_busy", Name::IsBusy),
    (b"jedec_id", Name::JedecId),
    (b"unique_id", Name::UniqueId),
    (b"quad_enabled", Name::QuadEnabled),
    (b"enable_quad", Name::EnableQuad),
    (b"disable_quad", Name::DisableQuad),
    (b"unprotect", Name::Unprotect),
    (b"read", Name::Read),
    (b"write", Name::Write),
    (b"erase", Name::Erase),
    (b"erase_sector", Name::EraseSector),
    (b"erase_block", Name::EraseBlock),
];

// ---- settings. Functions and no From: both types are another crate's.

fn quad_config(quad: Quad) -> NorQuadConfig
    ensures { result ≡ quad_config quad }
{
    NorQuadConfig {
        tclqv_ns: quad.tclqv_ns,
        read_opcode: quad.read_opcode,
        page_program_opcode: quad.program_opcode,
        dummy_margin: quad.margin,
    }
}

fn device_info(own: Four) -> NorDeviceInfo
    ensures { result ≡ device_info own }
{
    NorDeviceInfo {
        capacity: own.first as usize,
        sector_size: own.second as usize,
        block_size: own.third as usize,
        page_size: own.fourth as usize,
    }
}

// ---- the words: an instance of the trait, and what both drivers' do alike is in `words`

impl Words for Name {
    type Config = SpiNorConfig;

    ghost named = { named_by };

    ghost form = { form_of };

    ghost most = { most_of };

    ghost call = { call_of };

    ghost with_quad = { quad_given };

    ghost with_own = { own_given };

    #[tactic(auto, unfolding(crate::specs::NorName::text_of, crate::specs::NorName::named_by))]
    fn named(word: &[u8]) -> Option<Name> {
        words::named(&NAMES, word)
    }

    fn form(self) -> Form {
        match self {
            Name::New
            | Name::NewSingle
            | Name::Config
            | Name::Device
            | Name::Id
            | Name::Free
            | Name::ReadStatus1
            | Name::ReadStatus2
            | Name::IsBusy
            | Name::JedecId
            | Name::UniqueId
            | Name::QuadEnabled
            | Name::EnableQuad
            | Name::DisableQuad
            | Name::Unprotect => Form::Plain,
            Name::Read => Form::Buffer,
            Name::Write => Form::Data,
            Name::Erase => Form::Two,
            Name::EraseSector | Name::EraseBlock => Form::One,
        }
    }

    fn most(self) -> u64 {
        OFFSET_MOST
    }

    fn call(self, config: SpiNorConfig, first: u64, second: u64) -> call::Call {
        let offset = (first % OFFSETS) as u32;
        call::Call::Nor(match self {
            Name::New => Call::WithConfig(config),
            Name::NewSingle => Call::New,
            Name::Config => Call::Config,
            Name::Device => Call::Device,
            Name::Id => Call::Id,
            Name::Free => Call::Free,
            Name::ReadStatus1 => Call::ReadStatus1,
            Name::ReadStatus2 => Call::ReadStatus2,
            Name::IsBusy => Call::IsBusy,
            Name::JedecId => Call::JedecId,
            Name::UniqueId => Call::UniqueId,
            Name::QuadEnabled => Call::QuadEnabled,
            Name::EnableQuad => Call::EnableQuad,
            Name::DisableQuad => Call::DisableQuad,
            Name::Unprotect => Call::Unprotect,
            Name::Read => Call::Read { offset },
            Name::Write => Call::Write { offset },
            Name::Erase => Call::Erase {
                from: offset,
                to: (second % OFFSETS) as u32,
            },
            Name::EraseSector => Call::EraseSector { offset },
            Name::EraseBlock => Call::EraseBlock { offset },
        })
    }

    fn with_quad(config: SpiNorConfig, quad: Option<Quad>) -> SpiNorConfig {
        SpiNorConfig {
            quad: quad.map(quad_config),
            ..config
        }
    }

    fn with_own(config: SpiNorConfig, own: Option<Four>) -> SpiNorConfig {
        SpiNorConfig {
            device: own.map(device_info),
            ..config
        }
    }
}
