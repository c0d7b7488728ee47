// The NAND's words: the Rust's names of its calls, what each takes, and its settings.
ghost use Rattle.std.specs.Prelude.{◌≡◌};
ghost use Rattle.flash_words.specs.NandName.{named_by, form_of, most_of, call_of};
ghost use Rattle.flash_words.specs.NandSetting.{quad_config, geometry, quad_given, own_given};

use crate::words;
use crate::words::Words;
use case_text::line::{Four, Quad};
use flash_calls::call;
use spi_nand::call::Call;
use spi_nand::config::{NandGeometry, NandQuadConfig, SpiNandConfig};
use trace_words::request::Form;

// The largest numbers that are passed on: a register and its value are bytes.
const BYTE_MOST: u64 = 255;

// How many bytes there are. A number past BYTE_MOST is cut to 8 bits; no case passes one on (`most`).
const BYTES: u64 = BYTE_MOST + 1;

const WORD_MOST: u64 = u64::MAX;

// The calls without their numbers and settings, which stand elsewhere in a case: `new` is `with_config` at the settings above, and
// `new_single` is `new`.
#[derive(Clone, Copy)]
pub enum Name {
    New,
    NewSingle,
    Info,
    Config,
    Geometry,
    Free,
    DisableQuad,
    WriteEnable,
    ReadStatus,
    ReadConfiguration,
    ReadProtection,
    Reset,
    JedecId,
    ResetAndIdentify,
    EnsureConfiguration,
    Unprotect,
    WriteRegister,
    ReadCache,
    ReadPage,
    Read,
    LoadProgramData,
    WritePage,
    PageRead,
    ProgramExecute,
    EraseBlock,
    IsBadBlock,
    MarkBadBlock,
}

// As they are written in a case: a table and no match, since what searches it is one function for both drivers, proved once.
const NAMES: [(&[u8], Name); 27] = [
    (b"new", Name::New),
    (b"new_single", Name::NewSingle),
    (b"info", Name::Info),
    (b"config", Name::Config),
    (b"geometry", Name::Geometry),
    (b"free", Name::Free),
    (b"disable_quad", Name::DisableQuad),
    (b"write_enable", Name::WriteEnable),
    (b"read_status", Name::ReadStatus),
    (b"read_configuration", Name::ReadConfiguration),
    (b"read_protection", Name::ReadProtection),
    (b"reset", Name::Reset),
    (b"jedec_id", Name::JedecId),
    (b"reset_and_identify", Name::ResetAndIdentify),
    (b"ensure_configuration", Name::EnsureConfiguration),
    (b"unprotect", Name::Unprotect),
    (b"write_register", Name::WriteRegister),
    (b"read_cache", Name::ReadCache),
    (b"read_page", Name::ReadPage),
    (b"read", Name::Read),
    (b"load_program_data", Name::LoadProgramData),
    (b"write_page", Name::WritePage),
    (b"page_read", Name::PageRead),
    (b"program_execute", Name::ProgramExecute),
    (b"erase_block", Name::EraseBlock),
    (b"is_bad_block", Name::IsBadBlock),
    (b"mark_bad_block", Name::MarkBadBlock),
];

// ---- settings. Functions and no From: both types are another crate's.

fn quad_config(quad: Quad) -> NandQuadConfig
    ensures { result ≡ quad_config quad }
{
    NandQuadConfig {
        tclqv_ns: quad.tclqv_ns,
        read_cache_opcode: quad.read_opcode,
        load_program_opcode: quad.program_opcode,
        dummy_margin: quad.margin,
    }
}

fn geometry(own: Four) -> NandGeometry
    ensures { result ≡ geometry own }
{
    NandGeometry {
        page_size: own.first as usize,
        oob_size: own.second as usize,
        pages_per_block: own.third as usize,
        block_count: own.fourth as usize,
    }
}

// ---- the words: an instance of the trait, and what both drivers' do alike is in `words`

impl Words for Name {
    type Config = SpiNandConfig;

    ghost named = { named_by };

    ghost form = { form_of };

    ghost most = { most_of };

    ghost call = { call_of };

    ghost with_quad = { quad_given };

    ghost with_own = { own_given };

    #[tactic(auto, unfolding(crate::specs::NandName::text_of, crate::specs::NandName::named_by))]
    fn named(word: &[u8]) -> Option<Name> {
        words::named(&NAMES, word)
    }

    fn form(self) -> Form {
        match self {
            Name::New
            | Name::NewSingle
            | Name::Info
            | Name::Config
            | Name::Geometry
            | Name::Free
            | Name::DisableQuad
            | Name::WriteEnable
            | Name::ReadStatus
            | Name::ReadConfiguration
            | Name::ReadProtection
            | Name::Reset
            | Name::JedecId
            | Name::ResetAndIdentify
            | Name::EnsureConfiguration
            | Name::Unprotect => Form::Plain,
            Name::WriteRegister => Form::Two,
            Name::ReadCache | Name::ReadPage | Name::Read => Form::Buffer,
            Name::LoadProgramData | Name::WritePage => Form::Data,
            Name::PageRead
            | Name::ProgramExecute
            | Name::EraseBlock
            | Name::IsBadBlock
            | Name::MarkBadBlock => Form::One,
        }
    }

    fn most(self) -> u64 {
        if let Name::WriteRegister = self {
            BYTE_MOST
        } else {
            WORD_MOST
        }
    }

    fn call(self, config: SpiNandConfig, first: u64, second: u64) -> call::Call {
        let n = first as usize;
        call::Call::Nand(match self {
            Name::New => Call::WithConfig(config),
            Name::NewSingle => Call::New,
            Name::Info => Call::Info,
            Name::Config => Call::Config,
            Name::Geometry => Call::Geometry,
            Name::Free => Call::Free,
            Name::DisableQuad => Call::DisableQuad,
            Name::WriteEnable => Call::WriteEnable,
            Name::ReadStatus => Call::ReadStatus,
            Name::ReadConfiguration => Call::ReadConfiguration,
            Name::ReadProtection => Call::ReadProtection,
            Name::Reset => Call::Reset,
            Name::JedecId => Call::JedecId,
            Name::ResetAndIdentify => Call::ResetAndIdentify,
            Name::EnsureConfiguration => Call::EnsureConfiguration,
            Name::Unprotect => Call::Unprotect,
            Name::WriteRegister => Call::WriteRegister {
                register: (first % BYTES) as u8,
                value: (second % BYTES) as u8,
            },
            Name::ReadCache => Call::ReadCache { column: n },
            Name::ReadPage => Call::ReadPage { page: n },
            Name::Read => Call::Read { offset: n },
            Name::LoadProgramData => Call::LoadProgramData { column: n },
            Name::WritePage => Call::WritePage { page: n },
            Name::PageRead => Call::PageRead { page: n },
            Name::ProgramExecute => Call::ProgramExecute { page: n },
            Name::EraseBlock => Call::EraseBlock { block: n },
            Name::IsBadBlock => Call::IsBadBlock { block: n },
            Name::MarkBadBlock => Call::MarkBadBlock { block: n },
        })
    }

    fn with_quad(config: SpiNandConfig, quad: Option<Quad>) -> SpiNandConfig {
        SpiNandConfig {
            quad: quad.map(quad_config),
            ..config
        }
    }

    fn with_own(config: SpiNandConfig, own: Option<Four>) -> SpiNandConfig {
        SpiNandConfig {
            geometry: own.map(geometry),
            ..config
        }
    }
}
