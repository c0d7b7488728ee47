//! The feature registers: bring_up, ensure_configuration, unprotect, disable_quad.
ghost use Rattle.std.specs.Prelude.{◌≡◌};
ghost use Rattle.nand_steps.specs.Go.{enable};
ghost use Rattle.spi_nand.specs.Config.{wanted_for};
ghost use Rattle.nand_steps.specs.Register.{id_of, geometry_for, identified_then, configure_then, configured_then, check_configuration, unprotect_then, unprotected_then, brought_up, disable_quad, quad_disabled, written_then};

use crate::go;
use crate::then::Then;
use spi_flash::error::FlashError;
use spi_nand::answer::Answer;
use spi_nand::config::{NandGeometry, NandJedecId, SpiNandConfig};
use spi_nand::opcode;
use spi_nand::phase::{Asked, EnableFor, RegisterFor};
use spi_nand::setup::Setup;
use spi_nand::status::{Configuration, Protection};

/// The largest page that a read-back is made of.
pub const MAX_VERIFY_PAGE_SIZE: usize = 4096;

/// The id in the number that READ ID gives. No From<u64>: not each number is an id.
#[tactic(auto, unfolding(spi_nand::specs::Config::jedec_id_of))]
pub fn id_of(v: u64) -> NandJedecId
    ensures { result ≡ id_of v }
{
    let [.., manufacturer, high, low] = v.to_be_bytes();
    NandJedecId::from_bytes([manufacturer, high, low])
}

// The caller's own geometry stays; else it is that of the id. The NOR's device likewise: each type and lookup is another.
#[tactic(auto, unfolding(crate::specs::Register::geometry_for))]
fn geometry_for(setup: Setup, id: NandJedecId) -> NandGeometry
    ensures { result ≡ geometry_for setup id }
{
    match setup.config.geometry {
        None => NandGeometry::from_jedec(id),
        Some(_) => setup.geometry,
    }
}

/// bring_up, once the id has been read. A page that is too large is refused before anything is written to the part. The NOR's tests its
/// page alike, and says why there is no common form.
#[tactic(auto, unfolding(crate::specs::Register::identified_then))]
pub fn identified(setup: Setup, id: NandJedecId) -> Then
    ensures { result ≡ identified_then setup id }
{
    let geometry = geometry_for(setup, id);
    if geometry.page_size > MAX_VERIFY_PAGE_SIZE {
        return Err(FlashError::NotSupported);
    }
    go::ask(
        setup.identified_as(geometry, id),
        opcode::REG_CONFIGURATION,
        Asked::Configure { bring_up: true },
    )
}

// A register and its value are two, as in the Rust's write_register.
fn write_register(setup: Setup, register: u8, value: u8, why: RegisterFor) -> Then
    ensures { result ≡ enable setup (EnableFor.Register register value why) }
{
    go::enable(
        setup,
        EnableFor::Register {
            register,
            value,
            why,
        },
    )
}

// ---- ensure_configuration

// ECC and buffer reads, and quad mode where it is configured.
#[tactic(auto, unfolding(spi_nand::specs::Config::wanted_for))]
fn wanted(config: SpiNandConfig, before: Configuration) -> Configuration
    ensures { result ≡ wanted_for config before }
{
    let operational = before.with_bits(
        Configuration::ECC_ENABLE | Configuration::BUFFER_READ,
        Configuration::OPERATIONAL.byte(),
    );
    match config.quad {
        None => operational,
        Some(_) => { operational.with_bits(Configuration::QUAD_ENABLE, Configuration::QUAD_ENABLE) }
    }
}

/// Here and below a register as it was read and `bring_up` stay two parameters: each function takes a struct of the two apart at once.
/// The register as it was read: it is written where it is not as wanted.
#[tactic(auto, unfolding(crate::specs::Register::configure_then, spi_nand::specs::Status::same_configuration))]
pub fn configure(setup: Setup, before: Configuration, bring_up: bool) -> Then
    ensures { result ≡ configure_then setup before bring_up }
{
    let after = wanted(setup.config, before);
    if after == before {
        return configured(setup, before, bring_up);
    }
    write_register(
        setup,
        opcode::REG_CONFIGURATION,
        after.byte(),
        RegisterFor::Configure { before, bring_up },
    )
}

// `Ok(before)`; bring_up keeps it and goes on with unprotect.
#[tactic(auto, unfolding(crate::specs::Register::configured_then))]
fn configured(setup: Setup, before: Configuration, bring_up: bool) -> Then
    ensures { result ≡ configured_then setup before bring_up }
{
    if bring_up {
        return go::ask(
            setup.with_before(before),
            opcode::REG_BLOCK_PROTECTION,
            Asked::Unprotect { bring_up: true },
        );
    }
    go::end(setup, Answer::Configuration(before))
}

/// The register read back.
#[tactic(auto, unfolding(crate::specs::Register::check_configuration, spi_nand::specs::Status::same_configuration))]
pub fn check_configuration(
    setup: Setup,
    before: Configuration,
    bring_up: bool,
    after: Configuration,
) -> Then
    ensures { result ≡ check_configuration setup before bring_up after }
{
    if after == wanted(setup.config, before) {
        return configured(setup, before, bring_up);
    }
    Err(FlashError::NotSupported)
}

// ---- unprotect: the course of ensure_configuration, with another register, test and end

/// The register as it was read: it is written where it locks a block.
#[tactic(auto, unfolding(crate::specs::Register::unprotect_then))]
pub fn unprotect(setup: Setup, before: Protection, bring_up: bool) -> Then
    ensures { result ≡ unprotect_then setup before bring_up }
{
    if before.is_unlocked() {
        return unprotected(setup, before, bring_up);
    }
    write_register(
        setup,
        opcode::REG_BLOCK_PROTECTION,
        0x00,
        RegisterFor::Unprotect { before, bring_up },
    )
}

// `Ok(before)`; bring_up keeps it and reads the configuration a last time.
#[tactic(auto, unfolding(crate::specs::Register::unprotected_then))]
fn unprotected(setup: Setup, before: Protection, bring_up: bool) -> Then
    ensures { result ≡ unprotected_then setup before bring_up }
{
    if bring_up {
        return go::ask(
            setup.with_protection(before),
            opcode::REG_CONFIGURATION,
            Asked::BroughtUp,
        );
    }
    go::end(setup, Answer::Protection(before))
}

/// with_config's end.
pub fn brought_up(setup: Setup, after: Configuration) -> Then
    ensures { result ≡ brought_up setup after }
{
    go::done(setup.with_after(after))
}

// ---- disable_quad

/// The register as it was read: it is written where quad mode is on.
#[tactic(auto, unfolding(crate::specs::Register::disable_quad))]
pub fn disable_quad(setup: Setup, before: Configuration) -> Then
    ensures { result ≡ disable_quad setup before }
{
    if before.quad_enabled() {
        let after = before.with_bits(Configuration::QUAD_ENABLE, 0);
        return write_register(
            setup,
            opcode::REG_CONFIGURATION,
            after.byte(),
            RegisterFor::DisableQuad,
        );
    }
    go::done(setup)
}

/// The register read back.
#[tactic(auto, unfolding(crate::specs::Register::quad_disabled))]
pub fn quad_disabled(setup: Setup, after: Configuration) -> Then
    ensures { result ≡ quad_disabled setup after }
{
    if after.quad_enabled() {
        return Err(FlashError::NotSupported);
    }
    go::done(setup)
}

// ---- the end of write_register's wait

/// What the register was written for.
#[tactic(auto, unfolding(crate::specs::Register::written_then))]
pub fn written(setup: Setup, why: RegisterFor) -> Then
    ensures { result ≡ written_then setup why }
{
    match why {
        RegisterFor::Call => go::done(setup),
        RegisterFor::Configure { before, bring_up } => go::ask(
            setup,
            opcode::REG_CONFIGURATION,
            Asked::Configured { before, bring_up },
        ),
        RegisterFor::DisableQuad => {
            go::ask(setup, opcode::REG_CONFIGURATION, Asked::QuadDisabled)
        }
        RegisterFor::Unprotect { before, bring_up } => unprotected(setup, before, bring_up),
    }
}
