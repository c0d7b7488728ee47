//! Pages: loads, programs, and the two together.
ghost use Rattle.std.specs.Prelude.{◌≡◌, ltb};
ghost use Rattle.spi_flash.specs.Range.{checked};
ghost use Rattle.spi_nand.specs.Config.{page_count_of};
ghost use Rattle.nand_steps.specs.Page.{page_read_then, load_then, is_bad_then, loaded_then, judged_then, accepted_then, program_then, programmed_then, read_page_then, write_page_then};

use crate::then::Then;
use crate::{cache, go};
use spi_flash::error::FlashError;
use spi_flash::range;
use spi_nand::command;
use spi_nand::config::NandGeometry;
use spi_nand::phase::{EnableFor, LoadFor, MarkerFor, ProgramFor, Task};
use spi_nand::setup::Setup;
use spi_nand::status::{EccVerdict, Status};

fn check_page(geometry: NandGeometry, page: usize) -> Result<(), FlashError>
    ensures { result ≡ checked (ltb page (page_count_of geometry)) }
{
    range::checked(page < geometry.page_count())
}

// ---- loads

/// page_read, and its part in calls that load a page.
#[tactic(auto, unfolding(crate::specs::Page::page_read_then))]
pub fn page_read(setup: Setup, page: usize, why: LoadFor) -> Then
    ensures { result ≡ page_read_then setup page why }
{
    check_page(setup.geometry, page)?;
    load(setup, page, why)
}

// load_page
fn load(setup: Setup, page: usize, why: LoadFor) -> Then
    ensures { result ≡ load_then setup page why }
{
    go::send(setup, command::page_read_command(page), Task::Load(why))
}

/// The page is loaded before the cache's range is tested, as in the Rust.
#[tactic(auto, unfolding(crate::specs::Page::is_bad_then))]
pub fn is_bad_block(setup: Setup, block: usize, why: MarkerFor) -> Then
    ensures { result ≡ is_bad_then setup block why }
{
    let geometry = setup.geometry;
    if block >= geometry.block_count {
        return Err(FlashError::OutOfBounds);
    }
    load(setup, geometry.first_page(block), LoadFor::Marker(why))
}

/// The end of a load's wait: its verdict is that of the next status.
#[tactic(auto, unfolding(crate::specs::Page::loaded_then))]
pub fn loaded(setup: Setup, why: LoadFor) -> Then
    ensures { result ≡ loaded_then setup why }
{
    if why.asks_verdict() {
        return go::verdict(setup, Task::Load(why));
    }
    accepted(setup, why)
}

/// Only verdict 2 is refused.
#[tactic(auto, unfolding(crate::specs::Page::judged_then))]
pub fn judged(setup: Setup, why: LoadFor, status: Status) -> Then
    ensures { result ≡ judged_then setup why status }
{
    if matches!(status.ecc_verdict(), EccVerdict::Uncorrectable) {
        return Err(FlashError::UncorrectableEcc);
    }
    accepted(setup, why)
}

// What is done with a page that is taken.
#[tactic(auto, unfolding(crate::specs::Page::accepted_then))]
fn accepted(setup: Setup, why: LoadFor) -> Then
    ensures { result ≡ accepted_then setup why }
{
    match why {
        LoadFor::PageRead => go::done(setup),
        LoadFor::ReadPage => cache::read_whole(setup),
        LoadFor::Verify => cache::read_back(setup),
        LoadFor::Marker(why) => cache::read_marker(setup, why),
        LoadFor::Read(span) => cache::read_piece(setup, span),
    }
}

// ---- programs

/// program_execute
#[tactic(auto, unfolding(crate::specs::Page::program_then))]
pub fn program(setup: Setup, page: usize, why: ProgramFor) -> Then
    ensures { result ≡ program_then setup page why }
{
    check_page(setup.geometry, page)?;
    go::send(
        setup,
        command::program_execute_command(page),
        Task::Program(why),
    )
}

/// A program's verdict, and what the program was for.
#[tactic(auto, unfolding(crate::specs::Page::programmed_then))]
pub fn programmed(setup: Setup, why: ProgramFor, status: Status) -> Then
    ensures { result ≡ programmed_then setup why status }
{
    if status.program_failed() {
        return Err(FlashError::ProgramFailed);
    }
    match why {
        ProgramFor::Call => go::done(setup),
        ProgramFor::WritePage(page) => page_read(setup, page, LoadFor::Verify),
        ProgramFor::MarkBad(block) => is_bad_block(setup, block, MarkerFor::Confirm),
    }
}

// ---- whole pages: the length before the page

/// read_page
#[tactic(auto, unfolding(crate::specs::Page::read_page_then))]
pub fn read_page(setup: Setup, page: usize, len: usize) -> Then
    ensures { result ≡ read_page_then setup page len }
{
    if len != setup.geometry.page_size {
        return Err(FlashError::InvalidLength);
    }
    page_read(setup, page, LoadFor::ReadPage)
}

/// write_page
#[tactic(auto, unfolding(crate::specs::Page::write_page_then))]
pub fn write_page(setup: Setup, page: usize, len: usize) -> Then
    ensures { result ≡ write_page_then setup page len }
{
    if len != setup.geometry.page_size {
        return Err(FlashError::InvalidLength);
    }
    check_page(setup.geometry, page)?;
    go::enable(setup, EnableFor::WritePage(page))
}
