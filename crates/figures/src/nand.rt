//! The NAND's ids, geometries, waits and default settings. Each part prints its own types, and what both print is in `line`.
use crate::line;
use spi_nand::config::{NandGeometry, NandJedecId, NandQuadConfig, SpiNandConfig};
use spi_nand::opcode;
use spi_nand::opcode::Operation;
use std::io;

// The known ids, then some that fall back: a W25N02KV's by its datasheet, another maker's, and zeros.
pub(crate) fn ids(rt: &impl Print) -> io::Result<()> {
    for bytes in [
        [0xEF, 0xAA, 0x21],
        [0xEF, 0xAB, 0x21],
        [0xC8, 0xD1, 0x48],
        [0xC8, 0xF1, 0x48],
        [0xEF, 0xAA, 0x22],
        [0xC8, 0xAA, 0x21],
        [0x00, 0x00, 0x00],
    ] {
        id(rt, bytes)?;
    }
    Ok(())
}

fn id(rt: &impl Print, bytes: [u8; 3]) -> io::Result<()> {
    line::name(rt, "nand_id")?;
    for b in bytes {
        line::byte(rt, b)?;
    }
    geometry(rt, NandGeometry::from_jedec(NandJedecId::from_bytes(bytes)))?;
    line::end(rt)
}

fn geometry(rt: &impl Print, g: NandGeometry) -> io::Result<()> {
    line::size(rt, g.page_size)?;
    line::size(rt, g.oob_size)?;
    line::size(rt, g.pages_per_block)?;
    line::size(rt, g.block_count)
}

pub(crate) fn sizes(rt: &impl Print) -> io::Result<()> {
    products(rt, "w25n01gv", NandGeometry::W25N01GV)?;
    products(rt, "w25n02kv", NandGeometry::W25N02KV)
}

fn products(rt: &impl Print, name: &str, g: NandGeometry) -> io::Result<()> {
    line::name(rt, name)?;
    line::size(rt, g.block_size())?;
    line::size(rt, g.page_count())?;
    line::size(rt, g.capacity())?;
    line::end(rt)
}

pub(crate) fn waits(rt: &impl Print) -> io::Result<()> {
    line::wait(rt, "nand_reset", opcode::timings(Operation::Reset))?;
    line::wait(rt, "nand_page_load", opcode::timings(Operation::PageRead))?;
    line::wait(rt, "nand_program", opcode::timings(Operation::Program))?;
    line::wait(rt, "nand_erase", opcode::timings(Operation::Erase))?;
    line::wait(
        rt,
        "nand_register",
        opcode::timings(Operation::WriteRegister),
    )
}

// On each bound, and one past it.
pub(crate) fn bounds(rt: &impl Print) -> io::Result<()> {
    for (page_size, oob_size, pages_per_block, block_count) in [
        (1, 0, 1, 1),
        (0, 0, 1, 1),
        (1, 0, 0, 1),
        (1, 0, 1, 0),
        (65_535, 0, 1, 1),
        (65_536, 0, 1, 1),
        (1, 65_534, 1, 1),
        (1, 65_535, 1, 1),
        (1, 0, 4_096, 4_096),
        (1, 0, 16_777_216, 1),
        (1, 0, 1, 16_777_216),
        (1, 0, 1, 16_777_217),
        (1, 0, 16_777_217, 1),
        (1, 0, usize::MAX, usize::MAX),
    ] {
        bound(
            rt,
            NandGeometry {
                page_size,
                oob_size,
                pages_per_block,
                block_count,
            },
        )?;
    }
    Ok(())
}

fn bound(rt: &impl Print, g: NandGeometry) -> io::Result<()> {
    line::name(rt, "nand_in_bounds")?;
    geometry(rt, g)?;
    line::answer(rt, g.in_bounds())?;
    line::end(rt)
}

// What the Rust's `default` functions give.
pub(crate) fn settings(rt: &impl Print) -> io::Result<()> {
    config(rt, SpiNandConfig::default())?;
    quad(rt, NandQuadConfig::default())
}

fn config(rt: &impl Print, c: SpiNandConfig) -> io::Result<()> {
    line::name(rt, "nand_default")?;
    line::setting(rt, c.quad.is_some())?;
    line::setting(rt, c.geometry.is_some())?;
    line::end(rt)
}

fn quad(rt: &impl Print, q: NandQuadConfig) -> io::Result<()> {
    line::name(rt, "nand_default_quad")?;
    line::decimal(rt, u64::from(q.tclqv_ns))?;
    line::byte(rt, q.read_cache_opcode)?;
    line::byte(rt, q.load_program_opcode)?;
    line::decimal(rt, u64::from(q.dummy_margin))?;
    line::end(rt)
}
