//! The NOR's ids, capacity codes, geometries, waits and default settings. Each part prints its own types, and what both print is in `line`.
use crate::line;
use spi_nor::config::{NOR_READ_SIZE, NorDeviceInfo, NorJedecId, NorQuadConfig, SpiNorConfig};
use spi_nor::opcode;
use spi_nor::opcode::Operation;
use std::io;

// The known ids, then some that fall back: on a capacity code, and beside the codes.
pub(crate) fn ids(rt: &impl Print) -> io::Result<()> {
    for (manufacturer, memory_type, capacity) in [
        (0xEF, 0x40, 0x17),
        (0xEF, 0x40, 0x18),
        (0xC8, 0x40, 0x18),
        (0xC8, 0x40, 0x17),
        (0xC2, 0x20, 0x16),
        (0xC2, 0x20, 0x10),
        (0xC2, 0x20, 0x0F),
        (0xC2, 0x20, 0x19),
        (0x00, 0x00, 0x00),
    ] {
        id(
            rt,
            NorJedecId {
                manufacturer,
                memory_type,
                capacity,
            },
        )?;
    }
    Ok(())
}

fn id(rt: &impl Print, id: NorJedecId) -> io::Result<()> {
    line::name(rt, "nor_id")?;
    line::byte(rt, id.manufacturer)?;
    line::byte(rt, id.memory_type)?;
    line::byte(rt, id.capacity)?;
    device(rt, NorDeviceInfo::from_jedec(id))?;
    line::end(rt)
}

fn device(rt: &impl Print, d: NorDeviceInfo) -> io::Result<()> {
    line::size(rt, d.capacity)?;
    line::size(rt, d.sector_size)?;
    line::size(rt, d.block_size)?;
    line::size(rt, d.page_size)
}

pub(crate) fn codes(rt: &impl Print) -> io::Result<()> {
    for capacity in [0x0F, 0x10, 0x18, 0x19] {
        code(rt, capacity)?;
    }
    Ok(())
}

fn code(rt: &impl Print, capacity: u8) -> io::Result<()> {
    let id = NorJedecId {
        manufacturer: 0xEF,
        memory_type: 0x40,
        capacity,
    };
    line::name(rt, "nor_code")?;
    line::byte(rt, capacity)?;
    match id.capacity_bytes() {
        Some(n) => line::size(rt, n)?,
        None => line::word(rt, "unknown")?,
    }
    line::end(rt)
}

pub(crate) fn waits(rt: &impl Print) -> io::Result<()> {
    line::wait(rt, "nor_program", opcode::timings(Operation::PageProgram))?;
    line::wait(rt, "nor_sector", opcode::timings(Operation::SectorErase))?;
    line::wait(rt, "nor_block", opcode::timings(Operation::BlockErase))?;
    line::wait(rt, "nor_status", opcode::timings(Operation::StatusWrite))
}

// On each bound, and one past it.
pub(crate) fn bounds(rt: &impl Print) -> io::Result<()> {
    for (capacity, sector_size, block_size, page_size) in [
        (0, 4_096, 65_536, 256),
        (16_777_216, 4_096, 65_536, 256),
        (16_777_217, 4_096, 65_536, 256),
        (16_777_216, 4_096, 65_536, 1),
        (16_777_216, 4_096, 65_536, 0),
        (16_777_216, 4_096, 65_536, 65_536),
        (16_777_216, 4_096, 65_536, 65_537),
        (16_777_216, 1, 65_536, 256),
        (16_777_216, 0, 65_536, 256),
        (16_777_216, 4_096, 4_096, 256),
        (16_777_216, 4_096, 0, 256),
        (16_777_216, 4_096, 65_537, 256),
        (16_777_216, 1, 16_777_216, 256),
        (16_777_216, 1, 16_777_217, 256),
    ] {
        bound(
            rt,
            NorDeviceInfo {
                capacity,
                sector_size,
                block_size,
                page_size,
            },
        )?;
    }
    Ok(())
}

fn bound(rt: &impl Print, d: NorDeviceInfo) -> io::Result<()> {
    line::name(rt, "nor_in_bounds")?;
    device(rt, d)?;
    line::answer(rt, d.in_bounds())?;
    line::end(rt)
}

// The least read, then what the Rust's `default` functions give.
pub(crate) fn settings(rt: &impl Print) -> io::Result<()> {
    line::name(rt, "nor_read_size")?;
    line::size(rt, NOR_READ_SIZE)?;
    line::end(rt)?;
    config(rt, SpiNorConfig::default())?;
    quad(rt, NorQuadConfig::default())
}

fn config(rt: &impl Print, c: SpiNorConfig) -> io::Result<()> {
    line::name(rt, "nor_default")?;
    line::setting(rt, c.quad.is_some())?;
    line::setting(rt, c.device.is_some())?;
    line::end(rt)
}

fn quad(rt: &impl Print, q: NorQuadConfig) -> io::Result<()> {
    line::name(rt, "nor_default_quad")?;
    line::decimal(rt, u64::from(q.tclqv_ns))?;
    line::byte(rt, q.read_opcode)?;
    line::byte(rt, q.page_program_opcode)?;
    line::decimal(rt, u64::from(q.dummy_margin))?;
    line::end(rt)
}
