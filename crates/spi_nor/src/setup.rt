//! What a call works on.
use crate::config::{NorDeviceInfo, NorJedecId, SpiNorConfig};

/// What the Rust's struct holds beside its bus.
#[derive(Clone, Copy)]
pub struct Setup {
    pub config: SpiNorConfig,
    pub device: NorDeviceInfo,
    pub id: NorJedecId,
}
