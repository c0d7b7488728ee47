//! What a call works on.
ghost use Rattle.std.specs.Prelude.{◌≡◌};
ghost use Rattle.spi_nand.specs.Setup.{identified_as, with_before, with_protection, with_after};

use crate::config::{NandGeometry, NandInit, NandJedecId, SpiNandConfig};
use crate::status::{Configuration, Protection};

/// What the Rust's struct holds beside its bus.
#[derive(Clone, Copy)]
pub struct Setup {
    pub config: SpiNandConfig,
    pub geometry: NandGeometry,
    pub init: NandInit,
}

// bring_up puts down what it finds as it goes. A function a field, as a function takes no field's name.
impl Setup {
    /// With the geometry and the id that were found.
    pub fn identified_as(self, geometry: NandGeometry, id: NandJedecId) -> Setup
        ensures { result ≡ identified_as self geometry id }
    {
        Setup {
            geometry,
            init: NandInit { id, ..self.init },
            ..self
        }
    }

    /// With the configuration register as it was found.
    pub fn with_before(self, before: Configuration) -> Setup
        ensures { result ≡ with_before self before }
    {
        Setup {
            init: NandInit {
                configuration_before: before,
                ..self.init
            },
            ..self
        }
    }

    /// With the protection register as it was found.
    pub fn with_protection(self, protection: Protection) -> Setup
        ensures { result ≡ with_protection self protection }
    {
        Setup {
            init: NandInit {
                protection_before: protection,
                ..self.init
            },
            ..self
        }
    }

    /// With the configuration register as it was left.
    pub fn with_after(self, after: Configuration) -> Setup
        ensures { result ≡ with_after self after }
    {
        Setup {
            init: NandInit {
                configuration_after: after,
                ..self.init
            },
            ..self
        }
    }
}
