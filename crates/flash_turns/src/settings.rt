// The settings for the next `new`. They tell whose words a case is written in: a sum, as the Flash is.
ghost use Rattle.std.specs.Prelude.{◌≡◌};
ghost use Rattle.flash_turns.specs.Settings.{none_of, settled_by};

use case_text::line::Line;
use flash_calls::call::Kind;
use flash_words::words;
use spi_nand::config::SpiNandConfig;
use spi_nor::config::SpiNorConfig;

#[derive(Clone, Copy)]
pub enum Settings {
    Nor(SpiNorConfig),
    Nand(SpiNandConfig),
}

// Before the first line.
pub fn none(kind: Kind) -> Settings
    ensures { result ≡ none_of kind }
{
    match kind {
        Kind::Nor => Settings::Nor(SpiNorConfig::single()),
        Kind::Nand => Settings::Nand(SpiNandConfig::single()),
    }
}

// What a line between two calls makes of them.
pub fn after(settings: Settings, line: Line) -> Settings
    ensures { result ≡ settled_by settings line }
{
    match settings {
        Settings::Nor(config) => Settings::Nor(words::config_at::<flash_words::nor::Name>(
            config, line,
        )),
        Settings::Nand(config) => Settings::Nand(words::config_at::<flash_words::nand::Name>(
            config, line,
        )),
    }
}
