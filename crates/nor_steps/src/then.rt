//! What follows a transfer: the machine's types at this part's own, which only their names tell from the other part's.
use machine::then;
use spi_nor::answer::Answer;
use spi_nor::phase::Phase;
use spi_nor::setup::Setup;

/// What follows a transfer.
pub type Then = then::Then<Setup, Phase, Answer>;

/// What a call is to a driver at rest.
pub type Opening = then::Opening<Setup, Phase, Answer>;
