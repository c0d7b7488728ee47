// What the line of a call asks for, and what a turn asks of the driver.
use flash_calls::call::Call;
use qspi::bus::Reply;
use spi_flash::error::FlashError;
use spi_flash::loan::Takes;

// A call, and what it lends.
#[derive(Clone, Copy)]
pub struct Asked {
    pub call: Call,
    pub takes: Takes,
}

// Nothing is one of four arms that every reader takes apart: an Option around the other three would only add a match.
// And an enum: no closure may be handed out. n is a count and no slice, which would keep the reply's memory lent.
#[derive(Clone, Copy)]
pub enum Ask {
    Nothing,
    // A call, whose loan is laid into the room.
    Begin(Asked),
    // A reply to the action that is out; its bytes are the first n of the reply's memory.
    Answer {
        reply: Reply,
        n: usize,
        takes: Takes,
    },
    // The call stays unfinished.
    Stop(FlashError),
}
