// Where a trace stands in its text.
ghost use Rattle.std.specs.Prelude.{◌≡◌};
ghost use Rattle.trace_words.specs.Place.{start_of, over_of, in_mode, read_to, started_of, gave_to, counted_of, end_mode};

use spi_flash::loan::Takes;

// What the next turn does. An enum and no closure: the program holds it between two turns.
#[derive(Clone, Copy)]
pub enum Mode {
    // It takes a line between two calls.
    Reading,
    // It prints what the driver has given.
    Giving,
    // It answers the action that is out.
    Awaiting,
    // It prints the caller's buffer from this place on.
    Showing(usize),
    // It prints that the next line is bad.
    Bad,
    // Nothing.
    Over,
}

// The two flags say nothing of whether another field is there: what the call takes and the position hold beside either.
#[derive(Clone, Copy)]
pub struct Place {
    // What the call takes, in the room.
    pub takes: Takes,
    // A call that is turned away has delivered nothing, whatever the driver's count says.
    pub begun: bool,
    // The position of the next line.
    pub at: usize,
    // A reply may stand there: a call or another reply came last.
    pub replies: bool,
    pub mode: Mode,
}

impl Place {
    // Before the first line.
    pub fn start() -> Place
        ensures { result ≡ start_of }
    {
        Place {
            takes: Takes::Nothing,
            begun: false,
            at: 0,
            replies: false,
            mode: Mode::Reading,
        }
    }

    #[tactic(auto, unfolding(crate::specs::Place::over_of))]
    pub fn is_over(self) -> bool
        ensures { result ≡ over_of self }
    {
        matches!(self.mode, Mode::Over)
    }

    pub fn in_mode(self, mode: Mode) -> Place
        ensures { result ≡ in_mode self mode }
    {
        Place { mode, ..self }
    }

    // A line is passed over.
    pub fn read_to(self, next: usize) -> Place
        ensures { result ≡ read_to self next }
    {
        Place { at: next, ..self }
    }

    // A call has been handed to the driver.
    pub fn started(takes: Takes, begun: bool, next: usize) -> Place
        ensures { result ≡ started_of takes begun next }
    {
        Place {
            takes,
            begun,
            at: next,
            replies: true,
            mode: Mode::Giving,
        }
    }

    // The driver has given something.
    pub fn gave(self, next: usize) -> Place
        ensures { result ≡ gave_to self next }
    {
        Place {
            at: next,
            replies: true,
            mode: Mode::Giving,
            ..self
        }
    }

    // How many bytes the call has delivered, by the driver's count.
    pub fn counted(self, delivered: usize) -> usize
        ensures { result ≡ counted_of self delivered }
    {
        if self.begun { delivered } else { 0 }
    }
}

// The buffer of a call is shown behind its end.
pub fn end_mode(takes: Takes) -> Mode
    ensures { result ≡ end_mode takes }
{
    match takes {
        Takes::Buffer(_) => Mode::Showing(0),
        Takes::Nothing | Takes::Data(_) => Mode::Reading,
    }
}
