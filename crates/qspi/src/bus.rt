//! What a driver gives out and what the host hands back: in place of the Rust's trait QuadSpiBus (qspi/bus.rs).
ghost use Rattle.std.specs.Prelude.{◌≡◌};
ghost use Rattle.qspi.specs.Bus.{awaits_of, fits_of, on_bus};

/// The bytes of an action by place and length, in the scratch or in the caller's data: an action is held between two steps, and what it
/// lies in is lent anew at each.
#[derive(Clone, Copy)]
pub enum Part {
    Scratch { from: usize, len: usize },
    Data { from: usize, len: usize },
}

/// What a step gives out for the host to perform.
#[derive(Clone, Copy)]
pub enum Action {
    SelectLow,
    SelectHigh,
    Write(Part),
    Read(usize),
    QuadRead {
        command: Part,
        tclqv_ns: u32,
        margin: u8,
        len: usize,
    },
    QuadWrite {
        command: Part,
        payload: Part,
    },
    Delay(u32),
}

/// The code of a failed bus call, which is the host's own.
#[derive(Clone, Copy)]
pub struct BusError(pub u8);

/// The kind of a reply. The bytes of a Data reply are lent beside it: as a borrow inside, they would put a reference in place of a list
/// into each definition over replies.
#[derive(Clone, Copy)]
pub enum Reply {
    Done,
    Data,
    Error(u8),
}

/// What an action awaits. Not an Option: each variant names which replies fit.
#[derive(Clone, Copy)]
pub enum Awaits {
    Done,
    DoneOrError,
    BytesOrError(usize),
}

fn awaited(action: Action) -> Awaits
    ensures { result ≡ awaits_of action }
{
    match action {
        Action::SelectLow | Action::SelectHigh | Action::Delay(_) => Awaits::Done,
        Action::Write(_) | Action::QuadWrite { .. } => Awaits::DoneOrError,
        Action::Read(len) | Action::QuadRead { len, .. } => Awaits::BytesOrError(len),
    }
}

/// Whether a reply with n bytes answers an action.
#[tactic(auto, unfolding(crate::specs::Bus::fits_of))]
pub fn fits(action: Action, reply: Reply, n: usize) -> bool
    ensures { result ≡ fits_of action reply n }
{
    match (awaited(action), reply) {
        (Awaits::Done | Awaits::DoneOrError, Reply::Done) => true,
        (Awaits::DoneOrError | Awaits::BytesOrError(_), Reply::Error(_)) => true,
        (Awaits::BytesOrError(m), Reply::Data) => n == m,
        _ => false,
    }
}

/// Whether the bus answers the action, with a reply of its own: select and delay are the host's.
pub fn on_bus(action: Action) -> bool
    ensures { result ≡ on_bus action }
{
    !matches!(
        action,
        Action::SelectLow | Action::SelectHigh | Action::Delay(_)
    )
}
