//! The bus under both flash drivers: what a step gives out, which replies fit, commands, and the bytes behind them. And one chip-select
//! frame: a transfer given out action by action, and what each reply does to it, with what a host lends for it.
#![tactic(auto)]

ghost use Rattle.qspi.specs.Address.{AddressBytes};
ghost use Rattle.qspi.specs.Numbers.{Numbers};
ghost use Rattle.qspi.specs.ShownBytes.{ShownBytes, ScratchKept};

pub mod bus;
pub mod bytes;
pub mod command;
pub mod exchange;
pub mod frame;
pub mod loan;
pub mod transfer;

/// An address that its bytes can hold is sent whole: its bytes, highest first, are as many as the command has and give the address back.
pub fn address_bytes()
    ensures { AddressBytes }
{}

/// The number of a reply of up to eight bytes is the number that its bytes are, highest first, and each number of so many bytes is one.
pub fn reply_numbers()
    ensures { Numbers }
{}

/// What an action shows on the bus are the transfer's own bytes, whatever a scratch that is long enough held before.
pub fn shown_bytes()
    ensures { ShownBytes }
{}

/// A step changes no place of the scratch but those of the command, the filler or the marker that it puts there.
pub fn scratch_kept()
    ensures { ScratchKept }
{}
