//! The shapes of command bytes that the drivers send, and their place in the scratch.
ghost use Rattle.std.specs.Prelude.{◌≡◌, ◌≤◌, length};
ghost use Rattle.std.proofs.lemmas.List.Edits.{sets};
ghost use Rattle.qspi.specs.Command.{command_bytes, with_command};

/// The least scratch that a host lends.
pub const SCRATCH_LEN: usize = 264;

/// A command's bytes, by their shape: an opcode and what goes with it.
#[derive(Clone, Copy)]
pub enum Command {
    Opcode(u8),
    // A register, a value or one dummy byte.
    Byte { opcode: u8, byte: u8 },
    RegisterValue { opcode: u8, register: u8, value: u8 },
    // A row or an offset in three bytes, highest first.
    Address { opcode: u8, address: u32 },
    // A column in two bytes, highest first.
    Column { opcode: u8, column: u16 },
    ColumnDummy { opcode: u8, column: u16 },
    FourDummies(u8),
}

/// How many bytes the command has.
pub fn command_len(command: Command) -> usize
    ensures { result ≡ length (command_bytes command) }
{
    match command {
        Command::Opcode(_) => 1,
        Command::Byte { .. } => 2,
        Command::RegisterValue { .. } | Command::Column { .. } => 3,
        Command::Address { .. } | Command::ColumnDummy { .. } => 4,
        Command::FourDummies(_) => 5,
    }
}

fn put(bytes: &[u8], scratch: &mut [u8])
    requires { length bytes.now ≤ length scratch.old }
    ensures { scratch.new ≡ sets scratch.old 0 bytes.now }
{
    scratch[..bytes.len()].copy_from_slice(bytes);
}

/// Puts the command at the scratch's start. A scratch that is too short keeps every byte.
#[tactic(auto, unfolding(crate::specs::Command::with_command))]
pub fn put_command(command: Command, scratch: &mut [u8])
    ensures { scratch.new ≡ with_command command scratch.old }
{
    if scratch.len() < SCRATCH_LEN {
        return;
    }
    match command {
        Command::Opcode(opcode) => put(&[opcode], scratch),
        Command::Byte { opcode, byte } => put(&[opcode, byte], scratch),
        Command::RegisterValue {
            opcode,
            register,
            value,
        } => put(&[opcode, register, value], scratch),
        Command::Address { opcode, address } => {
            let [_, high, middle, low] = address.to_be_bytes();
            put(&[opcode, high, middle, low], scratch);
        }
        Command::Column { opcode, column } => {
            let [high, low] = column.to_be_bytes();
            put(&[opcode, high, low], scratch);
        }
        Command::ColumnDummy { opcode, column } => {
            let [high, low] = column.to_be_bytes();
            put(&[opcode, high, low, 0], scratch);
        }
        Command::FourDummies(opcode) => put(&[opcode, 0, 0, 0, 0], scratch),
    }
}
