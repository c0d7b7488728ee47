// What a call lends: its buffer or its data, at the beginning of the room.
ghost use Rattle.std.specs.Prelude.{◌≡◌};
ghost use Rattle.trace_words.specs.Loan.{buffer_of, data_of, filled_of, laid_of};

use case_text::word;
use qspi::bytes;
use spi_flash::loan::Takes;

// What the caller's buffer holds before a call.
const FILL: u8 = 0xCC;

// This and the next each ask for another variant. What the call takes and the room stay two: the one is held from turn to turn in a Copy
// value, the other is lent at each.
pub fn buffer(takes: Takes, room: &[u8]) -> &[u8]
    ensures { result.now ≡ buffer_of takes room.now }
{
    match takes {
        Takes::Buffer(n) => bytes::delivered(room, n),
        Takes::Nothing | Takes::Data(_) => bytes::delivered(room, 0),
    }
}

pub fn data(takes: Takes, room: &[u8]) -> &[u8]
    ensures { result.now ≡ data_of takes room.now }
{
    match takes {
        Takes::Data(n) => bytes::delivered(room, n),
        Takes::Nothing | Takes::Buffer(_) => bytes::delivered(room, 0),
    }
}

// A room that is too short keeps every byte.
fn fill(room: &mut [u8], n: usize)
    ensures { room.new ≡ filled_of n room.old }
{
    if n <= room.len() {
        room[..n].fill(FILL);
    }
}

// Lays what the line of a call lends into the room.
pub fn lay(takes: Takes, line: &[u8], room: &mut [u8])
    ensures { room.new ≡ laid_of takes line.now room.old }
{
    match takes {
        Takes::Nothing => {}
        Takes::Buffer(n) => {
            fill(room, n);
        }
        Takes::Data(_) => {
            word::decode(word::behind(word::last(line), 1), room);
        }
    }
}
