// Bytes in from standard input.
#![tactic(auto)]

ghost use Rattle.std.specs.Prelude.{◌≤◌, length, IfOk};

use std::io;
use std::io::Read;

// Reads until the buffer is full or the input ends, and gives how many bytes were put at its start: a count, as read of std gives.
pub fn read_full(rt: &impl Input, buf: &mut [u8]) -> io::Result<usize>
    ensures { IfOk result (λ n. n ≤ length buf.new) }
{
    let mut reader = rt.reader();
    let mut done = 0;
    // A read may give fewer bytes than asked for. Of std read_to_end takes a Vec, read_exact fails at an earlier end, and copy goes
    // through memory of its own and bounds its count only where it is known what is left to read.
    while done < buf.len() {
        let n = reader.read(&mut buf[done..])?;
        if n == 0 {
            break;
        }
        done += n;
    }
    Ok(done)
}
