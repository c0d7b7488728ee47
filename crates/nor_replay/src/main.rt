// Replays the construction of a single-line NOR over the tape on standard input, and prints its actions.
#![tactic(auto)]

use lines::text::Writer;
use nor_driver::part::Nor;
use nor_tape::program;
use qspi::bytes;
use qspi::command::SCRATCH_LEN;
use qspi::loan::Loan;
use std::io;
use tape::replay;

// A construction without quad mode gives out five actions; the line of the end is the sixth.
const LINES_MOST: u32 = 6;

// One byte more than the longest tape, to tell a longer one.
const INPUT_LEN: usize = 65537;

// No line of a construction is longer.
const LINE_MOST: usize = 64;

fn main(rt: HostRuntime) -> io::Result<()> {
    // Arrays of fixed size, as there is no heap.
    let mut input = [0u8; INPUT_LEN];
    let n = streams::read_full(&rt, &mut input)?;
    let tape = bytes::delivered(&input, n);
    let mut lent = Loan {
        scratch: &mut [0u8; SCRATCH_LEN],
        buffer: &mut [],
        data: &[],
    };
    let mut out = [0u8; LINE_MOST];
    let mut now = program::begin(tape, lent.scratch);
    for _ in 0..LINES_MOST {
        let mut line = Writer::new(&mut out);
        program::line(now, lent.scratch, &mut line);
        rt.write_all(line.written())?;
        if program::over(now) {
            return Ok(());
        }
        now = replay::advance::<Nor>(now, tape, &mut lent);
    }
    Ok(())
}
