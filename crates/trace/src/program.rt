// The case on standard input, and its trace on standard output.
use flash_calls::call::Kind;
use lines::text::Writer;
use qspi::bytes;
use qspi::command::SCRATCH_LEN;
use std::io;
use trace_case::advance;
use trace_words::budget;

// Arrays of fixed size below: there is no heap. As many as the C functions take, one by one.
// One byte more than the longest text, to tell a longer one.
const INPUT: usize = 4194305;

// The longest buffer of a call.
const ROOM: usize = 3145728;

// No action takes a longer reply.
const REPLY: usize = 65536;

// No turn prints more than the line of an action with 65,535 bytes, the longest cache of a NAND: three characters for each, those of
// its command, and the line feed.
const OUT: usize = 196700;

// Each turn is printed before the next one, from a writer of its own; `trace_case::case` puts all into one.
fn print_case(
    rt: &impl Print,
    kind: Kind,
    text: &[u8],
    room: &mut [u8],
    reply: &mut [u8],
    out: &mut [u8],
) -> io::Result<()> {
    let mut scratch = [0u8; SCRATCH_LEN];
    let mut trace = advance::start(kind);
    let most = budget::budget(text.len(), room.len());
    for _ in 0..most {
        let mut written = Writer::new(out);
        trace = advance::advance(trace, text, &mut scratch, room, reply, &mut written);
        rt.write_all(written.written())?;
        if trace.place.is_over() {
            return Ok(());
        }
    }
    Ok(())
}

// The memory is lent as arrays: of a long one only the length is asked for then.
fn run<R: Input + Print>(
    rt: &R,
    kind: Kind,
    input: &mut [u8; INPUT],
    room: &mut [u8; ROOM],
    reply: &mut [u8; REPLY],
    out: &mut [u8; OUT],
) -> io::Result<()> {
    let n = streams::read_full(rt, input)?;
    print_case(rt, kind, bytes::delivered(input, n), room, reply, out)
}

// Without an ensures: what is printed no clause can say, since the library's own writes have none. The programs' stored output holds it.
pub fn trace<R: Input + Print>(rt: &R, kind: Kind) -> io::Result<()> {
    let mut input = [0u8; INPUT];
    let mut room = [0u8; ROOM];
    let mut reply = [0u8; REPLY];
    let mut out = [0u8; OUT];
    run(rt, kind, &mut input, &mut room, &mut reply, &mut out)
}
