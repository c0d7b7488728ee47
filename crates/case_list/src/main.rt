// Prints the traces of a list of cases, which must be the Rust's stored answers. A line with a mark ends each case. The NOR's cases come
// first and end with an empty one; the NAND's follow.
#![tactic(auto)]

use case_text::word;
use flash_calls::call::Kind;
use qspi::bytes;
use std::io;
use trace_case::case;

// The limits of this program; `trace` has its own. Its memory is arrays of fixed size: there is no heap.
const MARK: u8 = b'%';
// The mark and its line feed.
const MARK_LEN: usize = 2;

// No list has more cases.
const CASES_MOST: usize = 1000;

// No list is longer.
const INPUT: usize = 262144;

// No case takes or prints more.
const MOST: usize = 65536;

// Here and below the memory is lent as arrays, one by one as C does: only their length is asked for then.
fn print(
    rt: &impl Print,
    kind: Kind,
    text: &[u8],
    room: &mut [u8; MOST],
    reply: &mut [u8; MOST],
    out: &mut [u8; MOST],
) -> io::Result<()> {
    let n = case::traced(kind, text, room, reply, out);
    rt.write_all(bytes::delivered(out, n))?;
    rt.write_all(b"%\n")
}

// Prints the trace of one case.
fn show(rt: &impl Print, kind: Kind, text: &[u8]) -> io::Result<()> {
    let mut room = [0u8; MOST];
    let mut reply = [0u8; MOST];
    let mut out = [0u8; MOST];
    print(rt, kind, text, &mut room, &mut reply, &mut out)
}

// Behind an empty case the NAND's begin.
fn kind_behind(kind: Kind, len: usize) -> Kind {
    if len == 0 { Kind::Nand } else { kind }
}

// By hand: `split` at the mark would leave a line feed before each case but the first, and one piece more behind the last.
fn print_cases<R: Input + Print>(rt: &R, input: &mut [u8; INPUT]) -> io::Result<()> {
    let n = streams::read_full(rt, input)?;
    let mut left = bytes::delivered(input, n);
    let mut kind = Kind::Nor;
    for _ in 0..CASES_MOST {
        if left.is_empty() {
            return Ok(());
        }
        let len = word::before(left, MARK);
        show(rt, kind, bytes::delivered(left, len))?;
        kind = kind_behind(kind, len);
        left = word::behind(word::behind(left, len), MARK_LEN);
    }
    Ok(())
}

fn main(rt: HostRuntime) -> io::Result<()> {
    let mut input = [0u8; INPUT];
    print_cases(&rt, &mut input)
}
