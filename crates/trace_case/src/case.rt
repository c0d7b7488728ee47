// The trace of a whole case.
ghost use Rattle.std.specs.Prelude.{◌≡◌};
ghost use Rattle.lines.specs.Text.{text_of};
ghost use Rattle.lines.specs.Writing.{text_in, SameRoom};
ghost use Rattle.trace_case.specs.Case.{case_behind, case_of};

use crate::advance;
use flash_calls::call::Kind;
use lines::text::Writer;
use qspi::command::SCRATCH_LEN;
use trace_words::budget;

// Turn after turn until the trace is over. Room, reply and out stay three parameters: they are the C functions' own.
fn turns(kind: Kind, text: &[u8], room: &mut [u8], reply: &mut [u8], out: &mut Writer)
    ensures same { SameRoom out.old out.new }
    ensures text_after { text_in out.new ≡ (case_behind kind text.now room.old reply.old (text_in out.old)).text }
    ensures room_after { room.new ≡ (case_behind kind text.now room.old reply.old (text_in out.old)).room }
    ensures reply_after { reply.new ≡ (case_behind kind text.now room.old reply.old (text_in out.old)).reply }
{
    // The least scratch that a driver takes, of fixed size as all memory here.
    let mut scratch = [0u8; SCRATCH_LEN];
    let mut trace = advance::start(kind);
    let most = budget::budget(text.len(), room.len());
    for _ in 0..most {
        if trace.place.is_over() {
            return;
        }
        trace = advance::advance(trace, text, &mut scratch, room, reply, out);
    }
}

// Puts the trace of a case into out and gives its length, which is C's result. What has no place there is cut. The room is the memory for
// a call's buffer or data, the reply that for the bytes of a data reply.
pub fn traced(kind: Kind, text: &[u8], room: &mut [u8], reply: &mut [u8], out: &mut [u8]) -> usize
    ensures result_after { text_of out.new result ≡ (case_of kind text.now room.old reply.old out.old).text }
    ensures room_after { room.new ≡ (case_of kind text.now room.old reply.old out.old).room }
    ensures reply_after { reply.new ≡ (case_of kind text.now room.old reply.old out.old).reply }
{
    let mut written = Writer::new(out);
    turns(kind, text, room, reply, &mut written);
    written.len
}
