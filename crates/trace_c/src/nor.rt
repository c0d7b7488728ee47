// The NOR's trace as a function of C. A name of C's is no generic one, so each driver has its own. Each memory is a parameter of C's.
ghost use Rattle.std.specs.Prelude.{◌≡◌};
ghost use Rattle.lines.specs.Text.{text_of};
ghost use Rattle.flash_calls.specs.declared.call.Kind.{Kind};
ghost use Rattle.trace_case.specs.Case.{case_of};

use flash_calls::call::Kind;
use trace_case::case;

// Puts the trace of a case into out and gives its length. What has no place there is cut. The room is the memory for a call's
// buffer or data, the reply that for the bytes of a data reply.
#[unsafe(no_mangle)]
pub extern "C" fn nor_trace_case(
    text: &[u8],
    room: &mut [u8],
    reply: &mut [u8],
    out: &mut [u8],
) -> usize
    ensures result_after { text_of out.new result ≡ (case_of Kind.Nor text.now room.old reply.old out.old).text }
    ensures room_after { room.new ≡ (case_of Kind.Nor text.now room.old reply.old out.old).room }
    ensures reply_after { reply.new ≡ (case_of Kind.Nor text.now room.old reply.old out.old).reply }
{
    case::traced(Kind::Nor, text, room, reply, out)
}
