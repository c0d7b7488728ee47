// The lines of what a driver gives: an action, or a call's end with its number, its values and how much was delivered.
ghost use Rattle.lines.specs.Writing.{Appends};
ghost use Rattle.flash_calls.specs.Answer.{answer_values};
ghost use Rattle.trace_words.specs.Print.{values_line};
ghost use Rattle.flash_words.specs.End.{ended_lines, failed_lines, given_lines};

use flash_calls::given::{Answer, Given};
use lines::text;
use lines::text::Writer;
use spi_flash::error::FlashError;
use spi_flash::loan::Takes;
use trace_words::{loan, print};

fn answer_values(out: &mut Writer, answer: Answer)
    ensures { Appends (values_line (answer_values answer)) out.old out.new }
{
    let n = answer.value_count();
    if n == 0 {
        return;
    }
    out.put(print::VALUES);
    // By number: an answer gives its values one by one, and says beside them why there is no list.
    for i in 0..n {
        out.field(answer.value(i));
    }
    out.put(text::NEWLINE)
}

#[tactic(auto, using(lines::proofs::Appending::appended_behind), unfolding(crate::specs::End::ended_lines))]
fn ended(out: &mut Writer, answer: Answer)
    ensures { Appends (ended_lines answer) out.old out.new }
{
    out.end(0);
    answer_values(out, answer)
}

#[tactic(auto, using(lines::proofs::Appending::appended_behind), unfolding(crate::specs::End::failed_lines))]
fn failed(out: &mut Writer, error: FlashError)
    ensures { Appends (failed_lines error) out.old out.new }
{
    out.end(u32::from(error.number()));
    print::error_values(out, error)
}

// The line of an action; or the lines of the call's end, of which n bytes were delivered. The memory is lent one by one, as C lends it.
#[tactic(auto, using(lines::proofs::Appending::appended_behind), unfolding(crate::specs::End::given_lines))]
pub fn given_lines<'a>(
    out: &mut Writer,
    given: Given,
    takes: Takes,
    n: usize,
    scratch: &'a [u8],
    room: &'a [u8],
)
    ensures { Appends (given_lines given takes n scratch.now room.now) out.old out.new }
{
    match given {
        Given::Act(action) => out.action(action, scratch, loan::data(takes, room)),
        Given::Ended(answer) => {
            ended(out, answer);
            print::count(out, takes, n)
        }
        Given::Failed(error) | Given::Refused(error) => {
            failed(out, error);
            print::count(out, takes, n)
        }
    }
}
