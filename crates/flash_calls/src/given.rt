// What a step gives, and the values of an answer as its driver has them.
ghost use Rattle.std.specs.Prelude.{◌≡◌, get_or, length};
ghost use Rattle.flash_calls.specs.Answer.{answer_values};

use machine::state;

// What a call that succeeds answers.
#[derive(Clone, Copy)]
pub enum Answer {
    Nor(spi_nor::answer::Answer),
    Nand(spi_nand::answer::Answer),
}

pub type Given = state::Given<Answer>;

impl Answer {
    pub fn value_count(self) -> usize
        ensures { result ≡ length (answer_values self) }
    {
        match self {
            Answer::Nor(answer) => answer.value_count(),
            Answer::Nand(answer) => answer.value_count(),
        }
    }

    // 0 past the last value.
    pub fn value(self, i: usize) -> u64
        ensures { result ≡ get_or (answer_values self) i 0 }
    {
        match self {
            Answer::Nor(answer) => answer.value(i),
            Answer::Nand(answer) => answer.value(i),
        }
    }
}
