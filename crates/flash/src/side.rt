// What is the one driver's or the other's, as either's.
ghost use Rattle.std.specs.Prelude.{◌≡◌};
ghost use Rattle.machine.specs.declared.state.Flash as machine;
ghost use Rattle.flash.specs.declared.state.Flash.{Flash};
ghost use Rattle.flash_calls.specs.declared.given.Answer.{Answer};

use crate::state::Flash;
use flash_calls::given::Answer;
use machine::part::{FlashOf, Part};
use nand_driver::part::{Nand, SpiNandFlash};
use nor_driver::part::{Nor, SpiNorFlash};

// One trait and no two Froms: its ghost members name the case.
pub trait Side: Part {
    ghost flash_as: { machine.Flash Self.Setup Self.Phase → Flash };

    ghost answer_as: { Self.Answer → Answer };

    fn flash(flash: FlashOf<Self>) -> Flash
        ensures { result ≡ flash_as flash };

    fn answer(answer: Self::Answer) -> Answer
        ensures { result ≡ answer_as answer };
}

// The two instances differ in what they name.
impl Side for Nor {
    ghost flash_as = { Flash.Nor };

    ghost answer_as = { Answer.Nor };

    fn flash(flash: SpiNorFlash) -> Flash
        ensures { result ≡ Flash.Nor flash }
    {
        Flash::Nor(flash)
    }

    fn answer(answer: spi_nor::answer::Answer) -> Answer {
        Answer::Nor(answer)
    }
}

impl Side for Nand {
    ghost flash_as = { Flash.Nand };

    ghost answer_as = { Answer.Nand };

    fn flash(flash: SpiNandFlash) -> Flash
        ensures { result ≡ Flash.Nand flash }
    {
        Flash::Nand(flash)
    }

    fn answer(answer: spi_nand::answer::Answer) -> Answer {
        Answer::Nand(answer)
    }
}
