// Either driver's state, and what a step comes to. A sum and no dyn or type parameter: the host holds it by value, and what a trace
// promises is said of a Kind.
use flash_calls::given::Given;
use nand_driver::part::SpiNandFlash;
use nor_driver::part::SpiNorFlash;

#[derive(Clone, Copy)]
pub enum Flash {
    Nor(SpiNorFlash),
    Nand(SpiNandFlash),
}

#[derive(Clone, Copy)]
pub struct Stepped {
    pub flash: Flash,
    pub given: Given,
    // How many bytes the last call begun has put into the caller's buffer, which is lent anew at each step: the driver's own count, out of
    // whichever it is.
    pub delivered: usize,
}
