// Either driver's calls. A sum and no dyn or type parameter: it is held by value, and what a trace promises is said of a Kind.
#[derive(Clone, Copy)]
pub enum Kind {
    Nor,
    Nand,
}

#[derive(Clone, Copy)]
pub enum Call {
    Nor(spi_nor::call::Call),
    Nand(spi_nand::call::Call),
}
