//! What a host lends at each step of a call.
ghost use Rattle.std.specs.Prelude.{◌≡◌, length};
ghost use Rattle.qspi.specs.Loan.{lengths_of, lengths_at};

/// The scratch, the buffer that a call fills, and the data that a call is given.
#[derive(Drop)]
pub struct Loan<'a> {
    pub scratch: &'a mut [u8],
    pub buffer: &'a mut [u8],
    pub data: &'a [u8],
}

/// How long each of them is.
#[derive(Clone, Copy)]
pub struct Lengths {
    pub scratch: usize,
    pub buffer: usize,
    pub data: usize,
}

impl Lengths {
    /// A scratch and nothing beside it.
    pub fn of_scratch(scratch: &[u8]) -> Lengths
        ensures { result ≡ lengths_at (length scratch.now) 0 0 }
    {
        Lengths::new(scratch, &[], &[])
    }

    /// Here the three slices become their lengths.
    pub fn new(scratch: &[u8], buffer: &[u8], data: &[u8]) -> Lengths
        ensures { result ≡ lengths_at (length scratch.now) (length buffer.now) (length «data».now) }
    {
        Lengths {
            scratch: scratch.len(),
            buffer: buffer.len(),
            data: data.len(),
        }
    }
}

impl<'a> Loan<'a> {
    /// How long the scratch, the buffer and the data are.
    pub fn lengths(&self) -> Lengths
        ensures { result ≡ lengths_of self.now }
    {
        Lengths::new(self.scratch, self.buffer, self.data)
    }
}
