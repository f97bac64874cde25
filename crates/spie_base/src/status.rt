ghost use Rattle.std.specs.Prelude.{◌≡◌};
ghost use Rattle.spie_base.specs.Status.{code_of};

/// How a run ended.
#[derive(Clone, Copy, PartialEq, Eq, Debug)]
pub enum Status {
    /// The output is written whole.
    Done,
    /// A certificate was read, and does not hold. No command of today ends so.
    No,
    /// Unknown command or wrong arguments. Nothing was read and nothing written.
    Usage,
    /// The input was read and breaks a rule of its format. The refusal is the output.
    TraceRefused,
    /// An I/O error while reading. Nothing was written.
    ReadFault,
    /// An I/O error while writing. A prefix of the output was written.
    WriteFault,
    /// Memory was refused.
    NoMemory,
}

impl Status {
    /// The number with which the program ends, from 0 to 6.
    pub fn code(&self) -> u8
        ensures { result ≡ code_of self.now }
    {
        match self {
            Status::Done => 0,
            Status::No => 1,
            Status::Usage => 2,
            Status::TraceRefused => 3,
            Status::ReadFault => 4,
            Status::WriteFault => 5,
            Status::NoMemory => 6,
        }
    }
}
