ghost use Rattle.std.specs.Prelude.{◌≡◌};
ghost use Rattle.ddl_top.specs.Status.{number_of};

/// How a call of the program ends.
#[derive(Clone, Copy, PartialEq, Eq)]
pub enum Status {
    /// At least one parse, and the end.
    Parses,
    /// No parse, and the end.
    NoParse,
    /// The command line is not one of the program's.
    Words,
    /// The specification is refused.
    Refused,
    /// The parses end with a fault.
    Fault,
    /// The budget of steps is used up.
    Spent,
    /// A file cannot be read.
    ReadFault,
    /// The output cannot be written.
    WriteFault,
    /// A file is not there.
    Missing,
    /// Memory ran out.
    NoMemory,
    /// The input is too large.
    TooLarge,
}

impl Status {
    /// The program's exit status, from 0 to 10.
    pub fn number(self) -> u8
        ensures { result ≡ number_of self }
    {
        self as u8
    }
}
