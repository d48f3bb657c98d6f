//! How a call ends.
ghost use Rattle.std.specs.Prelude.{◌≡◌};
ghost use Rattle.call_rim.specs.Codes.{code_of};

/// How a call ends. The number of each is the program's exit status (this project's profile).
#[derive(Clone, Copy, Debug, PartialEq, Eq)]
pub enum Status {
    /// The input was read to its end and reported on, and the sink took the report and holds none of it back.
    Done,
    /// The input is refused; the sink took the line that says so, and holds none of it back.
    Refused,
    /// The command line is not valid; the sink took the usage line, and holds none of it back.
    Usage,
    /// The source failed; nothing was written.
    ReadFault,
    /// The sink failed, and took a beginning of what was due.
    WriteFault,
    /// Memory ran out; nothing was written.
    NoMemory,
}

impl Status {
    /// The exit status of the program, from 0 to 5.
    pub fn code(self) -> u8
        ensures { result ≡ code_of self }
    {
        self as u8
    }
}
