ghost use Rattle.std.specs.Prelude.{◌≡◌};
ghost use Rattle.pooma_top.specs.Status.{number_of};

/// How a run ended. `main` ends with the number of the status.
#[derive(Clone, Copy, Debug, PartialEq, Eq)]
pub enum Status {
    /// The whole output was written.
    Done,
    /// The words are of no command. Nothing was read or written.
    Usage,
    /// The script was refused, and the output names the line and the cause.
    Refused,
    /// A statement faulted, and the last line of the output names it.
    Faulted,
    /// The script could not be read. Nothing was written.
    ReadFault,
    /// Not all of the output could be written.
    WriteFault,
    /// Memory was short. A front of the output may have been written.
    OutOfMemory,
}

impl Status {
    /// The number that the program ends with.
    pub fn number(self) -> u8
        ensures { result ≡ number_of self }
    {
        match self {
            Status::Done => 0,
            Status::Usage => 1,
            Status::Refused => 2,
            Status::Faulted => 3,
            Status::ReadFault => 4,
            Status::WriteFault => 5,
            Status::OutOfMemory => 6,
        }
    }
}
