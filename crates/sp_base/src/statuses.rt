//! The ways in which a run ends.
ghost use Rattle.std.specs.Prelude.{◌≡◌};

/// How a run ended. `code` gives the exit status of the program.
#[derive(Clone, Copy, PartialEq, Eq, Debug)]
pub enum Status {
    /// The input was carried out to its end, and nothing was refused.
    Clean,
    /// A command was refused.
    SomeRefused,
    /// The words of the command line have no meaning.
    Usage,
    /// The source failed.
    SourceFault,
    /// The sink failed.
    SinkFault,
    /// There was no memory.
    NoMemory,
    /// The input is too long.
    StreamTooLong,
}

impl Status {
    ghost use Rattle.sp_base.specs.Status.{code_of};

    /// The exit status, from 0 to 6.
    pub fn code(self) -> u8
        ensures { result ≡ code_of self }
    {
        match self {
            Status::Clean => 0,
            Status::SomeRefused => 1,
            Status::Usage => 2,
            Status::SourceFault => 3,
            Status::SinkFault => 4,
            Status::NoMemory => 5,
            Status::StreamTooLong => 6,
        }
    }
}
