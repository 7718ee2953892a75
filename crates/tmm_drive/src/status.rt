// How a run of the program ends.
ghost use Rattle.std.specs.Prelude.{◌≡◌};

/// How a run of the program ends.
#[derive(Clone, Copy, Debug, PartialEq, Eq)]
pub enum Status {
    /// The script was read to its end and all replies were written; none was a refusal or `memory`.
    Clean,
    /// The same, but some line was refused.
    SomeRefused,
    /// The words of the command line are not the program's, and the usage line was written.
    Words,
    /// Reading failed; every line that was whole before has its reply.
    ReadFault,
    /// Writing failed.
    WriteFault,
    /// There was no memory to begin with; nothing was read.
    NoMemory,
    /// The script has more than 2^30 bytes; every line that ends within them has its reply.
    TooLong,
    /// The script was read to its end and all replies were written; some was `memory`.
    SomeMemory,
}

impl Status {
    ghost use Rattle.tmm_drive.specs.Statuses.{number_of};

    /// The number that the program exits with.
    pub fn number(self) -> u8
        ensures { result ≡ number_of self }
    {
        match self {
            Status::Clean => 0,
            Status::SomeRefused => 1,
            Status::Words => 2,
            Status::ReadFault => 3,
            Status::WriteFault => 4,
            Status::NoMemory => 5,
            Status::TooLong => 6,
            Status::SomeMemory => 7,
        }
    }
}
