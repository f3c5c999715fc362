//! The status that the program ends with.
ghost use Rattle.std.specs.Prelude.{◌≡◌};
ghost use Rattle.align_base.specs.Codes.{status_code};

/// How a call of the program ended.
#[derive(Clone, Copy, Debug, PartialEq, Eq)]
pub enum Status {
    /// The command was carried out, and where it decides, the functions are equivalent.
    Good,
    /// The command decided that the functions are different.
    Negative,
    /// The command found neither. No command answers so yet.
    Unknown,
    /// A file was refused, or what the files hold.
    Refused,
    /// A usage error: the arguments are no command.
    Usage,
    /// A file could not be taken.
    ShelfFault,
    /// The report could not be given.
    SinkFault,
    /// Out of memory.
    NoMemory,
}

impl Status {
    /// The code that the program ends with, 0 to 7.
    pub fn code(&self) -> u8
        ensures { result ≡ status_code self.now }
    {
        match self {
            Status::Good => 0,
            Status::Negative => 1,
            Status::Unknown => 2,
            Status::Refused => 3,
            Status::Usage => 4,
            Status::ShelfFault => 5,
            Status::SinkFault => 6,
            Status::NoMemory => 7,
        }
    }
}
