// How a call of the tool ends.
ghost use Rattle.std.specs.Prelude.{◌≡◌};
ghost use Rattle.svtv.specs.Answers.{exit_code};

/// How a call ends; `code` gives the exit code of each.
#[derive(Clone, Copy)]
pub enum Status {
    AllProved,
    Done,
    NotAll,
    Usage,
    Refused,
    ReadFault,
    WriteFault,
    Memory,
}

impl Status {
    /// The exit code of the process.
    pub fn code(self) -> u8
        ensures { result ≡ exit_code self }
    {
        match self {
            Status::AllProved | Status::Done => 0,
            Status::NotAll => 1,
            Status::Usage => 2,
            Status::Refused => 3,
            Status::ReadFault => 4,
            Status::WriteFault => 5,
            Status::Memory => 6,
        }
    }
}
