// How a run ends.
ghost use Rattle.std.specs.Prelude.{◌≡◌};
ghost use Rattle.pf_top.specs.Messages.{status_code};

use pf_text::Refusal;

/// How a run ends. The codes of the statuses are 0 to 6, in this order.
#[derive(Clone, Copy, Debug, PartialEq, Eq)]
pub enum Status {
    /// The answer went out whole and was flushed.
    Done,
    /// So did the answer `no`.
    No,
    /// The words have the form of no command.
    Usage,
    /// The text is refused, or what the command asks of its problem.
    Refused(Refusal),
    /// Reading failed.
    ReadFault,
    /// Writing the answer failed.
    WriteFault,
    /// Memory was not found.
    NoMemory,
}

impl Status {
    /// The code that a process ends with.
    pub fn code(&self) -> u8
        ensures { result ≡ status_code self.now }
    {
        match self {
            Status::Done => 0,
            Status::No => 1,
            Status::Usage => 2,
            Status::Refused(_) => 3,
            Status::ReadFault => 4,
            Status::WriteFault => 5,
            Status::NoMemory => 6,
        }
    }
}
