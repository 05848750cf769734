ghost use Rattle.std.specs.Prelude.{◌≡◌};
ghost use Rattle.cal_base.specs.Status.{number_of};

/// How a run ended.
#[derive(Clone, Copy, Debug, PartialEq, Eq)]
pub enum Status {
    /// The answer was written.
    Done,
    /// The words are no command of the program.
    Usage,
    /// The database has a fault.
    BadDatabase,
    /// The database and the words make no system.
    BadSystem,
    /// The asked gap was not reached within the budget.
    GapNotClosed,
    /// The report was rejected.
    Rejected,
    /// Reading failed.
    ReadFault,
    /// Writing failed.
    WriteFault,
    /// A file is longer than its limit.
    TooLong,
    /// There was no memory.
    Memory,
}

impl Status {
    /// The number that a program with this status ends with.
    pub fn number(self) -> u8
        ensures { result ≡ number_of self }
    {
        self as u8
    }
}
