//! The statuses in which calls end.

/// In which a call ends. The numbers are those of the process's exit status.
#[derive(Clone, Copy, Debug, PartialEq, Eq)]
pub enum Status {
    /// The work was done, and a run came to its end.
    Done = 0,
    /// The text is refused.
    Refused = 1,
    /// The words are no command.
    Usage = 2,
    /// A load of the file failed.
    NotLoaded = 3,
    /// A byte was not put to the output.
    NotPut = 4,
    /// There was no memory, while reading, compiling or loading.
    NoMemory = 5,
    /// The run failed.
    Failed = 6,
    /// The heap is full.
    Full = 7,
    /// All steps were made without another stop.
    OutOfSteps = 8,
    /// The machine has no next step.
    Stuck = 10,
    /// The file is too long.
    TooLong = 11,
}

impl Status {
    ghost use Rattle.std.specs.Prelude.{◌≡◌};
    ghost use Rattle.tb_twobit.specs.Statuses as statuses;

    /// The number of the status, 0 to 11.
    pub fn number(self) -> u8
        ensures { result ≡ statuses.number self }
    {
        self as u8
    }
}
