//! The status that the program exits with.

ghost use Rattle.std.specs.Prelude.{◌≡◌};
ghost use Rattle.turkit_top.specs.Status.{code_of};

/// How a command ended.
#[derive(Clone, Copy, Debug, PartialEq, Eq, Drop)]
pub enum Status {
    /// The script ran to its end.
    Finished,
    /// The script ended by a value that it did not catch, or was refused.
    Ended,
    /// The words are no command.
    Usage,
    /// The bytes are no script.
    Syntax,
    /// The script waits for replies, or crashed.
    Waiting,
    /// The fuel was spent.
    Spent,
    /// A source could not be read.
    ReadFault,
    /// The disk failed.
    DiskFault,
    /// The board failed.
    BoardFault,
    /// The output or the notes could not be written. It stands in the place of any other.
    WriteFault,
    /// There was no memory.
    Memory,
    /// The disk holds no journal.
    BadJournal,
    /// The journal is of another name, script or fuel.
    OtherJournal,
    /// A call of the script is another than the journal or the board has.
    Diverged,
    /// A line of the replies or the events is at fault.
    BadLine,
    /// The trace or the journal is full.
    Full,
    /// The script, the replies or the events have more bytes than the limit.
    TooLarge,
    /// The last run of a history was stopped by its event.
    Stopped,
    /// The command is not built.
    NotBuilt,
}

impl Status {
    /// The number that the program exits with.
    pub fn code(&self) -> u8
        ensures { result ≡ code_of self.now }
    {
        match self {
            Status::Finished => 0,
            Status::Ended => 1,
            Status::Usage => 2,
            Status::Syntax => 3,
            Status::Waiting => 4,
            Status::Spent => 5,
            Status::ReadFault => 6,
            Status::DiskFault => 7,
            Status::BoardFault => 8,
            Status::WriteFault => 9,
            Status::Memory => 10,
            Status::BadJournal => 11,
            Status::OtherJournal => 12,
            Status::Diverged => 13,
            Status::BadLine => 14,
            Status::Full => 15,
            Status::TooLarge => 16,
            Status::Stopped => 17,
            Status::NotBuilt => 63,
        }
    }
}
