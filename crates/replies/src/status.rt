ghost use Rattle.std.specs.Prelude.{◌≡◌};

/// How a run ends. The texts that go with each are written on err, but for `Done` and `Unmet`, whose text is on out.
#[derive(Clone, Copy, Debug, PartialEq, Eq)]
pub enum Status {
    /// All that was asked for is written.
    Done,
    /// A source breaks a rule; the first failure is named.
    Refused,
    /// The words ask for nothing that there is.
    Usage,
    /// A file cannot be read.
    ReadFault,
    /// A sink failed. The text for err, or else that for out, is cut short.
    WriteFault,
    /// Memory was refused. Nothing is written.
    NoMemory,
    /// A file is longer than its limit.
    TooLong,
    /// A file is no well-formed Verilog module of the subset.
    BadVerilog,
    /// A file is no table of pin values.
    BadStimulus,
    /// A row of pin values breaks the bus protocol.
    Protocol,
    /// A file is no value change dump that has a table.
    BadVcd,
    /// A file is no script for the block of a source.
    BadScript,
    /// A check of a script failed. What the script saw is on out, and nothing on err.
    Unmet,
}

impl Status {
    ghost use Rattle.replies.specs.Status.{number_of};

    /// The exit status of the process, 0 to 12. It takes no memory.
    pub fn number(self) -> u8
        ensures { result ≡ number_of self }
    {
        match self {
            Status::Done => 0,
            Status::Refused => 1,
            Status::Usage => 2,
            Status::ReadFault => 3,
            Status::WriteFault => 4,
            Status::NoMemory => 5,
            Status::TooLong => 6,
            Status::BadVerilog => 7,
            Status::BadStimulus => 8,
            Status::Protocol => 9,
            Status::BadVcd => 10,
            Status::BadScript => 11,
            Status::Unmet => 12,
        }
    }
}
