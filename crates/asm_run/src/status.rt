//! How the program ends.
ghost use Rattle.std.specs.Prelude.{◌≡◌};

/// How the program ends. All but `Done` and `WriteFault` are refusals, with a line of their own.
#[derive(Clone, Copy, Debug, PartialEq, Eq)]
pub enum AsmStatus {
    /// All was written.
    Done,
    /// The words name no command.
    Usage,
    /// The file can't be read.
    ReadFault,
    /// The file has more bytes than this.
    TooLong { limit: u32 },
    /// The output failed.
    WriteFault,
    OutOfMemory,
    /// The first line of the source that breaks a rule, counted from 1, and the first rule that it breaks.
    BadLine { line: u32, rule: u8 },
    /// This many bytes are no image.
    BadLength { len: u32 },
}

impl AsmStatus {
    ghost use Rattle.asm_run.specs.Status.{number_of};

    /// The exit status of the process.
    pub fn number(self) -> u8
        ensures { result ≡ number_of self }
    {
        match self {
            AsmStatus::Done => 0,
            AsmStatus::Usage => 2,
            AsmStatus::ReadFault => 3,
            AsmStatus::TooLong { .. } => 4,
            AsmStatus::WriteFault => 9,
            AsmStatus::OutOfMemory => 10,
            AsmStatus::BadLine { .. } => 15,
            AsmStatus::BadLength { .. } => 16,
        }
    }
}
