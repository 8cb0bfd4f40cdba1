ghost use Rattle.std.specs.Prelude.{◌≡◌};

use bao_config::Spot;
use bao_wellformed::Ill;

/// A file that a command reads.
#[derive(Clone, Copy, Debug, PartialEq, Eq)]
pub enum FileId {
    /// The configuration.
    Config,
    /// The image of the VM of this number.
    Image(u8),
    Schedule,
}

/// Why bytes are no configuration that the program takes. It is the first cause in the order of the keys and rules.
#[derive(Clone, Copy, Debug, PartialEq, Eq)]
pub enum Why {
    /// What stands at the spot isn't of the row's kind, or a key is missing or unknown.
    Shape { spot: Spot },
    /// The integer at the spot is outside its bounds.
    Value { spot: Spot, value: i64 },
    /// A rule of well-formed configurations is broken.
    Rule { ill: Ill },
}

/// How the program ends.
#[derive(Clone, Copy, Debug, PartialEq, Eq)]
pub enum Status {
    /// All was read to its end, and the text was taken whole.
    Done,
    /// The words are no command.
    Usage,
    /// A file couldn't be read.
    ReadFault { file: FileId },
    /// A file has more bytes than its limit.
    TooLong { file: FileId, limit: u32 },
    /// The configuration is no TOML document.
    BadToml,
    /// The document spells no configuration, or one that isn't well formed.
    IllConfig { why: Why },
    /// This core is the first that has more runs than entries.
    TooMany { core: u8, runs: u32, entries: u8 },
    /// This line of the schedule, counted from 1, is the first that breaks a rule, and this is the first rule that it breaks.
    BadSchedule { line: u32, rule: u8 },
    /// The text wasn't taken whole.
    WriteFault,
    OutOfMemory,
}

impl Status {
    ghost use Rattle.report.specs.Status.{number_of};

    /// The exit status of the process.
    pub fn number(&self) -> u8
        ensures { result ≡ number_of self.now }
    {
        match self {
            Status::Done => 0,
            Status::Usage => 2,
            Status::ReadFault { .. } => 3,
            Status::TooLong { .. } => 4,
            Status::BadToml => 5,
            Status::IllConfig { .. } => 6,
            Status::TooMany { .. } => 7,
            Status::BadSchedule { .. } => 8,
            Status::WriteFault => 9,
            Status::OutOfMemory => 10,
        }
    }
}
