//! Why bytes aren't read as a schedule.

use thiserror::Error;

/// Why bytes aren't taken as a schedule.
#[derive(Clone, Copy, Debug, PartialEq, Eq, Error)]
pub enum ScheduleError {
    /// The first line that breaks a rule, counted from 1, and the first rule that it breaks, 1 to 5.
    #[error("line {line} of the schedule breaks rule {rule}")]
    Bad { line: u32, rule: u8 },
    #[error("out of memory")]
    OutOfMemory,
}
