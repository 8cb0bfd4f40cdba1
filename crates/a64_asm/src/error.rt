//! Why an image or a source isn't taken.

/// Why an image isn't listed.
#[derive(Clone, Copy, Debug, PartialEq, Eq)]
pub enum ListError {
    /// This many bytes aren't whole words, or are more than a mebibyte.
    BadLength { len: u32 },
    OutOfMemory,
}

/// Why a source isn't assembled.
#[derive(Clone, Copy, Debug, PartialEq, Eq)]
pub enum AsmError {
    /// The first line that breaks a rule, counted from 1, and the first rule that it breaks, 1 to 5.
    BadLine { line: u32, rule: u8 },
    OutOfMemory,
}
