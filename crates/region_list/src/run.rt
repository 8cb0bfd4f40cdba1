use bao_types::{ByteRange, Class};

/// Bytes of one class that follow one another.
#[derive(Clone, Copy, Debug, PartialEq, Eq)]
pub struct Run {
    pub range: ByteRange,
    pub class: Class,
}
