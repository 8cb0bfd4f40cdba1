use arrayvec::ArrayVec;

/// A line of text that is being built.
pub type Line = ArrayVec<u8, 160>;
