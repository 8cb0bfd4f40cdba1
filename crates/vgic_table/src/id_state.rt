/// What an interrupt id is.
#[derive(Clone, Copy, Debug, PartialEq, Eq)]
pub struct IdState {
    pub enabled: bool,
    /// A lower number comes first. A table keeps bits 7 to 3 alone.
    pub priority: u8,
    pub pending: bool,
    pub active: bool,
}
