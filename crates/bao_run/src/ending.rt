/// What is written once all events were taken.
#[derive(Clone, Copy, Debug, PartialEq, Eq)]
pub enum Ending {
    /// The section of each VM.
    Report,
    /// A line for each VM.
    Summary,
}
