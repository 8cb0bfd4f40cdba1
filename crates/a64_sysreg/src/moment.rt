/// What a step is handed besides its core: what the system registers of the timer and of the interrupt interface show.
#[derive(Clone, Copy, Debug, PartialEq, Eq)]
pub struct Moment {
    /// The system count.
    pub count: u64,
    /// The interrupt that the core may take, below 96, where there is one.
    pub signal: Option<u16>,
}
