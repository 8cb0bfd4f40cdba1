//! The events of a schedule.

/// One entry of a schedule.
#[derive(Clone, Copy, Debug, PartialEq, Eq)]
pub enum Event {
    /// A core takes a step, at this system count.
    Step { core: u8, count: u64 },
    /// A port is given a byte.
    Input { port: u8, byte: u8 },
}
