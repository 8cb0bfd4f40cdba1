//! Tests of the simulated machine with the interrupts of one VM: guests take them from list registers, which are filled from
//! the VM's table as a hypervisor fills them.
//!
//! The crate has no other code. It stands below the hypervisor, so that its tests can begin with ids that are enabled.
#![tactic(auto)]

pub use drive::{Call, Listed, Row, Seen};

mod bench;
mod drive;
#[cfg(test)]
mod lines;
#[cfg(test)]
mod nesting;
#[cfg(test)]
mod order;
#[cfg(test)]
mod origins;
#[cfg(test)]
mod timers;
#[cfg(test)]
mod trial;
