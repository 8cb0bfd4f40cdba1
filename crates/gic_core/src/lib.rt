//! The interrupt lines of the machine: which are raised, for which cores, and in which order a core takes them.
//!
//! Each core has its timer's line, PPI 27, and each port of a device has one SPI. When a line is raised is said by
//! `generic_timer` and by the ports; what becomes of an interrupt after its acknowledgement is the hypervisor's.
#![tactic(auto)]

pub use lines::Lines;
pub use port_line::PortLine;

mod lines;
mod port_line;
#[cfg(test)]
mod tests;
