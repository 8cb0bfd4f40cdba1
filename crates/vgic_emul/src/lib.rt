//! The emulated interrupt controller of a VM: the frames of its distributor and redistributors, and what an access there
//! reads and changes (GICv3, GICD_ and GICR_ registers).
//!
//! It works on the VM's table alone, `vgic_table`: the list registers are taken back to it before, by the layers above.
#![tactic(auto)]

pub use access::emulate;
pub use law::an_access_is_its_vms_alone;
pub use place::{FramePlace, frame};

mod access;
mod law;
mod place;
mod register;
#[cfg(test)]
mod tests;
mod words;
