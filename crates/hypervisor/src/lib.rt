//! The hypervisor: what it keeps besides the board, and what one event of a schedule does to all VMs and to the board that
//! they run on.
//!
//! On every board that meets `Board`, an event is a step of the model of `vm_model`. Nothing here takes memory. The boot is
//! in `vm_create`, and a whole run in `core_interleave`.
#![tactic(auto)]

pub use event::Event;
pub use hyp::Hyp;
pub use law::a_core_steps_as_in_the_model;
pub use owners::{owner, virtual_core};

mod emulated;
mod event;
mod hyp;
mod interrupts;
mod law;
mod owners;
mod seat;
mod syndrome;
