//! The creation of VMs: the shape of the board that a configuration asks for, and the boot of all its VMs on such a board.
//!
//! Nothing here takes memory. After the boot, board and hypervisor stand for the flat machine with which the model begins.
#![tactic(auto)]

pub use booting::boot;
pub use shape::shape_for;

mod booting;
mod shape;
