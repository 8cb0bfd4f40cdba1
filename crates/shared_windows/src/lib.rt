//! Who shares a memory with whom: the windows that the VMs of a configuration have on its shared memories, and the
//! interrupt numbers by which they hear of each other's events there. What the bytes of a window are to a VM is the map's
//! business (`bao_wellformed`).
#![tactic(auto)]

pub use law::laws_of_windows;
pub use windows::{irq_of, is_member, members};

mod law;
mod windows;
