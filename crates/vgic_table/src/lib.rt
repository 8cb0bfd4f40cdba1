//! The interrupts of a VM behind the list registers of its cores: for each virtual core the ids 0 to 31, and for the VM
//! the ids 32 to 95.
//!
//! Interrupts move from here to list registers and back. What a core does with its registers is `vgic_iface`; the
//! frames through which guests reach this table are emulated by the layers above.
#![tactic(auto)]

pub use id_state::IdState;
pub use law::{laws_of_cores, laws_of_pending, laws_of_registers};
pub use table::IrqTable;

mod id_state;
mod law;
mod table;
#[cfg(test)]
mod tests;
