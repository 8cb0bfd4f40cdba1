//! The virtual interrupt interface of a core: which interrupt its list registers signal, and what becomes of them when
//! one is acknowledged or ended (GICv3, ICC_IAR1_EL1, ICC_EOIR1_EL1, ICC_RPR_EL1).
//!
//! It sees list registers alone: `vgic_table` has all interrupts of a VM, and says what registers and table are
//! together.
#![tactic(auto)]

pub use interface::{NO_INTERRUPT, acknowledge, end, running, signal};
pub use law::laws_of_the_interface;
pub use lists::best_listed;

mod interface;
mod law;
mod lists;
#[cfg(test)]
mod tests;
