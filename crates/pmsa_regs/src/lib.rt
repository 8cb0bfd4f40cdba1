//! The EL1 region registers of a core, as guests see them: the selection, and the base and the limit register of the
//! selected region.
//!
//! Which level may use them is decided by the system registers above, and what the regions allow by the first stage.
#![tactic(auto)]

pub use registers::{read_base, read_limit, select, write_base, write_limit, write_select};

mod registers;
#[cfg(test)]
mod tests;
