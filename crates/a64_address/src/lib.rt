//! What the loads and stores of the A64 base integer set ask of memory: where, how much, and what the base register
//! becomes.
//!
//! Whether an access is allowed, and what is loaded to or stored from a register, is said by the crates above.
#![tactic(auto)]

pub use shape::{MemShape, shape_of, shapes_agree};

mod address;
mod shape;
#[cfg(test)]
mod tests;
