//! The second stage of protection: what a core's EL2 entries say of a guest's access to one byte.
//!
//! Whole accesses, their alignment and the first stage are judged by the layers above.
#![tactic(auto)]

pub use judge::judge2;

mod judge;
#[cfg(test)]
mod tests;
