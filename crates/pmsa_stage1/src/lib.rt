//! The first stage of protection: what a core's EL1 regions and SCTLR_EL1 say of an access to one byte.
//!
//! Whole accesses, their alignment and the second stage are judged by the layers above.
#![tactic(auto)]

pub use judge::{is_on, judge1};

mod judge;
#[cfg(test)]
mod tests;
