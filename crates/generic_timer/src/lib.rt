//! The virtual timer of a core: when its condition is met, and when its line, PPI 27, is raised.
//!
//! The registers are read and written by the system registers above, and raised lines are kept by `gic_core`.
#![tactic(auto)]

pub use timer::{edge, status};

#[cfg(test)]
mod tests;
mod timer;
