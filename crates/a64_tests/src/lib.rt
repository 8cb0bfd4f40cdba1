//! Tests of the crates on A64, over their public calls: words are decoded and encoded again, data is processed, system
//! registers are read and written, and instructions ask and are completed.
//!
//! The crate has no other code. Its tests stand apart from the crates that they try, since a crate with tests is proved
//! twice.
#![tactic(auto)]

#[cfg(test)]
mod cases;
#[cfg(test)]
mod decoding;
#[cfg(test)]
mod encoding;
#[cfg(test)]
mod execution;
#[cfg(test)]
mod processing;
#[cfg(test)]
mod registers;
