//! Tests of `schedule`, over its public calls: the rows of a schedule's form and rules, and generated workloads.
//!
//! The crate has no other code. Its tests stand apart from the crate that they try, since a crate with tests is proved
//! twice.
#![tactic(auto)]

#[cfg(test)]
mod lines;
#[cfg(test)]
mod workloads;
