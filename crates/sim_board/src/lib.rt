//! The simulated machine: memory, cores, EL2 entries and device ports, behind the trait `Board`.
//!
//! A step fetches one word, which both stages of protection must allow at each of its bytes, and executes it; what it loads
//! or stores they must allow at each byte too. What the instructions do is said in `a64_execute`, and what an exception at
//! EL1 does in `exceptions`; what a core's EL1 regions allow is said in `pmsa_stage1`, and what its EL2 entries allow in
//! `pmsa_stage2`, which the compiled entries of `pmsa_table` judge.
#![tactic(auto)]

pub use machine::SimBoard;

mod access;
mod devices;
mod fault;
mod gap;
mod judge;
mod machine;
mod memory;
mod spots;
mod step;
