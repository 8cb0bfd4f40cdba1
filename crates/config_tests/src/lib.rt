//! Tests of the crates on configurations, over their public calls: a text is read, its rules are checked, its cores are
//! packed, the board that it asks for is shaped, and its VMs' calls are decided.
//!
//! The crate has no other code. Its tests stand apart from the crates that they try, since a crate with tests is proved
//! twice.
#![tactic(auto)]

#[cfg(test)]
mod calls;
#[cfg(test)]
mod documents;
#[cfg(test)]
mod edited;
#[cfg(test)]
mod machine;
#[cfg(test)]
mod packings;
#[cfg(test)]
mod rows;
#[cfg(test)]
mod rules;
#[cfg(test)]
mod samples;
#[cfg(test)]
mod shapes;
#[cfg(test)]
mod sharing;
#[cfg(test)]
mod vms;
