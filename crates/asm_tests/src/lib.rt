//! Tests of the assembler and of the listing, over their public calls and over the top call.
//!
//! The crate has no other code. Its tests stand apart from the crate that they try, since a crate with tests is proved
//! twice.
#![tactic(auto)]

#[cfg(test)]
mod examples;
#[cfg(test)]
mod forms;
#[cfg(test)]
mod images;
#[cfg(test)]
mod rules;
#[cfg(test)]
mod runs;
#[cfg(test)]
mod told;
