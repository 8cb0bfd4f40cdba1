//! The EL2 entries of a core, compiled: sorted spans of addresses with the second stage's verdict for each kind of access,
//! and the span of the last hit of each kind. A table answers as the list of its entries does, overlapping ones included.
//!
//! What an entry gives is decided in `pmsa_stage2`; alignment, ports and the first stage are judged above.
#![tactic(auto)]

pub use table::{Refusal, Table};

mod cut;
mod span;
mod table;
#[cfg(test)]
mod tests;
