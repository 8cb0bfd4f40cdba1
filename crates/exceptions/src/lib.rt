//! Exceptions of the A64 base set as EL1 takes them: the entry, the return from it, and the syndromes that say what
//! happened.
//!
//! Which instruction raises which exception, and what EL2 takes, is said by the crates above.
#![tactic(auto)]

pub use class::Class;
pub use entry::{Cause, enter_el1};
pub use exit::{eret, returns_undo_entries};
pub use syndromes::{abort_syndrome, exception_syndrome, register_write_syndrome, syndrome};

mod assembled;
mod class;
mod entry;
mod exit;
mod syndromes;
#[cfg(test)]
mod tests;
