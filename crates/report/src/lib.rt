//! How the program ends, and the text that it writes: a section or a line of a summary for each VM, or the line of a refusal.
//!
//! The text itself is said in `specs/`, over the model's state. Nothing here takes memory. That report and summary show a VM
//! as if it were alone is the contract of functions that do nothing.
#![tactic(auto)]

pub use alone::{a_vm_shows_as_if_alone, a_vm_shows_nothing_else, a_vm_sums_as_if_alone};
pub use packing::write_packing;
pub use refusal::write_refusal;
pub use status::{FileId, Status, Why};
pub use summary::write_summary;
pub use whole::write_report;

mod alone;
mod line;
mod lines;
mod packing;
mod refusal;
mod registers;
mod section;
mod status;
mod summary;
mod whole;
