//! The instructions of the A64 base integer set, each in two halves: what it asks before it can be completed, and what
//! the core is once it has that.
//!
//! The world itself (memory, protection, ports) and the taking of exceptions are said by the crates above.
#![tactic(auto)]

pub use completion::{complete, complete_access};
pub use need::{Need, want};

mod branch;
mod completion;
mod execute;
mod need;
mod system;
mod transfer;
