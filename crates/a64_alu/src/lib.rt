//! What the data processing instructions of the A64 base integer set do: a new value for one register, and the flags.
//!
//! Loads, stores, branches, system instructions and the step of PC to the next instruction are said by the crates
//! above.
#![tactic(auto)]

pub use condition::holds;
pub use dispatch::{alu, is_alu};
pub use result::low_x;

mod add;
mod condition;
mod dispatch;
mod immediate;
mod logical;
mod moves;
mod number;
mod product;
mod quotient;
mod register;
mod result;
mod reversal;
mod shift;
