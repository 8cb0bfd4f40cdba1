//! Raw memory: one block of bytes behind a pointer, which contracts see as the list of its bytes.
//!
//! Four functions touch the pointer, two in `block` and two in `cells`. Numbers and runs of many bytes are read
//! and written by safe code over these.
#![tactic(auto)]

// A crate can name a block in a contract only if the types of its fields are exported.
#[doc(hidden)]
pub use cells::{Base, Cells, Deed};
pub use phys::Phys;

mod block;
mod cells;
mod phys;
#[cfg(test)]
mod tests;
