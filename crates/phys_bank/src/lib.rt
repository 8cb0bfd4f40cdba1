//! The memory banks of a board, of which only the pages in use are kept.
//!
//! A directory has one pointer for each page of the banks, null where there is no page. Contracts see the bytes by address
//! and which of them are kept. Two modules touch a pointer: `loose` a box's, and `page` one that may be null.
#![tactic(auto)]

pub use banks::Banks;

mod bank_place;
mod banks;
mod directory;
mod fill;
mod layout;
mod loose;
mod page;
mod place;
#[cfg(test)]
mod tests;
