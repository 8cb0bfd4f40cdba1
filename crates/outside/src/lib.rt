//! What a program takes from the outside and gives to it: files that are fetched whole, and text that is put out.
//!
//! Nothing here knows what a file or a text means. A fault of the outside is counted, so that a caller can show that it
//! reports no fault that didn't come.
#![tactic(auto)]

pub use file_shelf::{FileShelf, Open, WorkingDirectory};
pub use mem_shelf::MemShelf;
pub use mem_sink::MemSink;
pub use out_sink::OutSink;
pub use shelf::{Shelf, ShelfError};
pub use sink::{Sink, SinkFailed};
pub use sure_shelf::SureShelf;

mod faults;
mod file_list;
mod file_shelf;
mod mem_shelf;
mod mem_sink;
mod out_sink;
mod shelf;
mod sink;
mod sure_shelf;
#[cfg(test)]
mod tests;
