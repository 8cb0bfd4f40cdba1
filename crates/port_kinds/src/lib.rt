//! The three kinds of device port: console, scratch and ticker.
//!
//! What each does is said in `ports`.
#![tactic(auto)]

pub use console::ConsolePort;
pub use scratch::ScratchPort;
pub use ticker::TickerPort;

mod console;
mod register;
mod scratch;
#[cfg(test)]
mod tests;
mod ticker;
