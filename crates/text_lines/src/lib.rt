//! Lines of text: built from texts and numbers within a fixed room, and cut at a byte.
//!
//! Nothing here takes memory. What a line says is said in the crates above.
#![tactic(auto)]

pub use build::{
    push_decimal, push_hex, push_hex_bytes, push_long_decimal, push_short_hex, push_signed,
    push_text,
};
pub use cut::cut_at;

mod build;
mod cut;
#[cfg(test)]
mod tests;
