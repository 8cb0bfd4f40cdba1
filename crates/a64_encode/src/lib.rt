//! Encoding of the A64 base integer set: from an instruction to the word that decodes to it.
//!
//! The table of words is the decoder's; nothing here says it again.
#![tactic(auto)]

pub use encoding::encode;
pub use law::an_instruction_has_one_word;

mod code;
mod encoding;
mod law;
mod word;
