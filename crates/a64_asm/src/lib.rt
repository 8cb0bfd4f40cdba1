//! An assembler for small guests, and a listing: lines of text, and the words that they say.
//!
//! The line forms are said once in `specs/`, as the text of an instruction and as what a line says. What a word is, is said
//! by `a64_decode` alone.
#![tactic(auto)]

mod error;
mod label;
mod law;
mod listing;
mod mnemonic;
mod number;
mod operand;
mod reading;
mod register;
mod said;
mod source;
mod text;
mod write;

pub use error::{AsmError, ListError};
pub use law::{a_line_gives_the_word_of_its_instruction, a_listing_gives_its_image_back};
pub use listing::list;
pub use source::{IMAGE_LIMIT, assemble};
