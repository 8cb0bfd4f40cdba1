//! The top call of the assembler: words, one file, and what is written for them.
//!
//! `asm FILE` writes the image that a source gives, `list FILE` the listing of an image. What they are is said in `a64_asm`.
#![tactic(auto)]

mod command;
mod line;
mod made;
mod status;
mod top;
mod words;

pub use command::run;
pub use status::AsmStatus;
pub use top::run_asm;
