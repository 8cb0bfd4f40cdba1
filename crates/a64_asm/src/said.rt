//! What a line says that is one word.

use a64_decode::Instr;

/// An instruction, or a word as it is.
#[derive(Clone, Copy)]
pub enum Said {
    Instruction(Instr),
    Raw(u32),
}
