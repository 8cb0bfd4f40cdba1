ghost use Rattle.std.specs.Prelude.{◌≡◌, ℕ};
ghost use Rattle.a64_encode.specs.Encode.{IsWordOf, Encodes};

use crate::word::word_of;
use a64_decode::{Instr, decode};

/// The word of an instruction; None for `Undefined`, and where a field doesn't fit its bits or no word decodes to the
/// fields together.
///
/// Decoding tests both: only a word of the instruction decodes to it.
pub fn encode(instr: &Instr) -> Option<u32>
    ensures word { Encodes instr.now result }
    ensures only { (word : ℕ) → IsWordOf instr.now word → result ≡ Some word }
{
    if *instr == Instr::Undefined {
        return None;
    }
    let word = word_of(instr);
    if word > u64::from(u32::MAX) {
        return None;
    }
    let word = word as u32;
    if decode(word) == *instr {
        Some(word)
    } else {
        None
    }
}
