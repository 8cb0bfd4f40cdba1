ghost use Rattle.std.specs.Prelude.{◌≡◌};
ghost use Rattle.a64_decode.specs.Table.{decoded, AreDistinct};
ghost use Rattle.a64_decode.specs.Lawful.{IsLawful};

use crate::Instr;
use crate::branch::decode_branch;
use crate::immediate::decode_immediate;
use crate::load_store::decode_load_store;
use crate::register::decode_register;
use bao_types::field;

/// The instruction that a word is: what the first row of the table that the word matches makes of it.
///
/// The order of the rows is that of `table` in this crate's definitions, where alone it is said: each function of the
/// chain tries its part of the table, and leaves every other word to the rows that follow. Bits 28 to 25 tell the class
/// of a word, which matches no row of another class, so the chain is entered where its class begins.
#[tactic(auto, using(crate::proofs::Class::branch, crate::proofs::Class::register, crate::proofs::Class::loads))]
pub fn decode(word: u32) -> Instr
    ensures table { result ≡ decoded word }
    ensures lawful { IsLawful result }
{
    if field(word, 27, 27) == 1 && field(word, 25, 25) == 0 {
        decode_load_store(word)
    } else if field(word, 27, 25) == 0b101 {
        decode_register(word)
    } else if field(word, 28, 26) == 0b101 {
        decode_branch(word)
    } else {
        decode_immediate(word)
    }
}

/// Different words never decode to the same variant, other than `Undefined`. The function does nothing; its contract is
/// the law.
pub fn words_are_distinct()
    ensures { AreDistinct }
{}
