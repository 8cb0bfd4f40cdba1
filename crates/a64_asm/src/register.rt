//! The names of registers.
ghost use Rattle.std.specs.Prelude.{◌≡◌};
ghost use Rattle.a64_asm.specs.Register.{last_name, register_of, numbered, lettered};

use a64_decode::Reg;
use numerals::number;

/// A register as a line names it.
#[derive(Clone, Copy)]
pub struct Register {
    /// Whether it has 64 bits.
    pub wide: bool,
    pub reg: Reg,
}

/// The name of register 31: the zero register, or SP where `stack` says so.
pub(crate) fn last_name(stack: bool, wide: bool) -> &'static [u8]
    ensures { result.now ≡ last_name stack wide }
{
    match (stack, wide) {
        (false, false) => b"wzr",
        (false, true) => b"xzr",
        (true, false) => b"wsp",
        (true, true) => b"sp",
    }
}

/// The register that a text names.
#[tactic(auto, unfolding(crate::specs::Register::register_of))]
pub(crate) fn read_register(text: &[u8], stack: bool) -> Option<Register>
    ensures { result ≡ register_of stack text.now }
{
    if text == last_name(stack, true) {
        return Some(Register {
            wide: true,
            reg: Reg(31),
        });
    }
    if text == last_name(stack, false) {
        return Some(Register {
            wide: false,
            reg: Reg(31),
        });
    }
    match text.split_first() {
        None => None,
        Some((b'x', digits)) => numbered(true, number(digits)),
        Some((b'w', digits)) => numbered(false, number(digits)),
        Some(_) => None,
    }
}

/// The register of this number, if it is one from 0 to 30.
fn numbered(wide: bool, number: Option<u64>) -> Option<Register>
    ensures { result ≡ numbered wide number }
{
    match number {
        Some(number) if number < 31 => Some(Register {
            wide,
            reg: Reg(number as u8),
        }),
        _ => None,
    }
}
