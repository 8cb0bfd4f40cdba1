//! Parts of a line, written after a text.
ghost use Rattle.std.specs.Prelude.{◌≡◌, ◌<◌, ◌++◌, ◌∷◌, [], OnOk};
ghost use Rattle.std.specs.Fmt.{decimal};
ghost use Rattle.numerals.specs.Hex.{hex};
ghost use Rattle.a64_asm.specs.Text.{comma};
ghost use Rattle.a64_asm.specs.Number.{offset_text, IsOffset};
ghost use Rattle.a64_asm.specs.Register.{register_text};
ghost use Rattle.a64_asm.specs.Mnemonic.{name_of};

use crate::mnemonic::{Mnemonic, name};
use crate::register::last_name;
use a64_decode::Reg;
use numerals::hex_digit;
use std::alloc::AllocError;

/// Appends bytes.
pub(crate) fn push_text(out: &mut Vec<u8>, text: &[u8]) -> Result<(), AllocError>
    ensures { OnOk result (out.new.items ≡ out.old.items ++ text.now) }
{
    out.extend_from_slice(text)
}

/// Appends a decimal number.
pub(crate) fn push_decimal(out: &mut Vec<u8>, number: u64) -> Result<(), AllocError>
    ensures { OnOk result (out.new.items ≡ out.old.items ++ decimal number) }
{
    let mut digits = itoa::Buffer::new();
    push_text(out, digits.format(number).as_bytes())
}

/// Appends a first word and a blank.
pub(crate) fn push_name(out: &mut Vec<u8>, mnemonic: Mnemonic) -> Result<(), AllocError>
    ensures { OnOk result (out.new.items ≡ out.old.items ++ (name_of mnemonic ++ 32 ∷ [])) }
{
    push_text(out, name(mnemonic))?;
    push_text(out, b" ")
}

/// Appends a register's name. 31 is the zero register, or SP where `stack` says so.
#[tactic(auto, unfolding(crate::specs::Register::register_text))]
pub(crate) fn push_register(
    out: &mut Vec<u8>,
    stack: bool,
    wide: bool,
    register: Reg,
) -> Result<(), AllocError>
    ensures { OnOk result (out.new.items ≡ out.old.items ++ register_text stack wide register) }
{
    if register.0 == 31 {
        return push_text(out, last_name(stack, wide));
    }
    push_text(out, if wide { b"x" } else { b"w" })?;
    push_decimal(out, u64::from(register.0))
}

/// Appends a register's name, a comma and a blank.
pub(crate) fn push_operand(
    out: &mut Vec<u8>,
    stack: bool,
    wide: bool,
    register: Reg,
) -> Result<(), AllocError>
    ensures { OnOk result (out.new.items ≡ out.old.items ++ (register_text stack wide register ++ comma)) }
{
    push_register(out, stack, wide, register)?;
    push_text(out, b", ")
}

/// Appends the bytes of an offset that counts words.
#[tactic(auto, unfolding(crate::specs::Number::offset_text))]
pub(crate) fn push_offset(out: &mut Vec<u8>, offset: u64) -> Result<(), AllocError>
    requires { IsOffset offset }
    ensures { OnOk result (out.new.items ≡ out.old.items ++ offset_text offset) }
{
    if offset < 1 << 63 {
        push_decimal(out, 4 * offset)
    } else {
        push_text(out, b"-")?;
        push_decimal(out, 4 * (u64::MAX - offset + 1))
    }
}

/// Appends this many hexadecimal digits of a number, the lowest ones.
#[tactic(auto, using(numerals::proofs::Hex::hex_more), unfolding(numerals::specs::Hex::hex))]
pub(crate) fn push_hex(out: &mut Vec<u8>, digits: u32, number: u32) -> Result<(), AllocError>
    ensures { OnOk result (out.new.items ≡ out.old.items ++ hex digits number) }
{
    if digits == 0 {
        return Ok(());
    }
    push_hex(out, digits - 1, number / 16)?;
    out.push(hex_digit((number % 16) as u8))?;
    Ok(())
}
