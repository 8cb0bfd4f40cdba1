//! The fields of a word, as what they stand for.
ghost use Rattle.std.specs.Prelude.{◌≡◌, ◌+◌, ◌<◌, ◌≤◌};
ghost use Rattle.bao_types.specs.Bits.{field};
ghost use Rattle.a64_decode.specs.Operands.{flag as flag_of, reg as reg_of, condition_of, shift_of, extend_of, logical_of, size_of, transfer_of};

use crate::operand::{Condition, Extend, LogicalKind, Reg, Shift, Size, Transfer};
use bao_types::field;

/// A field of one bit.
#[inline]
pub(crate) fn flag(word: u32, bit: u32) -> bool
    requires { bit ≤ 31 }
    ensures { result ≡ flag_of (field word bit bit) }
{
    field(word, bit, bit) == 1
}

/// A field of at most eight bits.
#[inline]
pub(crate) fn small(word: u32, high: u32, low: u32) -> u8
    requires order { low ≤ high }
    requires bound { high ≤ 31 }
    requires size { high < low + 8 }
    ensures { result ≡ field word high low }
{
    field(word, high, low) as u8
}

/// A register's five bits from `low` on.
#[inline]
pub(crate) fn reg(word: u32, low: u32) -> Reg
    requires { low ≤ 27 }
    ensures value { result ≡ reg_of (field word (low + 4) low) }
    ensures bound { result.0 < 32 }
{
    Reg(small(word, low + 4, low))
}

/// The condition of four bits.
pub(crate) fn condition(bits: u32) -> Condition
    ensures { result ≡ condition_of bits }
{
    match bits {
        0 => Condition::Eq,
        1 => Condition::Ne,
        2 => Condition::Cs,
        3 => Condition::Cc,
        4 => Condition::Mi,
        5 => Condition::Pl,
        6 => Condition::Vs,
        7 => Condition::Vc,
        8 => Condition::Hi,
        9 => Condition::Ls,
        10 => Condition::Ge,
        11 => Condition::Lt,
        12 => Condition::Gt,
        13 => Condition::Le,
        14 => Condition::Al,
        _ => Condition::Nv,
    }
}

pub(crate) fn shift(bits: u32) -> Shift
    ensures { result ≡ shift_of bits }
{
    match bits {
        0 => Shift::Lsl,
        1 => Shift::Lsr,
        2 => Shift::Asr,
        _ => Shift::Ror,
    }
}

pub(crate) fn extend(option: u32) -> Extend
    ensures { result ≡ extend_of option }
{
    match option {
        0 => Extend::Uxtb,
        1 => Extend::Uxth,
        2 => Extend::Uxtw,
        3 => Extend::Uxtx,
        4 => Extend::Sxtb,
        5 => Extend::Sxth,
        6 => Extend::Sxtw,
        _ => Extend::Sxtx,
    }
}

pub(crate) fn logical(opc: u32) -> LogicalKind
    ensures { result ≡ logical_of opc }
{
    match opc {
        0 => LogicalKind::And,
        1 => LogicalKind::Orr,
        2 => LogicalKind::Eor,
        _ => LogicalKind::Ands,
    }
}

pub(crate) fn size(bits: u32) -> Size
    ensures { result ≡ size_of bits }
{
    match bits {
        0 => Size::Byte,
        1 => Size::Half,
        2 => Size::Word,
        _ => Size::Double,
    }
}

pub(crate) fn transfer(opc: u32) -> Transfer
    ensures { result ≡ transfer_of opc }
{
    match opc {
        0 => Transfer::Store,
        1 => Transfer::Load,
        2 => Transfer::LoadSigned,
        _ => Transfer::LoadSignedWord,
    }
}
