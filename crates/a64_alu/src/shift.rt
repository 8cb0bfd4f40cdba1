//! Shifts.
#![tactic(auto, unfolding(crate::specs::Shifts::shifted))]

ghost use Rattle.std.specs.Prelude.{◌≡◌, ◌≤◌, ◌<◌, ◌*◌, ◌%◌, ◌^◌};
ghost use Rattle.bao_types.specs.Bitmask.{rotated as rotated_by};
ghost use Rattle.a64_decode.specs.declared.operand.Shift.TheVariants.{Asr, Ror};
ghost use Rattle.a64_alu.specs.Shifts.{shifted as shifted_by};

use crate::number::inverted;
use a64_decode::{Shift, low};

/// A number of `width` bits, shifted by less than its width.
pub(crate) fn shifted(width: u32, shift: Shift, value: u64, amount: u32) -> u64
    requires width { width ≤ 64 }
    requires value { value < 2 ^ width }
    requires amount { amount < width }
    ensures value { result ≡ shifted_by width shift value amount }
    ensures bound { result < 2 ^ width }
{
    match shift {
        Shift::Lsl => shifted_left(width, value, amount),
        Shift::Lsr => value >> amount,
        Shift::Asr => shifted_with_sign(width, value, amount),
        Shift::Ror => rotated(width, value, amount),
    }
}

/// Shifted left, with zeros below.
fn shifted_left(width: u32, value: u64, amount: u32) -> u64
    requires width { width ≤ 64 }
    requires amount { amount < width }
    ensures value { result ≡ value * 2 ^ amount % 2 ^ width }
    ensures bound { result < 2 ^ width }
{
    low(value << amount, width)
}

/// Shifted right, with copies of the highest bit above.
fn shifted_with_sign(width: u32, value: u64, amount: u32) -> u64
    requires width { width ≤ 64 }
    requires value { value < 2 ^ width }
    requires amount { amount < width }
    ensures value { result ≡ shifted_by width Asr value amount }
    ensures bound { result < 2 ^ width }
{
    if value < 1 << (width - 1) {
        value >> amount
    } else {
        inverted(width, inverted(width, value) >> amount)
    }
}

/// Rotated right.
fn rotated(width: u32, value: u64, amount: u32) -> u64
    requires width { width ≤ 64 }
    requires value { value < 2 ^ width }
    requires amount { amount < width }
    ensures value { result ≡ rotated_by width value amount }
    ensures bound { result < 2 ^ width }
{
    if amount == 0 {
        return value;
    }
    (value >> amount) + (low(value, amount) << (width - amount))
}
