//! Numbers of a width in bits.

ghost use Rattle.std.specs.Prelude.{◌≡◌, ◌≤◌, ◌<◌, ◌%◌, ◌^◌};
ghost use Rattle.a64_decode.specs.Lawful.{width_of, IsSigned};
ghost use Rattle.a64_decode.specs.Operands.{sign_extend as sign_extended, extended as extended_as, loaded as loaded_as};

use crate::Extend;

/// The bits of the registers that a form works on.
#[inline]
pub fn width(wide: bool) -> u32
    ensures value { result ≡ width_of wide }
    ensures least { 32 ≤ result }
    ensures most { result ≤ 64 }
{
    if wide { 64 } else { 32 }
}

/// The lowest bits of a number.
#[inline(always)]
pub fn low(value: u64, count: u32) -> u64
    requires { count ≤ 64 }
    ensures value { result ≡ value % 2 ^ count }
    ensures bound { result < 2 ^ count }
{
    if count == 64 {
        value
    } else {
        value % (1 << count)
    }
}

/// A number of `width` bits with copies of its highest bit above, up to bit 63 (ARM DDI 0487, "SignExtend").
#[inline]
pub fn sign_extend(width: u32, value: u64) -> u64
    requires some { 0 < width }
    requires width { width ≤ 64 }
    requires value { value < 2 ^ width }
    ensures value { result ≡ sign_extended width value }
    ensures signed { IsSigned width result }
{
    if width == 64 || value < 1 << (width - 1) {
        value
    } else {
        value + (u64::MAX - ((1 << width) - 1))
    }
}

/// The lowest 8, 16, 32 or 64 bits, with zeros or with copies of the highest of them above (ARM DDI 0487, "ExtendReg").
pub fn extended(extend: Extend, value: u64) -> u64
    ensures { result ≡ extended_as extend value }
{
    match extend {
        Extend::Uxtb => low(value, 8),
        Extend::Uxth => low(value, 16),
        Extend::Uxtw => low(value, 32),
        Extend::Sxtb => sign_extend(8, low(value, 8)),
        Extend::Sxth => sign_extend(16, low(value, 16)),
        Extend::Sxtw => sign_extend(32, low(value, 32)),
        Extend::Uxtx | Extend::Sxtx => value,
    }
}

/// What a register is after a load of `width` bits: with zeros above them, or with their sign in a register of 64 or,
/// unless `wide`, of 32 bits.
pub fn loaded(signed: bool, wide: bool, width: u32, element: u64) -> u64
    requires some { 0 < width }
    requires width { width ≤ 64 }
    requires value { element < 2 ^ width }
    ensures { result ≡ loaded_as signed wide width element }
{
    if !signed {
        return element;
    }
    let value = sign_extend(width, element);
    if wide { value } else { low(value, 32) }
}
