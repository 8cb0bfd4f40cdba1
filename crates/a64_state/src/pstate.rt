//! The bits of PSTATE as one 32-bit number, in the layout of SPSR_EL1 (ARM DDI 0487, "SPSR_EL1"). No other bits are
//! kept. Each constant is the bit's weight, or the value of the mode field; each call reads a field of such a number,
//! be it PSTATE or an SPSR.

ghost use Rattle.std.specs.Prelude.{◌≡◌, ◌<◌};
ghost use Rattle.a64_state.specs.Pstate.{negative_flag, zero_flag, carry_flag, overflow_flag, illegal_state as illegal_state_bit, flags as flags_of, daif as daif_of, nzcv as nzcv_of};
ghost use Rattle.a64_state.specs.Parts.{ArePartsApart};

use bao_types::field;

/// Negative condition flag.
pub const N: u32 = 1 << 31;
/// Zero condition flag.
pub const Z: u32 = 1 << 30;
/// Carry condition flag.
pub const C: u32 = 1 << 29;
/// Overflow condition flag.
pub const V: u32 = 1 << 28;
/// Illegal execution state.
pub const IL: u32 = 1 << 20;
/// Debug exceptions are masked.
pub const D: u32 = 1 << 9;
/// SError is masked.
pub const A: u32 = 1 << 8;
/// IRQ is masked.
pub const I: u32 = 1 << 7;
/// FIQ is masked.
pub const F: u32 = 1 << 6;
/// The mode field, bits 4 to 0, is PSTATE modulo this.
pub const MODES: u32 = 1 << 5;
/// Mode: EL0, with SP_EL0.
pub const EL0T: u32 = 0;
/// Mode: EL1 with SP_EL0.
pub const EL1T: u32 = 4;
/// Mode: EL1 with SP_EL1.
pub const EL1H: u32 = 5;
/// PSTATE after a reset: EL1 with its own stack pointer, all interrupts masked, 0x3C5.
pub const RESET: u32 = D + A + I + F + EL1H;

/// N: the last result was negative.
#[inline]
pub fn negative(pstate: u32) -> bool
    ensures { result ≡ negative_flag pstate }
{
    field(pstate, 31, 31) == 1
}

/// Z: the last result was zero.
#[inline]
pub fn zero(pstate: u32) -> bool
    ensures { result ≡ zero_flag pstate }
{
    field(pstate, 30, 30) == 1
}

/// C: the last addition carried.
#[inline]
pub fn carry(pstate: u32) -> bool
    ensures { result ≡ carry_flag pstate }
{
    field(pstate, 29, 29) == 1
}

/// V: the last addition of signed numbers overflowed.
#[inline]
pub fn overflow(pstate: u32) -> bool
    ensures { result ≡ overflow_flag pstate }
{
    field(pstate, 28, 28) == 1
}

/// IL: the execution state is illegal.
pub fn illegal_state(pstate: u32) -> bool
    ensures { result ≡ illegal_state_bit pstate }
{
    field(pstate, 20, 20) == 1
}

/// The condition flags N, Z, C and V as a number of four bits, N the highest.
pub fn flags(pstate: u32) -> u32
    ensures value { result ≡ flags_of pstate }
    ensures bound { result < 16 }
{
    field(pstate, 31, 28)
}

/// The masks D, A, I and F as a number of four bits, D the highest.
pub fn daif(pstate: u32) -> u32
    ensures value { result ≡ daif_of pstate }
    ensures bound { result < 16 }
{
    field(pstate, 9, 6)
}

/// N, Z, C and V as a number of four bits, N the highest.
pub fn nzcv(n: bool, z: bool, c: bool, v: bool) -> u32
    ensures value { result ≡ nzcv_of n z c v }
    ensures bound { result < 16 }
{
    8 * u32::from(n) + 4 * u32::from(z) + 2 * u32::from(c) + u32::from(v)
}

/// A part of PSTATE that is written reads as what was written, and all other parts stay. The function does nothing; its
/// contract is the law.
pub fn parts_are_apart()
    ensures { ArePartsApart }
{}
