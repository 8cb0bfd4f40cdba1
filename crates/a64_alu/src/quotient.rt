//! Divisions, and shifts by a register.
#![tactic(auto, unfolding(crate::specs::Quotients::two_sources))]

ghost use Rattle.std.specs.Prelude.{◌≡◌, ◌≤◌, ◌<◌, ◌-◌, ◌%◌, ◌^◌, int_div};
ghost use Rattle.a64_alu.specs.Numbers.{modulo, as_signed};
ghost use Rattle.a64_alu.specs.Quotients.{two_sources as two_sources_of};

use crate::number::inverted;
use crate::shift::shifted;
use a64_decode::{Shift, TwoSourceKind};

/// A quotient, rounded towards zero and 0 for the divisor 0; or a shift by an amount modulo the width.
pub(crate) fn two_sources(width: u32, kind: TwoSourceKind, n: u64, m: u64) -> u64
    requires some { 0 < width }
    requires width { width ≤ 64 }
    requires n { n < 2 ^ width }
    requires m { m < 2 ^ width }
    ensures { result ≡ two_sources_of width kind n m }
{
    let amount = (m % u64::from(width)) as u32;
    match kind {
        TwoSourceKind::Udiv => { if m == 0 { 0 } else { n / m } }
        TwoSourceKind::Sdiv => {
            if m == 0 {
                0
            } else {
                signed_quotient(width, n, m)
            }
        }
        TwoSourceKind::Lslv => shifted(width, Shift::Lsl, n, amount),
        TwoSourceKind::Lsrv => shifted(width, Shift::Lsr, n, amount),
        TwoSourceKind::Asrv => shifted(width, Shift::Asr, n, amount),
        TwoSourceKind::Rorv => shifted(width, Shift::Ror, n, amount),
    }
}

/// The quotient of signed numbers, rounded towards zero.
fn signed_quotient(width: u32, n: u64, m: u64) -> u64
    requires some { 0 < width }
    requires width { width ≤ 64 }
    requires n { n < 2 ^ width }
    requires m { m < 2 ^ width }
    requires divisor { 0 < m }
    ensures { result ≡ modulo width (int_div (as_signed width n) (as_signed width m)) }
{
    let sign = 1 << (width - 1);
    match (n >= sign, m >= sign) {
        (false, false) => n / m,
        (false, true) => negated(width, n / magnitude(width, m)),
        (true, false) => negated(width, magnitude(width, n) / m),
        (true, true) => magnitude(width, n) / magnitude(width, m),
    }
}

/// How far a negative number is below 0.
fn magnitude(width: u32, value: u64) -> u64
    requires some { 0 < width }
    requires width { width ≤ 64 }
    requires negative { 2 ^ (width - 1) ≤ value }
    requires value { value < 2 ^ width }
    ensures value { result ≡ 2 ^ width - value }
    ensures some { 0 < result }
    ensures bound { result < 2 ^ width }
{
    inverted(width, value) + 1
}

/// Minus a number, modulo 2 to the power of the width.
fn negated(width: u32, value: u64) -> u64
    requires width { width ≤ 64 }
    requires value { value < 2 ^ width }
    ensures { result ≡ (2 ^ width - value) % 2 ^ width }
{
    if value == 0 {
        0
    } else {
        inverted(width, value) + 1
    }
}
