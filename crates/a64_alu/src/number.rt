//! Numbers of a width in bits, inverted, moved and replaced.

ghost use Rattle.std.specs.Prelude.{◌≡◌, ◌≤◌, ◌<◌, ◌+◌, ◌*◌, ◌^◌};
ghost use Rattle.a64_state.specs.Bits.{with_bits as with_bits_of};
ghost use Rattle.a64_alu.specs.Numbers.{inverted as inverted_of};

use a64_decode::low;

/// Each of the bits inverted.
pub(crate) fn inverted(width: u32, value: u64) -> u64
    requires width { width ≤ 64 }
    requires value { value < 2 ^ width }
    ensures value { result ≡ inverted_of width value }
    ensures bound { result < 2 ^ width }
{
    if width == 64 {
        u64::MAX - value
    } else {
        (1 << width) - 1 - value
    }
}

/// A number in which `part` has replaced the `count` bits from `place` on.
pub(crate) fn with_bits(value: u64, place: u32, count: u32, part: u64) -> u64
    requires some { 0 < count }
    requires room { place + count ≤ 64 }
    requires part { part < 2 ^ count }
    ensures { result ≡ with_bits_of value place count part }
{
    let above = value - low(value, place + count);
    above + at(part, place, count) + low(value, place)
}

/// A number of `count` bits at a place, with zeros below.
pub(crate) fn at(part: u64, place: u32, count: u32) -> u64
    requires some { 0 < count }
    requires room { place + count ≤ 64 }
    requires part { part < 2 ^ count }
    ensures value { result ≡ part * 2 ^ place }
    ensures bound { result < 2 ^ (place + count) }
{
    part << place
}
