//! Reversals and counts of bits.
#![tactic(auto, unfolding(crate::specs::Reversals::one_source))]

ghost use Rattle.std.specs.Prelude.{◌≡◌, ◌-◌, ◌/◌, ◌%◌, ◌<◌, ◌≤◌, ◌^◌, IsTrue, not, ◌||◌};
ghost use Rattle.std.specs.Int.{w16, w32, swap_bytes, reverse_bits_onto};
ghost use Rattle.std.specs.Int.Count.{count_leading_zeros};
ghost use Rattle.a64_decode.specs.Lawful.{width_of, is_long_reversal};
ghost use Rattle.a64_alu.specs.Reversals.{each, without_sign as without_sign_of, one_source as one_source_of};

use crate::number::inverted;
use a64_decode::{OneSourceKind, low, width};

/// The bits or the bytes of elements in the opposite order, the zeros above the highest one, and the bits below the
/// highest bit that are like it, down to the first that isn't.
pub(crate) fn one_source(wide: bool, kind: OneSourceKind, value: u64) -> u64
    requires value { value < 2 ^ width_of wide }
    requires form { IsTrue (wide || not (is_long_reversal kind)) }
    ensures { result ≡ one_source_of (width_of wide) kind value }
{
    match kind {
        OneSourceKind::Rbit => reversed(wide, value),
        OneSourceKind::Rev16 => swapped_half_words(wide, value),
        OneSourceKind::Rev32 => swapped_words(wide, value),
        OneSourceKind::Rev64 => value.swap_bytes(),
        OneSourceKind::Clz => leading_zeros(wide, value),
        OneSourceKind::Cls => leading_signs(wide, value),
    }
}

/// The bits in the opposite order.
fn reversed(wide: bool, value: u64) -> u64
    requires { value < 2 ^ width_of wide }
    ensures { result ≡ reverse_bits_onto (width_of wide) value 0 }
{
    if wide {
        value.reverse_bits()
    } else {
        u64::from((value as u32).reverse_bits())
    }
}

/// The bytes of each half word in the opposite order.
fn swapped_half_words(wide: bool, value: u64) -> u64
    requires { value < 2 ^ width_of wide }
    ensures { result ≡ each (swap_bytes w16) 16 (width_of wide / 16) value }
{
    let second = value / END;
    let third = second / END;
    let low = swapped_half_word(value) + END * swapped_half_word(second);
    if wide {
        let high = swapped_half_word(third) + END * swapped_half_word(third / END);
        low + END * END * high
    } else {
        low
    }
}

/// The end of the half words.
const END: u64 = 1 << 16;

/// The two bytes of the lowest half word in the opposite order.
fn swapped_half_word(value: u64) -> u64
    ensures value { result ≡ swap_bytes w16 (value % 2 ^ 16) }
    ensures bound { result < 2 ^ 16 }
{
    u64::from((low(value, 16) as u16).swap_bytes())
}

/// The bytes of each word in the opposite order.
fn swapped_words(wide: bool, value: u64) -> u64
    requires { value < 2 ^ width_of wide }
    ensures { result ≡ each (swap_bytes w32) 32 (width_of wide / 32) value }
{
    if wide {
        swapped_word(value) + (1 << 32) * swapped_word(value / (1 << 32))
    } else {
        swapped_word(value)
    }
}

/// The four bytes of the lowest word in the opposite order.
fn swapped_word(value: u64) -> u64
    ensures value { result ≡ swap_bytes w32 (value % 2 ^ 32) }
    ensures bound { result < 2 ^ 32 }
{
    u64::from((low(value, 32) as u32).swap_bytes())
}

/// The zeros above the highest one.
fn leading_zeros(wide: bool, value: u64) -> u64
    requires { value < 2 ^ width_of wide }
    ensures { result ≡ count_leading_zeros (width_of wide) value }
{
    let zeros = if wide {
        value.leading_zeros()
    } else {
        (value as u32).leading_zeros()
    };
    u64::from(zeros)
}

/// The bits below the highest bit that are like it, down to the first that isn't.
fn leading_signs(wide: bool, value: u64) -> u64
    requires { value < 2 ^ width_of wide }
    ensures { result ≡ count_leading_zeros (width_of wide) (without_sign_of (width_of wide) value) - 1 }
{
    leading_zeros(wide, without_sign(width(wide), value)) - 1
}

/// A number, inverted where its highest bit is set.
fn without_sign(width: u32, value: u64) -> u64
    requires some { 0 < width }
    requires width { width ≤ 64 }
    requires value { value < 2 ^ width }
    ensures value { result ≡ without_sign_of width value }
    ensures bound { result < 2 ^ (width - 1) }
{
    if value >= 1 << (width - 1) {
        inverted(width, value)
    } else {
        value
    }
}
