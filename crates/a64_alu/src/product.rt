//! Products.
#![tactic(auto, unfolding(crate::specs::Products::product_of))]

ghost use Rattle.std.specs.Prelude.{◌≡◌, ◌≤◌, ◌%◌, ◌^◌, ◌*ℤ◌};
ghost use Rattle.bao_types.specs.Bits.{field};
ghost use Rattle.a64_alu.specs.Numbers.{modulo, as_signed};
ghost use Rattle.a64_alu.specs.Products.{product_of, signed_words as signed_words_of};

use a64_decode::{ProductKind, low};

/// A product that is added to a number or subtracted from it, or the high half of a product of 128 bits.
pub(crate) fn product(width: u32, kind: ProductKind, a: u64, n: u64, m: u64) -> u64
    requires { width ≤ 64 }
    ensures { result ≡ product_of width kind a n m }
{
    match kind {
        ProductKind::Madd => low(a.wrapping_add(n.wrapping_mul(m)), width),
        ProductKind::Msub => low(a.wrapping_sub(n.wrapping_mul(m)), width),
        ProductKind::Smaddl => a.wrapping_add_signed(signed_words(n, m)),
        ProductKind::Smsubl => a.wrapping_sub_signed(signed_words(n, m)),
        ProductKind::Smulh => signed_high_half(n, m),
        ProductKind::Umaddl => a.wrapping_add(low(n, 32) * low(m, 32)),
        ProductKind::Umsubl => a.wrapping_sub(low(n, 32) * low(m, 32)),
        ProductKind::Umulh => ((u128::from(n) * u128::from(m)) >> 64) as u64,
    }
}

/// The product of the lowest 32 bits of two numbers, as signed numbers.
fn signed_words(n: u64, m: u64) -> i64
    ensures { result ≡ signed_words_of n m }
{
    i64::from(signed_word(n)) * i64::from(signed_word(m))
}

/// The signed number that the lowest 32 bits are.
fn signed_word(value: u64) -> i32
    ensures { result ≡ as_signed 32 (value % 2 ^ 32) }
{
    (low(value, 32) as u32).cast_signed()
}

/// The high half of the product of two signed numbers.
fn signed_high_half(n: u64, m: u64) -> u64
    ensures { result ≡ field (modulo 128 (as_signed 64 n *ℤ as_signed 64 m)) 127 64 }
{
    let product = n.cast_signed() as i128 * m.cast_signed() as i128;
    (product.cast_unsigned() >> 64) as u64
}
