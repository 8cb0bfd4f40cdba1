//! Numbers as text. Decimal ones are read as a word or a line has them: without sign, and without leading zeros. Of
//! hexadecimal ones there are the digits.
#![tactic(auto)]

ghost use Rattle.std.specs.Prelude.{◌≡◌, ◌<◌, false};
ghost use Rattle.std.specs.Fmt.{digit_glyph};
ghost use Rattle.numerals.specs.Numeral.{number_of, has_no_leading_zero};

/// The number that a text is, if it is a decimal one without leading zeros. One above 2^64 - 1 counts as that one.
#[tactic(auto, using(crate::proofs::Digits::digits_more, crate::proofs::Digits::value_cut, crate::proofs::Digits::not_a_number), unfolding(crate::specs::Numeral::number_of))]
pub fn number(text: &[u8]) -> Option<u64>
    ensures { result ≡ number_of text.now }
{
    if !has_no_leading_zero(text) {
        return None;
    }
    let mut value = 0u64;
    for byte in text {
        if !byte.is_ascii_digit() {
            return None;
        }
        value = value
            .saturating_mul(10)
            .saturating_add(u64::from(*byte - b'0'));
    }
    Some(value)
}

/// The hexadecimal digit of a number below 16, in lower case.
#[inline]
pub fn hex_digit(digit: u8) -> u8
    requires { digit < 16 }
    ensures { result ≡ digit_glyph false digit }
{
    if digit < 10 {
        b'0' + digit
    } else {
        b'a' + (digit - 10)
    }
}

fn has_no_leading_zero(text: &[u8]) -> bool
    ensures { result ≡ has_no_leading_zero text.now }
{
    match text {
        [] => false,
        [_] => true,
        [first, ..] => *first != b'0',
    }
}
