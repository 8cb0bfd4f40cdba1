//! Hexadecimal numbers, as a line has them.
ghost use Rattle.std.specs.Prelude.{◌≡◌, ◌<◌, IsTrue};
ghost use Rattle.a64_asm.specs.Number.{is_hex_digit, hex_digit_value, hex_word_of};

/// The word that eight hexadecimal digits in lower case are.
#[tactic(auto, using(crate::proofs::Hex::digits_more, crate::proofs::Hex::value_more, crate::proofs::Hex::not_a_word), unfolding(crate::specs::Number::hex_word_of))]
pub(crate) fn hex_word(text: &[u8]) -> Option<u32>
    ensures { result ≡ hex_word_of text.now }
{
    if text.len() != 8 {
        return None;
    }
    let mut value = 0u32;
    for byte in text {
        if !is_hex_digit(*byte) {
            return None;
        }
        value = value * 16 + u32::from(hex_digit_value(*byte));
    }
    Some(value)
}

fn is_hex_digit(byte: u8) -> bool
    ensures { result ≡ is_hex_digit byte }
{
    byte.is_ascii_digit() || (byte >= b'a' && byte <= b'f')
}

/// The number that a digit is.
fn hex_digit_value(byte: u8) -> u8
    requires { IsTrue (is_hex_digit byte) }
    ensures value { result ≡ hex_digit_value byte }
    ensures bound { result < 16 }
{
    if byte.is_ascii_digit() {
        byte - b'0'
    } else {
        byte - b'a' + 10
    }
}
