ghost use Rattle.std.specs.Prelude.{◌≡◌, ◌+◌, ◌*◌, ◌<◌, ◌≤◌, ◌++◌, length};
ghost use Rattle.std.specs.Fmt.{decimal, signed_decimal};
ghost use Rattle.numerals.specs.Hex.{hex};
ghost use Rattle.text_lines.specs.Digits.{hex_bytes, short_hex, trimmed};

use arrayvec::ArrayVec;
use numerals::hex_digit;

/// Appends a text.
pub fn push_text<const ROOM: usize>(line: &mut ArrayVec<u8, ROOM>, text: &[u8])
    requires { length line.old.items + length text.now ≤ ROOM }
    ensures text { line.new.items ≡ line.old.items ++ text.now }
    ensures len { length line.new.items ≡ length line.old.items + length text.now }
{
    let _ = line.try_extend_from_slice(text);
}

/// Appends a number, without leading zeros: at most ten digits.
pub fn push_decimal<const ROOM: usize>(line: &mut ArrayVec<u8, ROOM>, number: u32)
    requires { length line.old.items + 10 ≤ ROOM }
    ensures text { line.new.items ≡ line.old.items ++ decimal number }
    ensures len { length line.new.items ≤ length line.old.items + 10 }
{
    let mut digits = itoa::Buffer::new();
    push_text(line, digits.format(number).as_bytes());
}

/// Appends a number of 64 bits, without leading zeros: at most 20 digits.
pub fn push_long_decimal<const ROOM: usize>(line: &mut ArrayVec<u8, ROOM>, number: u64)
    requires { length line.old.items + 20 ≤ ROOM }
    ensures text { line.new.items ≡ line.old.items ++ decimal number }
    ensures len { length line.new.items ≤ length line.old.items + 20 }
{
    let mut digits = itoa::Buffer::new();
    push_text(line, digits.format(number).as_bytes());
}

/// Appends a number that may be negative, without leading zeros: at most 20 bytes.
pub fn push_signed<const ROOM: usize>(line: &mut ArrayVec<u8, ROOM>, number: i64)
    requires { length line.old.items + 20 ≤ ROOM }
    ensures text { line.new.items ≡ line.old.items ++ signed_decimal number }
    ensures len { length line.new.items ≤ length line.old.items + 20 }
{
    let mut digits = itoa::Buffer::new();
    push_text(line, digits.format(number).as_bytes());
}

/// Appends `0x` and the hexadecimal digits of a number, without leading zeros: at most 18 bytes.
#[tactic(auto, using(numerals::proofs::Hex::length_hex), unfolding(crate::specs::Digits::short_hex))]
pub fn push_short_hex<const ROOM: usize>(line: &mut ArrayVec<u8, ROOM>, number: u64)
    requires { length line.old.items + 18 ≤ ROOM }
    ensures text { line.new.items ≡ line.old.items ++ short_hex number }
    ensures len { length line.new.items ≤ length line.old.items + 18 }
{
    let mut digits = ArrayVec::<u8, 16>::new();
    push_hex(&mut digits, 16, number);
    push_text(line, b"0x");
    push_text(line, trimmed(&digits));
}

/// The digits without the zeros in front. The last digit stays.
#[tactic(auto, using(crate::proofs::Digits::trimmed_more, crate::proofs::Digits::trimmed_done))]
fn trimmed(digits: &[u8]) -> &[u8]
    ensures text { result.now ≡ trimmed digits.now }
    ensures len { length result.now ≤ length digits.now }
{
    let mut rest = digits;
    while rest.len() > 1 && rest[0] == b'0' {
        let (_zero, others) = rest.split_at(1);
        rest = others;
    }
    rest
}

/// Appends this many hexadecimal digits of a number, the lowest ones.
#[tactic(auto, using(numerals::proofs::Hex::hex_more, numerals::proofs::Hex::length_hex), unfolding(numerals::specs::Hex::hex))]
pub fn push_hex<const ROOM: usize>(line: &mut ArrayVec<u8, ROOM>, digits: u32, number: u64)
    requires { length line.old.items + digits ≤ ROOM }
    ensures text { line.new.items ≡ line.old.items ++ hex digits number }
    ensures len { length line.new.items ≡ length line.old.items + digits }
{
    if digits > 0 {
        push_hex(line, digits - 1, number / 16);
        line.push(hex_digit((number % 16) as u8));
    }
}

/// Appends two digits for each byte.
#[tactic(auto, using(crate::proofs::Digits::hex_bytes_more, crate::proofs::Digits::length_hex_bytes_take), unfolding(crate::specs::Digits::hex_bytes))]
pub fn push_hex_bytes<const ROOM: usize>(line: &mut ArrayVec<u8, ROOM>, bytes: &[u8])
    requires { length line.old.items + 2 * length bytes.now ≤ ROOM }
    ensures text { line.new.items ≡ line.old.items ++ hex_bytes bytes.now }
    ensures len { length line.new.items ≡ length line.old.items + 2 * length bytes.now }
{
    for byte in bytes {
        push_hex(line, 2, u64::from(*byte));
    }
}
