//! Decimal numbers.
ghost use Rattle.std.specs.Prelude.{◌≡◌, if◌then◌else◌};
ghost use Rattle.std.specs.Str.Parse.{digits_value};
ghost use Rattle.schedule.specs.Number.{number_of, is_numeral, is_padded};

/// The number that a text is, where it has decimal digits without leading zeros, and the number fits 64 bits.
#[tactic(auto, using(crate::proofs::Numbers::padded, crate::proofs::Numbers::plain))]
pub(crate) fn number(text: &[u8]) -> Option<u64>
    ensures { result ≡ number_of text.now }
{
    if is_padded(text) {
        return None;
    }
    digits(text)
}

/// Whether a zero stands before other bytes.
fn is_padded(text: &[u8]) -> bool
    ensures { result ≡ is_padded text.now }
{
    match text {
        [] => false,
        [_] => false,
        [first, ..] => *first == b'0',
    }
}

/// The number that decimal digits are.
fn digits(text: &[u8]) -> Option<u64>
    ensures { result ≡ (if is_numeral text.now then Some (digits_value 10 text.now) else None) }
{
    if text.is_empty() {
        return None;
    }
    let mut n: u64 = 0;
    for b in text {
        if !b.is_ascii_digit() {
            return None;
        }
        n = n.checked_mul(10)?.checked_add(u64::from(*b - b'0'))?;
    }
    Some(n)
}
