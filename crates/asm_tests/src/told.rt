//! What the calls answer, as text.

ghost use Rattle.std.specs.Prelude.{◌<◌};

use a64_asm::{AsmError, ListError, assemble, list};
use std::alloc::{AllocError, Global};

/// The bytes that a source gives, two digits each, or the line and the rule.
pub(crate) fn told(alloc: Global, source: &[u8]) -> Result<String, AllocError> {
    if source.len() >= 1 << 32 {
        return "too long".to_owned(alloc);
    }
    match assemble(alloc, source) {
        Ok(image) => digits(alloc, &image),
        Err(AsmError::BadLine { line, rule }) => format!(in alloc; "line {line} rule {rule}"),
        Err(AsmError::OutOfMemory) => Err(AllocError),
    }
}

/// How many bytes a source gives, and the first and the last four of them; or the line and the rule.
pub(crate) fn told_ends(alloc: Global, source: &[u8]) -> Result<String, AllocError> {
    if source.len() >= 1 << 32 {
        return "too long".to_owned(alloc);
    }
    match assemble(alloc, source) {
        Ok(image) => ends(alloc, &image),
        Err(AsmError::BadLine { line, rule }) => format!(in alloc; "line {line} rule {rule}"),
        Err(AsmError::OutOfMemory) => Err(AllocError),
    }
}

fn ends(alloc: Global, image: &[u8]) -> Result<String, AllocError> {
    let len = image.len();
    if len < 4 {
        return digits(alloc, image);
    }
    let first = digits(alloc, &image[..4])?;
    let last = digits(alloc, &image[len - 4..])?;
    format!(in alloc; "{len} {first} {last}")
}

/// The listing of an image, or its length.
pub(crate) fn told_listing(alloc: Global, image: &[u8]) -> Result<String, AllocError> {
    if image.len() >= 1 << 32 {
        return "too long".to_owned(alloc);
    }
    match list(alloc, image) {
        Ok(text) => match String::from_utf8(text) {
            Ok(text) => Ok(text),
            Err(_) => "no text".to_owned(alloc),
        },
        Err(ListError::BadLength { len }) => format!(in alloc; "length {len}"),
        Err(ListError::OutOfMemory) => Err(AllocError),
    }
}

/// The bytes that two digits each say.
pub(crate) fn bytes_of(alloc: Global, digits: &str) -> Result<Vec<u8>, AllocError> {
    let mut bytes = Vec::new(alloc);
    let mut high = None;
    for digit in digits.bytes() {
        match high {
            None => high = Some(digit),
            Some(first) => {
                bytes.push(value_of(first) * 16 + value_of(digit))?;
                high = None;
            }
        }
    }
    Ok(bytes)
}

/// The listing of bytes of two digits each.
pub(crate) fn listed(alloc: Global, digits: &str) -> Result<String, AllocError> {
    told_listing(alloc, &bytes_of(alloc, digits)?)
}

/// The bytes, two digits each, that the listing of such bytes gives.
pub(crate) fn there_and_back(alloc: Global, digits: &str) -> Result<String, AllocError> {
    told(alloc, listed(alloc, digits)?.as_bytes())
}

/// A text with `~` for each end of a line, with those ends.
pub(crate) fn with_ends(alloc: Global, text: &str) -> Result<String, AllocError> {
    text.replace(alloc, '~', "\n")
}

/// The value of a hexadecimal digit, 0 for another byte.
fn value_of(digit: u8) -> u8
    ensures { result < 16 }
{
    match digit {
        b'0'..=b'9' => digit - b'0',
        b'a'..=b'f' => digit - b'a' + 10,
        _ => 0,
    }
}

/// Two digits for each byte.
pub(crate) fn digits(alloc: Global, bytes: &[u8]) -> Result<String, AllocError> {
    let mut text = String::new(alloc);
    for byte in bytes {
        let two = format!(in alloc; "{byte:02x}")?;
        text.push_str(two.as_str())?;
    }
    Ok(text)
}
