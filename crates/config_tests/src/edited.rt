//! A sample with one text replaced.

use std::alloc::{AllocError, Global};

/// The text with its one `old` replaced; the empty text where it has none.
pub(crate) fn edited(
    alloc: Global,
    text: &str,
    old: &str,
    new: &str,
) -> Result<String, AllocError> {
    match text.split_once(old) {
        Some((before, after)) => format!(in alloc; "{before}{new}{after}"),
        None => Ok(String::new(alloc)),
    }
}
