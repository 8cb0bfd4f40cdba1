//! A guest, and what is done while it runs.

use crate::bench::unmet;
use crate::drive::Row;
use std::alloc::Global;
use std::process::Abort;
use std::test::Fail;

/// `movz x0, #0xf8`, `msr icc_pmr_el1, x0`, `movz x0, #1` and `msr icc_igrpen1_el1, x0`: all priorities but the last pass, and
/// Group 1 is on.
pub(crate) const OPEN: [u32; 4] = [0xd280_1f00, 0xd518_4600, 0xd280_0020, 0xd518_cce0];

/// The bytes of a guest: `OPEN` and these words, and a handler of interrupts after it, where the vectors begin with the guest.
pub(crate) fn image_of(alloc: Global, words: &[u32], handler: &[u32]) -> Result<Vec<u8>, Fail> {
    let mut image = Vec::new(alloc);
    for word in OPEN.as_slice() {
        image.extend_from_slice(&word.to_le_bytes())?;
    }
    for word in words {
        image.extend_from_slice(&word.to_le_bytes())?;
    }
    if !handler.is_empty() {
        for _ in image.len()..0x280 {
            image.push(0)?;
        }
    }
    for word in handler {
        image.extend_from_slice(&word.to_le_bytes())?;
    }
    Ok(image)
}

/// The first row that a guest doesn't meet, by what it shows.
pub(crate) fn first_unmet(
    alloc: Global,
    image: &[u8],
    rows: &[Row],
) -> Result<Option<&'static str>, Fail> {
    if image.len() > 0x1_0000 {
        return Ok(Some("too many words"));
    }
    Ok(unmet(alloc, image, rows)??)
}

/// Runs a guest of `OPEN` and these words, with a handler or none, over these rows.
pub(crate) fn check(
    rt: &impl Abort,
    alloc: Global,
    words: &[u32],
    handler: &[u32],
    rows: &[Row],
) -> Result<(), Fail> {
    let image = image_of(alloc, words, handler)?;
    let first = first_unmet(alloc, &image, rows)?;
    assert_eq!(rt; first, None);
    Ok(())
}
