//! Words that are drawn, sources of many lines, and lengths.

use crate::told::{digits, there_and_back, told_ends, told_listing};
use std::alloc::{AllocError, Global};
use std::process::Abort;

/// Words drawn one after another (Knuth's MMIX generator).
fn drawn(alloc: Global, seed: u64, count: usize) -> Result<Vec<u8>, AllocError> {
    let mut state = seed;
    let mut image = Vec::new(alloc);
    for _word in 0..count {
        state = state
            .wrapping_mul(6_364_136_223_846_793_005)
            .wrapping_add(1_442_695_040_888_963_407);
        image.extend_from_slice(&((state >> 32) as u32).to_le_bytes())?;
    }
    Ok(image)
}

fn check_drawn(rt: &impl Abort, alloc: Global, seed: u64) -> Result<(), AllocError> {
    let image = digits(alloc, &drawn(alloc, seed, 4096)?)?;
    let back = there_and_back(alloc, image.as_str())?;
    assert!(rt; back.as_str() == image.as_str(), "seed {seed}");
    Ok(())
}

#[test]
fn drawn_words_come_back(rt: HostRuntime) -> Result<(), AllocError> {
    for seed in 0..8 {
        check_drawn(&rt, rt.alloc(), seed)?;
    }
    Ok(())
}

/// A first text, this many times a second one, and a last.
fn repeated(
    alloc: Global,
    first: &str,
    middle: &str,
    count: u32,
    last: &str,
) -> Result<String, AllocError> {
    let mut text = first.to_owned(alloc)?;
    for _line in 0..count {
        text.push_str(middle)?;
    }
    text.push_str(last)?;
    Ok(text)
}

/// What begins the source, what is repeated how often, what ends it, and the answer.
type Row = (&'static str, &'static str, u32, &'static str, &'static str);

/// Labels at the greatest distance forward of each branch, and one word past it. Lines without a form count as words too,
/// and so does what stands after the limit of an image.
#[rattlefmt::skip]
static DISTANCES: [Row; 6] = [
    ("cbz x0, there\n", "q\n", 262_142, "there:\n", "line 2 rule 1"),
    ("cbz x0, there\n", "q\n", 262_143, "there:\n", "line 1 rule 2"),
    ("cbnz w0, there\n", "q\n", 262_142, "there:\n", "line 2 rule 1"),
    ("cbnz w0, there\n", "q\n", 262_143, "there:\n", "line 1 rule 2"),
    ("b.eq there\n", "q\n", 262_142, "there:\n", "line 2 rule 1"),
    ("b.eq there\n", "q\n", 262_143, "there:\n", "line 1 rule 2"),
];

/// The same of the branches whose offset has 26 bits.
#[rattlefmt::skip]
static FAR_DISTANCES: [Row; 4] = [
    ("b there\n", "q\n", 33_554_430, "there:\n", "line 2 rule 1"),
    ("b there\n", "q\n", 33_554_431, "there:\n", "line 1 rule 2"),
    ("bl there\n", "q\n", 33_554_430, "there:\n", "line 2 rule 1"),
    ("bl there\n", "q\n", 33_554_431, "there:\n", "line 1 rule 2"),
];

/// An image of the greatest length, with a label at the greatest distance back that fits there, and what breaks a rule
/// after it: the limit alone, and another rule before it.
#[rattlefmt::skip]
static LIMITS: [Row; 8] = [
    ("back:\n", "nop\n", 262_143, "cbnz w1, back\n", "1048576 1f2003d5 21008035"),
    ("back:\n", "nop\n", 262_143, "b.le back\n;\n\nx:\n", "1048576 1f2003d5 2d008054"),
    ("", "nop\n", 262_144, "nop\n", "line 262145 rule 5"),
    ("back:\n", "nop\n", 262_144, ";\n\nx:\ncbnz w1, back\n", "line 262149 rule 5"),
    ("", "nop\n", 262_144, "nop", "line 262145 rule 1"),
    ("", "nop\n", 262_144, "q\n", "line 262145 rule 1"),
    ("", "nop\n", 262_144, "movz x0, 65536, 0\n", "line 262145 rule 2"),
    ("", "nop\n", 262_144, "b there\n", "line 262145 rule 3"),
];

fn check_row(rt: &impl Abort, alloc: Global, row: &Row) -> Result<(), AllocError> {
    let (first, middle, count, last, want) = *row;
    let text = repeated(alloc, first, middle, count, last)?;
    let said = told_ends(alloc, text.as_bytes())?;
    assert!(rt; said.as_str() == want, "{first} {count} {last}: {said}");
    Ok(())
}

#[test]
fn distances(rt: HostRuntime) -> Result<(), AllocError> {
    for row in DISTANCES.as_slice() {
        check_row(&rt, rt.alloc(), row)?;
    }
    Ok(())
}

#[test]
fn far_distances(rt: HostRuntime) -> Result<(), AllocError> {
    for row in FAR_DISTANCES.as_slice() {
        check_row(&rt, rt.alloc(), row)?;
    }
    Ok(())
}

#[test]
fn limits(rt: HostRuntime) -> Result<(), AllocError> {
    for row in LIMITS.as_slice() {
        check_row(&rt, rt.alloc(), row)?;
    }
    Ok(())
}

/// A length, and what the listing of this many zeros begins with.
static LENGTHS: [(usize, &str); 7] = [
    (0, ""),
    (1, "length 1"),
    (3, "length 3"),
    (4, ".word 00000000"),
    (1_048_576, ".word 00000000"),
    (1_048_577, "length 1048577"),
    (1_048_580, "length 1048580"),
];

fn check_length(rt: &impl Abort, alloc: Global, len: usize, want: &str) -> Result<(), AllocError> {
    let image = vec![in alloc; 0u8; len]?;
    let said = told_listing(alloc, &image)?;
    assert!(rt; said.as_str().starts_with(want), "{len}: {want}");
    Ok(())
}

#[test]
fn lengths(rt: HostRuntime) -> Result<(), AllocError> {
    for (len, want) in LENGTHS.as_slice() {
        check_length(&rt, rt.alloc(), *len, want)?;
    }
    Ok(())
}
