//! Runs of the whole program over the simulated board, each told as one text.

use bao_command::{Outcome, play};
use outside::{MemShelf, MemSink};
use sample_configs::ONE_VM;
use std::alloc::Global;
use std::process::Abort;
use std::test::Fail;

/// `b .`, which goes on for ever.
pub(crate) const FOREVER: [u32; 1] = [0x1400_0000];

pub(crate) const RUN: [&str; 3] = ["run", "config.toml", "schedule.txt"];

pub(crate) const CHECK: [&str; 2] = ["check", "config.toml"];

/// `movz x0, #5` and `b .`
pub(crate) const FIVE: [u32; 2] = [0xd280_00a0, 0x1400_0000];

pub(crate) fn strings(alloc: Global, texts: &[&str]) -> Result<Vec<String>, Fail> {
    let mut strings = Vec::new(alloc);
    for text in texts {
        strings.push(String::from_str(alloc, text)?)?;
    }
    Ok(strings)
}

/// The bytes of instruction words.
pub(crate) fn image_of(alloc: Global, words: &[u32]) -> Result<Vec<u8>, Fail> {
    let mut bytes = Vec::new(alloc);
    for word in words {
        bytes.extend_from_slice(&word.to_le_bytes())?;
    }
    Ok(bytes)
}

/// A schedule of this number of steps.
pub(crate) fn steps(alloc: Global, count: usize) -> Result<Vec<u8>, Fail> {
    Ok("s 0 0\n".repeat(alloc, count)?.into_bytes())
}

/// A shelf with a configuration, an image and a schedule, whose calls of these numbers, from 1, fail.
pub(crate) fn shelf_of(
    alloc: Global,
    config: &[u8],
    image: &[u8],
    schedule: &[u8],
    failing: &[u32],
) -> Result<MemShelf, Fail> {
    named_shelf(alloc, config, "a.bin", image, schedule, failing)
}

/// The same with an image of this name.
pub(crate) fn named_shelf(
    alloc: Global,
    config: &[u8],
    name: &str,
    image: &[u8],
    schedule: &[u8],
    failing: &[u32],
) -> Result<MemShelf, Fail> {
    let names = vec![in alloc;
        String::from_str(alloc, "config.toml")?,
        String::from_str(alloc, name)?,
        String::from_str(alloc, "schedule.txt")?,
    ]?;
    let contents = vec![in alloc;
        config.to_vec(alloc)?,
        image.to_vec(alloc)?,
        schedule.to_vec(alloc)?,
    ]?;
    Ok(MemShelf::new(alloc, names, contents, failing.to_vec(alloc)?))
}

/// A shelf with a configuration of two VMs, their images by name, and a schedule.
pub(crate) fn shelf_of_two(
    alloc: Global,
    config: &[u8],
    names: [&str; 2],
    images: [&[u8]; 2],
    schedule: &[u8],
) -> Result<MemShelf, Fail> {
    let names = vec![in alloc;
        String::from_str(alloc, "config.toml")?,
        String::from_str(alloc, names[0])?,
        String::from_str(alloc, names[1])?,
        String::from_str(alloc, "schedule.txt")?,
    ]?;
    let contents = vec![in alloc;
        config.to_vec(alloc)?,
        images[0].to_vec(alloc)?,
        images[1].to_vec(alloc)?,
        schedule.to_vec(alloc)?,
    ]?;
    Ok(MemShelf::new(alloc, names, contents, Vec::new(alloc)))
}

/// The same with the sample and no call that fails.
pub(crate) fn sample_shelf(alloc: Global, image: &[u8], schedule: &[u8]) -> Result<MemShelf, Fail> {
    shelf_of(alloc, ONE_VM.as_bytes(), image, schedule, &[])
}

/// What a call of the program left, whose sink fails at the puts of these numbers, from 1: its status, how many steps the
/// board was entered for, how often the shelf was called and failed; and below that the text that the sink took.
pub(crate) fn told(
    alloc: Global,
    words: &[&str],
    shelf: &mut MemShelf,
    failing_puts: &[u32],
) -> Result<String, Fail> {
    let words = strings(alloc, words)?;
    let mut sink = MemSink::new(alloc, 1 << 20, failing_puts.to_vec(alloc)?)?;
    let Outcome { status, entered } = play(alloc, &words, shelf, &mut sink)?;
    let number = status.number();
    let (calls, faults) = (shelf.calls(), shelf.faults());
    let text = std::str::from_utf8(sink.taken())?;
    Ok(format!(in alloc;
        "status {number} entered {entered} calls {calls} faults {faults}\n{text}"
    )?)
}

/// Compares what a call left with what is wanted.
pub(crate) fn check(rt: &impl Abort, shows: &str, told: &str, wanted: &str) {
    assert_eq!(rt; told, wanted, "{shows}");
}
