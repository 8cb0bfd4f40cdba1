//! Boards with one VM or two, what their guests run, and what a run of the whole program leaves, as one text.

use bao_command::play;
use outside::{MemShelf, MemSink};
use std::alloc::Global;
use std::process::Abort;
use std::test::Fail;

/// Four cores, two consoles and a controller.
static PLATFORM: &str = "version = 1\nhypervisor = { base = 0x0, size = 0x10000 }\n\
    [platform]\ncores = [16, 16, 16, 16]\ngicd = 0xaf000000\ngicr = 0xaf100000\n\
    banks = [{ base = 0x0, size = 0x200000 }]\n\
    ports = [{ id = 0, base = 0x9c090000, spi = 32 }, { id = 1, base = 0x9c0a0000, spi = 33 }]\n";

/// The table of a VM, whose guest begins at the begin of its memory.
pub(crate) type Vm = &'static str;

/// A VM with one core.
pub(crate) static ONE_CORE: Vm = "[[vm]]
name = \"a\"
image = \"a.bin\"
cores = [0]
load = 0x100000
entry = 0x100000
room = 0x8000
regions = [{ base = 0x100000, size = 0x10000, access = \"rwx\" }]
devs = [{ port = 0, irq = 40 }]
";

/// The same with two.
pub(crate) static TWO_CORES: Vm = "[[vm]]
name = \"a\"
image = \"a.bin\"
cores = [0, 1]
load = 0x100000
entry = 0x100000
room = 0x8000
regions = [{ base = 0x100000, size = 0x10000, access = \"rwx\" }]
devs = [{ port = 0, irq = 40 }]
";

/// Another VM with two cores, beside it.
pub(crate) static OTHER: Vm = "[[vm]]
name = \"b\"
image = \"b.bin\"
cores = [2, 3]
load = 0x140000
entry = 0x140000
room = 0x8000
regions = [{ base = 0x140000, size = 0x10000, access = \"rwx\" }]
devs = [{ port = 1, irq = 40 }]
";

/// Words of an image, and the place of the first, in bytes.
pub(crate) type Piece = (usize, &'static [u32]);

/// An image of pieces in order, with zeros between.
pub(crate) fn image(alloc: Global, pieces: &[Piece]) -> Result<Vec<u8>, Fail> {
    let mut bytes = Vec::new(alloc);
    for (place, words) in pieces {
        bytes.resize(*place, 0)?;
        push_words(&mut bytes, words)?;
    }
    Ok(bytes)
}

fn push_words(bytes: &mut Vec<u8>, words: &[u32]) -> Result<(), Fail> {
    for word in words {
        bytes.extend_from_slice(&word.to_le_bytes())?;
    }
    Ok(())
}

/// A core, how many steps it takes in a row, and the count at each.
pub(crate) type Turn = (u8, usize, u32);

/// The schedule of turns.
pub(crate) fn schedule(alloc: Global, turns: &[Turn]) -> Result<String, Fail> {
    let mut lines = String::new(alloc);
    for (core, times, count) in turns {
        let line = format!(in alloc; "s {core} {count}\n")?;
        lines.push_str(line.as_str().repeat(alloc, *times)?.as_str())?;
    }
    Ok(lines)
}

/// What a run of these VMs with the images of a and b leaves: its status, and after that the text.
pub(crate) fn told(
    alloc: Global,
    vms: &[Vm],
    images: [&[u8]; 2],
    schedule: &str,
) -> Result<String, Fail> {
    let mut config = String::from_str(alloc, PLATFORM)?;
    for vm in vms {
        config.push_str(vm)?;
    }
    let words = vec![in alloc;
        text(alloc, "run")?,
        text(alloc, "board")?,
        text(alloc, "turns")?,
    ]?;
    let names = vec![in alloc;
        text(alloc, "board")?,
        text(alloc, "a.bin")?,
        text(alloc, "b.bin")?,
        text(alloc, "turns")?,
    ]?;
    let [a, b] = images;
    let contents = vec![in alloc;
        config.as_bytes().to_vec(alloc)?,
        a.to_vec(alloc)?,
        b.to_vec(alloc)?,
        schedule.as_bytes().to_vec(alloc)?,
    ]?;
    let mut shelf = MemShelf::new(alloc, names, contents, Vec::new(alloc));
    let mut sink = MemSink::new(alloc, 1 << 20, Vec::new(alloc))?;
    let status = play(alloc, &words, &mut shelf, &mut sink)?.status.number();
    let report = std::str::from_utf8(sink.taken())?;
    Ok(format!(in alloc; "status {status}\n{report}")?)
}

fn text(alloc: Global, text: &str) -> Result<String, Fail> {
    Ok(String::from_str(alloc, text)?)
}

/// What a row shows, the words of core 0, each of which it steps through once, and a part of the report.
pub(crate) type Guest = (&'static str, &'static [u32], &'static str);

/// What a VM leaves whose core 0 steps through each of these words once.
pub(crate) fn told_of_words(alloc: Global, vm: Vm, words: &[u32]) -> Result<String, Fail> {
    let mut image = Vec::new(alloc);
    push_words(&mut image, words)?;
    let schedule = schedule(alloc, &[(0, words.len(), 0)])?;
    told(alloc, &[vm], [image.as_slice(), &[]], schedule.as_str())
}

/// Runs each guest in a VM, and looks for its part of the report.
pub(crate) fn check_guests(
    rt: &impl Abort,
    alloc: Global,
    vm: Vm,
    guests: &[Guest],
) -> Result<(), Fail> {
    for (shows, words, wanted) in guests {
        let told = told_of_words(alloc, vm, words)?;
        check_part(rt, shows, told.as_str(), wanted);
    }
    Ok(())
}

/// Looks for a part of what a run left.
pub(crate) fn check_part(rt: &impl Abort, shows: &str, told: &str, wanted: &str) {
    assert!(rt; told.contains(wanted), "{shows}: {wanted} in {told}");
}
