//! What the program shows of a configuration's packing.

use crate::refusals::BROKEN;
use crate::runs::{CHECK, check, shelf_of, told};
use crate::samples::{BANKS, CORES, Change, DEVS, REGIONS, SHMEM, WINDOW, changed};
use sample_configs::{ONE_VM, TWO_VMS};
use std::alloc::Global;
use std::process::Abort;
use std::test::Fail;

/// What a row shows, changes of a sample, and the status and the text of its check.
type Row = (&'static str, &'static [Change], &'static str);

/// Two regions, of which the second is within the first and can't be written.
const ONE_WITHIN: &str =
    "regions = [{ base = 0x100000, size = 0x10000, access = \"rwx\" }, { base = 0x100000, size = 0x1000, access = \"rx\" }]\n";

/// Two regions of the same access, one after the other.
const TWO_HALVES: &str =
    "regions = [{ base = 0x100000, size = 0x8000, access = \"rwx\" }, { base = 0x108000, size = 0x8000, access = \"rwx\" }]\n";

/// As little memory as there can be.
const SMALLEST: &str = "regions = [{ base = 0x100000, size = 0x40, access = \"rwx\" }]\n";

#[rattlefmt::skip]
static ONE: [Row; 10] = [
    ("the sample", &[],
        "status 0
core 0 vm a runs 3 entries 16
entry 0 0000000000000002 000000000000ffc1
entry 1 0000000000100004 000000000010ffc1
entry 2 000000009c090006 000000009c090003
ok
"),
    ("a region within another", &[(CORES, "cores = [3]"), (DEVS, ""), (REGIONS, ONE_WITHIN)],
        "status 0
core 0 vm a runs 3 entries 3
entry 0 0000000000000002 000000000000ffc1
entry 1 000000000010000c 0000000000100fc1
entry 2 0000000000101004 000000000010ffc1
ok
"),
    ("the same with a guard",
        &[(CORES, "cores = [3]"), (DEVS, "guards = [{ base = 0x108000, size = 0x40 }]\n"), (REGIONS, ONE_WITHIN)],
        "status 7\ntoo many runs core 0 runs 4 entries 3\n"),
    ("two halves of a run", &[(CORES, "cores = [2]"), (DEVS, ""), (REGIONS, TWO_HALVES)],
        "status 0
core 0 vm a runs 2 entries 2
entry 0 0000000000000002 000000000000ffc1
entry 1 0000000000100004 000000000010ffc1
ok
"),
    ("a region of 63 bytes", &[("size = 0x10000, access", "size = 63, access")],
        "status 6\nbad value vm[0].regions[0].size 63\n"),
    ("a region of 64 bytes", &[(REGIONS, SMALLEST), ("room = 0x8000", "room = 64"), (DEVS, "")],
        "status 0
core 0 vm a runs 2 entries 16
entry 0 0000000000000002 000000000000ffc1
entry 1 0000000000100004 0000000000100001
ok
"),
    ("a core of no VM, and another bank", &[(CORES, "cores = [16, 1]"), (BANKS, "banks = [{ base = 0x40000000, size = 0x40 }, { base = 0x0, size = 0x200000 }]")],
        "status 0
core 0 vm a runs 3 entries 16
entry 0 0000000000000002 000000000000ffc1
entry 1 0000000000100004 000000000010ffc1
entry 2 000000009c090006 000000009c090003
core 1 vm - runs 1 entries 1
entry 0 0000000000000002 000000000000ffc1
ok
"),
    ("a VM alone with a window", &[SHMEM, ("base = 0x180000", "base = 0x148000"), WINDOW],
        "status 0
core 0 vm a runs 4 entries 16
entry 0 0000000000000002 000000000000ffc1
entry 1 0000000000100004 000000000010ffc1
entry 2 0000000000148006 0000000000148fc1
entry 3 000000009c090006 000000009c090003
ok
"),
    ("a VM alone over shared memory", &[SHMEM, ("base = 0x180000", "base = 0x148000"), ("= 0x100000", "= 0x140000"), ("name = \"a\"", "name = \"b\"")],
        "status 0
core 0 vm b runs 3 entries 16
entry 0 0000000000000002 000000000000ffc1
entry 1 0000000000140004 000000000014ffc1
entry 2 000000009c090006 000000009c090003
ok
"),
    ("an unknown key", &[("irq = 40", "irq = 40, mode = 1")], "status 6\nbad shape vm[0].devs[0]\n"),
];

/// Of the sample of two VMs.
#[rattlefmt::skip]
static TWO: [Row; 3] = [
    ("the sample of two VMs", &[],
        "status 0
core 0 vm a runs 4 entries 16
entry 0 0000000000000002 000000000000ffc1
entry 1 0000000000100004 000000000010ffc1
entry 2 0000000000180006 0000000000180fc1
entry 3 000000009c090006 000000009c090003
core 1 vm b runs 4 entries 16
entry 0 0000000000000002 000000000000ffc1
entry 1 0000000000140004 000000000014ffc1
entry 2 0000000000180006 0000000000180fc1
entry 3 000000009c0a0006 000000009c0a0003
ok
"),
    ("a region of b over one of a", &[("base = 0x140000, size = 0x10000", "base = 0x10ffc0, size = 0x40000")],
        "status 6\nill-formed rule 22 vm 1 item 0 0x100000+0x10000 0x10ffc0+0x40000\n"),
    ("a region of b over a window of a",
        &[("base = 0x180000", "base = 0x148000"), ("ipcs = [{ shmem = 0, access = \"rw\", irqs = [60, 61] }]\n", "")],
        "status 6\nill-formed rule 22 vm 1 item 0 0x148000+0x1000 0x140000+0x10000\n"),
];

/// The check of a configuration, over a shelf and a sink that fail so.
fn told_of(alloc: Global, config: &[u8], calls: &[u32], puts: &[u32]) -> Result<String, Fail> {
    let mut shelf = shelf_of(alloc, config, b"", b"", calls)?;
    told(alloc, &CHECK, &mut shelf, puts)
}

/// What `told_of` gives where the configuration is read, the shelf doesn't fail, and the status and text are these.
fn read_once(alloc: Global, status_and_text: &str) -> Result<String, Fail> {
    let (status, text) = status_and_text.split_once('\n').unwrap_or(("", ""));
    Ok(format!(in alloc; "{status} entered 0 calls 1 faults 0\n{text}")?)
}

fn check_row(rt: &impl Abort, alloc: Global, sample: &str, row: &Row) -> Result<(), Fail> {
    let (shows, changes, wanted) = *row;
    let config = changed(alloc, sample, changes)?;
    let told = told_of(alloc, config.as_bytes(), &[], &[])?;
    check(rt, shows, &told, &read_once(alloc, wanted)?);
    Ok(())
}

#[test]
fn one_vm(rt: HostRuntime) -> Result<(), Fail> {
    for row in ONE.as_slice() {
        check_row(&rt, rt.alloc(), ONE_VM, row)?;
    }
    Ok(())
}

#[test]
fn both_vms(rt: HostRuntime) -> Result<(), Fail> {
    for row in TWO.as_slice() {
        check_row(&rt, rt.alloc(), TWO_VMS, row)?;
    }
    Ok(())
}

#[test]
fn broken(rt: HostRuntime) -> Result<(), Fail> {
    for row in BROKEN.as_slice() {
        check_row(&rt, rt.alloc(), ONE_VM, row)?;
    }
    Ok(())
}

/// Whole configurations, and the status and the line of their check.
#[rattlefmt::skip]
static DOCUMENTS: [(&[u8], &str); 7] = [
    (b"",                                "status 6\nbad shape version\n"),
    (b"version = 1",                     "status 6\nbad shape platform\n"),
    (b"version =",                       "status 5\nbad toml\n"),
    (b"version = 1\nversion = 1\n",      "status 5\nbad toml\n"),
    (b"version = 9223372036854775808\n", "status 5\nbad toml\n"),
    (b"version = 1 # \xff\n",            "status 5\nbad toml\n"),
    (b"\0",                              "status 5\nbad toml\n"),
];

fn check_document(rt: &impl Abort, alloc: Global, bytes: &[u8], wanted: &str) -> Result<(), Fail> {
    let told = told_of(alloc, bytes, &[], &[])?;
    check(rt, wanted, &told, &read_once(alloc, wanted)?);
    Ok(())
}

#[test]
fn documents(rt: HostRuntime) -> Result<(), Fail> {
    for (bytes, wanted) in DOCUMENTS.as_slice() {
        check_document(&rt, rt.alloc(), bytes, wanted)?;
    }
    Ok(())
}

/// What is left of the sample where that before it is a configuration: the devs may be absent, and so may a last LF.
static RESTS: [&str; 4] = [
    "\ndevs = [{ port = 0, irq = 40 }]\n",
    "devs = [{ port = 0, irq = 40 }]\n",
    "\n",
    "",
];

/// Whether the check of the sample without its end is as it is to be.
fn is_right(alloc: Global, before: &[u8], rest: &[u8]) -> Result<bool, Fail> {
    let told = told_of(alloc, before, &[], &[])?;
    if RESTS
        .as_slice()
        .iter()
        .any(|other| other.as_bytes() == rest)
    {
        return Ok(told.starts_with("status 0 "));
    }
    Ok(told.starts_with("status 5 ") || told.starts_with("status 6 "))
}

#[test]
fn samples_that_end_early(rt: HostRuntime) -> Result<(), Fail> {
    let sample = ONE_VM.as_bytes();
    let mut wrong = Vec::new(rt.alloc());
    for length in 0..=sample.len() {
        let (before, rest) = sample.split_at(length);
        if !is_right(rt.alloc(), before, rest)? {
            wrong.push(length)?;
        }
    }
    assert!(rt; wrong.is_empty(), "{wrong:?}");
    Ok(())
}

/// The puts of the sample's packing, in order.
static PUTS: [&str; 5] = [
    "core 0 vm a runs 3 entries 16\n",
    "entry 0 0000000000000002 000000000000ffc1\n",
    "entry 1 0000000000100004 000000000010ffc1\n",
    "entry 2 000000009c090006 000000009c090003\n",
    "ok\n",
];

/// A sink that fails at the put of this number, from 1, has taken all those before it.
fn check_put(
    rt: &impl Abort,
    alloc: Global,
    put: u32,
    status: u8,
    taken: &str,
) -> Result<(), Fail> {
    let wanted = format!(in alloc; "status {status} entered 0 calls 1 faults 0\n{taken}")?;
    check(
        rt,
        taken,
        &told_of(alloc, ONE_VM.as_bytes(), &[], &[put])?,
        &wanted,
    );
    Ok(())
}

#[test]
fn a_sink_that_fails(rt: HostRuntime) -> Result<(), Fail> {
    let mut taken = String::new(rt.alloc());
    let mut put = 1;
    for part in PUTS.as_slice() {
        check_put(&rt, rt.alloc(), put, 9, &taken)?;
        taken.push_str(part)?;
        put = put.saturating_add(1);
    }
    // A sixth put isn't made.
    check_put(&rt, rt.alloc(), put, 0, &taken)
}

/// Changes of the sample, the calls of the shelf and the puts of the sink that fail, and the answer.
#[rattlefmt::skip]
static FAILING: [(&[Change], &[u32], &[u32], &str); 4] = [
    (&[], &[1], &[],  "status 3 entered 0 calls 1 faults 1\nread fault config\n"),
    (&[], &[1], &[1], "status 3 entered 0 calls 1 faults 1\n"),
    // A second call isn't made.
    (&[], &[2], &[1], "status 9 entered 0 calls 1 faults 0\n"),
    (&[("version = 1\n", "")], &[2], &[1], "status 6 entered 0 calls 1 faults 0\n"),
];

fn check_failing(
    rt: &impl Abort,
    alloc: Global,
    row: &(&[Change], &[u32], &[u32], &str),
) -> Result<(), Fail> {
    let (changes, calls, puts, wanted) = *row;
    let config = changed(alloc, ONE_VM, changes)?;
    let told = told_of(alloc, config.as_bytes(), calls, puts)?;
    check(rt, wanted, &told, wanted);
    Ok(())
}

#[test]
fn a_shelf_that_fails(rt: HostRuntime) -> Result<(), Fail> {
    for row in FAILING.as_slice() {
        check_failing(&rt, rt.alloc(), row)?;
    }
    Ok(())
}
