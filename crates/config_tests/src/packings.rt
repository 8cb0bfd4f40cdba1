//! Packings of cores, entry by entry.

use crate::samples::{changed, checked};
use bao_wellformed::Checked;
use mpu_packer::{PackError, Plan, pack};
use std::alloc::{AllocError, Global};
use std::process::Abort;
use std::test::Fail;

/// What a row shows, the changes of the sample, the core, and what is said of its packing: base and limit of each entry.
type Row = (
    &'static str,
    &'static [(&'static str, &'static str)],
    u8,
    &'static str,
);

fn plan_text(alloc: Global, plan: &Plan) -> Result<String, AllocError> {
    let mut text = String::new(alloc);
    for entry in plan.entries.as_slice() {
        let words = format!(in alloc; "{:x} {:x} ", entry.base, entry.limit)?;
        text.push_str(words.as_str())?;
    }
    Ok(text)
}

fn packing_text(alloc: Global, checked: &Checked, core: u8) -> Result<String, AllocError> {
    if core as usize >= checked.config().platform.cores.len() {
        return "no core".to_owned(alloc);
    }
    match pack(alloc, checked, core) {
        Ok(plan) => plan_text(alloc, &plan),
        Err(PackError::TooMany { runs, entries }) => format!(in alloc;
            "runs {runs} entries {entries}"
        ),
        Err(PackError::OutOfMemory) => Err(AllocError),
    }
}

fn said_of(alloc: Global, changes: &[(&str, &str)], core: u8) -> Result<String, AllocError> {
    let text = changed(alloc, changes)?;
    match checked(alloc, text.as_str()) {
        Some(Ok(checked)) => packing_text(alloc, &checked, core),
        Some(Err(_)) => "refused".to_owned(alloc),
        None => "not read".to_owned(alloc),
    }
}

fn check_rows(rt: &impl Abort, alloc: Global, rows: &[Row]) -> Result<(), AllocError> {
    for (shows, changes, core, expected) in rows {
        let said = said_of(alloc, changes, *core)?;
        assert!(rt; said.as_str().trim() == *expected, "{shows}: {said}");
    }
    Ok(())
}

const CORES: &str = "cores = [16, 16]";

const REGION_A: &str = "regions = [{ base = 0x100000, size = 0x10000, access = \"rwx\" }]";

const DEV_A: &str =
    "devs = [{ port = 0, irq = 40 }]\nipcs = [{ shmem = 0, access = \"rw\", irqs = [50, 51] }]\n";

#[rattlefmt::skip]
static ROWS: [Row; 11] = [
    ("memory, window and port", &[], 0, "2 ffc1 100004 10ffc1 180006 180fc1 9c090006 9c090003"),
    ("a smaller region of another access over a larger one",
        &[(REGION_A, "regions = [{ base = 0x100000, size = 0x10000, access = \"rwx\" }, { base = 0x100000, size = 0x1000, access = \"rx\" }]"), (DEV_A, ""), (CORES, "cores = [3, 16]")],
        0, "2 ffc1 10000c 100fc1 101004 10ffc1"),
    ("the same with a guard, and one run too many",
        &[(REGION_A, "regions = [{ base = 0x100000, size = 0x10000, access = \"rwx\" }, { base = 0x100000, size = 0x1000, access = \"rx\" }]"), (DEV_A, "guards = [{ base = 0x108000, size = 0x40 }]\n"), (CORES, "cores = [3, 16]")],
        0, "runs 4 entries 3"),
    ("two regions of equal access are one run",
        &[(REGION_A, "regions = [{ base = 0x100000, size = 0x8000, access = \"rwx\" }, { base = 0x108000, size = 0x8000, access = \"rwx\" }]"), (DEV_A, ""), (CORES, "cores = [2, 16]")],
        0, "2 ffc1 100004 10ffc1"),
    ("memory of one granule",
        &[("load = 0x100000\nroom = 0x8000", "load = 0x100000\nroom = 0x40"), (REGION_A, "regions = [{ base = 0x100000, size = 0x40, access = \"rwx\" }]"), (DEV_A, "")],
        0, "2 ffc1 100004 100001"),
    ("a guard splits a region", &[(DEV_A, "guards = [{ base = 0x108000, size = 0x40 }]\n")], 0, "2 ffc1 100004 107fc1 108044 10ffc1"),
    ("a window after memory of equal grant",
        &[(REGION_A, "regions = [{ base = 0x100000, size = 0x10000, access = \"rwx\" }, { base = 0x17f000, size = 0x1000, access = \"rw\" }]")],
        0, "2 ffc1 100004 10ffc1 17f006 180fc1 9c090006 9c090003"),
    ("a read-only window", &[("access = \"rw\", irqs = [50, 51]", "access = \"r\", irqs = [50, 51]")], 0, "2 ffc1 100004 10ffc1 18000e 180fc1 9c090006 9c090003"),
    ("a core of no VM", &[(CORES, "cores = [16, 16, 1]")], 2, "2 ffc1"),
    ("as many runs as entries", &[(CORES, "cores = [4, 16]")], 0, "2 ffc1 100004 10ffc1 180006 180fc1 9c090006 9c090003"),
    ("one more", &[(CORES, "cores = [3, 16]")], 0, "runs 4 entries 3"),
];

#[test]
fn packings_of_the_sample(rt: HostRuntime) -> Result<(), Fail> {
    check_rows(&rt, rt.alloc(), ROWS.as_slice())?;
    Ok(())
}
