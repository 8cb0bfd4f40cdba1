//! Runs over other machines and other VMs than those of the sample.

use crate::programs::PLACE_AND_NUMBER;
use crate::runs::{FIVE, RUN, check, image_of, shelf_of, steps, told};
use crate::samples::{
    BANKS, CORES, Change, DEVS, HYPERVISOR, OWN_CORES, REGIONS, SHMEM, WINDOW, changed,
};
use sample_configs::ONE_VM;
use std::alloc::Global;
use std::process::Abort;
use std::test::Fail;

/// What a row shows, changes of the sample, and what its run leaves.
type Row = (&'static str, &'static [Change], &'static str);

/// Runs an image over a changed sample, step by step of core 0.
fn check_run(
    rt: &impl Abort,
    alloc: Global,
    image: &[u8],
    count: usize,
    row: &Row,
) -> Result<(), Fail> {
    let (shows, changes, wanted) = *row;
    let config = changed(alloc, ONE_VM, changes)?;
    let schedule = steps(alloc, count)?;
    let mut shelf = shelf_of(alloc, config.as_bytes(), image, &schedule, &[])?;
    check(rt, shows, &told(alloc, &RUN, &mut shelf, &[])?, wanted);
    Ok(())
}

/// What `FIVE` leaves after three steps where nothing that it sees is changed.
const AS_EVER: &str = "status 0 entered 3 calls 3 faults 0
vm a
core 0 on
pc 0000000000100004
pstate 000003c5
x0 0000000000000005
console 0=
m 0000000000100000 a00080d2000000140000000000000000
end a
done
";

/// `FIVE` over other machines, for three steps.
#[rattlefmt::skip]
static MACHINES: [Row; 9] = [
    ("memory in the second bank",
        &[("= 0x100000", "= 0x40000000"), (BANKS, "banks = [{ base = 0x0, size = 0x100000 }, { base = 0x40000000, size = 0x100000 }]")],
        "status 0 entered 3 calls 3 faults 0
vm a
core 0 on
pc 0000000040000004
pstate 000003c5
x0 0000000000000005
console 0=
m 0000000040000000 a00080d2000000140000000000000000
end a
done
"),
    ("banks that meet", &[(BANKS, "banks = [{ base = 0x100000, size = 0x100000 }, { base = 0x0, size = 0x100000 }]")], AS_EVER),
    ("the first core of two", &[(CORES, "cores = [3, 1]")], AS_EVER),
    ("the second core of two", &[(CORES, "cores = [1, 3]"), (OWN_CORES, "cores = [1]")],
        "status 0 entered 0 calls 3 faults 0
vm a
core 0 on
pc 0000000000100000
pstate 000003c5
console 0=
m 0000000000100000 a00080d2000000140000000000000000
end a
done
"),
    ("both cores", &[(CORES, "cores = [3, 3]"), (OWN_CORES, "cores = [0, 1]")],
        "status 0 entered 3 calls 3 faults 0
vm a
core 0 on
pc 0000000000100004
pstate 000003c5
x0 0000000000000005
core 1 off
pc 0000000000000000
pstate 000003c5
console 0=
m 0000000000100000 a00080d2000000140000000000000000
end a
done
"),
    ("the hypervisor after the VM", &[(HYPERVISOR, "[hypervisor]\nbase = 0x110000\nsize = 0xf0000\n")], AS_EVER),
    ("the port at another place", &[("base = 0x9c090000", "base = 0x200000")], AS_EVER),
    ("another port", &[("id = 0", "id = 7"), ("port = 0", "port = 7")],
        "status 0 entered 3 calls 3 faults 0
vm a
core 0 on
pc 0000000000100004
pstate 000003c5
x0 0000000000000005
console 7=
m 0000000000100000 a00080d2000000140000000000000000
end a
done
"),
    ("a port that is no console", &[("id = 0", "id = 8"), ("port = 0", "port = 8"), ("entry = 0x100000", "entry = 0x100004")],
        "status 0 entered 3 calls 3 faults 0
vm a
core 0 on
pc 0000000000100004
pstate 000003c5
m 0000000000100000 a00080d2000000140000000000000000
end a
done
"),
];

#[test]
fn machines(rt: HostRuntime) -> Result<(), Fail> {
    let image = image_of(rt.alloc(), &FIVE)?;
    for row in MACHINES.as_slice() {
        check_run(&rt, rt.alloc(), &image, 3, row)?;
    }
    Ok(())
}

/// A port of the VM, and a guard on so much at this place.
const GUARD: &str =
    "devs = [{ port = 0, irq = 40 }]\nguards = [{ base = 0x108000, size = 0x40 }]\n";

const GUARD_AFTER: &str =
    "devs = [{ port = 0, irq = 40 }]\nguards = [{ base = 0x108040, size = 0x40 }]\n";

/// The store was taken.
const STORED: &str = "status 0 entered 7 calls 3 faults 0
vm a
core 0 on
pc 000000000010001c
pstate 000003c5
x0 1122334455667788
x1 0000000000108000
console 0=
m 0000000000100000 010090d20102a0f200f18ed2c0acaaf2
m 0000000000100010 8068c6f24024e2f2200000f900000000
m 0000000000108000 88776655443322110000000000000000
end a
done
";

/// The store is refused, since no memory is there.
const NO_MEMORY: &str = "status 0 entered 7 calls 3 faults 0
vm a
core 0 parked 93c08044 0000000000108000
pc 0000000000100018
pstate 000003c5
x0 1122334455667788
x1 0000000000108000
console 0=
m 0000000000100000 010090d20102a0f200f18ed2c0acaaf2
m 0000000000100010 8068c6f24024e2f2200000f900000000
end a
done
";

/// The store is refused, since the memory is only read.
const ONLY_READ: &str = "status 0 entered 7 calls 3 faults 0
vm a
core 0 parked 93c0804c 0000000000108000
pc 0000000000100018
pstate 000003c5
x0 1122334455667788
x1 0000000000108000
console 0=
m 0000000000100000 010090d20102a0f200f18ed2c0acaaf2
m 0000000000100010 8068c6f24024e2f2200000f900000000
end a
done
";

/// A store to 0x108000 as the seventh step.
#[rattlefmt::skip]
static STORES: [Row; 8] = [
    ("one region", &[], STORED),
    ("several regions",
        &[(REGIONS, "regions = [{ base = 0x180000, size = 0x40, access = \"r\" }, { base = 0x108000, size = 0x1000, access = \"rw\" }, { base = 0x100000, size = 0x8000, access = \"rx\" }]\n")],
        STORED),
    ("regions with a hole",
        &[(REGIONS, "regions = [{ base = 0x100000, size = 0x8000, access = \"rwx\" }, { base = 0x109000, size = 0x1000, access = \"rwx\" }]\n")],
        NO_MEMORY),
    ("a region that is only read",
        &[(REGIONS, "regions = [{ base = 0x100000, size = 0x8000, access = \"rwx\" }, { base = 0x108000, size = 0x1000, access = \"r\" }]\n")],
        ONLY_READ),
    ("a region that is only read and executed",
        &[(REGIONS, "regions = [{ base = 0x100000, size = 0x8000, access = \"rwx\" }, { base = 0x108000, size = 0x1000, access = \"rx\" }]\n")],
        ONLY_READ),
    ("a guard", &[(DEVS, GUARD)], NO_MEMORY),
    ("a guard after", &[(DEVS, GUARD_AFTER)], STORED),
    ("no window on shared memory",
        &[SHMEM, ("base = 0x180000", "base = 0x108000"), ("size = 0x10000, access", "size = 0x8000, access")],
        NO_MEMORY),
];

#[test]
fn stores(rt: HostRuntime) -> Result<(), Fail> {
    let mut image = image_of(rt.alloc(), &PLACE_AND_NUMBER)?;
    image.extend_from_slice(&image_of(rt.alloc(), &[0xf900_0020])?)?;
    for row in STORES.as_slice() {
        check_run(&rt, rt.alloc(), &image, 7, row)?;
    }
    Ok(())
}

/// Runs that are refused before an image is read.
#[rattlefmt::skip]
static REFUSED: [Row; 4] = [
    ("too many runs with a window", &[SHMEM, WINDOW, (CORES, "cores = [3]")],
        "status 7 entered 0 calls 1 faults 0\ntoo many runs core 0 runs 4 entries 3\n"),
    ("the first core with too many runs", &[(CORES, "cores = [3, 2]"), (OWN_CORES, "cores = [0, 1]")],
        "status 7 entered 0 calls 1 faults 0\ntoo many runs core 1 runs 3 entries 2\n"),
    ("a rule before too many runs", &[(CORES, "cores = [1]"), (OWN_CORES, "cores = [1]")],
        "status 6 entered 0 calls 1 faults 0\nill-formed rule 10 vm 0 item 0 0x0+0x0 0x0+0x0\n"),
    ("no TOML", &[("version = 1", "version = ")], "status 5 entered 0 calls 1 faults 0\nbad toml\n"),
];

#[test]
fn refused(rt: HostRuntime) -> Result<(), Fail> {
    for row in REFUSED.as_slice() {
        check_run(&rt, rt.alloc(), b"", 1, row)?;
    }
    Ok(())
}
