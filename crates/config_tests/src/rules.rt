//! Each rule broken once, each rule of pairs broken twice at once, and each rule kept to the last byte.

use crate::samples::{changed, checked, ill_text};
use bao_wellformed::CheckError;
use std::alloc::{AllocError, Global};
use std::process::Abort;
use std::test::Fail;

/// What a row shows, the changes of the sample, and what is said of it.
type Row = (
    &'static str,
    &'static [(&'static str, &'static str)],
    &'static str,
);

/// What `check` says of the sample with these changes.
fn said_of(alloc: Global, changes: &[(&str, &str)]) -> Result<String, AllocError> {
    let text = changed(alloc, changes)?;
    match checked(alloc, text.as_str()) {
        None => "not read".to_owned(alloc),
        Some(Ok(_)) => "ok".to_owned(alloc),
        Some(Err(CheckError::Ill(ill))) => ill_text(alloc, &ill),
        Some(Err(CheckError::OutOfMemory)) => Err(AllocError),
    }
}

fn check_rows(rt: &impl Abort, alloc: Global, rows: &[Row]) -> Result<(), AllocError> {
    for (shows, changes, expected) in rows {
        let said = said_of(alloc, changes)?;
        assert!(rt; said.as_str() == *expected, "{shows}: {said}");
    }
    Ok(())
}

const BANK: &str = "banks = [{ base = 0x0, size = 0x200000 }]";

const PORT_1: &str = "{ id = 1, base = 0x9c0a0000, spi = 33 }";

const SHMEM: &str = "base = 0x180000\nsize = 0x1000\nevents = 2\n";

const PLACE_B: &str = "load = 0x140000\nroom = 0x8000";

const REGION_B: &str = "regions = [{ base = 0x140000, size = 0x10000, access = \"rwx\" }]";

const DEV_B: &str = "devs = [{ port = 1, irq = 40 }]";

const IPC_B: &str = "ipcs = [{ shmem = 0, access = \"rw\", irqs = [60, 61] }]\n";

/// The table of VM a, and that of VM b, whole.
const VM_A: &str =
    "[[vm]]\nname = \"a\"\nimage = \"a.bin\"\nload = 0x100000\nroom = 0x8000\nentry = 0x100000\ncores = [0]\nregions = [{ base = 0x100000, size = 0x10000, access = \"rwx\" }]\ndevs = [{ port = 0, irq = 40 }]\nipcs = [{ shmem = 0, access = \"rw\", irqs = [50, 51] }]\n";

const VM_B: &str =
    "[[vm]]\nname = \"b\"\nimage = \"b.bin\"\nload = 0x140000\nroom = 0x8000\nentry = 0x140000\ncores = [1]\nregions = [{ base = 0x140000, size = 0x10000, access = \"rwx\" }]\ndevs = [{ port = 1, irq = 40 }]\nipcs = [{ shmem = 0, access = \"rw\", irqs = [60, 61] }]\n";

#[rattlefmt::skip]
static PLATFORM: [Row; 21] = [
    ("the sample", &[], "ok"),
    ("a bank that ends above 2^48", &[(BANK, "banks = [{ base = 0x0, size = 0x200000 }, { base = 0xfffffffff000, size = 0x2000 }]")],
        "rule 1 vm - item - 0xfffffffff000+0x2000 0x0+0x0"),
    ("a bank that ends at 2^48", &[(BANK, "banks = [{ base = 0x0, size = 0x200000 }, { base = 0xfffffffff000, size = 0x1000 }]")], "ok"),
    ("more than 64 MiB", &[(BANK, "banks = [{ base = 0x0, size = 0x200000 }, { base = 0x1000000, size = 0x3e00040 }]")],
        "rule 2 vm - item - 0x1000000+0x3e00040 0x0+0x0"),
    ("64 MiB", &[(BANK, "banks = [{ base = 0x0, size = 0x4000000 }]")], "ok"),
    ("two ports on one range", &[(PORT_1, "{ id = 1, base = 0x9c090000, spi = 33 }")],
        "rule 3 vm - item - 0x9c090000+0x40 0x9c090000+0x40"),
    ("the first port decides, not the first two that overlap", &[(PORT_1, "{ id = 1, base = 0x9c0a0000, spi = 33 }, { id = 2, base = 0x9c0a0000, spi = 34 }, { id = 3, base = 0x9c090000, spi = 35 }")],
        "rule 3 vm - item - 0x9c090000+0x40 0x9c090000+0x40"),
    ("a bank just below a frame", &[(BANK, "banks = [{ base = 0x0, size = 0x200000 }, { base = 0xaeffffc0, size = 0x40 }]")],
        "rule 3 vm - item - 0xaeffffc0+0x40 0xaf000000+0x10000"),
    ("a bank 64 bytes below a frame", &[(BANK, "banks = [{ base = 0x0, size = 0x200000 }, { base = 0xaeffff80, size = 0x40 }]")], "ok"),
    ("frames beside one another", &[("gicr = 0xaf100000", "gicr = 0xaf010000")], "ok"),
    ("a frame on the other", &[("gicr = 0xaf100000", "gicr = 0xaefe0000")],
        "rule 3 vm - item - 0xaf000000+0x10000 0xaefe0000+0x40000"),
    ("two ports with one id", &[(PORT_1, "{ id = 0, base = 0x9c0a0000, spi = 33 }")],
        "rule 4 vm - item - 0x9c090000+0x40 0x9c0a0000+0x40"),
    ("two ports with one line, and a third", &[(PORT_1, "{ id = 1, base = 0x9c0a0000, spi = 33 }, { id = 2, base = 0x9c0b0000, spi = 33 }, { id = 3, base = 0x9c0c0000, spi = 32 }")],
        "rule 4 vm - item - 0x9c090000+0x40 0x9c0c0000+0x40"),
    ("a hypervisor over two banks", &[(BANK, "banks = [{ base = 0x0, size = 0x8000 }, { base = 0x8000, size = 0x1f8000 }]")],
        "rule 5 vm - item - 0x0+0x10000 0x0+0x0"),
    ("a shared memory in no bank", &[(SHMEM, "base = 0x1ff040\nsize = 0x1000\nevents = 2\n")],
        "rule 6 vm - item - 0x1ff040+0x1000 0x0+0x0"),
    ("a shared memory at the end of its bank", &[(SHMEM, "base = 0x1ff000\nsize = 0x1000\nevents = 2\n")], "ok"),
    ("a shared memory in the hypervisor's range", &[(SHMEM, "base = 0xffc0\nsize = 0x1000\nevents = 2\n")],
        "rule 7 vm - item - 0xffc0+0x1000 0x0+0x10000"),
    ("a shared memory after the hypervisor's range", &[(SHMEM, "base = 0x10000\nsize = 0x1000\nevents = 2\n")], "ok"),
    ("two shared memories on one byte", &[(SHMEM, "base = 0x180000\nsize = 0x1000\nevents = 2\n[[shmem]]\nbase = 0x180fc0\nsize = 0x1000\nevents = 1\n")],
        "rule 8 vm - item - 0x180000+0x1000 0x180fc0+0x1000"),
    ("the first shared memory decides", &[(SHMEM, "base = 0x180000\nsize = 0x1000\nevents = 2\n[[shmem]]\nbase = 0x190000\nsize = 0x1000\nevents = 1\n[[shmem]]\nbase = 0x190fc0\nsize = 0x1000\nevents = 1\n[[shmem]]\nbase = 0x180fc0\nsize = 0x1000\nevents = 1\n")],
        "rule 8 vm - item - 0x180000+0x1000 0x180fc0+0x1000"),
    ("two shared memories beside one another", &[(SHMEM, "base = 0x180000\nsize = 0x1000\nevents = 2\n[[shmem]]\nbase = 0x181000\nsize = 0x1000\nevents = 1\n")], "ok"),
];

#[test]
fn rules_of_the_platform(rt: HostRuntime) -> Result<(), Fail> {
    check_rows(&rt, rt.alloc(), PLATFORM.as_slice())?;
    Ok(())
}

#[rattlefmt::skip]
static VMS: [Row; 20] = [
    ("two VMs of one name", &[("name = \"b\"", "name = \"a\"")], "rule 9 vm 1 item 0 0x0+0x0 0x0+0x0"),
    ("the first name decides, not the first repetition", &[(IPC_B, "[[vm]]\nname = \"b\"\nimage = \"b.bin\"\nload = 0x140000\nroom = 0x8000\nentry = 0x140000\ncores = [2]\nregions = [{ base = 0x140000, size = 0x10000, access = \"rwx\" }]\n[[vm]]\nname = \"a\"\nimage = \"a.bin\"\nload = 0x140000\nroom = 0x8000\nentry = 0x140000\ncores = [3]\nregions = [{ base = 0x140000, size = 0x10000, access = \"rwx\" }]\n")],
        "rule 9 vm 3 item 0 0x0+0x0 0x0+0x0"),
    ("one name, and a core that isn't there", &[("name = \"b\"", "name = \"a\""), ("cores = [1]", "cores = [2]")],
        "rule 9 vm 1 item 0 0x0+0x0 0x0+0x0"),
    ("a core that isn't there", &[("cores = [1]", "cores = [1, 2]")], "rule 10 vm 1 item 1 0x0+0x0 0x0+0x0"),
    ("one core in two VMs", &[("cores = [1]", "cores = [0]")], "rule 11 vm 1 item 0 0x0+0x0 0x0+0x0"),
    ("the first core decides, not the first repetition", &[("cores = [16, 16]", "cores = [16, 16, 16]"), ("cores = [0]", "cores = [1, 2]"), ("cores = [1]", "cores = [2, 1]")],
        "rule 11 vm 1 item 1 0x0+0x0 0x0+0x0"),
    ("a region out of its bank", &[(REGION_B, "regions = [{ base = 0x140000, size = 0x100000, access = \"rwx\" }]")],
        "rule 12 vm 1 item 0 0x140000+0x100000 0x0+0x0"),
    ("a region in the hypervisor's range", &[(REGION_B, "regions = [{ base = 0x140000, size = 0x10000, access = \"rwx\" }, { base = 0xffc0, size = 0x40, access = \"r\" }]")],
        "rule 13 vm 1 item 1 0xffc0+0x40 0x0+0x10000"),
    ("a region after the hypervisor's range", &[(REGION_B, "regions = [{ base = 0x140000, size = 0x10000, access = \"rwx\" }, { base = 0x10000, size = 0x40, access = \"r\" }]")], "ok"),
    ("a dev without a port", &[(DEV_B, "devs = [{ port = 2, irq = 40 }]")], "rule 14 vm 1 item 0 0x0+0x0 0x0+0x0"),
    ("one port in two VMs", &[(DEV_B, "devs = [{ port = 1, irq = 40 }, { port = 0, irq = 41 }]")], "rule 15 vm 1 item 1 0x0+0x0 0x0+0x0"),
    ("the first dev decides", &[(DEV_B, "devs = [{ port = 1, irq = 40 }, { port = 1, irq = 41 }, { port = 0, irq = 42 }]")],
        "rule 15 vm 1 item 2 0x0+0x0 0x0+0x0"),
    ("an ipc without a shared memory", &[(IPC_B, "ipcs = [{ shmem = 1, access = \"rw\", irqs = [60, 61] }]\n")], "rule 16 vm 1 item 0 0x0+0x0 0x0+0x0"),
    ("two windows on one shared memory", &[(IPC_B, "ipcs = [{ shmem = 0, access = \"rw\", irqs = [60, 61] }, { shmem = 0, access = \"r\", irqs = [62, 63] }]\n")],
        "rule 17 vm 1 item 1 0x0+0x0 0x0+0x0"),
    ("the first window decides", &[(SHMEM, "base = 0x180000\nsize = 0x1000\nevents = 2\n[[shmem]]\nbase = 0x190000\nsize = 0x1000\nevents = 1\n"), (IPC_B, "ipcs = [{ shmem = 0, access = \"r\", irqs = [60, 61] }, { shmem = 1, access = \"r\", irqs = [62] }, { shmem = 1, access = \"r\", irqs = [63] }, { shmem = 0, access = \"r\", irqs = [64, 65] }]\n")],
        "rule 17 vm 1 item 3 0x0+0x0 0x0+0x0"),
    ("an irq too few", &[(IPC_B, "ipcs = [{ shmem = 0, access = \"rw\", irqs = [60] }]\n")], "rule 18 vm 1 item 0 0x0+0x0 0x0+0x0"),
    ("an irq of a dev and of a window", &[(IPC_B, "ipcs = [{ shmem = 0, access = \"rw\", irqs = [60, 40] }]\n")], "rule 19 vm 1 item 2 0x0+0x0 0x0+0x0"),
    ("an irq three times", &[(DEV_B, "devs = [{ port = 1, irq = 60 }]"), (IPC_B, "ipcs = [{ shmem = 0, access = \"rw\", irqs = [60, 60] }]\n")],
        "rule 19 vm 1 item 1 0x0+0x0 0x0+0x0"),
    ("one irq in two VMs", &[(IPC_B, "ipcs = [{ shmem = 0, access = \"rw\", irqs = [50, 51] }]\n")], "ok"),
    ("a VM without devs", &[(DEV_B, "")], "ok"),
];

#[test]
fn rules_of_vms(rt: HostRuntime) -> Result<(), Fail> {
    check_rows(&rt, rt.alloc(), VMS.as_slice())?;
    Ok(())
}

#[rattlefmt::skip]
static BYTES: [Row; 17] = [
    ("a place longer than its memory", &[(PLACE_B, "load = 0x140000\nroom = 0x10040")],
        "rule 20 vm 1 item - 0x140000+0x10040 0x150000+0x1"),
    ("a place as long as its memory", &[(PLACE_B, "load = 0x140000\nroom = 0x10000")], "ok"),
    ("a guard in a place", &[(IPC_B, "guards = [{ base = 0x140040, size = 0x40 }]\n")],
        "rule 20 vm 1 item - 0x140000+0x8000 0x140040+0x1"),
    ("a window over a place", &[(PLACE_B, "load = 0x180000\nroom = 0x1000")],
        "rule 20 vm 1 item - 0x180000+0x1000 0x180000+0x1"),
    ("an entry in memory that isn't executed", &[(REGION_B, "regions = [{ base = 0x140000, size = 0x10000, access = \"rw\" }]")],
        "rule 21 vm 1 item - 0x0+0x0 0x140000+0x1"),
    ("an entry after the memory", &[("entry = 0x140000", "entry = 0x150000")], "rule 21 vm 1 item - 0x0+0x0 0x150000+0x1"),
    ("an entry in the last word", &[("entry = 0x140000", "entry = 0x14fffc")], "ok"),
    ("a common granule", &[(REGION_B, "regions = [{ base = 0x10ffc0, size = 0x40000, access = \"rwx\" }]")],
        "rule 22 vm 1 item 0 0x100000+0x10000 0x10ffc0+0x40000"),
    ("memory beside memory", &[(REGION_B, "regions = [{ base = 0x110000, size = 0x40000, access = \"rwx\" }]")], "ok"),
    ("a guard that cuts the one common granule", &[(REGION_B, "regions = [{ base = 0x10ffc0, size = 0x40000, access = \"rwx\" }]"), (IPC_B, "guards = [{ base = 0x10ffc0, size = 0x40 }]\n")], "ok"),
    ("a guard that leaves a part of what is common", &[(REGION_B, "regions = [{ base = 0x10ff80, size = 0x40000, access = \"rwx\" }]"), (IPC_B, "guards = [{ base = 0x10ff80, size = 0x40 }]\n")],
        "rule 22 vm 1 item 0 0x100000+0x10000 0x10ff80+0x40000"),
    ("a window over memory of another", &[(SHMEM, "base = 0x148000\nsize = 0x1000\nevents = 2\n"), (IPC_B, "")],
        "rule 22 vm 1 item 0 0x148000+0x1000 0x140000+0x10000"),
    ("the VM with the window alone", &[(SHMEM, "base = 0x148000\nsize = 0x1000\nevents = 2\n"), (VM_B, "")], "ok"),
    ("the VM with the memory alone", &[(SHMEM, "base = 0x148000\nsize = 0x1000\nevents = 2\n"), (VM_A, ""), (IPC_B, "")], "ok"),
    ("memory below a window of both", &[(REGION_B, "regions = [{ base = 0x140000, size = 0x50000, access = \"rwx\" }]")], "ok"),
    ("memory below a window of one, with a guard in it", &[(REGION_B, "regions = [{ base = 0x140000, size = 0x50000, access = \"rwx\" }]"), (IPC_B, "guards = [{ base = 0x180000, size = 0x1000 }]\n")], "ok"),
    ("three VMs, of which two pairs share", &[(IPC_B, "[[vm]]\nname = \"c\"\nimage = \"c.bin\"\nload = 0x100000\nroom = 0x40\nentry = 0x100000\ncores = [2]\nregions = [{ base = 0x100000, size = 0x50000, access = \"rwx\" }]\n"), ("cores = [16, 16]", "cores = [16, 16, 16]")],
        "rule 22 vm 2 item 0 0x100000+0x10000 0x100000+0x50000"),
];

#[test]
fn rules_of_bytes(rt: HostRuntime) -> Result<(), Fail> {
    check_rows(&rt, rt.alloc(), BYTES.as_slice())?;
    Ok(())
}
