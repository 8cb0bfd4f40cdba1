//! Samples with one text replaced, each by the first fault that the reader tells: what a VM gets.

use crate::rows::{Row, check_rows};
use bao_config::row;
use std::alloc::AllocError;

#[rattlefmt::skip]
static NAMES_AND_PLACES: [Row; 16] = [
    ("nine VMs",
        "[[vm]]\nname = \"a\"",
        "[[vm]]\n[[vm]]\n[[vm]]\n[[vm]]\n[[vm]]\n[[vm]]\n[[vm]]\n[[vm]]\nname = \"a\"", [row::VMS, 0, 0, 0], None),
    ("an unknown key of a VM",
        "name = \"b\"",
        "name = \"b\"\npriority = 1", [row::VM, 1, 0, 0], None),
    ("a name that is a number",
        "name = \"b\"",
        "name = 2", [row::VM_NAME, 1, 0, 0], None),
    ("an empty name",
        "name = \"b\"",
        "name = \"\"", [row::VM_NAME, 1, 0, 0], None),
    ("a name of 17 bytes",
        "name = \"b\"",
        "name = \"abcdefghijklmnopq\"", [row::VM_NAME, 1, 0, 0], None),
    ("a name with an upper-case letter",
        "name = \"b\"",
        "name = \"B\"", [row::VM_NAME, 1, 0, 0], None),
    ("an image that is an array",
        "image = \"b.bin\"",
        "image = [\"b.bin\"]", [row::VM_IMAGE, 1, 0, 0], None),
    ("an empty image name",
        "image = \"b.bin\"",
        "image = \"\"", [row::VM_IMAGE, 1, 0, 0], None),
    ("an image name of 256 bytes",
        "image = \"b.bin\"",
        "image = \"0123456789abcdef0123456789abcdef0123456789abcdef0123456789abcdef0123456789abcdef0123456789abcdef0123456789abcdef0123456789abcdef0123456789abcdef0123456789abcdef0123456789abcdef0123456789abcdef0123456789abcdef0123456789abcdef0123456789abcdef0123456789abcdef\"", [row::VM_IMAGE, 1, 0, 0], None),
    ("a load address that is a text",
        "load = 0x140000",
        "load = \"140000\"", [row::VM_LOAD, 1, 0, 0], None),
    ("a load address off its multiple",
        "load = 0x140000",
        "load = 0x140004", [row::VM_LOAD, 1, 0, 0], Some(0x140004)),
    ("room that is a float",
        "room = 0x8000\nentry = 0x140000",
        "room = 32768.0\nentry = 0x140000", [row::VM_ROOM, 1, 0, 0], None),
    ("no room",
        "room = 0x8000\nentry = 0x140000",
        "room = 0\nentry = 0x140000", [row::VM_ROOM, 1, 0, 0], Some(0)),
    ("an entry that is a text",
        "entry = 0x140000",
        "entry = \"140000\"", [row::VM_ENTRY, 1, 0, 0], None),
    ("an entry off its multiple",
        "entry = 0x140000",
        "entry = 0x140002", [row::VM_ENTRY, 1, 0, 0], Some(0x140002)),
    ("an entry one instruction too high",
        "entry = 0x140000",
        "entry = 0x1000000000000", [row::VM_ENTRY, 1, 0, 0], Some(0x1000000000000)),
];

#[test]
fn faults_of_names_and_places_of_vms(rt: HostRuntime) -> Result<(), AllocError> {
    check_rows(&rt, rt.alloc(), NAMES_AND_PLACES.as_slice())
}

#[rattlefmt::skip]
static CORES_AND_REGIONS: [Row; 17] = [
    ("a VM's cores that are a number",
        "cores = [1]",
        "cores = 1", [row::VM_CORES, 1, 0, 0], None),
    ("a VM without a core",
        "cores = [1]",
        "cores = []", [row::VM_CORES, 1, 0, 0], None),
    ("a core number that is a text",
        "cores = [1]",
        "cores = [1, \"2\"]", [row::VM_CORE, 1, 1, 0], None),
    ("a core number of 8",
        "cores = [1]",
        "cores = [1, 8]", [row::VM_CORE, 1, 1, 0], Some(8)),
    ("regions that are a table",
        "regions = [{ base = 0x140000, size = 0x10000, access = \"rwx\" }]",
        "regions = {}", [row::REGIONS, 1, 0, 0], None),
    ("no region in the array",
        "regions = [{ base = 0x140000, size = 0x10000, access = \"rwx\" }]",
        "regions = []", [row::REGIONS, 1, 0, 0], None),
    ("a region that is a number",
        "regions = [{ base = 0x140000",
        "regions = [0, { base = 0x140000", [row::REGION, 1, 0, 0], None),
    ("an unknown key of a region",
        "base = 0x140000, size = 0x10000,",
        "base = 0x140000, size = 0x10000, kind = 1,", [row::REGION, 1, 0, 0], None),
    ("a region's base that is a text",
        "base = 0x140000",
        "base = \"140000\"", [row::REGION_BASE, 1, 0, 0], None),
    ("a region's base off its multiple",
        "base = 0x140000",
        "base = 0x140010", [row::REGION_BASE, 1, 0, 0], Some(0x140010)),
    ("a region's size that is a text",
        "base = 0x140000, size = 0x10000",
        "base = 0x140000, size = \"64K\"", [row::REGION_SIZE, 1, 0, 0], None),
    ("a region of 63 bytes",
        "base = 0x140000, size = 0x10000",
        "base = 0x140000, size = 63", [row::REGION_SIZE, 1, 0, 0], Some(63)),
    ("a region of no bytes",
        "base = 0x140000, size = 0x10000",
        "base = 0x140000, size = 0", [row::REGION_SIZE, 1, 0, 0], Some(0)),
    ("a region of -64 bytes",
        "base = 0x140000, size = 0x10000",
        "base = 0x140000, size = -64", [row::REGION_SIZE, 1, 0, 0], Some(-64)),
    ("a region of 2^48 + 64 bytes",
        "base = 0x140000, size = 0x10000",
        "base = 0x140000, size = 0x1000000000040", [row::REGION_SIZE, 1, 0, 0], Some(0x1000000000040)),
    ("an access that is a number",
        "base = 0x140000, size = 0x10000, access = \"rwx\"",
        "base = 0x140000, size = 0x10000, access = 7", [row::REGION_ACCESS, 1, 0, 0], None),
    ("an access without reading",
        "base = 0x140000, size = 0x10000, access = \"rwx\"",
        "base = 0x140000, size = 0x10000, access = \"w\"", [row::REGION_ACCESS, 1, 0, 0], None),
];

#[test]
fn faults_of_cores_and_regions_of_vms(rt: HostRuntime) -> Result<(), AllocError> {
    check_rows(&rt, rt.alloc(), CORES_AND_REGIONS.as_slice())
}

#[rattlefmt::skip]
static DEVS: [Row; 8] = [
    ("devs that are a number",
        "devs = [{ port = 1, irq = 40 }]",
        "devs = 1", [row::DEVS, 1, 0, 0], None),
    ("seventeen devs",
        "devs = [{ port = 1, irq = 40 }]",
        "devs = [1, 1, 1, 1, 1, 1, 1, 1, 1, 1, 1, 1, 1, 1, 1, 1, 1]", [row::DEVS, 1, 0, 0], None),
    ("a dev that is a number",
        "devs = [{ port = 1, irq = 40 }]",
        "devs = [{ port = 1, irq = 40 }, 1]", [row::DEV, 1, 1, 0], None),
    ("an unknown key of a dev",
        "devs = [{ port = 1, irq = 40 }]",
        "devs = [{ port = 1, irq = 40, kind = 1 }]", [row::DEV, 1, 0, 0], None),
    ("a port that is a text",
        "port = 1,",
        "port = \"1\",", [row::DEV_PORT, 1, 0, 0], None),
    ("a port of -1",
        "port = 1,",
        "port = -1,", [row::DEV_PORT, 1, 0, 0], Some(-1)),
    ("an irq that is a float",
        "port = 1, irq = 40",
        "port = 1, irq = 40.0", [row::DEV_IRQ, 1, 0, 0], None),
    ("an irq of 31",
        "port = 1, irq = 40",
        "port = 1, irq = 31", [row::DEV_IRQ, 1, 0, 0], Some(31)),
];

#[test]
fn faults_of_devs(rt: HostRuntime) -> Result<(), AllocError> {
    check_rows(&rt, rt.alloc(), DEVS.as_slice())
}

#[rattlefmt::skip]
static IPCS: [Row; 13] = [
    ("ipcs that are a table",
        "ipcs = [{ shmem = 0, access = \"rw\", irqs = [60, 61] }]",
        "ipcs = { shmem = 0 }", [row::IPCS, 1, 0, 0], None),
    ("nine ipcs",
        "ipcs = [{ shmem = 0, access = \"rw\", irqs = [60, 61] }]",
        "ipcs = [1, 1, 1, 1, 1, 1, 1, 1, 1]", [row::IPCS, 1, 0, 0], None),
    ("a second ipc that is a number",
        "irqs = [60, 61] }]",
        "irqs = [60, 61] }, 1]", [row::IPC, 1, 1, 0], None),
    ("an unknown key of an ipc",
        "irqs = [60, 61] }",
        "irqs = [60, 61], kind = 1 }", [row::IPC, 1, 0, 0], None),
    ("a shared memory's place that is a text",
        "shmem = 0, access = \"rw\", irqs = [60",
        "shmem = \"0\", access = \"rw\", irqs = [60", [row::IPC_SHMEM, 1, 0, 0], None),
    ("a shared memory's place of 8",
        "shmem = 0, access = \"rw\", irqs = [60",
        "shmem = 8, access = \"rw\", irqs = [60", [row::IPC_SHMEM, 1, 0, 0], Some(8)),
    ("a window's access that is a number",
        "access = \"rw\", irqs = [60",
        "access = 6, irqs = [60", [row::IPC_ACCESS, 1, 0, 0], None),
    ("a window that executes",
        "access = \"rw\", irqs = [60",
        "access = \"rx\", irqs = [60", [row::IPC_ACCESS, 1, 0, 0], None),
    ("irqs that are a number",
        "irqs = [60, 61]",
        "irqs = 60", [row::IRQS, 1, 0, 0], None),
    ("no irq in the array",
        "irqs = [60, 61]",
        "irqs = []", [row::IRQS, 1, 0, 0], None),
    ("an ipc without irqs",
        ", irqs = [60, 61]",
        "", [row::IRQS, 1, 0, 0], None),
    ("a second irq that is a text",
        "irqs = [60, 61]",
        "irqs = [60, \"61\"]", [row::IRQ, 1, 0, 1], None),
    ("a second irq of 96",
        "irqs = [60, 61]",
        "irqs = [60, 96]", [row::IRQ, 1, 0, 1], Some(96)),
];

#[test]
fn faults_of_ipcs(rt: HostRuntime) -> Result<(), AllocError> {
    check_rows(&rt, rt.alloc(), IPCS.as_slice())
}

#[rattlefmt::skip]
static GUARDS: [Row; 8] = [
    ("guards that are a text",
        "devs = [{ port = 1, irq = 40 }]",
        "devs = [{ port = 1, irq = 40 }]\nguards = \"all\"", [row::GUARDS, 1, 0, 0], None),
    ("seventeen guards",
        "devs = [{ port = 1, irq = 40 }]",
        "devs = [{ port = 1, irq = 40 }]\nguards = [1, 1, 1, 1, 1, 1, 1, 1, 1, 1, 1, 1, 1, 1, 1, 1, 1]", [row::GUARDS, 1, 0, 0], None),
    ("a guard that is a number",
        "devs = [{ port = 1, irq = 40 }]",
        "devs = [{ port = 1, irq = 40 }]\nguards = [{ base = 0, size = 64 }, 1]", [row::GUARD, 1, 1, 0], None),
    ("an unknown key of a guard",
        "devs = [{ port = 1, irq = 40 }]",
        "devs = [{ port = 1, irq = 40 }]\nguards = [{ base = 0, size = 64, access = \"r\" }]", [row::GUARD, 1, 0, 0], None),
    ("a guard's base that is a text",
        "devs = [{ port = 1, irq = 40 }]",
        "devs = [{ port = 1, irq = 40 }]\nguards = [{ base = \"0\", size = 64 }]", [row::GUARD_BASE, 1, 0, 0], None),
    ("a guard's base off its multiple",
        "devs = [{ port = 1, irq = 40 }]",
        "devs = [{ port = 1, irq = 40 }]\nguards = [{ base = 1, size = 64 }]", [row::GUARD_BASE, 1, 0, 0], Some(1)),
    ("a guard without a size",
        "devs = [{ port = 1, irq = 40 }]",
        "devs = [{ port = 1, irq = 40 }]\nguards = [{ base = 0 }]", [row::GUARD_SIZE, 1, 0, 0], None),
    ("a guard's size off its multiple",
        "devs = [{ port = 1, irq = 40 }]",
        "devs = [{ port = 1, irq = 40 }]\nguards = [{ base = 0, size = 65 }]", [row::GUARD_SIZE, 1, 0, 0], Some(65)),
];

#[test]
fn faults_of_guards(rt: HostRuntime) -> Result<(), AllocError> {
    check_rows(&rt, rt.alloc(), GUARDS.as_slice())
}
