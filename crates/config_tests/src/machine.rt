//! Samples with one text replaced, each by the first fault that the reader tells: what the machine has, and faults at several places.

use crate::rows::{Row, check_rows};
use bao_config::row;
use std::alloc::AllocError;

#[rattlefmt::skip]
static DOCUMENT_AND_BANKS: [Row; 17] = [
    ("an unknown key of the document",
        "version = 1",
        "version = 1\nwidth = 1", [row::DOCUMENT, 0, 0, 0], None),
    ("a version that is no integer",
        "version = 1",
        "version = \"1\"", [row::VERSION, 0, 0, 0], None),
    ("a version of 2",
        "version = 1",
        "version = 2", [row::VERSION, 0, 0, 0], Some(2)),
    ("no version",
        "version = 1\n",
        "", [row::VERSION, 0, 0, 0], None),
    ("a platform that is an array",
        "[platform]",
        "[[platform]]", [row::PLATFORM, 0, 0, 0], None),
    ("a platform of another name",
        "[platform]",
        "[platforms]", [row::PLATFORM, 0, 0, 0], None),
    ("an unknown key of the platform",
        "gicr = 0xaf100000",
        "gicr = 0xaf100000\nits = 1", [row::PLATFORM, 0, 0, 0], None),
    ("banks that are a number",
        "banks = [{ base = 0x0, size = 0x200000 }]",
        "banks = 1", [row::BANKS, 0, 0, 0], None),
    ("no bank in the array",
        "banks = [{ base = 0x0, size = 0x200000 }]",
        "banks = []", [row::BANKS, 0, 0, 0], None),
    ("nine banks, which aren't looked at",
        "banks = [{ base = 0x0, size = 0x200000 }]",
        "banks = [1, 1, 1, 1, 1, 1, 1, 1, 1]", [row::BANKS, 0, 0, 0], None),
    ("a second bank that is a number",
        "banks = [{ base = 0x0, size = 0x200000 }]",
        "banks = [{ base = 0x0, size = 0x200000 }, 7]", [row::BANK, 1, 0, 0], None),
    ("an unknown key of a bank",
        "size = 0x200000 }",
        "size = 0x200000, kind = 1 }", [row::BANK, 0, 0, 0], None),
    ("a bank's base that is a float",
        "base = 0x0, size = 0x200000",
        "base = 0.0, size = 0x200000", [row::BANK_BASE, 0, 0, 0], None),
    ("a bank's base one granule too high",
        "base = 0x0, size = 0x200000",
        "base = 0x1000000000000, size = 0x200000", [row::BANK_BASE, 0, 0, 0], Some(0x1000000000000)),
    ("a bank without a base",
        "base = 0x0, size = 0x200000",
        "size = 0x200000", [row::BANK_BASE, 0, 0, 0], None),
    ("a bank's size that is a text",
        "size = 0x200000",
        "size = \"2M\"", [row::BANK_SIZE, 0, 0, 0], None),
    ("a bank's size of 0",
        "size = 0x200000",
        "size = 0", [row::BANK_SIZE, 0, 0, 0], Some(0)),
];

#[test]
fn faults_of_the_document_and_its_banks(rt: HostRuntime) -> Result<(), AllocError> {
    check_rows(&rt, rt.alloc(), DOCUMENT_AND_BANKS.as_slice())
}

#[rattlefmt::skip]
static CORES_AND_FRAMES: [Row; 11] = [
    ("cores that are a table",
        "cores = [16, 16]",
        "cores = { a = 16 }", [row::PLATFORM_CORES, 0, 0, 0], None),
    ("nine cores, before any core is looked at",
        "cores = [16, 16]",
        "cores = [0, 0, 0, 0, 0, 0, 0, 0, 0]", [row::PLATFORM_CORES, 0, 0, 0], None),
    ("a second core that is a boolean",
        "cores = [16, 16]",
        "cores = [16, true]", [row::PLATFORM_CORE, 1, 0, 0], None),
    ("a core with 33 entries",
        "cores = [16, 16]",
        "cores = [16, 33]", [row::PLATFORM_CORE, 1, 0, 0], Some(33)),
    ("a core with no entries",
        "cores = [16, 16]",
        "cores = [0, 16]", [row::PLATFORM_CORE, 0, 0, 0], Some(0)),
    ("a distributor that is a text",
        "gicd = 0xaf000000",
        "gicd = \"af000000\"", [row::GICD, 0, 0, 0], None),
    ("a distributor off its multiple",
        "gicd = 0xaf000000",
        "gicd = 0xaf008000", [row::GICD, 0, 0, 0], Some(0xaf008000)),
    ("a distributor at 0",
        "gicd = 0xaf000000",
        "gicd = 0", [row::GICD, 0, 0, 0], Some(0)),
    ("no distributor, and an unknown key",
        "gicd = 0xaf000000",
        "gicx = 0xaf000000", [row::GICD, 0, 0, 0], None),
    ("redistributors that are an array",
        "gicr = 0xaf100000",
        "gicr = [0xaf100000]", [row::GICR, 0, 0, 0], None),
    ("redistributors one frame too high",
        "gicr = 0xaf100000",
        "gicr = 0x1000000000000", [row::GICR, 0, 0, 0], Some(0x1000000000000)),
];

#[test]
fn faults_of_cores_and_frames(rt: HostRuntime) -> Result<(), AllocError> {
    check_rows(&rt, rt.alloc(), CORES_AND_FRAMES.as_slice())
}

#[rattlefmt::skip]
static PORTS: [Row; 11] = [
    ("ports that are a number",
        "ports = [{ id = 0, base = 0x9c090000, spi = 32 }, { id = 1, base = 0x9c0a0000, spi = 33 }]",
        "ports = 2", [row::PORTS, 0, 0, 0], None),
    ("seventeen ports",
        "ports = [{ id = 0,",
        "ports = [1, 1, 1, 1, 1, 1, 1, 1, 1, 1, 1, 1, 1, 1, 1, { id = 0,", [row::PORTS, 0, 0, 0], None),
    ("a second port that is an array",
        "{ id = 1, base = 0x9c0a0000, spi = 33 }",
        "[]", [row::PORT, 1, 0, 0], None),
    ("an unknown key of a port",
        "spi = 33 }",
        "spi = 33, name = \"uart\" }", [row::PORT, 1, 0, 0], None),
    ("a port's id that is a text",
        "id = 1",
        "id = \"1\"", [row::PORT_ID, 1, 0, 0], None),
    ("a port's id of 16",
        "id = 1",
        "id = 16", [row::PORT_ID, 1, 0, 0], Some(16)),
    ("a port's base that is a table",
        "base = 0x9c0a0000",
        "base = {}", [row::PORT_BASE, 1, 0, 0], None),
    ("a port's base off its multiple",
        "base = 0x9c0a0000",
        "base = 0x9c0a0020", [row::PORT_BASE, 1, 0, 0], Some(0x9c0a0020)),
    ("a port without an spi",
        ", spi = 33",
        "", [row::PORT_SPI, 1, 0, 0], None),
    ("a port's spi of 31",
        "spi = 32",
        "spi = 31", [row::PORT_SPI, 0, 0, 0], Some(31)),
    ("a port's spi of 96",
        "spi = 33",
        "spi = 96", [row::PORT_SPI, 1, 0, 0], Some(96)),
];

#[test]
fn faults_of_ports(rt: HostRuntime) -> Result<(), AllocError> {
    check_rows(&rt, rt.alloc(), PORTS.as_slice())
}

#[rattlefmt::skip]
static HYPERVISOR_AND_SHARED_MEMORIES: [Row; 16] = [
    ("a hypervisor that is an array",
        "[hypervisor]",
        "[[hypervisor]]", [row::HYPERVISOR, 0, 0, 0], None),
    ("an unknown key of the hypervisor",
        "size = 0x10000\n",
        "size = 0x10000\ncores = 1\n", [row::HYPERVISOR, 0, 0, 0], None),
    ("a hypervisor's base that is a float",
        "base = 0x0\n",
        "base = 1e3\n", [row::HYPERVISOR_BASE, 0, 0, 0], None),
    ("a hypervisor's base off its multiple",
        "base = 0x0\n",
        "base = 0x20\n", [row::HYPERVISOR_BASE, 0, 0, 0], Some(32)),
    ("a hypervisor without a size",
        "size = 0x10000\n",
        "", [row::HYPERVISOR_SIZE, 0, 0, 0], None),
    ("a hypervisor's size one granule too high",
        "size = 0x10000\n",
        "size = 0x1000000000040\n", [row::HYPERVISOR_SIZE, 0, 0, 0], Some(0x1000000000040)),
    ("a shared memory that is no array",
        "[[shmem]]",
        "[shmem]", [row::SHMEMS, 0, 0, 0], None),
    ("nine shared memories",
        "[[shmem]]\n",
        "[[shmem]]\n[[shmem]]\n[[shmem]]\n[[shmem]]\n[[shmem]]\n[[shmem]]\n[[shmem]]\n[[shmem]]\n[[shmem]]\n", [row::SHMEMS, 0, 0, 0], None),
    ("an unknown key of a shared memory",
        "events = 2",
        "events = 2\nname = \"x\"", [row::SHMEM, 0, 0, 0], None),
    ("a shared memory's base that is a text",
        "base = 0x180000",
        "base = \"180000\"", [row::SHMEM_BASE, 0, 0, 0], None),
    ("a shared memory's base off its multiple",
        "base = 0x180000",
        "base = 0x180001", [row::SHMEM_BASE, 0, 0, 0], Some(0x180001)),
    ("a shared memory's size that is a boolean",
        "size = 0x1000\n",
        "size = false\n", [row::SHMEM_SIZE, 0, 0, 0], None),
    ("a shared memory of 32 bytes",
        "size = 0x1000\n",
        "size = 32\n", [row::SHMEM_SIZE, 0, 0, 0], Some(32)),
    ("a shared memory without events",
        "events = 2\n",
        "", [row::SHMEM_EVENTS, 0, 0, 0], None),
    ("a shared memory with no event",
        "events = 2",
        "events = 0", [row::SHMEM_EVENTS, 0, 0, 0], Some(0)),
    ("a shared memory with nine events",
        "events = 2",
        "events = 9", [row::SHMEM_EVENTS, 0, 0, 0], Some(9)),
];

#[test]
fn faults_of_the_hypervisor_and_shared_memories(rt: HostRuntime) -> Result<(), AllocError> {
    check_rows(&rt, rt.alloc(), HYPERVISOR_AND_SHARED_MEMORIES.as_slice())
}

#[rattlefmt::skip]
static SEVERAL_PLACES: [Row; 4] = [
    ("the row that comes first, though it stands last",
        "[hypervisor]\nbase = 0x0\nsize = 0x10000",
        "[hypervisor]\nsize = 1\nbase = 1", [row::HYPERVISOR_BASE, 0, 0, 0], Some(1)),
    ("a bad value of the first VM before a missing key of the second",
        "irq = 40 }]\nipcs = [{ shmem = 0, access = \"rw\", irqs = [50",
        "irq = 40, x = 1 }]\nipcs = [{ shmem = 9, access = \"no\", irqs = [50", [row::DEV, 0, 0, 0], None),
    ("an unknown key of a table inside before one of the table",
        "gicr = 0xaf100000\nports = [{ id = 0,",
        "extra = 1\ngicr = 0xaf100000\nports = [{ name = 1, id = 0,", [row::PORT, 0, 0, 0], None),
    ("two unknown keys are one fault, after a later row's",
        "version = 1\n[platform]",
        "width = 1\nheight = 1\nversion = 1\n[platforms]", [row::PLATFORM, 0, 0, 0], None),
];

#[test]
fn faults_of_several_places(rt: HostRuntime) -> Result<(), AllocError> {
    check_rows(&rt, rt.alloc(), SEVERAL_PLACES.as_slice())
}
