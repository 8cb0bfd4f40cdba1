//! Whole documents, and what is told of them.

use crate::edited::edited;
use bao_config::{ConfigError, Spot, bounds, is_file_name, is_name, read_config, row};
use sample_configs::{ONE_VM, TWO_VMS};
use std::alloc::{AllocError, Global};
use std::process::Abort;
use std::test::Fail;

/// The path of the spot as a text.
fn path_text(alloc: Global, spot: Spot) -> Result<String, AllocError> {
    let path = spot.path();
    String::from_str(
        alloc,
        std::str::from_utf8(path.as_slice()).unwrap_or("no text"),
    )
}

/// What the reader tells of the bytes: the record, or the line of its refusal.
fn told(alloc: Global, bytes: &[u8]) -> Result<String, AllocError> {
    match read_config(alloc, bytes) {
        Ok(config) => format!(in alloc; "{config:?}"),
        Err(ConfigError::BadShape { spot }) => {
            let path = path_text(alloc, spot)?;
            format!(in alloc; "bad shape {path}")
        }
        Err(ConfigError::BadValue { spot, value }) => {
            let path = path_text(alloc, spot)?;
            format!(in alloc; "bad value {path} {value}")
        }
        Err(error) => format!(in alloc; "{error}"),
    }
}

fn check(rt: &impl Abort, alloc: Global, bytes: &[u8], want: &str) -> Result<(), AllocError> {
    let told = told(alloc, bytes)?;
    assert_eq!(rt; told.as_str(), want);
    Ok(())
}

/// Each sample, and the record that it spells.
#[rattlefmt::skip]
static SAMPLES: [(&str, &str); 2] = [
    (ONE_VM, "Config { version: 1, platform: Platform { banks: [ByteRange { base: 0, size: 2097152 }], cores: [16], gicd: 2936012800, gicr: 2937061376, ports: [PortPlace { id: 0, base: 2617835520, spi: 32 }] }, hyp: ByteRange { base: 0, size: 65536 }, shmems: [], vms: [Vm { name: Label { text: \"a\" }, image: Label { text: \"a.bin\" }, place: ByteRange { base: 1048576, size: 32768 }, start: 1048576, cores: [0], regions: [MapRegion { range: ByteRange { base: 1048576, size: 65536 }, write: true, exec: true }], devs: [Dev { port: 0, irq: 40 }], ipcs: [], guards: [] }] }"),
    (TWO_VMS, "Config { version: 1, platform: Platform { banks: [ByteRange { base: 0, size: 2097152 }], cores: [16, 16], gicd: 2936012800, gicr: 2937061376, ports: [PortPlace { id: 0, base: 2617835520, spi: 32 }, PortPlace { id: 1, base: 2617901056, spi: 33 }] }, hyp: ByteRange { base: 0, size: 65536 }, shmems: [Shmem { range: ByteRange { base: 1572864, size: 4096 }, events: 2 }], vms: [Vm { name: Label { text: \"a\" }, image: Label { text: \"a.bin\" }, place: ByteRange { base: 1048576, size: 32768 }, start: 1048576, cores: [0], regions: [MapRegion { range: ByteRange { base: 1048576, size: 65536 }, write: true, exec: true }], devs: [Dev { port: 0, irq: 40 }], ipcs: [Ipc { shmem: 0, write: true, irqs: [50, 51] }], guards: [] }, Vm { name: Label { text: \"b\" }, image: Label { text: \"b.bin\" }, place: ByteRange { base: 1310720, size: 32768 }, start: 1310720, cores: [1], regions: [MapRegion { range: ByteRange { base: 1310720, size: 65536 }, write: true, exec: true }], devs: [Dev { port: 1, irq: 40 }], ipcs: [Ipc { shmem: 0, write: true, irqs: [60, 61] }], guards: [] }] }"),
];

#[test]
fn samples(rt: HostRuntime) -> Result<(), AllocError> {
    for (text, want) in SAMPLES.as_slice() {
        check(&rt, rt.alloc(), text.as_bytes(), want)?;
    }
    Ok(())
}

#[test]
fn equal_records(rt: HostRuntime) -> Result<(), Fail> {
    let one = read_config(rt.alloc(), ONE_VM.as_bytes())?;
    let same = read_config(rt.alloc(), ONE_VM.as_bytes())?;
    let two = read_config(rt.alloc(), TWO_VMS.as_bytes())?;
    assert_eq!(rt; [one == same, one == two], [true, false]);
    Ok(())
}

/// A document, and the refusal.
#[rattlefmt::skip]
static DOCUMENTS: [(&[u8], &str); 7] = [
    (b"", "bad shape version"),
    (b"# nothing\n", "bad shape version"),
    (b"version =", "bad toml"),
    (b"version = 1\nversion = 1", "bad toml"),
    (b"version = 9223372036854775808", "bad toml"),
    (b"version = 1 # \xff", "bad toml"),
    (b"version = 1", "bad shape platform"),
];

#[test]
fn whole_documents(rt: HostRuntime) -> Result<(), AllocError> {
    for (bytes, want) in DOCUMENTS.as_slice() {
        check(&rt, rt.alloc(), bytes, want)?;
    }
    Ok(())
}

/// A sample, a text of it, the text in its place, and the refusal.
#[rattlefmt::skip]
static REFUSALS: [(&str, &str, &str, &str); 10] = [
    (ONE_VM, "[hypervisor]\nbase = 0x0\nsize = 0x10000\n", "", "bad shape hypervisor"),
    (ONE_VM, "[[vm]]", "[vm]", "bad shape vm"),
    (ONE_VM, "[[vm]]", "[[vms]]", "bad shape vm"),
    (ONE_VM, "version = 1", "version = 1\nshmem = [5]", "bad shape shmem[0]"),
    (TWO_VMS, "version = 1", "version = 2", "bad value version 2"),
    (TWO_VMS, "size = 0x10000, access", "size = 63, access", "bad value vm[0].regions[0].size 63"),
    (TWO_VMS, "cores = [1]", "cores = []", "bad shape vm[1].cores"),
    (TWO_VMS, "irqs = [60, 61]", "irqs = [60, 96]", "bad value vm[1].ipcs[0].irqs[1] 96"),
    (TWO_VMS, "size = 0x200000 }", "size = 0x200000, colour = 1 }", "bad shape platform.banks[0]"),
    (TWO_VMS, "version = 1", "version = 1\ncolour = 1", "bad shape document"),
];

fn check_edited(
    rt: &impl Abort,
    alloc: Global,
    row: &(&str, &str, &str, &str),
) -> Result<(), AllocError> {
    let (sample, old, new, want) = *row;
    let text = edited(alloc, sample, old, new)?;
    check(rt, alloc, text.as_bytes(), want)
}

#[test]
fn refusals(rt: HostRuntime) -> Result<(), AllocError> {
    for row in REFUSALS.as_slice() {
        check_edited(&rt, rt.alloc(), row)?;
    }
    Ok(())
}

/// What is accepted: what the row shows, a text of the sample of one VM, and the text in its place.
#[rattlefmt::skip]
static WIDEST: [(&str, &str, &str); 9] = [
    ("no ports", "ports = [{ id = 0, base = 0x9c090000, spi = 32 }]\n", ""),
    ("an empty array of ports", "ports = [{ id = 0, base = 0x9c090000, spi = 32 }]", "ports = []"),
    ("no devs", "devs = [{ port = 0, irq = 40 }]\n", ""),
    ("the highest granule", "base = 0x0\nsize = 0x10000", "base = 0xffffffffffc0\nsize = 0x1000000000000"),
    ("the highest frame", "gicd = 0xaf000000", "gicd = 0xffffffff0000"),
    ("the highest instruction", "entry = 0x100000", "entry = 0xfffffffffffc"),
    ("a name of 16 bytes", "name = \"a\"", "name = \"az09_-az09_-az09\""),
    ("an empty array of guards", "cores = [0]", "cores = [0, 7]\nguards = []"),
    ("the highest numbers", "cores = [16]", "cores = [1, 32]"),
];

fn check_accepted(
    rt: &impl Abort,
    alloc: Global,
    row: &(&str, &str, &str),
) -> Result<(), AllocError> {
    let (shows, old, new) = *row;
    let text = edited(alloc, ONE_VM, old, new)?;
    let answer = read_config(alloc, text.as_bytes());
    assert!(rt; answer.is_ok(), "{shows}");
    Ok(())
}

#[test]
fn widest(rt: HostRuntime) -> Result<(), AllocError> {
    for row in WIDEST.as_slice() {
        check_accepted(&rt, rt.alloc(), row)?;
    }
    Ok(())
}

/// A row with the places, and the path.
#[rattlefmt::skip]
static PATHS: [([u8; 4], &str); 6] = [
    ([row::DOCUMENT, 0, 0, 0], "document"),
    ([row::BANK_SIZE, 7, 0, 0], "platform.banks[7].size"),
    ([row::VM_LOAD, 10, 0, 0], "vm[10].load"),
    ([row::IRQ, 1, 0, 7], "vm[1].ipcs[0].irqs[7]"),
    ([row::REGION_ACCESS, 255, 100, 0], "vm[255].regions[100].access"),
    ([53, 1, 1, 1], ""),
];

fn check_path(rt: &impl Abort, alloc: Global, line: &([u8; 4], &str)) -> Result<(), AllocError> {
    let ([row, i, j, k], want) = *line;
    let path = path_text(alloc, Spot { row, i, j, k })?;
    assert_eq!(rt; path.as_str(), want);
    Ok(())
}

#[test]
fn paths(rt: HostRuntime) -> Result<(), AllocError> {
    for line in PATHS.as_slice() {
        check_path(&rt, rt.alloc(), line)?;
    }
    Ok(())
}

#[test]
fn public_tests_of_numbers_and_names(rt: HostRuntime) {
    let answers = [
        bounds::FRAME.admits(0xffff_ffff_0000),
        bounds::FRAME.admits(0),
        is_name("az09_-"),
        is_name("Linux"),
        is_file_name("a.bin"),
        is_file_name(""),
    ];
    assert_eq!(rt; answers, [true, false, true, false, true, false]);
}
