//! Tests of a schedule's form and rules.
use bao_config::read_config;
use bao_wellformed::{Checked, check};
use schedule::{ScheduleError, read_schedule};
use std::alloc::{AllocError, Global};
use std::process::Abort;

/// Two cores, and three ports of which no VM is given the last.
const CONFIG: &str = r#"version = 1
[platform]
banks = [{ base = 0x0, size = 0x200000 }]
cores = [16, 16]
gicd = 0xaf000000
gicr = 0xaf100000
ports = [
  { id = 0, base = 0x9c090000, spi = 32 },
  { id = 1, base = 0x9c0a0000, spi = 33 },
  { id = 2, base = 0x9c0b0000, spi = 34 },
]
[hypervisor]
base = 0x0
size = 0x10000
[[vm]]
name = "a"
image = "a.bin"
load = 0x100000
room = 0x8000
entry = 0x100000
cores = [0]
regions = [{ base = 0x100000, size = 0x10000, access = "rwx" }]
devs = [{ port = 0, irq = 40 }]
[[vm]]
name = "b"
image = "b.bin"
load = 0x140000
room = 0x8000
entry = 0x140000
cores = [1]
regions = [{ base = 0x140000, size = 0x10000, access = "rwx" }]
devs = [{ port = 1, irq = 40 }]
"#;

/// A schedule, and its events or the first line that breaks a rule.
#[rattlefmt::skip]
static ROWS: [(&[u8], &str); 38] = [
    (b"", "[]"),
    (b"\n", "[]"),
    (b"#\n", "[]"),
    (b"# s 9 9 \r\t\x00\xff\n", "[]"),
    (b"s 0 0\n", "[Step { core: 0, count: 0 }]"),
    (b"s 1 7\ni 1 255\n", "[Step { core: 1, count: 7 }, Input { port: 1, byte: 255 }]"),
    (b"\n#\ns 0 3\ns 1 3\n", "[Step { core: 0, count: 3 }, Step { core: 1, count: 3 }]"),
    (b"s 0 18446744073709551615\n", "[Step { core: 0, count: 18446744073709551615 }]"),
    (b"s 1 10\ns 0 100\n", "[Step { core: 1, count: 10 }, Step { core: 0, count: 100 }]"),
    // 1: the form
    (b"s 0 18446744073709551616\n", "line 1 rule 1"),
    (b"s 0 18446744073709551620\n", "line 1 rule 1"),
    (b"s 18446744073709551616 0\n", "line 1 rule 1"),
    (b"i 100000000000000000000 0\n", "line 1 rule 1"),
    (b"s 0 0", "line 1 rule 1"),
    (b"\n\ns 0 0\n#", "line 4 rule 1"),
    (b"s 0 0\r\n", "line 1 rule 1"),
    (b"\r\n", "line 1 rule 1"),
    (b" \n", "line 1 rule 1"),
    (b" s 0 0\n", "line 1 rule 1"),
    (b"s  0 0\n", "line 1 rule 1"),
    (b"s 0 0 \n", "line 1 rule 1"),
    (b"s 0\n", "line 1 rule 1"),
    (b"s 0 0 0\n", "line 1 rule 1"),
    (b"s 00 0\n", "line 1 rule 1"),
    (b"s 0 01\n", "line 1 rule 1"),
    (b"s 0 +1\n", "line 1 rule 1"),
    (b"s 0 \n", "line 1 rule 1"),
    (b"S 0 0\n", "line 1 rule 1"),
    (b"i 0 256\n", "line 1 rule 1"),
    (b"i 99 256\n", "line 1 rule 1"),
    // 2: the core, and 3: the port
    (b"s 2 0\n", "line 1 rule 2"),
    (b"s 18446744073709551615 0\n", "line 1 rule 2"),
    (b"i 2 0\n", "line 1 rule 3"),
    (b"#\ni 256 0\n", "line 2 rule 3"),
    // 4: the count
    (b"s 0 5\ns 1 4\n", "line 2 rule 4"),
    (b"s 0 5\ni 0 1\n\ns 0 4\n", "line 4 rule 4"),
    (b"s 0 5\ns 2 4\n", "line 2 rule 2"),
    (b"s 0 5\ns 0 4", "line 2 rule 1"),
];

fn sample(alloc: Global) -> Option<Checked> {
    match read_config(alloc, CONFIG.as_bytes()) {
        Ok(config) => check(alloc, config).ok(),
        Err(_) => None,
    }
}

/// The events, or only how many they are; or the line and the rule.
fn told(alloc: Global, bytes: &[u8], shown: bool) -> Result<String, AllocError> {
    let Some(checked) = sample(alloc) else {
        return "no configuration".to_owned(alloc);
    };
    if bytes.len() >= 1 << 32 {
        return "too long".to_owned(alloc);
    }
    match read_schedule(alloc, bytes, &checked) {
        Ok(events) if shown => format!(in alloc; "{events:?}"),
        Ok(events) => format!(in alloc; "{}", events.len()),
        Err(ScheduleError::Bad { line, rule }) => format!(in alloc; "line {line} rule {rule}"),
        Err(ScheduleError::OutOfMemory) => Err(AllocError),
    }
}

fn check_row(rt: &impl Abort, alloc: Global, bytes: &[u8], want: &str) -> Result<(), AllocError> {
    let said = told(alloc, bytes, true)?;
    assert!(rt; said.as_str() == want, "{bytes:?}: {said}");
    Ok(())
}

#[test]
fn schedules(rt: HostRuntime) -> Result<(), AllocError> {
    for (bytes, want) in ROWS.as_slice() {
        check_row(&rt, rt.alloc(), bytes, want)?;
    }
    Ok(())
}

/// What is said of a million events with this text after them.
fn told_after(alloc: Global, end: &str) -> Result<String, AllocError> {
    let mut text = String::new(alloc);
    for _event in 0..1_000_000 {
        text.push_str("s 0 9\n")?;
    }
    text.push_str(end)?;
    told(alloc, text.as_bytes(), false)
}

static ENDS: [(&str, &str); 5] = [
    ("", "1000000"),
    ("#\n\n", "1000000"),
    ("\ni 0 0\n", "line 1000002 rule 5"),
    ("s 1 9\n", "line 1000001 rule 5"),
    ("s 1 8\n", "line 1000001 rule 4"),
];

#[test]
fn a_million_events(rt: HostRuntime) -> Result<(), AllocError> {
    for (end, want) in ENDS.as_slice() {
        let said = told_after(rt.alloc(), end)?;
        assert!(rt; said.as_str() == *want, "{end}: {said}");
    }
    Ok(())
}
