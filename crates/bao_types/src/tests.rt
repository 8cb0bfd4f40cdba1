ghost use Rattle.std.specs.Prelude.{◌<◌};

use crate::{
    ADDRESS_SPACE_END, BASE_MASK, ByteRange, LIMIT_MASK, Label, ListReg, OutOfMemory, PortSpot,
    Region, RegionMatch, Sum, add_carry, bitmask, field, is_port,
};
use std::process::Abort;
use std::test::Fail;

/// Base and limit register as the hypervisor's entry has them: the first 64 KiB, for EL2 alone.
const HYPERVISOR: Region = Region {
    base: 0x2,
    limit: 0xffc1,
};

/// Guest memory from 1 MiB on, 64 KiB, all accesses.
const MEMORY: Region = Region {
    base: 0x100004,
    limit: 0x10ffc1,
};

/// The same, not enabled.
const OFF: Region = Region {
    base: 0x100004,
    limit: 0x10ffc0,
};

/// Fails the test where an answer isn't the one that is wanted.
fn check(rt: &impl Abort, holds: bool, shows: &str) {
    assert!(rt; holds, "{shows}");
}

#[rattlefmt::skip]
static COVERED: [(&str, Region, u64, bool); 8] = [
    // shows                      region      byte                   covered
    ("the first byte",            MEMORY,     0x100000,              true),
    ("the byte before",           MEMORY,     0xfffff,               false),
    ("the last byte",             MEMORY,     0x10ffff,              true),
    ("the byte after",            MEMORY,     0x110000,              false),
    ("the whole address range",   MEMORY,     0xffff_ffff_ffff_ffff, false),
    ("low bits are no address",   HYPERVISOR, 0x0,                   true),
    ("the end of the hypervisor", HYPERVISOR, 0xffff,                true),
    ("after the hypervisor",      HYPERVISOR, 0x10000,               false),
];

#[test]
fn region_bits(rt: HostRuntime) {
    for (shows, region, at, covered) in COVERED.as_slice() {
        check(&rt, region.covers(*at) == *covered, shows);
    }
    check(&rt, MEMORY.is_enabled() && !OFF.is_enabled(), "EN");
    check(
        &rt,
        MEMORY.access_permission() == 1 && HYPERVISOR.access_permission() == 0,
        "AP",
    );
    check(
        &rt,
        HYPERVISOR.is_execute_never() && !MEMORY.is_execute_never(),
        "XN",
    );
    // BASE and LIMIT are the 42 bits from bit 6 on, below them 5 of the 6 bits are kept.
    let masks = (((1 << 42) - 1) * 64 + 0x3e, ((1 << 42) - 1) * 64 + 0x1f);
    check(&rt, (BASE_MASK, LIMIT_MASK) == masks, "masks");
}

#[rattlefmt::skip]
static MATCHES: [(&str, [Region; 3], u64, RegionMatch); 5] = [
    // shows                       regions                     byte      match
    ("one region",                 [HYPERVISOR, MEMORY, OFF],  0x100000, RegionMatch::Hit(MEMORY)),
    ("a gap",                      [HYPERVISOR, MEMORY, OFF],  0x10000,  RegionMatch::Miss),
    ("one that is off",            [HYPERVISOR, OFF, OFF],     0x100000, RegionMatch::Miss),
    ("two, equal in all bits",     [MEMORY, OFF, MEMORY],      0x100000, RegionMatch::Overlap),
    ("three",                      [MEMORY, MEMORY, MEMORY],   0x10ffff, RegionMatch::Overlap),
];

#[test]
fn matching_regions(rt: HostRuntime) {
    for (shows, regions, at, expected) in MATCHES.as_slice() {
        check(&rt, RegionMatch::of(regions, *at) == *expected, shows);
    }
    check(
        &rt,
        MEMORY.is_match(0x10ffff) && !OFF.is_match(0x10ffff),
        "EN counts",
    );
}

#[rattlefmt::skip]
static RANGES: [(&str, (u64, u64), (u64, u64), bool, bool); 8] = [
    // shows                     range          other          overlaps  lies in it
    ("the same range",           (0x100, 0x40), (0x100, 0x40), true,     true),
    ("the end of the other",     (0x140, 0x40), (0x100, 0x80), true,     true),
    ("one byte too long",        (0x141, 0x40), (0x100, 0x80), true,     false),
    ("the other within it",      (0x100, 0x80), (0x140, 0x40), true,     false),
    ("from the last byte on",    (0x13f, 0x40), (0x100, 0x40), true,     false),
    ("right after the other",    (0x140, 0x40), (0x100, 0x40), false,    false),
    ("right before the other",   (0xc0, 0x40),  (0x100, 0x40), false,    false),
    ("no bytes",                 (0x120, 0),    (0x100, 0x40), false,    true),
];

fn range_of(bounds: &(u64, u64)) -> ByteRange {
    ByteRange {
        base: bounds.0,
        size: bounds.1,
    }
}

#[test]
fn ranges(rt: HostRuntime) {
    for (shows, range, other, overlaps, lies_in) in RANGES.as_slice() {
        let range = range_of(range);
        let other = range_of(other);
        let answers = (range.overlaps(&other), range.lies_in(&other));
        check(&rt, answers == (*overlaps, *lies_in), shows);
        check(&rt, other.overlaps(&range) == *overlaps, shows);
    }
    let port = PortSpot {
        id: 1,
        base: 0x9c09_0000,
        spi: 33,
        cores: 1,
    };
    let range = port.range();
    check(&rt, range.end() == 0x9c09_0040, "64 bytes of a port");
    check(
        &rt,
        range.contains(0x9c09_0000) && range.contains(0x9c09_003f),
        "its bytes",
    );
    check(
        &rt,
        is_port(&[port], 0x9c09_003f) && !is_port(&[port], 0x9c09_0040),
        "no byte after them",
    );
    check(&rt, ADDRESS_SPACE_END == 1 << 48, "the address space");
}

#[test]
fn labels(rt: HostRuntime) -> Result<(), Fail> {
    let name = Label::new(String::from_str(rt.alloc(), "a.bin")?);
    let other = Label::new(String::from_str(rt.alloc(), "b.bin")?);
    check(&rt, name.as_str() == "a.bin" && name != other, "names");
    check(&rt, name.into_string().as_str() == "a.bin", "given back");
    let told = OutOfMemory.to_string(rt.alloc())?;
    check(&rt, told.as_str() == "out of memory", "its text");
    Ok(())
}

#[test]
fn free_list_registers(rt: HostRuntime) {
    for (pending, active) in [(false, false), (true, false), (false, true), (true, true)] {
        let list = ListReg {
            id: 27,
            priority: 0,
            pending,
            active,
        };
        check(&rt, list.is_free() == !(pending || active), "free");
    }
}

#[rattlefmt::skip]
static FIELDS: [(&str, u32, u32, u32); 5] = [
    // shows           high low value in 0xDEAD_BEEF
    ("the whole word", 31,  0,  0xDEAD_BEEF),
    ("the top nibble", 31,  28, 0xD),
    ("the low byte",   7,   0,  0xEF),
    ("the middle",     19,  12, 0xDB),
    ("one bit",        4,   4,  0),
];

#[test]
fn fields(rt: HostRuntime) {
    for (shows, high, low, value) in FIELDS.as_slice() {
        assert!(rt; *low <= *high && *high <= 31);
        check(&rt, field(0xDEAD_BEEF, *high, *low) == *value, shows);
    }
}

const TOP: u64 = 0x8000_0000_0000_0000;

const ALL: u64 = 0xFFFF_FFFF_FFFF_FFFF;

#[rattlefmt::skip]
static SUMS: [(&str, u64, u64, bool, bool, u64, (bool, bool, bool, bool)); 10] = [
    // shows                        x            y            carry  wide   value        n      z      c      v
    ("a plain sum",                 2,           3,           false, true,  5,           (false, false, false, false)),
    ("the carry in",                2,           3,           true,  true,  6,           (false, false, false, false)),
    ("a carry out",                 ALL,         1,           false, true,  0,           (false, true,  true,  false)),
    ("an overflow",                 TOP - 1,     1,           false, true,  TOP,         (true,  false, false, true)),
    ("two least numbers",           TOP,         TOP,         false, true,  0,           (false, true,  true,  true)),
    ("5 - 5",                       5,           ALL - 5,     true,  true,  0,           (false, true,  true,  false)),
    ("5 - 6",                       5,           ALL - 6,     true,  true,  ALL,         (true,  false, false, false)),
    ("a carry out of 32 bits",      0xFFFF_FFFF, 1,           false, false, 0,           (false, true,  true,  false)),
    ("an overflow of 32 bits",      0x7FFF_FFFF, 0,           true,  false, 0x8000_0000, (true,  false, false, true)),
    ("upper halves don't count",    ALL,         TOP + 1,     false, false, 0,           (false, true,  true,  false)),
];

#[test]
fn sums(rt: HostRuntime) {
    for (shows, x, y, carry, wide, value, (n, z, c, v)) in SUMS.as_slice() {
        let sum = Sum {
            value: *value,
            n: *n,
            z: *z,
            c: *c,
            v: *v,
        };
        check(&rt, add_carry(*x, *y, *carry, *wide) == sum, shows);
    }
}

/// The mask by the encoding's own table of sizes, bit by bit.
fn plain_mask(n: u32, immr: u32, imms: u32, wide: bool) -> Option<u64> {
    let (size, last) = match (n, imms) {
        (1, last) => (64, last),
        (_, last @ 0..=31) => (32, last),
        (_, 32..=47) => (16, imms % 16),
        (_, 48..=55) => (8, imms % 8),
        (_, 56..=59) => (4, imms % 4),
        (_, 60..=61) => (2, imms % 2),
        _ => return None,
    };
    if last == size - 1 || size == 64 && !wide {
        return None;
    }
    let mut mask = 0;
    for place in 0..64 {
        if (wide || place < 32) && (place + immr % 64) % size <= last {
            mask |= 1u64 << place;
        }
    }
    Some(mask)
}

#[test]
fn all_bitmasks(rt: HostRuntime) {
    for n in 0..2 {
        for immr in 0..64 {
            for imms in 0..64 {
                check_mask(&rt, n, immr, imms);
            }
        }
    }
}

fn check_mask(rt: &impl Abort, n: u32, immr: u32, imms: u32)
    requires n { n < 2 }
    requires immr { immr < 64 }
    requires imms { imms < 64 }
{
    let masks = [bitmask(n, immr, imms, true), bitmask(n, immr, imms, false)];
    let plain = [
        plain_mask(n, immr, imms, true),
        plain_mask(n, immr, imms, false),
    ];
    assert!(rt; masks == plain, "{n} {immr} {imms}");
}

#[test]
fn known_bitmasks(rt: HostRuntime) {
    // `and x4, x1, #0xfffffffffffffff0`, `orr` of a word with #0x80000001, and two reserved encodings.
    let masks = [
        bitmask(1, 60, 59, true),
        bitmask(0, 1, 1, false),
        bitmask(1, 0, 63, true),
        bitmask(1, 0, 0, false),
    ];
    let expected = [Some(0xFFFF_FFFF_FFFF_FFF0), Some(0x8000_0001), None, None];
    assert!(rt; masks == expected);
}
