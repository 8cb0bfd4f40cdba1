ghost use Rattle.std.specs.Prelude.{◌≡◌};

use crate::Banks;
use bao_types::{ADDRESS_SPACE_END, ByteRange, OutOfMemory};
use std::alloc::Global;
use std::process::Abort;

const fn range(base: u64, size: u64) -> ByteRange
    ensures { result ≡ record { base = base; size = size } }
{
    ByteRange { base, size }
}

/// Writes a number, all of whose bytes are kept.
fn write(rt: &impl Abort, banks: &mut Banks, at: u64, width: u32, value: u64) {
    assert!(rt; matches!(width, 1 | 2 | 4 | 8) && at < ADDRESS_SPACE_END);
    for k in 0..u64::from(width) {
        assert!(rt; banks.keeps(at + k));
    }
    banks.write_le(at, width, value);
}

/// A number, by `get` where it is one byte.
fn read(rt: &impl Abort, banks: &Banks, at: u64, width: u32) -> u64 {
    assert!(rt; matches!(width, 1 | 2 | 4 | 8));
    if width == 1 {
        u64::from(banks.get(at))
    } else {
        banks.read_le(at, width)
    }
}

/// Where a number is written, in how many bytes, and the number; then where one is read, in how many bytes, and that number.
type Row = (u64, u32, u64, u64, u32, u64);

fn check_row(rt: &impl Abort, banks: &mut Banks, row: &Row) {
    let (at, width, value, from, count, wanted) = *row;
    write(rt, banks, at, width, value);
    let number = read(rt, banks, from, count);
    assert_eq!(rt;
        number,
        wanted,
        "{width} bytes at {at}, {count} from {from}"
    );
}

#[rattlefmt::skip]
static ONE_BANK: [Row; 7] = [
    (4092, 8, 0x1122_3344_5566_7788,  4095, 1, 0x55),
    (4092, 8, 0x1122_3344_5566_7788,  4096, 1, 0x44),
    (4092, 8, 0x1122_3344_5566_7788,  4094, 4, 0x3344_5566),
    (0, 4, 0xaabb_ccdd,               0, 2, 0xccdd),
    (0, 4, 0xaabb_ccdd,               0xffff_ffff_ffff_fffc, 8, 0xaabb_ccdd_0000_0000),
    (8191, 1, 0x99,                   8190, 2, 0x9900),
    (8184, 8, 0x1122_3344_5566_7788,  8188, 8, 0x1122_3344),
];

#[test]
fn one_bank(rt: HostRuntime) -> Result<(), OutOfMemory> {
    for row in ONE_BANK.as_slice() {
        let banks = [range(0, 8192)];
        let mut banks = Banks::new(rt.alloc(), &banks, &banks)?;
        check_row(&rt, &mut banks, row);
    }
    Ok(())
}

// The second bank begins where the first one ends, and its last page has 904 bytes.
#[rattlefmt::skip]
static BANKS_THAT_TOUCH: [Row; 6] = [
    (0x1060, 8, 0x1122_3344_5566_7788,  0x1063, 1, 0x55),
    (0x1060, 8, 0x1122_3344_5566_7788,  0x1064, 1, 0x44),
    (0x1060, 8, 0x1122_3344_5566_7788,  0x1062, 4, 0x3344_5566),
    (0x2060, 8, 0x1122_3344_5566_7788,  0x2064, 4, 0x1122_3344),
    (0x23eb, 1, 0x99,                   0x23ea, 4, 0x9900),
    (0x1000, 1, 0x99,                   0xfff, 2, 0x9900),
];

#[test]
fn banks_that_touch(rt: HostRuntime) -> Result<(), OutOfMemory> {
    for row in BANKS_THAT_TOUCH.as_slice() {
        let banks = [range(0x1000, 100), range(0x1064, 5000)];
        let mut banks = Banks::new(rt.alloc(), &banks, &banks)?;
        check_row(&rt, &mut banks, row);
    }
    Ok(())
}

#[test]
fn banks_have_pages_of_their_own(rt: HostRuntime) -> Result<(), OutOfMemory> {
    let both = [range(0, 64), range(0x1000, 64)];
    let mut banks = Banks::new(rt.alloc(), &both, &both)?;
    assert!(rt; banks.keeps(0x1000));
    banks.set(0x1000, 7);
    assert_eq!(rt; (banks.get(0), banks.get(0x1000)), (0, 7));
    Ok(())
}

/// An address, and whether its byte is kept.
#[rattlefmt::skip]
static KEPT: [(u64, bool); 10] = [
    (0xffff, false),
    (0x10000, true),
    (0x10fff, true),
    (0x11000, false),
    (0x11fff, false),
    (0x12000, true),
    (0x13fff, true),
    (0x14000, false),
    (0x14fff, false),
    (0x15000, false),
];

fn check_kept(rt: &impl Abort, banks: &Banks, at: u64, kept: bool) {
    assert_eq!(rt; (banks.keeps(at), banks.get(at)), (kept, 0), "{at}");
}

// Two ranges in one page, and one over a page end.
#[test]
fn pages_in_use(rt: HostRuntime) -> Result<(), OutOfMemory> {
    let used = [range(0x10010, 16), range(0x10020, 16), range(0x12ffc, 8)];
    let banks = Banks::new(rt.alloc(), &[range(0x10000, 0x5000)], &used)?;
    for (at, kept) in KEPT.as_slice() {
        check_kept(&rt, &banks, *at, *kept);
    }
    Ok(())
}
