ghost use Rattle.std.specs.Prelude.{◌≡◌, ◌+◌, ◌≤◌, length};
ghost use Rattle.bao_types.specs.Bytes.{IsWidth};

use crate::Phys;
use bao_types::OutOfMemory;
use std::alloc::Global;
use std::process::Abort;

/// The bytes of a block of 16.
fn bytes(block: &Phys) -> [u8; 16]
    requires { length block.now ≡ 16 }
{
    let mut all = [0; 16];
    for at in 0..16 {
        all[at] = block.get(at as u64);
    }
    all
}

/// A number written into a block of 16 bytes 0xee, and then read: the bytes and the number.
fn written(alloc: Global, at: u64, width: u32) -> Result<([u8; 16], u64), OutOfMemory>
    requires width { IsWidth width }
    requires range { at + width ≤ 16 }
{
    let mut block = Phys::new(alloc, 16)?;
    block.copy_in(0, &[0xee; 16]);
    block.write_le(at, width, 0x8877_6655_4433_2211);
    let number = block.read_le(at, width);
    Ok((bytes(&block), number))
}

/// Where a number is written and in how many bytes, the block's bytes after it, and the number that is read.
type Row = (u64, u32, [u8; 16], u64);

const E: u8 = 0xee;

#[rattlefmt::skip]
static NUMBERS: [Row; 8] = [
    (0, 1,  [0x11, E, E, E, E, E, E, E, E, E, E, E, E, E, E, E],                      0x11),
    (15, 1, [E, E, E, E, E, E, E, E, E, E, E, E, E, E, E, 0x11],                      0x11),
    (0, 2,  [0x11, 0x22, E, E, E, E, E, E, E, E, E, E, E, E, E, E],                   0x2211),
    (14, 2, [E, E, E, E, E, E, E, E, E, E, E, E, E, E, 0x11, 0x22],                   0x2211),
    (0, 4,  [0x11, 0x22, 0x33, 0x44, E, E, E, E, E, E, E, E, E, E, E, E],             0x4433_2211),
    (12, 4, [E, E, E, E, E, E, E, E, E, E, E, E, 0x11, 0x22, 0x33, 0x44],             0x4433_2211),
    (0, 8,  [0x11, 0x22, 0x33, 0x44, 0x55, 0x66, 0x77, 0x88, E, E, E, E, E, E, E, E], 0x8877_6655_4433_2211),
    (8, 8,  [E, E, E, E, E, E, E, E, 0x11, 0x22, 0x33, 0x44, 0x55, 0x66, 0x77, 0x88], 0x8877_6655_4433_2211),
];

fn check_row(rt: &impl Abort, alloc: Global, row: &Row) -> Result<(), OutOfMemory> {
    let (at, width, bytes, number) = *row;
    assert!(rt; matches!(width, 1 | 2 | 4 | 8) && at <= 16 - u64::from(width));
    let written = written(alloc, at, width)?;
    assert_eq!(rt; written, (bytes, number), "{width} bytes at {at}");
    Ok(())
}

#[test]
fn every_width_at_both_ends(rt: HostRuntime) -> Result<(), OutOfMemory> {
    for row in NUMBERS.as_slice() {
        check_row(&rt, rt.alloc(), row)?;
    }
    Ok(())
}

fn check(rt: &impl Abort, block: &Phys, wanted: [u8; 16])
    requires { length block.now ≡ 16 }
{
    assert_eq!(rt; bytes(block), wanted);
}

#[test]
fn numbers(rt: HostRuntime) -> Result<(), OutOfMemory> {
    let mut block = Phys::new(rt.alloc(), 16)?;
    block.write_le(3, 4, 0x01020304);
    check(
        &rt,
        &block,
        [0, 0, 0, 4, 3, 2, 1, 0, 0, 0, 0, 0, 0, 0, 0, 0],
    );
    assert_eq!(rt; block.read_le(2, 2), 0x0400);
    Ok(())
}

#[test]
fn runs_of_bytes(rt: HostRuntime) -> Result<(), OutOfMemory> {
    let whole = [1, 2, 3, 4, 5, 6, 7, 8, 9, 10, 11, 12, 13, 14, 15, 16];
    let mut block = Phys::new(rt.alloc(), 16)?;
    block.copy_in(0, &whole);
    block.copy_in(0, &[]);
    block.copy_in(16, &[]);
    check(&rt, &block, whole);
    block.copy_in(14, &[70, 80]);
    block.set(0, 90);
    let changed = [90, 2, 3, 4, 5, 6, 7, 8, 9, 10, 11, 12, 13, 14, 70, 80];
    check(&rt, &block, changed);
    Ok(())
}

#[test]
fn smallest_and_largest(rt: HostRuntime) -> Result<(), OutOfMemory> {
    let mut empty = Phys::new(rt.alloc(), 0)?;
    empty.copy_in(0, &[]);
    let mut large = Phys::new(rt.alloc(), 0x4000000)?;
    let fresh = [u64::from(large.get(0)), large.read_le(0x3fffff8, 8)];
    large.set(0x3ffffff, 5);
    let stored = [u64::from(large.get(0x3ffffff)), large.read_le(0x3fffffc, 4)];
    assert_eq!(rt;
        (empty.len(), large.len(), fresh, stored),
        (0, 0x4000000, [0, 0], [5, 0x0500_0000])
    );
    Ok(())
}
