ghost use Rattle.std.specs.Prelude.{◌≡◌, ◌<◌};
ghost use Rattle.vgic_emul.specs.Registers.{core_of, offset_of};

use crate::{FramePlace, emulate, frame};
use std::process::Abort;
use vgic_table::IrqTable;

/// An access, with what is written or is to be read.
enum Act {
    Read(u64),
    Write(u64),
}

use Act::{Read, Write};

/// The frames as the rows name them: the redistributor of a core by its number, the distributor, and after this number
/// the frame of a core's own ids.
const DIST: u8 = 8;

const SGI: u8 = 16;

fn place(frame: u8, offset: u32) -> FramePlace
    requires { frame < 24 }
    ensures core { core_of result < 8 }
    ensures offset { offset_of result ≡ offset }
{
    match frame {
        0..8 => FramePlace::Redist {
            core: frame,
            offset,
        },
        8..16 => FramePlace::Dist { offset },
        _ => FramePlace::Sgi {
            core: frame - 16,
            offset,
        },
    }
}

/// Emulates an access; None where none of this width may be at this offset.
fn access(
    table: &mut IrqTable,
    frame: u8,
    offset: u32,
    width: u32,
    write: Option<u64>,
) -> Option<u64> {
    if frame >= SGI + 8 || width == 0 || offset % width != 0 {
        return None;
    }
    Some(emulate(table, place(frame, offset), width, write))
}

/// The widths of an access in bytes.
const WIDTHS: [u32; 4] = [1, 2, 4, 8];

/// What a row shows, the offset, and what reads of 1, 2, 4 and 8 bytes there give at boot and once words are written; 0
/// where the register doesn't answer the width, and where the offset is no multiple of it.
type Row = (&'static str, u32, [u64; 4], [u64; 4]);

#[rattlefmt::skip]
static DISTRIBUTOR: [Row; 29] = [
    // shows                        offset  at boot                 once written
    ("CTLR",                        0x0,    [0, 0, 0x50, 0],        [0, 0, 0x52, 0]),
    ("TYPER",                       0x4,    [0, 0, 0x0048_0002, 0], [0, 0, 0x0048_0002, 0]),
    ("nothing after it",            0x8,    [0; 4],                 [0; 4]),
    ("no words of private ids",     0x100,  [0; 4],                 [0; 4]),
    ("ISENABLER of ids 32 to 63",   0x104,  [0; 4],                 [0, 0, 0x8000_0001, 0]),
    ("not at its second byte",      0x105,  [0; 4],                 [0; 4]),
    ("ISENABLER of ids 64 to 95",   0x108,  [0; 4],                 [0, 0, 0xc000_0001, 0]),
    ("none after it",               0x10c,  [0; 4],                 [0; 4]),
    ("none before ICENABLER",       0x180,  [0; 4],                 [0; 4]),
    ("ICENABLER of ids 32 to 63",   0x184,  [0; 4],                 [0, 0, 0x8000_0001, 0]),
    ("ICENABLER of ids 64 to 95",   0x188,  [0; 4],                 [0, 0, 0xc000_0001, 0]),
    ("none after it",               0x18c,  [0; 4],                 [0; 4]),
    ("none before ISPENDR",         0x200,  [0; 4],                 [0; 4]),
    ("ISPENDR of ids 32 to 63",     0x204,  [0; 4],                 [0, 0, 0x8000_0003, 0]),
    ("ISPENDR of ids 64 to 95",     0x208,  [0; 4],                 [0, 0, 0x8000_0005, 0]),
    ("none after it",               0x20c,  [0; 4],                 [0; 4]),
    ("none before ICPENDR",         0x280,  [0; 4],                 [0; 4]),
    ("ICPENDR of ids 32 to 63",     0x284,  [0; 4],                 [0, 0, 0x8000_0003, 0]),
    ("ICPENDR of ids 64 to 95",     0x288,  [0; 4],                 [0, 0, 0x8000_0005, 0]),
    ("none after it",               0x28c,  [0; 4],                 [0; 4]),
    ("no priority of id 31",        0x41f,  [0; 4],                 [0; 4]),
    ("priority of ids 32 to 35",    0x420,  [0; 4],                 [0xf8, 0, 0x2018_10f8, 0]),
    ("of id 33",                    0x421,  [0; 4],                 [0x10, 0, 0, 0]),
    ("of id 63",                    0x43f,  [0; 4],                 [0x98, 0, 0, 0]),
    ("of ids 64 to 67",             0x440,  [0; 4],                 [0xa0, 0, 0x4038_30a0, 0]),
    ("of ids 92 to 95",             0x45c,  [0; 4],                 [0x48, 0, 0x1020_3048, 0]),
    ("of id 95",                    0x45f,  [0; 4],                 [0x10, 0, 0, 0]),
    ("none after the last",         0x460,  [0; 4],                 [0; 4]),
    ("IROUTER",                     0x6100, [0; 4],                 [0; 4]),
];

/// The offsets of words, and what is written there.
#[rattlefmt::skip]
static DISTRIBUTOR_WORDS: [(u32, u64); 9] = [
    (0x0, 0x2), (0x104, 0x8000_0001), (0x108, 0xc000_0001), (0x204, 0x8000_0003), (0x208, 0x8000_0005),
    (0x420, 0x2018_10ff), (0x43c, 0x9f50_5050), (0x440, 0x473f_37a7), (0x45c, 0x1122_334f),
];

#[rattlefmt::skip]
static PRIVATE_IDS: [Row; 13] = [
    // shows                        offset  at boot                 once written
    ("no CTLR",                     0x0,    [0; 4],                 [0; 4]),
    ("ISENABLER of ids 0 to 31",    0x100,  [0; 4],                 [0, 0, 0x8000_0001, 0]),
    ("no words of shared ids",      0x104,  [0; 4],                 [0; 4]),
    ("ICENABLER of ids 0 to 31",    0x180,  [0; 4],                 [0, 0, 0x8000_0001, 0]),
    ("none after it",               0x184,  [0; 4],                 [0; 4]),
    ("ISPENDR of ids 0 to 31",      0x200,  [0; 4],                 [0, 0, 0x8000_0020, 0]),
    ("none after it",               0x204,  [0; 4],                 [0; 4]),
    ("ICPENDR of ids 0 to 31",      0x280,  [0; 4],                 [0, 0, 0x8000_0020, 0]),
    ("none after it",               0x284,  [0; 4],                 [0; 4]),
    ("priority of ids 0 to 3",      0x400,  [0; 4],                 [0x8, 0, 0x2018_1008, 0]),
    ("of ids 28 to 31",             0x41c,  [0; 4],                 [0x28, 0, 0x8828_2828, 0]),
    ("of id 31",                    0x41f,  [0; 4],                 [0x88, 0, 0, 0]),
    ("no priority of id 32",        0x420,  [0; 4],                 [0; 4]),
];

#[rattlefmt::skip]
static PRIVATE_WORDS: [(u32, u64); 4] =
    [(0x100, 0x8000_0001), (0x200, 0x8000_0020), (0x400, 0x2018_100f), (0x41c, 0x8f28_2828)];

/// What reads of each width at an offset give; 0 where the offset is no multiple.
fn reads(table: &mut IrqTable, frame: u8, offset: u32) -> [u64; 4] {
    let mut values = [0; 4];
    for (value, width) in values.iter_mut().zip(WIDTHS) {
        *value = access(table, frame, offset, width, None).unwrap_or(0);
    }
    values
}

/// Writes ones by each width that the offset doesn't answer.
fn write_by_misfits(table: &mut IrqTable, frame: u8, offset: u32, answers: &[u64; 4]) {
    for (answer, width) in answers.iter().zip(WIDTHS) {
        if *answer == 0 {
            let _ = access(table, frame, offset, width, Some(u64::MAX));
        }
    }
}

fn check_reads(
    rt: &impl Abort,
    table: &mut IrqTable,
    frame: u8,
    offset: u32,
    wanted: &[u64; 4],
    shows: &str,
) {
    let read = reads(table, frame, offset);
    assert!(rt; read == *wanted, "{shows}: {read:?}");
}

/// Reads all rows of a frame, writes its words, writes by all widths that don't fit, and reads all rows again.
fn check_frame(
    rt: &impl Abort,
    table: &mut IrqTable,
    frame: u8,
    rows: &[Row],
    words: &[(u32, u64)],
) {
    for (shows, offset, before, _) in rows {
        check_reads(rt, table, frame, *offset, before, shows);
    }
    for (offset, value) in words {
        let _ = access(table, frame, *offset, 4, Some(*value));
    }
    for (_, offset, _, after) in rows {
        write_by_misfits(table, frame, *offset, after);
    }
    for (shows, offset, _, after) in rows {
        check_reads(rt, table, frame, *offset, after, shows);
    }
}

fn check_all_frames(rt: &impl Abort, cores: u8) {
    let mut table = IrqTable::new(cores.min(8));
    check_frame(
        rt,
        &mut table,
        DIST,
        DISTRIBUTOR.as_slice(),
        DISTRIBUTOR_WORDS.as_slice(),
    );
    for core in 0..cores.min(8) {
        // The frames of the cores before are written by now, and those of this one are as at boot.
        check_frame(
            rt,
            &mut table,
            SGI + core,
            PRIVATE_IDS.as_slice(),
            PRIVATE_WORDS.as_slice(),
        );
    }
}

#[test]
fn each_register_at_each_width(rt: HostRuntime) {
    for cores in [1, 2, 8] {
        check_all_frames(&rt, cores);
    }
}

/// What a row shows, the VM's number of cores, the core, the offset, and what reads of each width give.
type CoreRow = (&'static str, u8, u8, u32, [u64; 4]);

#[rattlefmt::skip]
static CORE_TYPES: [CoreRow; 13] = [
    // shows                                 cores  core  offset  reads
    ("TYPER of the only core",               1,     0,    0x8,    [0, 0, 0x10, 0x10]),
    ("its high half",                        1,     0,    0xc,    [0, 0, 0, 0]),
    ("TYPER of the first of two",            2,     0,    0x8,    [0, 0, 0, 0]),
    ("of the last of two",                   2,     1,    0x8,    [0, 0, 0x110, 0x1_0000_0110]),
    ("its high half",                        2,     1,    0xc,    [0, 0, 1, 0]),
    ("nothing before it",                    2,     1,    0x0,    [0; 4]),
    ("nothing at its second byte",           2,     1,    0x9,    [0; 4]),
    ("nothing after it",                     2,     1,    0x10,   [0; 4]),
    ("no private ids in that frame",         2,     1,    0x100,  [0; 4]),
    ("TYPER of the last of eight",           8,     7,    0x8,    [0, 0, 0x710, 0x7_0000_0710]),
    ("its high half",                        8,     7,    0xc,    [0, 0, 7, 0]),
    ("of the one before",                    8,     6,    0x8,    [0, 0, 0x600, 0x6_0000_0600]),
    ("its high half",                        8,     6,    0xc,    [0, 0, 6, 0]),
];

/// A read-only register: each row is read, written by all widths, and read again.
fn check_core_type(rt: &impl Abort, row: &CoreRow) {
    let (shows, cores, core, offset, wanted) = row;
    let mut table = IrqTable::new((*cores).min(8));
    check_reads(rt, &mut table, *core, *offset, wanted, shows);
    write_by_misfits(&mut table, *core, *offset, &[0; 4]);
    check_reads(rt, &mut table, *core, *offset, wanted, shows);
}

#[test]
fn types_of_cores(rt: HostRuntime) {
    for row in CORE_TYPES.as_slice() {
        check_core_type(&rt, row);
    }
}

/// What a step of a run shows, its frame, its offset, its width, and the access.
type Step = (&'static str, u8, u32, u32, Act);

#[rattlefmt::skip]
static WRITES: [Step; 28] = [
    // shows                                 frame    offset  width  access
    ("CTLR keeps no other bit",              DIST,    0x0,    4,     Write(0xff)),
    ("than bit 1",                           DIST,    0x0,    4,     Read(0x52)),
    ("bit 0 alone turns it off",             DIST,    0x0,    4,     Write(1)),
    ("and isn't kept",                       DIST,    0x0,    4,     Read(0x50)),
    ("TYPER is read-only",                   DIST,    0x4,    4,     Write(0)),
    ("so it stays",                          DIST,    0x4,    4,     Read(0x0048_0002)),
    ("ids 32, 63",                           DIST,    0x104,  4,     Write(0x8000_0001)),
    ("one more",                             DIST,    0x104,  4,     Write(0x10)),
    ("zeros change nothing",                 DIST,    0x104,  4,     Read(0x8000_0011)),
    ("ICENABLER clears where a 1 is",        DIST,    0x184,  4,     Write(0x8000_0000)),
    ("and only there",                       DIST,    0x104,  4,     Read(0x11)),
    ("the ids from 64 on are others",        DIST,    0x108,  4,     Read(0)),
    ("ISPENDR",                              DIST,    0x204,  4,     Write(0x3)),
    ("sets pending",                         DIST,    0x284,  4,     Read(0x3)),
    ("ICPENDR",                              DIST,    0x284,  4,     Write(0x2)),
    ("clears it",                            DIST,    0x204,  4,     Read(0x1)),
    ("and not enabled",                      DIST,    0x104,  4,     Read(0x11)),
    ("a priority by a byte",                 DIST,    0x45f,  1,     Write(0x87)),
    ("is that id's alone",                   DIST,    0x45c,  4,     Read(0x8000_0000)),
    ("ids 0 and 31 of core 1",               SGI + 1, 0x100,  4,     Write(0x8000_0001)),
    ("are its own",                          SGI,     0x100,  4,     Read(0)),
    ("until cleared",                        SGI + 1, 0x180,  4,     Write(1)),
    ("but for the other",                    SGI + 1, 0x100,  4,     Read(0x8000_0000)),
    ("pending",                              SGI + 1, 0x200,  4,     Write(0x30)),
    ("cleared in part",                      SGI + 1, 0x280,  4,     Write(0x10)),
    ("is left",                              SGI + 1, 0x200,  4,     Read(0x20)),
    ("core 0's own ids",                     SGI,     0x200,  4,     Read(0)),
    ("and the shared ones are untouched",    DIST,    0x104,  4,     Read(0x11)),
];

/// Makes the access of a step, and sees what it answers.
fn check_step(rt: &impl Abort, table: &mut IrqTable, step: &Step) {
    let (shows, frame, offset, width, kind) = step;
    let (write, wanted) = match *kind {
        Read(value) => (None, value),
        Write(value) => (Some(value), 0),
    };
    let answer = access(table, *frame, *offset, *width, write);
    assert!(rt; answer == Some(wanted), "{shows}");
}

#[test]
fn writes_set_and_clear(rt: HostRuntime) {
    let mut table = IrqTable::new(2);
    for step in WRITES.as_slice() {
        check_step(&rt, &mut table, step);
    }
}

const GICD: u64 = 0xaf00_0000;

const GICR: u64 = 0xaf10_0000;

/// What an address shows, the VM's number of cores, the address, and the place there.
type Place = (&'static str, u8, u64, Option<FramePlace>);

#[rattlefmt::skip]
static PLACES: [Place; 12] = [
    ("the distributor's first byte",         1, GICD,              Some(FramePlace::Dist { offset: 0 })),
    ("its last",                             1, GICD + 0xffff,     Some(FramePlace::Dist { offset: 0xffff })),
    ("the byte after it",                    1, GICD + 0x1_0000,   None),
    ("the byte before it",                   1, GICD - 1,          None),
    ("the redistributor of core 0",          1, GICR,              Some(FramePlace::Redist { core: 0, offset: 0 })),
    ("its last byte",                        1, GICR + 0xffff,     Some(FramePlace::Redist { core: 0, offset: 0xffff })),
    ("its private ids",                      1, GICR + 0x1_0000,   Some(FramePlace::Sgi { core: 0, offset: 0 })),
    ("no core 1 in a VM of one",             1, GICR + 0x2_0000,   None),
    ("core 1 in a VM of two",                2, GICR + 0x2_0008,   Some(FramePlace::Redist { core: 1, offset: 8 })),
    ("the last byte of eight cores",         8, GICR + 0xf_ffff,   Some(FramePlace::Sgi { core: 7, offset: 0xffff })),
    ("the byte after it",                    8, GICR + 0x10_0000,  None),
    ("no core at all",                       0, GICR,              None),
];

fn check_place(rt: &impl Abort, row: &Place) {
    let (shows, cores, at, wanted) = row;
    assert!(rt;
        *cores <= 8 && frame(GICD, GICR, *cores, *at) == *wanted,
        "{shows}"
    );
}

#[test]
fn places_of_frames(rt: HostRuntime) {
    for row in PLACES.as_slice() {
        check_place(&rt, row);
    }
}
