//! Interrupts that a core sends by ICC_SGI1R_EL1, and what one VM's controller is to another VM. The expected values were worked
//! out by hand.

use crate::boards::{
    Guest, ONE_CORE, OTHER, TWO_CORES, check_guests, check_part, image, schedule, told,
};
use std::alloc::Global;
use std::process::Abort;
use std::test::Fail;

/// What a row shows, the value that core 0 writes, and what is pending then at both cores.
type Sent = (&'static str, u64, [u32; 2]);

#[rattlefmt::skip]
static SENT: [Sent; 20] = [
    // shows, value, pending at core 0 and at core 1
    ("id 3 to core 1",                         0x0300_0002,           [0x0, 0x8]),
    ("id 3 to all others",                     0x0100_0300_0000,      [0x0, 0x8]),
    ("an Aff1 of 1",                           0x0301_0002,           [0x0, 0x0]),
    ("an Aff1 of 0x80",                        0x0380_0002,           [0x0, 0x0]),
    ("an Aff2 of 1",                           0x0001_0300_0002,      [0x0, 0x0]),
    ("an Aff2 of 0x80",                        0x0080_0300_0002,      [0x0, 0x0]),
    ("a range of 1",                           0x1000_0300_0002,      [0x0, 0x0]),
    ("a range of 8",                           0x8000_0300_0002,      [0x0, 0x0]),
    ("an Aff3 of 1",                           0x0001_0000_0300_0002, [0x0, 0x0]),
    ("an Aff3 of 0x80",                        0x0080_0000_0300_0002, [0x0, 0x0]),
    ("bits that mean nothing",                 0xff00_0e00_f300_0002, [0x0, 0x8]),
    ("to both",                                0x0300_0003,           [0x8, 0x8]),
    ("to oneself",                             0x0300_0001,           [0x8, 0x0]),
    ("to no core of the list",                 0x0300_0000,           [0x0, 0x0]),
    ("to cores that the VM doesn't have",      0x0300_fffc,           [0x0, 0x0]),
    ("to all of a list",                       0x0300_ffff,           [0x8, 0x8]),
    ("id 0",                                   0x2,                   [0x0, 0x1]),
    ("id 15",                                  0x0f00_0002,           [0x0, 0x8000]),
    ("all others, whatever the list has",      0x0100_0300_0001,      [0x0, 0x8]),
    ("all others, whatever the fields have",   0x00ff_01ff_0301_ffff, [0x0, 0x8]),
];

/// ldr x10, . + 0x40; movz x4, #0xaf11, lsl #16; msr icc_sgi1r_el1, x10; ldr w12, [x4, #0x200]; movz x5, #0xaf13, lsl #16;
/// ldr w13, [x5, #0x200]; mvn x12, x12; mvn x13, x13
#[rattlefmt::skip]
const SENDER: [u32; 8] = [
    0x5800_020a, 0xd2b5_e224, 0xd518_cbaa, 0xb942_008c, 0xd2b5_e265, 0xb942_00ad, 0xaa2c_03ec, 0xaa2d_03ed,
];

fn check_sent(rt: &impl Abort, alloc: Global, row: &Sent) -> Result<(), Fail> {
    let (shows, value, [own, other]) = *row;
    let mut sender = image(alloc, &[(0, &SENDER)])?;
    sender.resize(0x40, 0)?;
    sender.extend_from_slice(&value.to_le_bytes())?;
    let turns = schedule(alloc, &[(0, SENDER.len(), 0)])?;
    let told = told(
        alloc,
        &[TWO_CORES],
        [sender.as_slice(), &[]],
        turns.as_str(),
    )?;
    let (own, other) = (!u64::from(own), !u64::from(other));
    let wanted = format!(in alloc;
        "x10 {value:016x}\nx12 {own:016x}\nx13 {other:016x}\ncore 1 off\n"
    )?;
    check_part(rt, shows, told.as_str(), wanted.as_str());
    Ok(())
}

#[test]
fn sent(rt: HostRuntime) -> Result<(), Fail> {
    for row in SENT.as_slice() {
        check_sent(&rt, rt.alloc(), row)?;
    }
    Ok(())
}

/// What the sending word itself does.
#[rattlefmt::skip]
static WRITES: [Guest; 3] = [
    // movz x4, #0xaf11, lsl #16; msr icc_sgi1r_el1, xzr; ldr w2, [x4, #0x200]; add x3, x3, #1
    ("the zero register sends id 0 to no core",
        &[
            0xd2b5_e224, 0xd518_cbbf, 0xb942_0082, 0x9100_0463,
        ],
        "core 0 on
pc 0000000000100010
pstate 000003c5
x3 0000000000000001
x4 00000000af110000
console"),
    // movz x4, #0xaf11, lsl #16; movz x30, #0x300, lsl #16; movk x30, #1; msr icc_sgi1r_el1, x30; ldr w2, [x4, #0x200]
    ("x30 is sent",
        &[
            0xd2b5_e224, 0xd2a0_601e, 0xf280_003e, 0xd518_cbbe, 0xb942_0082,
        ],
        "core 0 on
pc 0000000000100014
pstate 000003c5
x2 0000000000000008
x4 00000000af110000
x30 0000000003000001
console"),
    // mrs x2, icc_sgi1r_el1
    ("it can't be read",
        &[
            0xd538_cba2,
        ],
        "core 0 on
pc 0000000000000200
pstate 000003c5
elr_el1 0000000000100000
spsr_el1 00000000000003c5
esr_el1 0000000002000000
console"),
];

#[test]
fn words_that_send(rt: HostRuntime) -> Result<(), Fail> {
    check_guests(&rt, rt.alloc(), ONE_CORE, WRITES.as_slice())
}

/// The first VM fills its registers:
/// movz x1, #0xaf00, lsl #16; movz x4, #0xaf11, lsl #16; movz x5, #0xaf13, lsl #16; mov w0, #-1; str w0, [x1];
/// str w0, [x1, #0x104]; str w0, [x1, #0x108]; str w0, [x1, #0x204]; str w0, [x1, #0x208]; str w0, [x1, #0x420];
/// str w0, [x4, #0x100]; str w0, [x4, #0x200]; str w0, [x5, #0x100]; str w0, [x5, #0x200]; movz x10, #0x100, lsl #32;
/// msr icc_sgi1r_el1, x10
#[rattlefmt::skip]
const FILLER: [u32; 16] = [
    0xd2b5_e001, 0xd2b5_e224, 0xd2b5_e265, 0x1280_0000, 0xb900_0020, 0xb901_0420, 0xb901_0820, 0xb902_0420,
    0xb902_0820, 0xb904_2020, 0xb901_0080, 0xb902_0080, 0xb901_00a0, 0xb902_00a0, 0xd2c0_200a, 0xd518_cbaa,
];

/// The second reads its own, in front and afterwards:
/// movz x1, #0xaf00, lsl #16; movz x4, #0xaf11, lsl #16; movz x5, #0xaf13, lsl #16; mov w0, #0x10; str w0, [x1, #0x104];
/// strb w0, [x1, #0x421]; ldr w6, [x1]; ldr w7, [x1, #0x104]; ldr w8, [x1, #0x108]; ldr w9, [x1, #0x204];
/// ldr w10, [x1, #0x208]; ldr w11, [x1, #0x420]; ldr w12, [x4, #0x100]; ldr w13, [x4, #0x200]; ldr w14, [x5, #0x100];
/// ldr w15, [x5, #0x200]
#[rattlefmt::skip]
const READER: [u32; 16] = [
    0xd2b5_e001, 0xd2b5_e224, 0xd2b5_e265, 0x5280_0200, 0xb901_0420, 0x3910_8420, 0xb940_0026, 0xb941_0427,
    0xb941_0828, 0xb942_0429, 0xb942_082a, 0xb944_202b, 0xb941_008c, 0xb942_008d, 0xb941_00ae, 0xb942_00af,
];

/// It reads its own 0x10 alone, and the first still has what it wrote.
const READ: &str = "vm b
core 0 on
pc 0000000000140040
pstate 000003c5
x0 0000000000000010
x1 00000000af000000
x4 00000000af110000
x5 00000000af130000
x6 0000000000000050
x7 0000000000000010
x11 0000000000001000
core 1 off
";

/// The first fills its registers before the second begins, after it has written its own, and after it has read them.
#[rattlefmt::skip]
static FILLED: [(&str, &[(u8, usize, u32)]); 3] = [
    ("before the other begins",   &[(0, 16, 0), (2, 16, 0)]),
    ("after the other has written", &[(2, 6, 0), (0, 16, 0), (2, 10, 0)]),
    ("while the other reads",     &[(2, 9, 0), (0, 9, 0), (2, 4, 0), (0, 7, 0), (2, 3, 0)]),
];

#[test]
fn another_vms_registers(rt: HostRuntime) -> Result<(), Fail> {
    let alloc = rt.alloc();
    let (filler, reader) = (
        image(alloc, &[(0, &FILLER)])?,
        image(alloc, &[(0, &READER)])?,
    );
    for (shows, turns) in FILLED.as_slice() {
        let turns = schedule(alloc, turns)?;
        let told = told(
            alloc,
            &[TWO_CORES, OTHER],
            [&filler, &reader],
            turns.as_str(),
        )?;
        check_part(&rt, shows, told.as_str(), READ);
    }
    Ok(())
}
