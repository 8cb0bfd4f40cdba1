//! Guests that the whole program runs, each by the lines of its report. The expected lines were worked out by hand; those
//! of whole programs and of loads and stores were compared with what scripts/report-by-qemu.py prints.

use crate::runs::{RUN, image_of, sample_shelf, steps, told};
use std::alloc::Global;
use std::process::Abort;
use std::test::Fail;

/// What a row shows, a program's words, how many steps it takes, and lines of its report; an empty one is none.
pub(crate) type Program = (&'static str, &'static [u32], u32, [&'static str; 2]);

/// Whether a text has this line; an empty one is none.
pub(crate) fn has_line(text: &str, line: &str) -> bool {
    line.is_empty() || text.split('\n').any(|other| other == line)
}

/// Runs a program with words before it, which take a step each, and looks for the lines in its report.
pub(crate) fn check_program(
    rt: &impl Abort,
    alloc: Global,
    first: &[u32],
    program: &Program,
) -> Result<(), Fail> {
    let (shows, words, count, [one, other]) = *program;
    let mut image = image_of(alloc, first)?;
    image.extend_from_slice(&image_of(alloc, words)?)?;
    let schedule = steps(alloc, first.len().saturating_add(count as usize))?;
    let mut shelf = sample_shelf(alloc, &image, &schedule)?;
    let told = told(alloc, &RUN, &mut shelf, &[])?;
    let holds = told.starts_with("status 0 ") && has_line(&told, one) && has_line(&told, other);
    assert!(rt; holds, "{shows}: {one}, {other} in {told}");
    Ok(())
}

#[rattlefmt::skip]
static PROGRAMS: [Program; 33] = [
    // shows                        words                                              steps  lines of the report
    ("movz, bits 15 to 0",          &[0xd282_4681],                                       1, ["x1 0000000000001234", "pc 0000000000100004"]),
    ("movz, bits 31 to 16",         &[0xd2a2_4681],                                       1, ["x1 0000000012340000", ""]),
    ("movz, bits 47 to 32",         &[0xd2c2_4681],                                       1, ["x1 0000123400000000", ""]),
    ("movz, bits 63 to 48",         &[0xd2e2_4681],                                       1, ["x1 1234000000000000", ""]),
    ("movz clears the others",      &[0xd29f_ffe1, 0xd2a2_4681],                          2, ["x1 0000000012340000", ""]),
    ("movz of the zero register",   &[0xd282_469f],                                       1, ["pc 0000000000100004", "console 0="]),
    ("movz of the last register",   &[0xd282_469e],                                       1, ["x30 0000000000001234", ""]),
    ("movk, bits 31 to 16",         &[0xd29f_ffe1, 0xf2a2_4681],                          2, ["x1 000000001234ffff", ""]),
    ("movk, bits 47 to 32",         &[0xd29f_ffe1, 0xf2c2_4681],                          2, ["x1 000012340000ffff", ""]),
    ("movk, bits 63 to 48",         &[0xd29f_ffe1, 0xf2e2_4681],                          2, ["x1 123400000000ffff", ""]),
    ("movk, bits 15 to 0",          &[0xd2ff_ffe1, 0xf282_4681],                          2, ["x1 ffff000000001234", ""]),
    ("movk replaces its bits",      &[0xd2bf_ffe1, 0xf2a2_4681],                          2, ["x1 0000000012340000", ""]),
    ("add",                         &[0xd280_00a1, 0x913f_fc22],                          2, ["x2 0000000000001004", "pstate 000003c5"]),
    ("add, shifted by 12",          &[0xd280_00a1, 0x9140_0422],                          2, ["x2 0000000000001005", ""]),
    ("add wraps, and sets no flag", &[0xd29f_ffe1, 0xf2bf_ffe1, 0xf2df_ffe1, 0xf2ff_ffe1, 0x9100_0822],
                                                                                          5, ["x2 0000000000000001", "pstate 000003c5"]),
    ("add to sp",                   &[0xd280_00a1, 0x9100_003f],                          2, ["sp_el1 0000000000000005", ""]),
    ("add from sp",                 &[0xd280_00a1, 0x9100_003f, 0x9100_07e3],             3, ["x3 0000000000000006", ""]),
    ("b forward, over a word",      &[0x1400_0002, 0x0000_0000, 0xd280_00a0],             2, ["x0 0000000000000005", "pc 000000000010000c"]),
    ("b backward",                  &[0xd280_00a0, 0x17ff_ffff],                          2, ["pc 0000000000100000", ""]),
    ("b as far as it goes",         &[0x15ff_ffff],                                       1, ["pc 00000000080ffffc", ""]),
    ("b back as far as it goes",    &[0x1600_0000],                                       1, ["pc fffffffff8100000", ""]),
    ("nop and yield",               &[0xd503_201f, 0xd503_203f],                          2, ["pc 0000000000100008", "pstate 000003c5"]),
    ("wfe, wfi, sev and sevl",      &[0xd503_205f, 0xd503_207f, 0xd503_209f, 0xd503_20bf], 4, ["pc 0000000000100010", ""]),
    ("hints without a name",        &[0xd503_233f, 0xd503_2fff],                          2, ["pc 0000000000100008", ""]),
    ("bl and ret",                  &[0x9400_0003, 0xd280_0020, 0x1400_0000, 0xd280_0042, 0xd65f_03c0],
                                                                                          4, ["x30 0000000000100004", "x0 0000000000000001"]),
    ("blr to its own link",         &[0x1000_007e, 0xd63f_03c0, 0x1400_0000, 0xd503_201f],
                                                                                          2, ["x30 0000000000100008", "pc 000000000010000c"]),
    ("a loop by cbnz",              &[0xd280_0140, 0xd280_0001, 0x8b00_0021, 0xd100_0400, 0xb5ff_ffc0, 0x1400_0000],
                                                                                         33, ["x1 0000000000000037", "pc 0000000000100014"]),
    ("tbz of the highest bit",      &[0x9280_0000, 0xb6f8_0040, 0xd280_0021, 0xd503_201f],
                                                                                          4, ["x1 0000000000000001", "x0 ffffffffffffffff"]),
    ("b.lt, taken",                 &[0xd280_0020, 0xf100_0800, 0x5400_004b, 0xd280_0021, 0xd503_201f],
                                                                                          4, ["pc 0000000000100014", "pstate 800003c5"]),
    ("b.hs, not taken",             &[0xd280_0020, 0xf100_0800, 0x5400_0042, 0xd280_0021, 0xd503_201f],
                                                                                          4, ["x1 0000000000000001", "pc 0000000000100010"]),
    ("udiv and msub",               &[0xd280_0c80, 0xd280_00e1, 0x9ac1_0802, 0x9b01_8043],
                                                                                          4, ["x2 000000000000000e", "x3 0000000000000002"]),
    ("barriers and a prefetch",     &[0xd503_3f9f, 0xd503_3bbf, 0xd503_3fdf, 0xd503_3f5f, 0xf980_0000],
                                                                                          5, ["pc 0000000000100014", "pstate 000003c5"]),
    ("a whole program in C",        &CHECKSUM,                                         1000, ["x0 00000000414fa339", "m 0000000000108040 39a34f41000000000000000000000000"]),
];

/// The image of examples/checksum, which computes the CRC-32 of a text.
#[rattlefmt::skip]
const CHECKSUM: [u32; 69] = [
    0xd2a0_0220, 0xf280_0000, 0x9100_001f, 0x9400_002d, 0x1400_0000, 0x0000_0000,
    0x0000_0000, 0x0000_0000, 0x9000_0045, 0x5290_6404, 0x9100_00a5, 0xd280_0003,
    0x72bd_b704, 0xd503_201f, 0x2a03_03e0, 0x5280_0081, 0x7200_0002, 0x5301_7c00,
    0x4a04_0002, 0x1a80_1040, 0x7100_0421, 0x54ff_ff61, 0xb823_78a0, 0x9100_0463,
    0xf100_407f, 0x54ff_fea1, 0xd65f_03c0, 0xd503_201f, 0x3940_0002, 0x3400_0202,
    0x9000_0043, 0x9100_0063, 0x1280_0001, 0xd503_201f, 0x4a01_0041, 0x3840_1c02,
    0x9240_0c24, 0xb864_7864, 0x4a41_1081, 0x9240_0c24, 0xb864_7864, 0x4a41_1081,
    0x35ff_ff02, 0x2a21_03e0, 0xd65f_03c0, 0x5280_0000, 0xd65f_03c0, 0xd503_201f,
    0xa9bf_7bfd, 0x9100_03fd, 0x97ff_ffd6, 0x9000_0000, 0x9103_a000, 0x97ff_ffe7,
    0x9000_0041, 0xa8c1_7bfd, 0xb900_4020, 0xd65f_03c0, 0x2065_6854, 0x6369_7571,
    0x7262_206b, 0x206e_776f, 0x2078_6f66, 0x706d_756a, 0x766f_2073, 0x7420_7265,
    0x6c20_6568, 0x2079_7a61, 0x0067_6f64,
];

/// Puts 0x108000 into X1 and 0x1122_3344_5566_7788 into X0.
pub(crate) static PLACE_AND_NUMBER: [u32; 6] = [
    0xd290_0001,
    0xf2a0_0201,
    0xd28e_f100,
    0xf2aa_acc0,
    0xf2c6_6880,
    0xf2e2_2440,
];

/// After `PLACE_AND_NUMBER`, with the steps beyond it.
#[rattlefmt::skip]
static LOADS_AND_STORES: [Program; 27] = [
    // shows                          words                                          steps  lines of the report
    ("stur across a granule",         &[0xf803_c020],                                    1, ["m 0000000000108030 00000000000000000000000088776655", "m 0000000000108040 44332211000000000000000000000000"]),
    ("ldur across a granule",         &[0xf803_c020, 0xf843_c022],                       2, ["x2 1122334455667788", "x1 0000000000108000"]),
    ("strb leaves its neighbours",    &[0xf900_0020, 0x3900_0c3f],                       2, ["m 0000000000108000 88776600443322110000000000000000", "x0 1122334455667788"]),
    ("strh leaves its neighbours",    &[0xf900_0020, 0x7900_043f],                       2, ["m 0000000000108000 88770000443322110000000000000000", ""]),
    ("str of a W register",           &[0xb900_0420],                                    1, ["m 0000000000108000 00000000887766550000000000000000", ""]),
    ("stp with pre-index",            &[0xd280_0122, 0xa9bf_0820],                       2, ["m 0000000000107ff0 88776655443322110900000000000000", "x1 0000000000107ff0"]),
    ("ldp with post-index",           &[0xd280_0122, 0xa900_0820, 0xa8c2_1023],          3, ["x3 1122334455667788", "x4 0000000000000009"]),
    ("its base",                      &[0xd280_0122, 0xa900_0820, 0xa8c2_1023],          3, ["x1 0000000000108020", ""]),
    ("stp of W registers",            &[0xd280_0122, 0x2901_0820],                       2, ["m 0000000000108000 00000000000000008877665509000000", ""]),
    ("ldpsw",                         &[0xf800_2020, 0x6940_0c22],                       2, ["x2 0000000077880000", "x3 0000000033445566"]),
    ("ldrb",                          &[0xf900_0020, 0x3940_0022],                       2, ["x2 0000000000000088", ""]),
    ("ldrsb to 64 bits",              &[0xf900_0020, 0x3980_0022],                       2, ["x2 ffffffffffffff88", "pstate 000003c5"]),
    ("ldrsb to 32 bits",              &[0xf900_0020, 0x39c0_0022],                       2, ["x2 00000000ffffff88", ""]),
    ("ldrsh to 64 bits",              &[0xf81f_f020, 0x3900_0020, 0x789f_f022],          3, ["x2 ffffffffffff8888", ""]),
    ("ldrsw",                         &[0xb800_3020, 0xb980_0022],                       2, ["x2 ffffffff88000000", ""]),
    ("a store changes the next word", &[0x5280_1402, 0x72ba_5002, 0x1000_0043, 0xb900_0062, 0x0000_0000], 5, ["x0 0000000000000005", "m 0000000000100020 43000010620000b9a00080d200000000"]),
    ("ldr and ldrsw of literals",     &[0x5800_0060, 0x9800_0063, 0x1400_0000, 0x1234_5678, 0x8000_0004], 3, ["x0 8000000412345678", "x3 ffffffff80000004"]),
    ("offset by lsl",                 &[0xd280_0102, 0xf822_6820],                       2, ["m 0000000000108000 00000000000000008877665544332211", ""]),
    ("offset by lsl #3",              &[0xd280_0022, 0xf822_7820],                       2, ["m 0000000000108000 00000000000000008877665544332211", ""]),
    ("offset by uxtw",                &[0x929f_fee2, 0xf2a0_0002, 0xb822_4820],          3, ["m 0000000000108000 00000000000000008877665500000000", "x2 ffffffff00000008"]),
    ("offset by uxtw #2",             &[0x929f_ffa2, 0xf2a0_0002, 0xb822_5820],          3, ["m 0000000000108000 00000000000000008877665500000000", "x2 ffffffff00000002"]),
    ("offset by sxtw",                &[0x1280_00e2, 0xb822_c820],                       2, ["m 0000000000107ff0 00000000000000008877665500000000", "x2 00000000fffffff8"]),
    ("offset by sxtw #1",             &[0x1280_0062, 0x7822_d820],                       2, ["m 0000000000107ff0 00000000000000008877000000000000", ""]),
    ("offset by sxtx",                &[0x9280_00e2, 0x3822_e820],                       2, ["m 0000000000107ff0 00000000000000008800000000000000", ""]),
    ("offset by sxtx #3",             &[0x9280_0002, 0xf822_f820],                       2, ["m 0000000000107ff0 00000000000000008877665544332211", ""]),
    ("a stack",                       &[0x9100_003f, 0xf81f_0fe0, 0xf840_87e2],          3, ["sp_el1 0000000000107ff8", "x2 1122334455667788"]),
    ("the last bytes of the memory",  &[0xf29f_ff01, 0xf900_0020],                       2, ["m 000000000010fff0 00000000000000008877665544332211", ""]),
];

#[test]
fn programs(rt: HostRuntime) -> Result<(), Fail> {
    for program in PROGRAMS.as_slice() {
        check_program(&rt, rt.alloc(), &[], program)?;
    }
    Ok(())
}

#[test]
fn loads_and_stores(rt: HostRuntime) -> Result<(), Fail> {
    for program in LOADS_AND_STORES.as_slice() {
        check_program(&rt, rt.alloc(), &PLACE_AND_NUMBER, program)?;
    }
    Ok(())
}

/// Puts the address of the distributor into X1, and of a register of the redistributor's second frame into X4.
static FRAMES: [u32; 2] = [0xd2b5_e001, 0xd2b5_e224];

/// After `FRAMES`, with the steps beyond it.
#[rattlefmt::skip]
static CONTROLLER: [Program; 11] = [
    // shows                          words                                                     steps  lines of the report
    ("the distributor's type",        &[0xb940_0420],                                               1, ["x0 0000000000480002", "pc 000000000010000c"]),
    ("ids that are enabled",          &[0xd280_2000, 0xb901_0420, 0xb941_0422],                     3, ["x2 0000000000000100", "pc 0000000000100014"]),
    ("a register that isn't there",   &[0xd280_2000, 0xb901_0c20, 0xb941_0c22, 0x9100_1443],        4, ["x3 0000000000000005", "pc 0000000000100018"]),
    ("five bits of a priority",       &[0xd280_1fe0, 0x3910_a020, 0x3950_a022],                     3, ["x2 00000000000000f8", "pc 0000000000100014"]),
    ("a priority with its sign",      &[0xd280_1fe0, 0x3910_a020, 0x3990_a022],                     3, ["x2 fffffffffffffff8", ""]),
    ("its sign in 32 bits",           &[0xd280_1fe0, 0x3910_a020, 0x39d0_a022],                     3, ["x2 00000000fffffff8", ""]),
    ("the zero register is loaded",   &[0xb940_043f],                                               1, ["pc 000000000010000c", "x1 00000000af000000"]),
    ("an interrupt to oneself",       &[0xd280_0020, 0xd518_cba0, 0xb942_0082],                     3, ["x2 0000000000000001", "pc 0000000000100014"]),
    ("one of another number",         &[0xd280_0020, 0xf2a0_6000, 0xd518_cba0, 0xb942_0082],        4, ["x2 0000000000000008", ""]),
    ("one to all others is to none",  &[0xd2c0_2000, 0xd518_cba0, 0xb942_0082, 0x9100_1443],        4, ["x3 0000000000000005", "pc 0000000000100018"]),
    ("one to another core alone",     &[0xd280_0040, 0xd518_cba0, 0xb942_0082, 0x9100_1443],        4, ["x3 0000000000000005", "pc 0000000000100018"]),
];

#[test]
fn interrupt_controller(rt: HostRuntime) -> Result<(), Fail> {
    for program in CONTROLLER.as_slice() {
        check_program(&rt, rt.alloc(), &FRAMES, program)?;
    }
    Ok(())
}
