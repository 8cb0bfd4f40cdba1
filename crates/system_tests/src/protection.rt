//! Guests whose accesses are refused or misaligned, by the lines of their reports. The expected lines were worked out by hand.

use crate::programs::{Program, check_program};
use crate::runs::{RUN, check, image_of, sample_shelf, steps, told};
use std::alloc::Global;
use std::process::Abort;
use std::test::Fail;

/// What the second stage refuses parks the core.
#[rattlefmt::skip]
static PARKED: [Program; 16] = [
    // shows                           words                               steps  line of the report
    ("the vectors of a system call",   &[0xd400_0001],                           2, ["core 0 parked 8200000c 0000000000000200", ""]),
    ("eret to the hypervisor's",       &[0xd69f_03e0],                           2, ["core 0 parked 8200000c 0000000000000000", "pstate 00000000"]),
    ("zeros after the program",       &[0xd280_00a0],                           3, ["core 0 parked 8200000c 0000000000000200", ""]),
    ("a fetch outside the memory",     &[0x17ff_ffff],                           2, ["core 0 parked 82000004 00000000000ffffc", "pc 00000000000ffffc"]),
    ("a fetch from a half word",       &[0xd280_0041, 0xf2a0_0201, 0xd61f_0020], 5, ["core 0 parked 8200000c 0000000000000200", "far_el1 0000000000100002"]),
    ("a fetch from the last word",     &[0x9280_0061, 0xd61f_0020],              3, ["core 0 parked 82000004 fffffffffffffffc", ""]),
    ("a load of the hypervisor's",     &[0xd280_0001, 0xf940_0020],              2, ["core 0 parked 93c0800c 0000000000000000", "pc 0000000000100004"]),
    ("a store to the hypervisor's",    &[0xf900_0020],                           1, ["core 0 parked 93c0804c 0000000000000000", ""]),
    ("a load of no memory",            &[0xd2a0_0401, 0xf940_0020],              2, ["core 0 parked 93c08004 0000000000200000", ""]),
    ("a load with one byte outside",   &[0xd29f_ff21, 0xf2a0_0201, 0xf940_0020], 3, ["core 0 parked 93c08004 0000000000110000", ""]),
    ("a pair, the second outside",     &[0xd29f_ff01, 0xf2a0_0201, 0xa900_0020], 3, ["core 0 parked 92000044 0000000000110000", ""]),
    ("a load that writes back",        &[0xd2a0_0401, 0xf840_8420],              2, ["core 0 parked 92000004 0000000000200000", "x1 0000000000200000"]),
    ("a load over the last address",   &[0x9280_0061, 0xf940_0020],              2, ["core 0 parked 93c08004 fffffffffffffffc", ""]),
    ("a store over the last address",  &[0x9280_0061, 0xf900_0020],              2, ["core 0 parked 93c08044 fffffffffffffffc", ""]),
    ("a pair from the distributor",    &[0xd2b5_e001, 0xa940_0820],              2, ["core 0 parked 92000004 00000000af000000", ""]),
    ("a misaligned load from it",      &[0xd2b5_e001, 0xb840_2020],              2, ["core 0 parked 93800004 00000000af000002", ""]),
];

/// An access over the begin or the end of the memory, of which the second stage refuses the first byte, one within, or the
/// last alone.
#[rattlefmt::skip]
static OVER_AN_EDGE: [Program; 12] = [
    // shows  words  steps  lines of the report
    ("a load, its first byte refused", &[0xd29f_ff81, 0xf2a0_01e1, 0xf940_0020], 3, ["core 0 parked 93c08004 00000000000ffffc", "pc 0000000000100008"]),
    ("a load, one within refused", &[0xd29f_ff81, 0xf2a0_0201, 0xf940_0020], 3, ["core 0 parked 93c08004 0000000000110000", "pc 0000000000100008"]),
    ("a load, its last byte refused", &[0xd29f_ff21, 0xf2a0_0201, 0xf940_0020], 3, ["core 0 parked 93c08004 0000000000110000", "pc 0000000000100008"]),
    ("a store, its first byte refused", &[0xd29f_ff81, 0xf2a0_01e1, 0xf900_0020], 3, ["core 0 parked 93c08044 00000000000ffffc", "pc 0000000000100008"]),
    ("a store, one within refused", &[0xd29f_ff81, 0xf2a0_0201, 0xf900_0020], 3, ["core 0 parked 93c08044 0000000000110000", "pc 0000000000100008"]),
    ("a store, its last byte refused", &[0xd29f_ff21, 0xf2a0_0201, 0xf900_0020], 3, ["core 0 parked 93c08044 0000000000110000", "pc 0000000000100008"]),
    ("a load of a pair, its first byte refused", &[0xd29f_ff81, 0xf2a0_01e1, 0xa940_0820], 3, ["core 0 parked 92000004 00000000000ffffc", "pc 0000000000100008"]),
    ("a load of a pair, one within refused", &[0xd29f_ff01, 0xf2a0_0201, 0xa940_0820], 3, ["core 0 parked 92000004 0000000000110000", "pc 0000000000100008"]),
    ("a load of a pair, its last byte refused", &[0xd29f_fe21, 0xf2a0_0201, 0xa940_0820], 3, ["core 0 parked 92000004 0000000000110000", "pc 0000000000100008"]),
    ("a store of a pair, its first byte refused", &[0xd29f_ff81, 0xf2a0_01e1, 0xa900_0820], 3, ["core 0 parked 92000044 00000000000ffffc", "pc 0000000000100008"]),
    ("a store of a pair, one within refused", &[0xd29f_ff01, 0xf2a0_0201, 0xa900_0820], 3, ["core 0 parked 92000044 0000000000110000", "pc 0000000000100008"]),
    ("a store of a pair, its last byte refused", &[0xd29f_fe21, 0xf2a0_0201, 0xa900_0820], 3, ["core 0 parked 92000044 0000000000110000", "pc 0000000000100008"]),
];

/// A misaligned access, with SCTLR_EL1 as the first words set it: bit 1 checks the start, bit 3 checks SP at EL1 and bit 4
/// at EL0.
#[rattlefmt::skip]
static MISALIGNED: [Program; 11] = [
    // shows                        words                                                           steps  lines of the report
    ("a load at a port",            &[0xd2b3_8121, 0xb840_2020],                                        2, ["esr_el1 0000000096000021", "far_el1 000000009c090002"]),
    ("a load, checked",             &[0xd280_0044, 0xd518_1004, 0xd288_0025, 0xf2a0_0205, 0xf940_00a0], 5, ["esr_el1 0000000096000021", "far_el1 0000000000104001"]),
    ("a pair, checked",             &[0xd280_0044, 0xd518_1004, 0xd288_0025, 0xf2a0_0205, 0xa940_08a0], 5, ["esr_el1 0000000096000021", "far_el1 0000000000104001"]),
    ("a store, checked",            &[0xd280_0044, 0xd518_1004, 0xd288_0025, 0xf2a0_0205, 0xf900_00a0], 5, ["esr_el1 0000000096000061", "elr_el1 0000000000100010"]),
    ("of one byte, checked",        &[0xd280_0044, 0xd518_1004, 0xd288_0025, 0xf2a0_0205, 0x3940_00a0], 5, ["pc 0000000000100014", "sctlr_el1 0000000000000002"]),
    ("outside memory, checked",     &[0xd280_0044, 0xd518_1004, 0xd280_0025, 0xf2a0_0225, 0xf940_00a0], 5, ["core 0 on", "far_el1 0000000000110001"]),
    ("not checked",                 &[0xd280_0104, 0xd518_1004, 0xd288_0025, 0xf2a0_0205, 0xf940_00a0], 5, ["pc 0000000000100014", ""]),
    ("sp, checked",                 &[0xd280_0104, 0xd518_1004, 0xd288_0105, 0x9100_00bf, 0xf940_03e0], 5, ["esr_el1 000000009a000000", "elr_el1 0000000000100010"]),
    ("sp, checked at EL0 alone",    &[0xd280_0204, 0xd518_1004, 0xd288_0105, 0xf2a0_0205, 0x9100_00bf, 0xf940_03e0],
                                                                                                        6, ["pc 0000000000100018", ""]),
    // msr sp_el0; adr x8, #12; msr elr_el1; eret; and at EL0 the load
    ("sp at EL0, checked",          &[0xd280_0204, 0xd518_1004, 0xd288_0105, 0xf2a0_0205, 0xd518_4105, 0x1000_0068, 0xd518_4028, 0xd69f_03e0, 0xf940_03e0],
                                                                                                        9, ["esr_el1 000000009a000000", "elr_el1 0000000000100020"]),
    ("sp at EL0, checked at EL1",   &[0xd280_0104, 0xd518_1004, 0xd288_0105, 0xf2a0_0205, 0xd518_4105, 0x1000_0068, 0xd518_4028, 0xd69f_03e0, 0xf940_03e0],
                                                                                                        9, ["pc 0000000000100024", "pstate 00000000"]),
];

/// A region from 0x104000 to 0x104fff, whose base register the word in front sets the low half of, for X1; then M and BR of
/// SCTLR_EL1, and 0x104000 in X5.
#[rattlefmt::skip]
static REGION: [u32; 10] = [
    0xf2a0_0201, 0xd289_f822, 0xf2a0_0202, 0xd518_6801, 0xd518_6822, // movk x1, movz x2, movk x2, msr prbar, msr prlar
    0xd280_0024, 0xf2a0_0044, 0xd518_1004, 0xd288_0005, 0xf2a0_0205, // movz x4, movk x4, msr sctlr, movz x5, movk x5
];

/// At EL1: what a row shows, `movz x1` of the low half, and the words after [`REGION`].
type Access = (&'static str, u32, &'static [u32], [&'static str; 2]);

#[rattlefmt::skip]
static AT_EL1: [Access; 13] = [
    // shows                 movz x1      words                       lines of the report
    ("AP 00, a load",        0xd288_0001, &[0xf940_00a0],              ["pc 0000000000100030", "core 0 on"]),
    ("AP 00, a store",       0xd288_0001, &[0xf900_00a0],              ["pc 0000000000100030", "core 0 on"]),
    ("AP 01, a load",        0xd288_0081, &[0xf940_00a0],              ["pc 0000000000100030", "core 0 on"]),
    ("AP 01, a store",       0xd288_0081, &[0xf900_00a0],              ["pc 0000000000100030", "core 0 on"]),
    ("AP 10, a load",        0xd288_0101, &[0xf940_00a0],              ["pc 0000000000100030", "core 0 on"]),
    ("AP 10, a store",       0xd288_0101, &[0xf900_00a0],              ["esr_el1 000000009600004c", "far_el1 0000000000104000"]),
    ("AP 11, a load",        0xd288_0181, &[0xf940_00a0],              ["pc 0000000000100030", "core 0 on"]),
    ("AP 11, a store",       0xd288_0181, &[0xf900_00a0],              ["esr_el1 000000009600004c", "pc 0000000000000200"]),
    ("XN, a load",           0xd288_00c1, &[0xf940_00a0],              ["pc 0000000000100030", "core 0 on"]),
    ("XN, a fetch",          0xd288_00c1, &[0xd61f_00a0, 0],           ["esr_el1 000000008600000c", "far_el1 0000000000104000"]),
    ("no XN, a fetch",       0xd288_0081, &[0xd61f_00a0, 0],           ["esr_el1 0000000002000000", "elr_el1 0000000000104000"]),
    ("into it, refused",     0xd288_0101, &[0xd287_ff85, 0xf2a0_0205, 0xf900_00a0],
                                                                       ["esr_el1 000000009600004c", "far_el1 0000000000104000"]),
    ("no background",        0xd288_0101, &[0xd280_0024, 0xd518_1004, 0],
                                                                       ["esr_el1 0000000086000004", "far_el1 0000000000100034"]),
];

/// Two regions over 0x104000, M and BR, and a load from there; the second region is set by the word after `TWICE`.
#[rattlefmt::skip]
static TWICE: [u32; 9] = [
    0xd288_0081, 0xf2a0_0201, 0xd289_f822, 0xf2a0_0202, 0xd518_6801, 0xd518_6822, 0xd280_0023, 0xd518_6223, 0xd518_6801,
];

#[rattlefmt::skip]
const LOAD: [u32; 6] = [0xd280_0024, 0xf2a0_0044, 0xd518_1004, 0xd288_0005, 0xf2a0_0205, 0xf940_00a0];

#[rattlefmt::skip]
static OVERLAPS: [Access; 14] = [
    // shows                        msr prlar    words  lines of the report
    ("both regions are on",         0xd518_6822, &LOAD, ["esr_el1 0000000096000004", "far_el1 0000000000104000"]),
    ("the second region is off",    0xd518_683f, &LOAD, ["pc 0000000000100040", "sctlr_el1 0000000000020001"]),
    // Over the begin or the end of both regions, in memory that the background allows: the first stage refuses the first byte,
    // one within, or the last alone.
    ("a load, its first byte refused", 0xd518_6822, &[0xd280_0024, 0xf2a0_0044, 0xd518_1004, 0xd289_ff85, 0xf2a0_0205, 0xf940_00a0], ["esr_el1 0000000096000004", "far_el1 0000000000104ffc"]),
    ("a load, one within refused", 0xd518_6822, &[0xd280_0024, 0xf2a0_0044, 0xd518_1004, 0xd287_ff85, 0xf2a0_0205, 0xf940_00a0], ["esr_el1 0000000096000004", "far_el1 0000000000104000"]),
    ("a load, its last byte refused", 0xd518_6822, &[0xd280_0024, 0xf2a0_0044, 0xd518_1004, 0xd287_ff25, 0xf2a0_0205, 0xf940_00a0], ["esr_el1 0000000096000004", "far_el1 0000000000104000"]),
    ("a store, its first byte refused", 0xd518_6822, &[0xd280_0024, 0xf2a0_0044, 0xd518_1004, 0xd289_ff85, 0xf2a0_0205, 0xf900_00a0], ["esr_el1 0000000096000044", "far_el1 0000000000104ffc"]),
    ("a store, one within refused", 0xd518_6822, &[0xd280_0024, 0xf2a0_0044, 0xd518_1004, 0xd287_ff85, 0xf2a0_0205, 0xf900_00a0], ["esr_el1 0000000096000044", "far_el1 0000000000104000"]),
    ("a store, its last byte refused", 0xd518_6822, &[0xd280_0024, 0xf2a0_0044, 0xd518_1004, 0xd287_ff25, 0xf2a0_0205, 0xf900_00a0], ["esr_el1 0000000096000044", "far_el1 0000000000104000"]),
    ("a load of a pair, its first byte refused", 0xd518_6822, &[0xd280_0024, 0xf2a0_0044, 0xd518_1004, 0xd289_ff85, 0xf2a0_0205, 0xa940_04a0], ["esr_el1 0000000096000004", "far_el1 0000000000104ffc"]),
    ("a load of a pair, one within refused", 0xd518_6822, &[0xd280_0024, 0xf2a0_0044, 0xd518_1004, 0xd287_ff05, 0xf2a0_0205, 0xa940_04a0], ["esr_el1 0000000096000004", "far_el1 0000000000104000"]),
    ("a load of a pair, its last byte refused", 0xd518_6822, &[0xd280_0024, 0xf2a0_0044, 0xd518_1004, 0xd287_fe25, 0xf2a0_0205, 0xa940_04a0], ["esr_el1 0000000096000004", "far_el1 0000000000104000"]),
    ("a store of a pair, its first byte refused", 0xd518_6822, &[0xd280_0024, 0xf2a0_0044, 0xd518_1004, 0xd289_ff85, 0xf2a0_0205, 0xa900_04a0], ["esr_el1 0000000096000044", "far_el1 0000000000104ffc"]),
    ("a store of a pair, one within refused", 0xd518_6822, &[0xd280_0024, 0xf2a0_0044, 0xd518_1004, 0xd287_ff05, 0xf2a0_0205, 0xa900_04a0], ["esr_el1 0000000096000044", "far_el1 0000000000104000"]),
    ("a store of a pair, its last byte refused", 0xd518_6822, &[0xd280_0024, 0xf2a0_0044, 0xd518_1004, 0xd287_fe25, 0xf2a0_0205, 0xa900_04a0], ["esr_el1 0000000096000044", "far_el1 0000000000104000"]),
];

/// A store over a border between what one stage refuses and what the other does: the first refused byte decides.
#[rattlefmt::skip]
static BOTH_STAGES: [Program; 4] = [
    ("the second refuses first", &[0xd280_0181, 0xf2a0_0201, 0xd281_f822, 0xf2a0_0202, 0xd518_6801, 0xd518_6822,
        0xd280_0024, 0xf2a0_0044, 0xd518_1004, 0xd29f_ff85, 0xf2a0_01e5, 0xf900_00a0],
        12, ["core 0 parked 93c08044 00000000000ffffc", ""]),
    ("the first refuses first", &[0xd29e_0101, 0xf2a0_0201, 0xd29f_f822, 0xf2a0_0202, 0xd518_6801, 0xd518_6822,
        0xd280_0024, 0xf2a0_0044, 0xd518_1004, 0xd29f_ff85, 0xf2a0_0205, 0xf900_00a0],
        12, ["esr_el1 000000009600004c", "far_el1 000000000010fffc"]),
    // Two regions over 64 bytes at an end of the memory, so that the first stage refuses a load too; the program goes on after
    // those at the begin.
    ("the second refuses a load first", &[0x1400_0010, 0, 0, 0, 0, 0, 0, 0, 0, 0, 0, 0, 0, 0, 0, 0, 0xd280_0081, 0xf2a0_0201,
        0xd280_0022, 0xf2a0_0202, 0xd518_6801, 0xd518_6822, 0xd280_0023, 0xd518_6223, 0xd518_6801, 0xd518_6822,
        0xd280_0024, 0xf2a0_0044, 0xd518_1004, 0xd29f_ff85, 0xf2a0_01e5, 0xf940_00a0],
        17, ["core 0 parked 93c08004 00000000000ffffc", ""]),
    ("the first refuses a load first", &[0xd29f_f881, 0xf2a0_0201,
        0xd29f_f822, 0xf2a0_0202, 0xd518_6801, 0xd518_6822, 0xd280_0023, 0xd518_6223, 0xd518_6801, 0xd518_6822,
        0xd280_0024, 0xf2a0_0044, 0xd518_1004, 0xd29f_ff85, 0xf2a0_0205, 0xf940_00a0],
        16, ["esr_el1 0000000096000004", "far_el1 000000000010fffc"]),
];

/// After the words of X1 and [`REGION`] but the last two: a region over the program with AP 11, and at EL0 an access to X5.
#[rattlefmt::skip]
static TO_EL0: [u32; 11] = [
    0xd280_0023, 0xd518_6223, 0xd280_0186, 0xf2a0_0206, 0xd281_f827, 0xf2a0_0207, 0xd518_6806, 0xd518_6827, // region 1
    0x1000_0068, 0xd518_4028, 0xd69f_03e0, // adr x8, msr elr_el1, eret
];

/// At EL0: what a row shows, `movz x1` of the low half, and the access after [`TO_EL0`].
#[rattlefmt::skip]
static AT_EL0: [Access; 11] = [
    // shows               movz x1      access          lines of the report
    ("AP 00, a load",      0xd288_0001, &[0xf940_00a0], ["esr_el1 000000009200000c", "far_el1 0000000000104000"]),
    ("AP 00, a store",     0xd288_0001, &[0xf900_00a0], ["esr_el1 000000009200004c", "far_el1 0000000000104000"]),
    ("AP 01, a load",      0xd288_0081, &[0xf940_00a0], ["pc 000000000010005c", "pstate 00000000"]),
    ("AP 01, a store",     0xd288_0081, &[0xf900_00a0], ["pc 000000000010005c", "pstate 00000000"]),
    ("AP 10, a load",      0xd288_0101, &[0xf940_00a0], ["esr_el1 000000009200000c", "pc 0000000000000400"]),
    ("AP 10, a store",     0xd288_0101, &[0xf900_00a0], ["esr_el1 000000009200004c", "pc 0000000000000400"]),
    ("AP 11, a load",      0xd288_0181, &[0xf940_00a0], ["pc 000000000010005c", "pstate 00000000"]),
    ("AP 11, a store",     0xd288_0181, &[0xf900_00a0], ["esr_el1 000000009200004c", "far_el1 0000000000104000"]),
    ("no background",      0xd288_0081, &[0xf954_00a0], ["esr_el1 0000000092000004", "far_el1 0000000000106800"]),
    ("XN, a fetch",        0xd288_00c1, &[0xd61f_00a0, 0], ["esr_el1 000000008200000c", "far_el1 0000000000104000"]),
    ("no XN, a fetch",     0xd288_0081, &[0xd61f_00a0, 0], ["esr_el1 0000000002000000", "elr_el1 0000000000104000"]),
];

#[test]
fn refused_by_the_second_stage(rt: HostRuntime) -> Result<(), Fail> {
    for program in PARKED.as_slice() {
        check_program(&rt, rt.alloc(), &[], program)?;
    }
    Ok(())
}

#[test]
fn over_an_edge_of_the_memory(rt: HostRuntime) -> Result<(), Fail> {
    for program in OVER_AN_EDGE.as_slice() {
        check_program(&rt, rt.alloc(), &[], program)?;
    }
    Ok(())
}

#[test]
fn misaligned(rt: HostRuntime) -> Result<(), Fail> {
    for program in MISALIGNED.as_slice() {
        check_program(&rt, rt.alloc(), &[], program)?;
    }
    Ok(())
}

/// The words before a row's, in order: its own first word at a place among the shared ones.
fn check_access(
    rt: &impl Abort,
    alloc: Global,
    before: &[u32],
    after: &[u32],
    row: &Access,
) -> Result<(), Fail> {
    let (shows, word, words, lines) = *row;
    let mut first = before.to_vec(alloc)?;
    first.push(word)?;
    first.extend_from_slice(after)?;
    check_program(
        rt,
        alloc,
        &first,
        &(shows, words, words.len().min(64) as u32, lines),
    )
}

#[test]
fn regions_at_el1(rt: HostRuntime) -> Result<(), Fail> {
    for row in AT_EL1.as_slice() {
        check_access(&rt, rt.alloc(), &[], &REGION, row)?;
    }
    Ok(())
}

#[test]
fn regions_at_el0(rt: HostRuntime) -> Result<(), Fail> {
    let alloc = rt.alloc();
    let mut after = REGION.to_vec(alloc)?;
    after.extend_from_slice(&TO_EL0)?;
    for row in AT_EL0.as_slice() {
        check_access(&rt, alloc, &[], &after, row)?;
    }
    Ok(())
}

#[test]
fn regions_that_overlap(rt: HostRuntime) -> Result<(), Fail> {
    for row in OVERLAPS.as_slice() {
        check_access(&rt, rt.alloc(), &TWICE, &[], row)?;
    }
    Ok(())
}

#[test]
fn both_stages(rt: HostRuntime) -> Result<(), Fail> {
    for program in BOTH_STAGES.as_slice() {
        check_program(&rt, rt.alloc(), &[], program)?;
    }
    Ok(())
}

/// What a row shows, a program's words, how many steps come, and what is left. A core that is parked isn't entered.
type Whole = (&'static str, &'static [u32], usize, &'static str);

static WHOLE: [Whole; 3] = [
    (
        "a load of no memory, and two steps more",
        &[0xd2a0_0081, 0xf940_0020],
        4,
        "status 0 entered 2 calls 3 faults 0
vm a
core 0 parked 93c08004 0000000000040000
pc 0000000000100004
pstate 000003c5
x1 0000000000040000
console 0=
m 0000000000100000 8100a0d2200040f90000000000000000
end a
done
",
    ),
    (
        "a store with its last byte outside",
        &[0xd280_00a0, 0xd2a0_0201, 0xf29f_ff21, 0xf900_0020],
        4,
        "status 0 entered 4 calls 3 faults 0
vm a
core 0 parked 93c08044 0000000000110000
pc 000000000010000c
pstate 000003c5
x0 0000000000000005
x1 000000000010fff9
console 0=
m 0000000000100000 a00080d20102a0d221ff9ff2200000f9
end a
done
",
    ),
    (
        "an undefined word, whose vectors aren't the guest's",
        &[0],
        2,
        "status 0 entered 2 calls 3 faults 0
vm a
core 0 parked 8200000c 0000000000000200
pc 0000000000000200
pstate 000003c5
elr_el1 0000000000100000
spsr_el1 00000000000003c5
esr_el1 0000000002000000
console 0=
end a
done
",
    ),
];

fn check_whole(rt: &impl Abort, alloc: Global, row: &Whole) -> Result<(), Fail> {
    let (shows, words, count, wanted) = *row;
    let image = image_of(alloc, words)?;
    let schedule = steps(alloc, count)?;
    let mut shelf = sample_shelf(alloc, &image, &schedule)?;
    let told = told(alloc, &RUN, &mut shelf, &[])?;
    check(rt, shows, &told, wanted);
    Ok(())
}

#[test]
fn parked_cores(rt: HostRuntime) -> Result<(), Fail> {
    for row in WHOLE.as_slice() {
        check_whole(&rt, rt.alloc(), row)?;
    }
    Ok(())
}
