//! Guests at the virtual timer and at the interrupt interface, by the whole program. None of these enables an id, so none is
//! taken here; the tests of `board_tests` take them. The expected values were worked out by hand.

use crate::devices::{Guest, check_guest};
use crate::samples::Change;
use crate::several::told_of_two;
use std::test::Fail;

/// The sample's port as a ticker.
const TICKER: &[Change] = &[
    ("id = 0, base", "id = 12, base"),
    ("port = 0, irq", "port = 12, irq"),
];

/// Four steps at count 0.
const FOUR: &str = "s 0 0\ns 0 0\ns 0 0\ns 0 0\n";

#[rattlefmt::skip]
static GUESTS: [Guest; 14] = [
    // shows, changes, words, schedule, lines of the report
    ("mrs of the count", &[],
        &[0xd53b_e041], "s 0 250\n", ["x1 00000000000000fa", "pc 0000000000100004"]),
    ("the greatest count", &[],
        &[0xd53b_e041], "s 0 18446744073709551615\n", ["x1 ffffffffffffffff", ""]),
    // movz x0, #100; msr cntv_cval_el0, x0; mrs x2, cntv_tval_el0
    ("the timer's value counts down", &[],
        &[0xd280_0c80, 0xd51b_e340, 0xd53b_e302], "s 0 0\ns 0 0\ns 0 30\n", ["x2 0000000000000046", ""]),
    // movz x0, #100; msr cntv_cval_el0, x0; movz x0, #1; msr cntv_ctl_el0, x0; mrs x0, cntv_ctl_el0; tbz x0, #2, . - 4;
    // mrs x1, cntvct_el0; b .
    ("a guest waits for its timer", &[],
        &[0xd280_0c80, 0xd51b_e340, 0xd280_0020, 0xd51b_e320, 0xd53b_e320, 0x3617_ffe0, 0xd53b_e041, 0x1400_0000],
        "s 0 0\ns 0 0\ns 0 0\ns 0 0\ns 0 98\ns 0 99\ns 0 100\ns 0 101\ns 0 102\n",
        ["x0 0000000000000005\nx1 0000000000000066", "pc 000000000010001c"]),
    ("it still waits before its time", &[],
        &[0xd280_0c80, 0xd51b_e340, 0xd280_0020, 0xd51b_e320, 0xd53b_e320, 0x3617_ffe0, 0xd53b_e041, 0x1400_0000],
        "s 0 0\ns 0 0\ns 0 0\ns 0 0\ns 0 98\ns 0 99\ns 0 99\ns 0 99\n",
        ["x0 0000000000000001\n", "pc 0000000000100010"]),
    // The interface is opened, the timer set to 100, and msr daifclr, #2; then add x3, x3, #1 for ever.
    ("a timer's interrupt that isn't enabled", &[],
        &[0xd280_1f00, 0xd518_4600, 0xd280_0020, 0xd518_cce0, 0xd280_0c80, 0xd51b_e340, 0xd280_0020, 0xd51b_e320, 0xd503_42ff,
          0x9100_0463, 0x17ff_ffff],
        "s 0 0\ns 0 0\ns 0 0\ns 0 0\ns 0 0\ns 0 0\ns 0 0\ns 0 0\ns 0 0\ns 0 100\ns 0 101\ns 0 102\ns 0 103\n",
        ["pc 0000000000100024\npstate 00000345", "x3 0000000000000002"]),
    // The console is to tell of inputs, and msr daifclr, #2; nops
    ("a console's interrupt that isn't enabled", &[],
        &[0xd2b3_8120, 0x5280_0021, 0xb900_0801, 0xd503_42ff, 0xd503_201f, 0xd503_201f],
        "s 0 0\ns 0 0\ns 0 0\ns 0 0\ni 0 65\ns 0 0\ns 0 0\n",
        ["pc 0000000000100018\npstate 00000345", "console 0="]),
    ("a ticker's interrupt that isn't enabled", TICKER,
        &[0xd2b3_8120, 0x5280_0021, 0xb900_0401, 0xd503_42ff, 0xd503_201f, 0xb940_0002],
        "s 0 0\ns 0 0\ns 0 0\ns 0 0\ni 12 0\ni 12 0\ns 0 0\ns 0 0\n",
        ["pc 0000000000100018\npstate 00000345", "x2 0000000000000002"]),
    // The interface is opened; mrs x5, icc_iar1_el1; mrs x6, icc_hppir1_el1; mrs x4, icc_rpr_el1
    ("no interrupt is shown", &[],
        &[0xd280_1f00, 0xd518_4600, 0xd280_0020, 0xd518_cce0, 0xd538_cc05, 0xd538_cc46, 0xd538_cb64],
        "s 0 0\ns 0 0\ns 0 0\ns 0 0\ns 0 0\ns 0 0\ns 0 0\n",
        ["x4 00000000000000ff\nx5 00000000000003ff\nx6 00000000000003ff", ""]),
    ("icc_iar1_el1 read to xzr", &[],
        &[0xd538_cc1f, 0xd538_cb64], "s 0 0\ns 0 0\n", ["pc 0000000000100008\npstate 000003c5\nx4 00000000000000ff", ""]),
    // movz x0, #95; msr icc_eoir1_el1, x0; movz x0, #27; msr icc_eoir1_el1, x0
    ("ends of ids that aren't active", &[],
        &[0xd280_0be0, 0xd518_cc20, 0xd280_0360, 0xd518_cc20], FOUR, ["pc 0000000000100010\npstate 000003c5", "core 0 on"]),
    // movz x0, #1023; msr icc_eoir1_el1, x0; movz x0, #96; msr icc_eoir1_el1, x0
    ("ends of no interrupt", &[],
        &[0xd280_7fe0, 0xd518_cc20, 0xd280_0c00, 0xd518_cc20], FOUR, ["pc 0000000000100010\npstate 000003c5", "core 0 on"]),
    // movz x0, #255; msr icc_pmr_el1, x0; mrs x3, icc_pmr_el1
    ("the mask keeps bits 7 to 3", &[],
        &[0xd280_1fe0, 0xd518_4600, 0xd538_4603], "s 0 0\ns 0 0\ns 0 0\n", ["x3 00000000000000f8", ""]),
    // movz x0, #255; msr icc_igrpen1_el1, x0; mrs x7, icc_igrpen1_el1; mrs x8, icc_sre_el1
    ("the group keeps bit 0", &[],
        &[0xd280_1fe0, 0xd518_cce0, 0xd538_cce7, 0xd538_cca8], FOUR, ["x7 0000000000000001\nx8 0000000000000007", ""]),
];

#[test]
fn guests_at_timer_and_interface(rt: HostRuntime) -> Result<(), Fail> {
    for guest in GUESTS.as_slice() {
        check_guest(&rt, rt.alloc(), guest)?;
    }
    Ok(())
}

/// `movz x0, #0x9c0a, lsl #16`, `movz w1, #1`, `str w1, [x0, #8]` and `b .`: the second VM's console is to tell of inputs.
static TELLING: [u32; 4] = [0xd2b3_8140, 0x5280_0021, 0xb900_0801, 0x1400_0000];

/// `msr daifclr, #2`, then `add x3, x3, #1` for ever
static OPEN: [u32; 3] = [0xd503_42ff, 0x9100_0463, 0x17ff_ffff];

/// The line of the second VM's console is nothing to the first, wherever its bytes come.
static BYTES_OF_ANOTHER: [&str; 3] = [
    "s 1 0\ns 1 0\ns 1 0\ns 0 0\ns 0 0\ns 0 0\ns 0 0\ns 1 0\n",
    "s 1 0\ns 1 0\ns 1 0\ni 1 65\ns 0 0\ns 0 0\ns 0 0\ns 0 0\ns 1 0\n",
    "s 1 0\ns 1 0\ns 1 0\ns 0 0\ni 1 65\ns 0 0\ni 1 66\ns 0 0\ns 0 0\ns 1 0\n",
];

static FIRST_VM: &str = "vm a
core 0 on
pc 0000000000100008
pstate 00000345
x3 0000000000000002
console 0=
";

#[test]
fn a_line_of_another_vms_port(rt: HostRuntime) -> Result<(), Fail> {
    for schedule in BYTES_OF_ANOTHER.as_slice() {
        let words = [OPEN.as_slice(), TELLING.as_slice()];
        let told = told_of_two(rt.alloc(), &[], words, schedule)?;
        let found = (
            told.as_str().starts_with("status 0 entered 8 "),
            told.as_str().contains(FIRST_VM),
        );
        assert_eq!(rt; found, (true, true), "{schedule}: {told}");
    }
    Ok(())
}
