//! Drivers as a whole: guests that set the controller up, and take, acknowledge and end its interrupts in a handler. What they
//! leave was worked out by hand.

use crate::boards::{ONE_CORE, TWO_CORES, Turn, check_part, image, schedule, told};
use std::test::Fail;

/// It sets the distributor, PPI 27, its interface and its timer to count 100, and then counts in X3.
/// adr x9, . + 0x800; msr vbar_el1, x9; movz x1, #0xaf00, lsl #16; movz x4, #0xaf11, lsl #16; mov w0, #2; str w0, [x1];
/// mov w0, #0x20; strb w0, [x4, #0x41b]; mov w0, #0x8000000; str w0, [x4, #0x100]; mov w0, #0xf8; msr icc_pmr_el1, x0;
/// mov w0, #1; msr icc_igrpen1_el1, x0; mov x0, #100; msr cntv_cval_el0, x0; mov x0, #1; msr cntv_ctl_el0, x0;
/// msr daifclr, #2; add x3, x3, #1; b . - 4
#[rattlefmt::skip]
const TIMER: [u32; 21] = [
    0x1000_4009, 0xd518_c009, 0xd2b5_e001, 0xd2b5_e224, 0x5280_0040, 0xb900_0020, 0x5280_0400, 0x3910_6c80,
    0x52a1_0000, 0xb901_0080, 0x5280_1f00, 0xd518_4600, 0x5280_0020, 0xd518_cce0, 0xd280_0c80, 0xd51b_e340,
    0xd280_0020, 0xd51b_e320, 0xd503_42ff, 0x9100_0463, 0x17ff_ffff,
];

/// Its handler, which sets the timer to 200.
/// mrs x20, icc_iar1_el1; mrs x21, icc_rpr_el1; add x22, x22, #1; mov x0, #200; msr cntv_cval_el0, x0;
/// msr icc_eoir1_el1, x20; mrs x23, icc_rpr_el1; eret
#[rattlefmt::skip]
const AT_THE_TIME: [u32; 8] = [
    0xd538_cc14, 0xd538_cb75, 0x9100_06d6, 0xd280_1900, 0xd51b_e340, 0xd518_cc34, 0xd538_cb77, 0xd69f_03e0,
];

/// Turns, and what they leave.
type Seen = (&'static str, &'static [Turn], &'static str);

/// 19 words set all up. The interrupt is taken in the step with the count.
#[rattlefmt::skip]
static TIMES: [Seen; 5] = [
    ("it counts up to the time", &[(0, 19, 0), (0, 4, 99)],
"core 0 on
pc 000000000010004c
pstate 00000345
x0 0000000000000001
x1 00000000af000000
x3 0000000000000002
x4 00000000af110000
x9 0000000000100800
vbar_el1 0000000000100800
console"),
    ("at the time", &[(0, 19, 0), (0, 4, 99), (0, 1, 100)],
"core 0 on
pc 0000000000100a80
pstate 000003c5
x0 0000000000000001
x1 00000000af000000
x3 0000000000000002
x4 00000000af110000
x9 0000000000100800
elr_el1 000000000010004c
spsr_el1 0000000000000345
vbar_el1"),
    ("the handler, before it ends the interrupt", &[(0, 19, 0), (0, 4, 99), (0, 6, 100)],
"core 0 on
pc 0000000000100a94
pstate 000003c5
x0 00000000000000c8
x1 00000000af000000
x3 0000000000000002
x4 00000000af110000
x9 0000000000100800
x20 000000000000001b
x21 0000000000000020
x22 0000000000000001
elr_el1 000000000010004c
"),
    ("it returns, and is interrupted once", &[(0, 19, 0), (0, 4, 99), (0, 9, 100), (0, 3, 199)],
"core 0 on
pc 0000000000100050
pstate 00000345
x0 00000000000000c8
x1 00000000af000000
x3 0000000000000004
"),
    ("it is interrupted again", &[(0, 19, 0), (0, 4, 99), (0, 9, 100), (0, 3, 199), (0, 10, 1000)],
"core 0 on
pc 000000000010004c
pstate 00000345
x0 00000000000000c8
x1 00000000af000000
x3 0000000000000004
x4 00000000af110000
x9 0000000000100800
x20 000000000000001b
x21 0000000000000020
x22 0000000000000002
x23 00000000000000ff
elr_el1 0000000000100050
spsr_el1 0000000000000345
vbar_el1 0000000000100800
console"),
];

#[test]
fn a_timer(rt: HostRuntime) -> Result<(), Fail> {
    let alloc = rt.alloc();
    let timer = image(alloc, &[(0, &TIMER), (0xa80, &AT_THE_TIME)])?;
    for (shows, turns, wanted) in TIMES.as_slice() {
        let turns = schedule(alloc, turns)?;
        let told = told(alloc, &[ONE_CORE], [timer.as_slice(), &[]], turns.as_str())?;
        check_part(&rt, shows, told.as_str(), wanted);
    }
    Ok(())
}

/// It sets the distributor, SGI 7 and its interface, turns core 1 on at 0x100400, sends it SGI 5, and counts in X6.
/// adr x9, . + 0x800; msr vbar_el1, x9; movz x11, #0xaf00, lsl #16; movz x4, #0xaf11, lsl #16; mov w5, #2; str w5, [x11];
/// mov w5, #0x80; str w5, [x4, #0x100]; mov w5, #0xf8; msr icc_pmr_el1, x5; mov w5, #1; msr icc_igrpen1_el1, x5;
/// msr daifclr, #2; movz x0, #0xc400, lsl #16; movk x0, #3; mov x1, #1; adr x2, . + 0x3c0; mov x3, #0x55; hvc #0;
/// movz x10, #0x500, lsl #16; movk x10, #2; msr icc_sgi1r_el1, x10; add x6, x6, #1; b . - 4
#[rattlefmt::skip]
const FIRST: [u32; 24] = [
    0x1000_4009, 0xd518_c009, 0xd2b5_e00b, 0xd2b5_e224, 0x5280_0045, 0xb900_0165, 0x5280_1005, 0xb901_0085,
    0x5280_1f05, 0xd518_4605, 0x5280_0025, 0xd518_cce5, 0xd503_42ff, 0xd2b8_8000, 0xf280_0060, 0xd280_0021,
    0x1000_1e02, 0xd280_0aa3, 0xd400_0002, 0xd2a0_a00a, 0xf280_004a, 0xd518_cbaa, 0x9100_04c6, 0x17ff_ffff,
];

/// Core 1 sets SGI 5 and PPI 27, its interface and its timer to 500, and counts in X6.
/// adr x9, . + 0x400; msr vbar_el1, x9; movz x4, #0xaf13, lsl #16; movz w5, #0x800, lsl #16; movk w5, #0x20;
/// str w5, [x4, #0x100]; mov w5, #0xf8; msr icc_pmr_el1, x5; mov w5, #1; msr icc_igrpen1_el1, x5; mov x7, #500;
/// msr cntv_cval_el0, x7; msr cntv_ctl_el0, x5; msr daifclr, #2; add x6, x6, #1; b . - 4
#[rattlefmt::skip]
const SECOND: [u32; 16] = [
    0x1000_2009, 0xd518_c009, 0xd2b5_e264, 0x52a1_0005, 0x7280_0405, 0xb901_0085, 0x5280_1f05, 0xd518_4605,
    0x5280_0025, 0xd518_cce5, 0xd280_3e87, 0xd51b_e347, 0xd51b_e325, 0xd503_42ff, 0x9100_04c6, 0x17ff_ffff,
];

/// The handler of both, which answers SGI 5 by SGI 7 to core 0, and adds up the ids in X21.
/// mrs x20, icc_iar1_el1; msr icc_eoir1_el1, x20; add x21, x21, x20; cmp x20, #5; b.ne . + 16; movz x10, #0x700, lsl #16;
/// movk x10, #1; msr icc_sgi1r_el1, x10; eret
#[rattlefmt::skip]
const AT_BOTH: [u32; 9] = [
    0xd538_cc14, 0xd518_cc34, 0x8b14_02b5, 0xf100_169f, 0x5400_0081, 0xd2a0_e00a, 0xf280_002a, 0xd518_cbaa,
    0xd69f_03e0,
];

#[rattlefmt::skip]
static BOTH: [Seen; 4] = [
    // The first sends before the second has set anything: it is pending there.
    ("sent, and not yet taken", &[(0, 22, 0), (1, 5, 0)],
"core 0 on
pc 0000000000100058
pstate 00000345
x1 0000000000000001
x2 0000000000100400
x3 0000000000000055
x4 00000000af110000
x5 0000000000000001
x9 0000000000100800
x10 0000000005000002
x11 00000000af000000
vbar_el1 0000000000100800
core 1 on
pc 0000000000100414
pstate 000003c5
x0 0000000000000055
x4 00000000af130000
x5 0000000008000020
x9 0000000000100800
vbar_el1 0000000000100800
console"),
    // 14 words set the second up, the 15th step takes it, and 9 more go through the handler.
    ("taken and answered", &[(0, 22, 0), (1, 14, 0), (1, 1, 1), (1, 9, 2)],
"core 1 on
pc 0000000000100438
pstate 00000345
x0 0000000000000055
x4 00000000af130000
x5 0000000000000001
x7 00000000000001f4
x9 0000000000100800
x10 0000000007000001
x20 0000000000000005
x21 0000000000000005
elr_el1 0000000000100438
spsr_el1 0000000000000345
vbar_el1"),
    // The first takes the answer, and 6 steps go through its handler.
    ("the answer is taken", &[(0, 22, 0), (1, 14, 0), (1, 10, 2), (0, 1, 3), (0, 6, 4), (0, 1, 5)],
"x6 0000000000000001
x9 0000000000100800
x10 0000000005000002
x11 00000000af000000
x20 0000000000000007
"),
    ("the timer of the second alone", &[(0, 22, 0), (1, 14, 0), (1, 10, 2), (0, 7, 3), (1, 2, 499), (1, 7, 500), (0, 3, 501)],
"core 0 on
pc 000000000010005c
pstate 00000345
x1 0000000000000001
x2 0000000000100400
x3 0000000000000055
x4 00000000af110000
x5 0000000000000001
x6 0000000000000002
x9 0000000000100800
x10 0000000005000002
x11 00000000af000000
x20 0000000000000007
x21 0000000000000007
elr_el1 0000000000100058
spsr_el1 0000000000000345
vbar_el1 0000000000100800
core 1 on
pc 0000000000100438
pstate 00000345
x0 0000000000000055
x4 00000000af130000
x5 0000000000000001
x6 0000000000000001
x7 00000000000001f4
x9 0000000000100800
x10 0000000007000001
x20 000000000000001b
x21 0000000000000020
elr_el1 0000000000100438
spsr_el1 0000000000000345
vbar_el1 0000000000100800
console"),
];

#[test]
fn two_cores(rt: HostRuntime) -> Result<(), Fail> {
    let alloc = rt.alloc();
    let both = image(alloc, &[(0, &FIRST), (0x400, &SECOND), (0xa80, &AT_BOTH)])?;
    for (shows, turns, wanted) in BOTH.as_slice() {
        let turns = schedule(alloc, turns)?;
        let told = told(alloc, &[TWO_CORES], [both.as_slice(), &[]], turns.as_str())?;
        check_part(&rt, shows, told.as_str(), wanted);
    }
    Ok(())
}
