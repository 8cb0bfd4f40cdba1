//! The order in which a guest gets what is pending, and what keeps it from an interrupt. The expected values were worked out by
//! hand: the least priority number comes first, the least id on a tie, and only a lesser number than that of what runs.

use crate::boards::{Guest, ONE_CORE, check_guests};
use std::test::Fail;

#[rattlefmt::skip]
static ORDERS: [Guest; 4] = [
    // movz x1, #0xaf00, lsl #16; movz x4, #0xaf11, lsl #16; mov w0, #2; str w0, [x1]; mov w0, #0xf8; msr icc_pmr_el1, x0;
    // mov w0, #1; msr icc_igrpen1_el1, x0; mov w0, #0xf00; str w0, [x1, #0x104]; mov w0, #0x8000000; str w0, [x4, #0x100];
    // movz w0, #0x1020; movk w0, #0x0820, lsl #16; str w0, [x1, #0x428]; mov w0, #0x20; strb w0, [x4, #0x41b];
    // mov w0, #0xf00; str w0, [x1, #0x204]; mov w0, #0x8000000; str w0, [x4, #0x200]; mrs x10, icc_iar1_el1;
    // msr icc_eoir1_el1, x10; mrs x11, icc_iar1_el1; msr icc_eoir1_el1, x11; mrs x12, icc_iar1_el1;
    // msr icc_eoir1_el1, x12; mrs x13, icc_iar1_el1; msr icc_eoir1_el1, x13; mrs x14, icc_iar1_el1;
    // msr icc_eoir1_el1, x14; mrs x15, icc_iar1_el1; mrs x16, icc_rpr_el1; ldr w17, [x1, #0x204]; ldr w18, [x4, #0x200]
    ("40, 42, 27 at 0x20, 41 at 0x10, 43 at 0x08",
        &[
            0xd2b5_e001, 0xd2b5_e224, 0x5280_0040, 0xb900_0020, 0x5280_1f00, 0xd518_4600, 0x5280_0020, 0xd518_cce0,
            0x5281_e000, 0xb901_0420, 0x52a1_0000, 0xb901_0080, 0x5282_0400, 0x72a1_0400, 0xb904_2820, 0x5280_0400,
            0x3910_6c80, 0x5281_e000, 0xb902_0420, 0x52a1_0000, 0xb902_0080, 0xd538_cc0a, 0xd518_cc2a, 0xd538_cc0b,
            0xd518_cc2b, 0xd538_cc0c, 0xd518_cc2c, 0xd538_cc0d, 0xd518_cc2d, 0xd538_cc0e, 0xd518_cc2e, 0xd538_cc0f,
            0xd538_cb70, 0xb942_0431, 0xb942_0092,
        ],
        "core 0 on
pc 000000000010008c
pstate 000003c5
x0 0000000008000000
x1 00000000af000000
x4 00000000af110000
x10 000000000000002b
x11 0000000000000029
x12 000000000000001b
x13 0000000000000028
x14 000000000000002a
x15 00000000000003ff
x16 00000000000000ff
console 0="),
    // movz x1, #0xaf00, lsl #16; mov w0, #2; str w0, [x1]; mov w0, #0xf8; msr icc_pmr_el1, x0; mov w0, #1;
    // msr icc_igrpen1_el1, x0; mov w0, #0x7c0000; str w0, [x1, #0x104]; mov w0, #0x28; strb w0, [x1, #0x432];
    // mov w0, #0x20; strb w0, [x1, #0x433]; mov w0, #0x18; strb w0, [x1, #0x434]; mov w0, #0x10; strb w0, [x1, #0x435];
    // mov w0, #0x08; strb w0, [x1, #0x436]; mov w0, #0x40000; str w0, [x1, #0x204]; mrs x10, icc_iar1_el1;
    // mov w0, #0x80000; str w0, [x1, #0x204]; mrs x11, icc_iar1_el1; mov w0, #0x100000; str w0, [x1, #0x204];
    // mrs x12, icc_iar1_el1; mov w0, #0x200000; str w0, [x1, #0x204]; mrs x13, icc_iar1_el1; mov w0, #0x400000;
    // str w0, [x1, #0x204]; mrs x14, icc_iar1_el1; mrs x15, icc_rpr_el1; msr icc_eoir1_el1, x14; msr icc_eoir1_el1, x13;
    // msr icc_eoir1_el1, x12; msr icc_eoir1_el1, x11; mrs x16, icc_rpr_el1; msr icc_eoir1_el1, x10; mrs x17, icc_rpr_el1;
    // mov w0, #0x7c0000; str w0, [x1, #0x204]; mrs x20, icc_iar1_el1; mrs x21, icc_iar1_el1; msr icc_eoir1_el1, x20;
    // mrs x22, icc_iar1_el1; msr icc_eoir1_el1, x22; mrs x23, icc_iar1_el1; msr icc_eoir1_el1, x23; mrs x24, icc_iar1_el1;
    // msr icc_eoir1_el1, x24; mrs x25, icc_iar1_el1; msr icc_eoir1_el1, x25; mrs x26, icc_iar1_el1; mrs x27, icc_rpr_el1
    ("five nested, ended from the last to the first, and none is active then",
        &[
            0xd2b5_e001, 0x5280_0040, 0xb900_0020, 0x5280_1f00, 0xd518_4600, 0x5280_0020, 0xd518_cce0, 0x52a0_0f80,
            0xb901_0420, 0x5280_0500, 0x3910_c820, 0x5280_0400, 0x3910_cc20, 0x5280_0300, 0x3910_d020, 0x5280_0200,
            0x3910_d420, 0x5280_0100, 0x3910_d820, 0x52a0_0080, 0xb902_0420, 0xd538_cc0a, 0x52a0_0100, 0xb902_0420,
            0xd538_cc0b, 0x52a0_0200, 0xb902_0420, 0xd538_cc0c, 0x52a0_0400, 0xb902_0420, 0xd538_cc0d, 0x52a0_0800,
            0xb902_0420, 0xd538_cc0e, 0xd538_cb6f, 0xd518_cc2e, 0xd518_cc2d, 0xd518_cc2c, 0xd518_cc2b, 0xd538_cb70,
            0xd518_cc2a, 0xd538_cb71, 0x52a0_0f80, 0xb902_0420, 0xd538_cc14, 0xd538_cc15, 0xd518_cc34, 0xd538_cc16,
            0xd518_cc36, 0xd538_cc17, 0xd518_cc37, 0xd538_cc18, 0xd518_cc38, 0xd538_cc19, 0xd518_cc39, 0xd538_cc1a,
            0xd538_cb7b,
        ],
        "x0 00000000007c0000
x1 00000000af000000
x10 0000000000000032
x11 0000000000000033
x12 0000000000000034
x13 0000000000000035
x14 0000000000000036
x15 0000000000000008
x16 0000000000000028
x17 00000000000000ff
x20 0000000000000036
x21 00000000000003ff
x22 0000000000000035
x23 0000000000000034
x24 0000000000000033
x25 0000000000000032
x26 00000000000003ff
x27 00000000000000ff
console 0="),
    // movz x1, #0xaf00, lsl #16; mov w0, #2; str w0, [x1]; mov w0, #0xf8; msr icc_pmr_el1, x0; mov w0, #1;
    // msr icc_igrpen1_el1, x0; mov w0, #0xc0000; str w0, [x1, #0x104]; mov w0, #0x28; strb w0, [x1, #0x432];
    // mov w0, #0x20; strb w0, [x1, #0x433]; mov w0, #0x40000; str w0, [x1, #0x204]; mrs x10, icc_iar1_el1;
    // mov w0, #0x80000; str w0, [x1, #0x204]; mrs x11, icc_iar1_el1; msr icc_eoir1_el1, x10; mrs x12, icc_rpr_el1;
    // mov w0, #0xc0000; str w0, [x1, #0x204]; mrs x13, icc_hppir1_el1; msr icc_eoir1_el1, x11; mrs x14, icc_rpr_el1;
    // mrs x15, icc_iar1_el1
    ("an end in another order drops the least priority number, and makes the named id inactive",
        &[
            0xd2b5_e001, 0x5280_0040, 0xb900_0020, 0x5280_1f00, 0xd518_4600, 0x5280_0020, 0xd518_cce0, 0x52a0_0180,
            0xb901_0420, 0x5280_0500, 0x3910_c820, 0x5280_0400, 0x3910_cc20, 0x52a0_0080, 0xb902_0420, 0xd538_cc0a,
            0x52a0_0100, 0xb902_0420, 0xd538_cc0b, 0xd518_cc2a, 0xd538_cb6c, 0x52a0_0180, 0xb902_0420, 0xd538_cc4d,
            0xd518_cc2b, 0xd538_cb6e, 0xd538_cc0f,
        ],
        "x10 0000000000000032
x11 0000000000000033
x12 0000000000000028
x13 00000000000003ff
x14 00000000000000ff
x15 0000000000000033
console 0="),
    // movz x1, #0xaf00, lsl #16; mov w0, #2; str w0, [x1]; mov w0, #0xff; msr icc_pmr_el1, x0; mov w0, #1;
    // msr icc_igrpen1_el1, x0; mov w0, #0x700; str w0, [x1, #0x104]; mov w0, #0xff; strb w0, [x1, #0x428]; mov w0, #0x100;
    // str w0, [x1, #0x204]; mrs x10, icc_iar1_el1; mov w0, #0x600; str w0, [x1, #0x204]; mrs x11, icc_iar1_el1;
    // mrs x12, icc_iar1_el1; msr icc_eoir1_el1, x11; mrs x13, icc_iar1_el1; msr icc_eoir1_el1, x13; mrs x14, icc_iar1_el1;
    // ldrb w15, [x1, #0x428]; ldr w16, [x1, #0x204]
    ("equal priorities don't nest, and a priority of 0xff is 0xf8, which the mask keeps out",
        &[
            0xd2b5_e001, 0x5280_0040, 0xb900_0020, 0x5280_1fe0, 0xd518_4600, 0x5280_0020, 0xd518_cce0, 0x5280_e000,
            0xb901_0420, 0x5280_1fe0, 0x3910_a020, 0x5280_2000, 0xb902_0420, 0xd538_cc0a, 0x5280_c000, 0xb902_0420,
            0xd538_cc0b, 0xd538_cc0c, 0xd518_cc2b, 0xd538_cc0d, 0xd518_cc2d, 0xd538_cc0e, 0x3950_a02f, 0xb942_0430,
        ],
        "x10 00000000000003ff
x11 0000000000000029
x12 00000000000003ff
x13 000000000000002a
x14 00000000000003ff
x15 00000000000000f8
x16 0000000000000100
console 0="),
];

#[test]
fn orders(rt: HostRuntime) -> Result<(), Fail> {
    check_guests(&rt, rt.alloc(), ONE_CORE, ORDERS.as_slice())
}

/// Interrupts go to 0x100a80. The last word of a guest adds 1 to X3, if it isn't interrupted there.
#[rattlefmt::skip]
static TAKEN: [Guest; 10] = [
    // adr x9, . + 0x800; msr vbar_el1, x9; movz x1, #0xaf00, lsl #16; mov w0, #2; str w0, [x1]; mov w0, #0x100;
    // str w0, [x1, #0x104]; str w0, [x1, #0x204]; mov w0, #0xf8; msr icc_pmr_el1, x0; mov w0, #1; msr icc_igrpen1_el1, x0;
    // msr daifclr, #2; add x3, x3, #1
    ("one that is pending and enabled",
        &[
            0x1000_4009, 0xd518_c009, 0xd2b5_e001, 0x5280_0040, 0xb900_0020, 0x5280_2000, 0xb901_0420, 0xb902_0420,
            0x5280_1f00, 0xd518_4600, 0x5280_0020, 0xd518_cce0, 0xd503_42ff, 0x9100_0463,
        ],
        "core 0 on
pc 0000000000100a80
pstate 000003c5
x0 0000000000000001
x1 00000000af000000
x9 0000000000100800
elr_el1 0000000000100034
spsr_el1 0000000000000345
vbar_el1 0000000000100800
console 0="),
    // adr x9, . + 0x800; msr vbar_el1, x9; movz x1, #0xaf00, lsl #16; mov w0, #2; str w0, [x1]; mov w0, #0x100;
    // str w0, [x1, #0x104]; str w0, [x1, #0x204]; mov w0, #1; msr icc_igrpen1_el1, x0; str wzr, [x1]; mov w0, #0xf8;
    // msr icc_pmr_el1, x0; msr daifclr, #2; mrs x5, icc_iar1_el1; add x3, x3, #1
    ("the distributor is turned off while it is listed",
        &[
            0x1000_4009, 0xd518_c009, 0xd2b5_e001, 0x5280_0040, 0xb900_0020, 0x5280_2000, 0xb901_0420, 0xb902_0420,
            0x5280_0020, 0xd518_cce0, 0xb900_003f, 0x5280_1f00, 0xd518_4600, 0xd503_42ff, 0xd538_cc05, 0x9100_0463,
        ],
        "core 0 on
pc 0000000000100040
pstate 00000345
x0 00000000000000f8
x1 00000000af000000
x3 0000000000000001
x5 00000000000003ff
x9 0000000000100800
vbar_el1"),
    // adr x9, . + 0x800; msr vbar_el1, x9; movz x1, #0xaf00, lsl #16; mov w0, #2; str w0, [x1]; mov w0, #0x100;
    // str w0, [x1, #0x104]; str w0, [x1, #0x204]; mov w0, #1; msr icc_igrpen1_el1, x0; str wzr, [x1]; mov w0, #0xf8;
    // msr icc_pmr_el1, x0; msr daifclr, #2; add x3, x3, #1; mov w0, #2; str w0, [x1]; add x3, x3, #1
    ("and turned on again",
        &[
            0x1000_4009, 0xd518_c009, 0xd2b5_e001, 0x5280_0040, 0xb900_0020, 0x5280_2000, 0xb901_0420, 0xb902_0420,
            0x5280_0020, 0xd518_cce0, 0xb900_003f, 0x5280_1f00, 0xd518_4600, 0xd503_42ff, 0x9100_0463, 0x5280_0040,
            0xb900_0020, 0x9100_0463,
        ],
        "core 0 on
pc 0000000000100a80
pstate 000003c5
x0 0000000000000002
x1 00000000af000000
x3 0000000000000001
x9 0000000000100800
elr_el1 0000000000100044
"),
    // adr x9, . + 0x800; msr vbar_el1, x9; movz x1, #0xaf00, lsl #16; mov w0, #2; str w0, [x1]; mov w0, #0x100;
    // str w0, [x1, #0x104]; str w0, [x1, #0x204]; mov w2, #1; msr icc_igrpen1_el1, x2; str w0, [x1, #0x284];
    // mov w0, #0xf8; msr icc_pmr_el1, x0; msr daifclr, #2; mrs x5, icc_hppir1_el1; add x3, x3, #1
    ("it is cleared in the pending register while it is listed",
        &[
            0x1000_4009, 0xd518_c009, 0xd2b5_e001, 0x5280_0040, 0xb900_0020, 0x5280_2000, 0xb901_0420, 0xb902_0420,
            0x5280_0022, 0xd518_cce2, 0xb902_8420, 0x5280_1f00, 0xd518_4600, 0xd503_42ff, 0xd538_cc45, 0x9100_0463,
        ],
        "core 0 on
pc 0000000000100040
pstate 00000345
x0 00000000000000f8
x1 00000000af000000
x2 0000000000000001
x3 0000000000000001
x5 00000000000003ff
x9 "),
    // adr x9, . + 0x800; msr vbar_el1, x9; movz x1, #0xaf00, lsl #16; mov w0, #2; str w0, [x1]; mov w0, #0x100;
    // str w0, [x1, #0x104]; str w0, [x1, #0x204]; mov w2, #1; msr icc_igrpen1_el1, x2; str w0, [x1, #0x184];
    // mov w0, #0xf8; msr icc_pmr_el1, x0; msr daifclr, #2; add x3, x3, #1; ldr w5, [x1, #0x204]
    ("it is no longer enabled while it is listed",
        &[
            0x1000_4009, 0xd518_c009, 0xd2b5_e001, 0x5280_0040, 0xb900_0020, 0x5280_2000, 0xb901_0420, 0xb902_0420,
            0x5280_0022, 0xd518_cce2, 0xb901_8420, 0x5280_1f00, 0xd518_4600, 0xd503_42ff, 0x9100_0463, 0xb942_0425,
        ],
        "x2 0000000000000001
x3 0000000000000001
x5 0000000000000100
x9 "),
    // adr x9, . + 0x800; msr vbar_el1, x9; movz x1, #0xaf00, lsl #16; mov w0, #2; str w0, [x1]; mov w0, #0x100;
    // str w0, [x1, #0x104]; str w0, [x1, #0x204]; mov w2, #1; msr icc_igrpen1_el1, x2; mov w0, #0xff;
    // strb w0, [x1, #0x428]; msr icc_pmr_el1, x0; msr daifclr, #2; add x3, x3, #1
    ("its priority is raised to the mask's while it is listed",
        &[
            0x1000_4009, 0xd518_c009, 0xd2b5_e001, 0x5280_0040, 0xb900_0020, 0x5280_2000, 0xb901_0420, 0xb902_0420,
            0x5280_0022, 0xd518_cce2, 0x5280_1fe0, 0x3910_a020, 0xd518_4600, 0xd503_42ff, 0x9100_0463,
        ],
        "x2 0000000000000001
x3 0000000000000001
x9 "),
    // movz x1, #0xaf00, lsl #16; mov w0, #2; str w0, [x1]; mov w0, #0x80; strb w0, [x1, #0x428]; mov w0, #0x300;
    // str w0, [x1, #0x104]; mov w0, #0x100; str w0, [x1, #0x204]; mov w2, #1; msr icc_igrpen1_el1, x2; mov w0, #0xf8;
    // msr icc_pmr_el1, x0; mrs x5, icc_hppir1_el1; mov w0, #0x200; str w0, [x1, #0x204]; mrs x6, icc_hppir1_el1;
    // mrs x7, icc_iar1_el1
    ("another becomes the best after it is listed",
        &[
            0xd2b5_e001, 0x5280_0040, 0xb900_0020, 0x5280_1000, 0x3910_a020, 0x5280_6000, 0xb901_0420, 0x5280_2000,
            0xb902_0420, 0x5280_0022, 0xd518_cce2, 0x5280_1f00, 0xd518_4600, 0xd538_cc45, 0x5280_4000, 0xb902_0420,
            0xd538_cc46, 0xd538_cc07,
        ],
        "x5 0000000000000028
x6 0000000000000029
x7 0000000000000029
console"),
    // adr x9, . + 0x800; msr vbar_el1, x9; movz x1, #0xaf00, lsl #16; movz x4, #0xaf11, lsl #16; mov w0, #2; str w0, [x1];
    // mov w0, #0x80000000; str w0, [x4, #0x100]; str w0, [x4, #0x200]; mov w0, #0xf8; msr icc_pmr_el1, x0; mov w0, #1;
    // msr icc_igrpen1_el1, x0; msr daifclr, #2; add x3, x3, #1
    ("one of the core's own ids",
        &[
            0x1000_4009, 0xd518_c009, 0xd2b5_e001, 0xd2b5_e224, 0x5280_0040, 0xb900_0020, 0x52b0_0000, 0xb901_0080,
            0xb902_0080, 0x5280_1f00, 0xd518_4600, 0x5280_0020, 0xd518_cce0, 0xd503_42ff, 0x9100_0463,
        ],
        "core 0 on
pc 0000000000100a80
pstate 000003c5
x0 0000000000000001
x1 00000000af000000
x4 00000000af110000
x9 "),
    // adr x9, . + 0x800; msr vbar_el1, x9; movz x1, #0xaf00, lsl #16; movz x4, #0xaf11, lsl #16; mov w0, #2; str w0, [x1];
    // mov w0, #1; str w0, [x4, #0x100]; mov w2, #0xf8; msr icc_pmr_el1, x2; msr icc_igrpen1_el1, x0; msr daifclr, #2;
    // msr icc_sgi1r_el1, x0; add x3, x3, #1
    ("an interrupt sent to oneself",
        &[
            0x1000_4009, 0xd518_c009, 0xd2b5_e001, 0xd2b5_e224, 0x5280_0040, 0xb900_0020, 0x5280_0020, 0xb901_0080,
            0x5280_1f02, 0xd518_4602, 0xd518_cce0, 0xd503_42ff, 0xd518_cba0, 0x9100_0463,
        ],
        "core 0 on
pc 0000000000100a80
pstate 000003c5
x0 0000000000000001
x1 00000000af000000
x2 00000000000000f8
x4 00000000af110000
x9 0000000000100800
elr_el1 0000000000100034
"),
    // adr x9, . + 0x800; msr vbar_el1, x9; movz x1, #0xaf00, lsl #16; movz x4, #0xaf11, lsl #16; mov w0, #2; str w0, [x1];
    // mov w0, #1; str w0, [x4, #0x100]; mov w2, #0xf8; msr icc_pmr_el1, x2; msr icc_igrpen1_el1, x0; msr daifclr, #2;
    // movk x0, #0x100, lsl #32; msr icc_sgi1r_el1, x0; add x3, x3, #1
    ("one sent to all others isn't sent to oneself",
        &[
            0x1000_4009, 0xd518_c009, 0xd2b5_e001, 0xd2b5_e224, 0x5280_0040, 0xb900_0020, 0x5280_0020, 0xb901_0080,
            0x5280_1f02, 0xd518_4602, 0xd518_cce0, 0xd503_42ff, 0xf2c0_2000, 0xd518_cba0, 0x9100_0463,
        ],
        "core 0 on
pc 000000000010003c
pstate 00000345
x0 0000010000000001
x1 00000000af000000
x2 00000000000000f8
x3 0000000000000001
x4 00000000af110000
x9 "),
];

#[test]
fn taken_and_not(rt: HostRuntime) -> Result<(), Fail> {
    check_guests(&rt, rt.alloc(), ONE_CORE, TAKEN.as_slice())
}
