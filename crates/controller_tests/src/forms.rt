//! Forms of loads and stores at the emulated controller, by whole guests: which are answered, and which the first or the second
//! stage refuses. The expected values were worked out by hand from the tables of registers and of syndromes.

use crate::boards::{Guest, ONE_CORE, TWO_CORES, check_guests, check_part, told_of_words};
use std::alloc::Global;
use std::process::Abort;
use std::test::Fail;

#[rattlefmt::skip]
static ANSWERED: [Guest; 12] = [
    // movz x1, #0xaf00, lsl #16; ldr w0, [x1, #4]
    ("the distributor's type", &[0xd2b5_e001, 0xb940_0420],
        "core 0 on\npc 0000000000100008\npstate 000003c5\nx0 0000000000480002\nx1 00000000af000000\ncore 1 off\n"),
    // movz x1, #0xaf00, lsl #16; mov x2, #-1; ldr w2, [x1, #4]
    ("ldr of a word clears the upper half", &[0xd2b5_e001, 0x9280_0002, 0xb940_0422],
        "x1 00000000af000000\nx2 0000000000480002\ncore 1 off\n"),
    // movz x1, #0xaf00, lsl #16; mov w0, #0x80000000; str w0, [x1, #0x104]; ldrsw x2, [x1, #0x104]; ldr w3, [x1, #0x104]
    ("ldrsw extends with the sign",
        &[
            0xd2b5_e001, 0x52b0_0000, 0xb901_0420, 0xb981_0422, 0xb941_0423,
        ],
        "x2 ffffffff80000000\nx3 0000000080000000\ncore 1 off\n"),
    // movz x1, #0xaf00, lsl #16; mov w0, #0x88; strb w0, [x1, #0x423]; ldrsb x2, [x1, #0x423]; ldrsb w3, [x1, #0x423];
    // ldrb w4, [x1, #0x423]; mov w0, #0x78; strb w0, [x1, #0x423]; ldrsb x5, [x1, #0x423]
    ("ldrsb extends to 64 bits, to 32 bits and not",
        &[
            0xd2b5_e001, 0x5280_1100, 0x3910_8c20, 0x3990_8c22, 0x39d0_8c23, 0x3950_8c24, 0x5280_0f00, 0x3910_8c20,
            0x3990_8c25,
        ],
        "x2 ffffffffffffff88\nx3 00000000ffffff88\nx4 0000000000000088\nx5 0000000000000078\ncore 1 off\n"),
    // movz x1, #0xaf00, lsl #16; mov w0, #-1; str w0, [x1, #0x420]; mov x2, #-1; mov x3, #-1; mov x4, #-1;
    // ldrsh x2, [x1, #0x420]; ldrsh w3, [x1, #0x422]; ldrh w4, [x1, #0x420]; ldr w5, [x1, #0x420]
    ("ldrsh and ldrh read 0 over priorities",
        &[
            0xd2b5_e001, 0x1280_0000, 0xb904_2020, 0x9280_0002, 0x9280_0003, 0x9280_0004, 0x7988_4022, 0x79c8_4423,
            0x7948_4024, 0xb944_2025,
        ],
        "x1 00000000af000000\nx5 00000000f8f8f8f8\ncore 1 off\n"),
    // movz x1, #0xaf12, lsl #16; ldr x2, [x1, #8]; ldr w3, [x1, #8]; ldr w4, [x1, #0xc]; ldrsw x5, [x1, #8]
    ("ldr of 8 bytes and of its halves",
        &[
            0xd2b5_e241, 0xf940_0422, 0xb940_0823, 0xb940_0c24, 0xb980_0825,
        ],
        "x2 0000000100000110\nx3 0000000000000110\nx4 0000000000000001\nx5 0000000000000110\ncore 1 off\n"),
    // movz x1, #0xaf00, lsl #16; mov w0, #0x11; add x3, x1, #0x110; stur w0, [x3, #-12]; ldur w2, [x3, #-12]
    ("ldur and stur",
        &[
            0xd2b5_e001, 0x5280_0220, 0x9104_4023, 0xb81f_4060, 0xb85f_4062,
        ],
        "x2 0000000000000011\nx3 00000000af000110\ncore 1 off\n"),
    // movz x1, #0xaf00, lsl #16; mov x3, #1; ldr w2, [x1, x3, lsl #2]; mov x4, #4; ldr w5, [x1, x4]; mov x6, #-1;
    // movk x6, #1; movk x6, #0, lsl #16; ldr w7, [x1, w6, uxtw #2]; add x8, x1, #8; mov w9, #-4; ldr w10, [x8, w9, sxtw]
    ("a register as offset, shifted, of 64 and 32 bits",
        &[
            0xd2b5_e001, 0xd280_0023, 0xb863_7822, 0xd280_0084, 0xb864_6825, 0x9280_0006, 0xf280_0026, 0xf2a0_0006,
            0xb866_5827, 0x9100_2028, 0x1280_0069, 0xb869_c90a,
        ],
        "x2 0000000000480002
x3 0000000000000001
x4 0000000000000004
x5 0000000000480002
x6 ffffffff00000001
x7 0000000000480002
x8 00000000af000008
x9 00000000fffffffc
x10 0000000000480002
core 1 off
"),
    // movz x1, #0xaf00, lsl #16; mov sp, x1; ldr w2, [sp, #4]; mov w0, #2; str w0, [sp]; ldr w3, [sp]
    ("sp as base",
        &[
            0xd2b5_e001, 0x9100_003f, 0xb940_07e2, 0x5280_0040, 0xb900_03e0, 0xb940_03e3,
        ],
        "sp_el1 00000000af000000
x0 0000000000000002
x1 00000000af000000
x2 0000000000480002
x3 0000000000000052
core 1 off
"),
    // movz x1, #0xaf00, lsl #16; mov w0, #2; str w0, [x1]; str wzr, [x1]; ldr wzr, [x1, #4]; ldr xzr, [x1, #8];
    // ldr w2, [x1]
    ("the zero register is stored and loaded",
        &[
            0xd2b5_e001, 0x5280_0040, 0xb900_0020, 0xb900_003f, 0xb940_043f, 0xf940_043f, 0xb940_0022,
        ],
        "x0 0000000000000002\nx1 00000000af000000\nx2 0000000000000050\ncore 1 off\n"),
    // movz x1, #0xaf00, lsl #16; ldr w1, [x1, #4]
    ("the base is loaded", &[0xd2b5_e001, 0xb940_0421],
        "pstate 000003c5\nx1 0000000000480002\ncore 1 off\n"),
    // movz x1, #0xaf00, lsl #16; prfm pldl1keep, [x1]; prfm pldl1keep, [x1, #0x108]
    ("a prefetch does nothing", &[0xd2b5_e001, 0xf980_0020, 0xf980_8420],
        "core 0 on\npc 000000000010000c\npstate 000003c5\nx1 00000000af000000\ncore 1 off\n"),
];

#[test]
fn answered(rt: HostRuntime) -> Result<(), Fail> {
    check_guests(&rt, rt.alloc(), TWO_CORES, ANSWERED.as_slice())
}

/// What isn't described by its syndrome, is no multiple of its width, or is in no frame of the VM, parks the core.
#[rattlefmt::skip]
static PARKED: [Guest; 29] = [
    // movz x1, #0xaf00, lsl #16; ldr w0, [x1], #4
    ("ldr with post-index",
        &[
            0xd2b5_e001, 0xb840_4420,
        ],
        "core 0 parked 92000004 00000000af000000
pc 0000000000100004
pstate 000003c5
x1 00000000af000000
console"),
    // movz x1, #0xaf00, lsl #16; ldr w0, [x1, #4]!
    ("ldr with pre-index",
        &[
            0xd2b5_e001, 0xb840_4c20,
        ],
        "core 0 parked 92000004 00000000af000004
pc 0000000000100004
pstate 000003c5
x1 00000000af000000
console"),
    // movz x1, #0xaf00, lsl #16; str w0, [x1], #4
    ("str with post-index", &[0xd2b5_e001, 0xb800_4420],
        "core 0 parked 92000044 00000000af000000\npc 0000000000100004\n"),
    // movz x1, #0xaf00, lsl #16; str w0, [x1, #4]!
    ("str with pre-index", &[0xd2b5_e001, 0xb800_4c20],
        "core 0 parked 92000044 00000000af000004\npc 0000000000100004\n"),
    // movz x1, #0xaf00, lsl #16; add x1, x1, #0x420; ldrb w0, [x1], #1
    ("ldrb with post-index, whose load would be allowed", &[0xd2b5_e001, 0x9110_8021, 0x3840_1420],
        "core 0 parked 92000004 00000000af000420\npc 0000000000100008\n"),
    // movz x1, #0xaf00, lsl #16; ldp w0, w2, [x1]
    ("a pair of words loaded", &[0xd2b5_e001, 0x2940_0820],
        "core 0 parked 92000004 00000000af000000\npc 0000000000100004\n"),
    // movz x1, #0xaf00, lsl #16; ldpsw x0, x2, [x1]
    ("a pair of words loaded with their signs", &[0xd2b5_e001, 0x6940_0820],
        "core 0 parked 92000004 00000000af000000\npc 0000000000100004\n"),
    // movz x1, #0xaf00, lsl #16; stp w0, w2, [x1, #0x80]
    ("a pair of words stored", &[0xd2b5_e001, 0x2910_0820],
        "core 0 parked 92000044 00000000af000080\npc 0000000000100004\n"),
    // movz x1, #0xaf00, lsl #16; ldp x0, x2, [x1]
    ("a pair of 8 bytes loaded", &[0xd2b5_e001, 0xa940_0820],
        "core 0 parked 92000004 00000000af000000\npc 0000000000100004\n"),
    // movz x1, #0xaf00, lsl #16; stp x0, x2, [x1]
    ("a pair of 8 bytes stored", &[0xd2b5_e001, 0xa900_0820],
        "core 0 parked 92000044 00000000af000000\npc 0000000000100004\n"),
    // movz x1, #0xaf00, lsl #16; ldrh w2, [x1, #1]
    ("half a word at an odd byte", &[0xd2b5_e001, 0x7840_1022],
        "core 0 parked 93420004 00000000af000001\npc 0000000000100004\n"),
    // movz x1, #0xaf00, lsl #16; ldrsh w2, [x1, #1]
    ("with its sign to 32 bits", &[0xd2b5_e001, 0x78c0_1022],
        "core 0 parked 93620004 00000000af000001\npc 0000000000100004\n"),
    // movz x1, #0xaf00, lsl #16; ldrsh x2, [x1, #1]
    ("with its sign to 64 bits", &[0xd2b5_e001, 0x7880_1022],
        "core 0 parked 93628004 00000000af000001\npc 0000000000100004\n"),
    // movz x1, #0xaf00, lsl #16; ldr w3, [x1, #0x66]
    ("a word at a half", &[0xd2b5_e001, 0xb846_6023],
        "core 0 parked 93830004 00000000af000066\npc 0000000000100004\n"),
    // movz x1, #0xaf00, lsl #16; ldur w3, [x1, #0x7]
    ("a word at an odd byte", &[0xd2b5_e001, 0xb840_7023],
        "core 0 parked 93830004 00000000af000007\npc 0000000000100004\n"),
    // movz x1, #0xaf00, lsl #16; ldursw x3, [x1, #6]
    ("a word with its sign", &[0xd2b5_e001, 0xb880_6023],
        "core 0 parked 93a38004 00000000af000006\npc 0000000000100004\n"),
    // movz x1, #0xaf00, lsl #16; ldur x4, [x1, #4]
    ("8 bytes at a word", &[0xd2b5_e001, 0xf840_4024],
        "core 0 parked 93c48004 00000000af000004\npc 0000000000100004\n"),
    // movz x1, #0xaf00, lsl #16; sturh w2, [x1, #1]
    ("half a word stored", &[0xd2b5_e001, 0x7800_1022],
        "core 0 parked 93420044 00000000af000001\npc 0000000000100004\n"),
    // movz x1, #0xaf00, lsl #16; stur w2, [x1, #2]
    ("a word stored", &[0xd2b5_e001, 0xb800_2022],
        "core 0 parked 93820044 00000000af000002\npc 0000000000100004\n"),
    // movz x1, #0xaf00, lsl #16; stur x2, [x1, #4]
    ("8 bytes stored", &[0xd2b5_e001, 0xf800_4022],
        "core 0 parked 93c28044 00000000af000004\npc 0000000000100004\n"),
    // movz x1, #0xaf00, lsl #16; add x1, x1, #0x10, lsl #12; ldur x2, [x1, #-4]
    ("8 bytes over the end of the distributor", &[0xd2b5_e001, 0x9140_4021, 0xf85f_c022],
        "core 0 parked 93c28004 00000000af00fffc\npc 0000000000100008\n"),
    // movz x1, #0xaf00, lsl #16; add x1, x1, #0x10, lsl #12; ldrb w2, [x1]
    ("a byte after the distributor", &[0xd2b5_e001, 0x9140_4021, 0x3940_0022],
        "core 0 parked 93020004 00000000af010000\npc 0000000000100008\n"),
    // movz x1, #0xaf00, lsl #16; add x1, x1, #0x10, lsl #12; strb w2, [x1]
    ("a byte stored there", &[0xd2b5_e001, 0x9140_4021, 0x3900_0022],
        "core 0 parked 93020044 00000000af010000\npc 0000000000100008\n"),
    // movz x1, #0xaf00, lsl #16; ldurb w2, [x1, #-1]
    ("a byte before the distributor", &[0xd2b5_e001, 0x385f_f022],
        "core 0 parked 93020004 00000000aeffffff\npc 0000000000100004\n"),
    // movz x1, #0xaf10, lsl #16; ldurb w2, [x1, #-1]
    ("a byte before the first redistributor", &[0xd2b5_e201, 0x385f_f022],
        "core 0 parked 93020004 00000000af0fffff\npc 0000000000100004\n"),
    // movz x1, #0xaf12, lsl #16; ldrb w2, [x1]
    ("a byte after the last redistributor", &[0xd2b5_e241, 0x3940_0022],
        "core 0 parked 93020004 00000000af120000\npc 0000000000100004\n"),
    // movz x1, #0xaf12, lsl #16; ldr x2, [x1, #8]
    ("the type of a redistributor that the VM doesn't have", &[0xd2b5_e241, 0xf940_0422],
        "core 0 parked 93c28004 00000000af120008\npc 0000000000100004\n"),
    // movz x1, #0xaf13, lsl #16; str w2, [x1, #0x100]
    ("a store to it", &[0xd2b5_e261, 0xb901_0022],
        "core 0 parked 93820044 00000000af130100\npc 0000000000100004\n"),
    // movz x1, #0xaf00, lsl #16; br x1; nop
    ("a fetch from a frame", &[0xd2b5_e001, 0xd61f_0020, 0xd503_201f],
        "core 0 parked 82000004 00000000af000000\npc 00000000af000000\n"),
];

#[test]
fn parked(rt: HostRuntime) -> Result<(), Fail> {
    check_guests(&rt, rt.alloc(), ONE_CORE, PARKED.as_slice())
}

#[rattlefmt::skip]
static PARKED_OF_TWO: [Guest; 2] = [
    // movz x1, #0xaf14, lsl #16; ldr w2, [x1, #8]
    ("a redistributor past the second", &[0xd2b5_e281, 0xb940_0822],
        "core 0 parked 93820004 00000000af140008\npc 0000000000100004\n"),
    // movz x1, #0xaf13, lsl #16; mov w3, #0x10000; ldrb w2, [x1, x3]
    ("a byte after the second", &[0xd2b5_e261, 0x52a0_0023, 0x3863_6822],
        "core 0 parked 93020004 00000000af140000\npc 0000000000100008\n"),
];

#[test]
fn parked_after_two_redistributors(rt: HostRuntime) -> Result<(), Fail> {
    check_guests(&rt, rt.alloc(), TWO_CORES, PARKED_OF_TWO.as_slice())
}

/// The priority of 40 is 0x20. Region 0 is over the memory, and region 1, whose AP and EN the words in front have, over the
/// distributor; then the first stage is on:
/// movz x1, #0xaf00, lsl #16; mov w0, #0x20; strb w0, [x1, #0x428]; movz x7, #0x10, lsl #16; movk x7, #4;
/// msr prbar_el1, x7; movz x7, #0x10, lsl #16; movk x7, #0xffc1; msr prlar_el1, x7; mov x7, #1; msr prselr_el1, x7;
/// movk x5, #0xaf00, lsl #16; movk x6, #0xaf00, lsl #16; msr prbar_el1, x5; msr prlar_el1, x6; msr sctlr_el1, x7
#[rattlefmt::skip]
const STAGE: [u32; 16] = [
    0xd2b5_e001, 0x5280_0400, 0x3910_a020, 0xd2a0_0207, 0xf280_0087, 0xd518_6807, 0xd2a0_0207, 0xf29f_f827,
    0xd518_6827, 0xd280_0027, 0xd518_6227, 0xf2b5_e005, 0xf2b5_e006, 0xd518_6805, 0xd518_6826, 0xd518_1007,
];

/// What a row shows, the words in front, those after, at 0x100048, and a part of the report.
type Staged = (&'static str, [u32; 2], &'static [u32], &'static str);

#[rattlefmt::skip]
static STAGED: [Staged; 13] = [
    // movz x5, #0x4; movz x6, #0xffc1
    // adr x9, . + 16; msr elr_el1, x9; msr spsr_el1, xzr; eret; ldrb w2, [x1, #0x428]; strb w7, [x1, #0x428]
    ("EL0, AP 01: a load and a store", [0xd280_0085, 0xd29f_f826],
        &[0x1000_0089, 0xd518_4029, 0xd518_401f, 0xd69f_03e0, 0x3950_a022, 0x3910_a027],
        "core 0 on
pc 0000000000100060
pstate 00000000
x0 0000000000000020
x1 00000000af000000
x2 0000000000000020
"),
    // movz x5, #0x4; movz x6, #0xffc1
    // adr x9, . + 16; msr elr_el1, x9; msr spsr_el1, xzr; eret; mov w3, #0x40; strb w3, [x1, #0x428];
    // ldrb w2, [x1, #0x428]
    ("EL0, AP 01: what was stored", [0xd280_0085, 0xd29f_f826],
        &[0x1000_0089, 0xd518_4029, 0xd518_401f, 0xd69f_03e0, 0x5280_0803, 0x3910_a023, 0x3950_a022],
        "x2 0000000000000040\nx3 0000000000000040\n"),
    // movz x5, #0xc; movz x6, #0xffc1
    // adr x9, . + 16; msr elr_el1, x9; msr spsr_el1, xzr; eret; ldrb w2, [x1, #0x428]; add x3, x2, #1
    ("EL0, AP 11: a load", [0xd280_0185, 0xd29f_f826],
        &[0x1000_0089, 0xd518_4029, 0xd518_401f, 0xd69f_03e0, 0x3950_a022, 0x9100_0443],
        "core 0 on
pc 0000000000100060
pstate 00000000
x0 0000000000000020
x1 00000000af000000
x2 0000000000000020
x3 0000000000000021
"),
    // movz x5, #0xc; movz x6, #0xffc1
    // adr x9, . + 16; msr elr_el1, x9; msr spsr_el1, xzr; eret; strb w2, [x1, #0x428]
    ("EL0, AP 11: a store", [0xd280_0185, 0xd29f_f826],
        &[0x1000_0089, 0xd518_4029, 0xd518_401f, 0xd69f_03e0, 0x3910_a022],
        "core 0 on
pc 0000000000000400
pstate 000003c5
x0 0000000000000020
x1 00000000af000000
x5 00000000af00000c
x6 00000000af00ffc1
x7 0000000000000001
x9 0000000000100058
elr_el1 0000000000100058
esr_el1 000000009200004c
far_el1 00000000af000428
sctlr"),
    // movz x5, #0x0; movz x6, #0xffc1
    // adr x9, . + 16; msr elr_el1, x9; msr spsr_el1, xzr; eret; ldrb w2, [x1, #0x428]
    ("EL0, AP 00: a load", [0xd280_0005, 0xd29f_f826],
        &[0x1000_0089, 0xd518_4029, 0xd518_401f, 0xd69f_03e0, 0x3950_a022],
        "core 0 on
pc 0000000000000400
pstate 000003c5
x0 0000000000000020
x1 00000000af000000
x5 00000000af000000
x6 00000000af00ffc1
x7 0000000000000001
x9 0000000000100058
elr_el1 0000000000100058
esr_el1 000000009200000c
far_el1 00000000af000428
sctlr"),
    // movz x5, #0x8; movz x6, #0xffc1
    // adr x9, . + 16; msr elr_el1, x9; msr spsr_el1, xzr; eret; ldr w2, [x1, #4]
    ("EL0, AP 10: a load", [0xd280_0105, 0xd29f_f826],
        &[0x1000_0089, 0xd518_4029, 0xd518_401f, 0xd69f_03e0, 0xb940_0422],
        "core 0 on
pc 0000000000000400
pstate 000003c5
x0 0000000000000020
x1 00000000af000000
x5 00000000af000008
x6 00000000af00ffc1
x7 0000000000000001
x9 0000000000100058
elr_el1 0000000000100058
esr_el1 000000009200000c
far_el1 00000000af000004
sctlr"),
    // movz x5, #0x4; movz x6, #0xffc0
    // adr x9, . + 16; msr elr_el1, x9; msr spsr_el1, xzr; eret; ldr w2, [x1, #4]
    ("EL0, no region there", [0xd280_0085, 0xd29f_f806],
        &[0x1000_0089, 0xd518_4029, 0xd518_401f, 0xd69f_03e0, 0xb940_0422],
        "core 0 on
pc 0000000000000400
pstate 000003c5
x0 0000000000000020
x1 00000000af000000
x5 00000000af000004
x6 00000000af00ffc0
x7 0000000000000001
x9 0000000000100058
elr_el1 0000000000100058
esr_el1 0000000092000004
far_el1 00000000af000004
sctlr"),
    // movz x5, #0x4; movz x6, #0xffc1
    // adr x9, . + 16; msr elr_el1, x9; msr spsr_el1, xzr; eret; ldp w2, w3, [x1]
    ("EL0, AP 01: a pair goes on to the second stage", [0xd280_0085, 0xd29f_f826],
        &[0x1000_0089, 0xd518_4029, 0xd518_401f, 0xd69f_03e0, 0x2940_0c22],
        "core 0 parked 92000004 00000000af000000\npc 0000000000100058\npstate 00000000\n"),
    // movz x5, #0x4; movz x6, #0xffc1
    // adr x9, . + 16; msr elr_el1, x9; msr spsr_el1, xzr; eret; ldur w2, [x1, #2]
    ("EL0, AP 01: a misaligned word goes on to it", [0xd280_0085, 0xd29f_f826],
        &[0x1000_0089, 0xd518_4029, 0xd518_401f, 0xd69f_03e0, 0xb840_2022],
        "core 0 parked 93820004 00000000af000002\npc 0000000000100058\npstate 00000000\n"),
    // movz x5, #0x0; movz x6, #0xffc1
    // ldrb w2, [x1, #0x428]; mov w3, #0x40; strb w3, [x1, #0x428]; ldrb w4, [x1, #0x428]
    ("EL1, AP 00: a load and a store", [0xd280_0005, 0xd29f_f826],
        &[0x3950_a022, 0x5280_0803, 0x3910_a023, 0x3950_a024],
        "core 0 on
pc 0000000000100058
pstate 000003c5
x0 0000000000000020
x1 00000000af000000
x2 0000000000000020
x3 0000000000000040
x4 0000000000000040
"),
    // movz x5, #0x8; movz x6, #0xffc1
    // ldrb w2, [x1, #0x428]
    ("EL1, AP 10: a load", [0xd280_0105, 0xd29f_f826],
        &[0x3950_a022],
        "core 0 on
pc 000000000010004c
pstate 000003c5
x0 0000000000000020
x1 00000000af000000
x2 0000000000000020
"),
    // movz x5, #0x8; movz x6, #0xffc1
    // strb w2, [x1, #0x428]
    ("EL1, AP 10: a store", [0xd280_0105, 0xd29f_f826],
        &[0x3910_a022],
        "core 0 on
pc 0000000000000200
pstate 000003c5
x0 0000000000000020
x1 00000000af000000
x5 00000000af000008
x6 00000000af00ffc1
x7 0000000000000001
elr_el1 0000000000100048
spsr_el1 00000000000003c5
esr_el1 000000009600004c
far_el1 00000000af000428
sctlr"),
    // movz x5, #0x4; movz x6, #0xffc0
    // ldrb w2, [x1, #0x428]
    ("EL1, no region there", [0xd280_0085, 0xd29f_f806],
        &[0x3950_a022],
        "core 0 on
pc 0000000000000200
pstate 000003c5
x0 0000000000000020
x1 00000000af000000
x5 00000000af000004
x6 00000000af00ffc0
x7 0000000000000001
elr_el1 0000000000100048
spsr_el1 00000000000003c5
esr_el1 0000000096000004
far_el1 00000000af000428
sctlr"),
];

fn check_staged(rt: &impl Abort, alloc: Global, row: &Staged) -> Result<(), Fail> {
    let (shows, front, words, wanted) = row;
    let mut code = front.to_vec(alloc)?;
    code.extend_from_slice(&STAGE)?;
    code.extend_from_slice(words)?;
    let told = told_of_words(alloc, ONE_CORE, code.as_slice())?;
    check_part(rt, shows, told.as_str(), wanted);
    Ok(())
}

#[test]
fn the_first_stage_before_the_controller(rt: HostRuntime) -> Result<(), Fail> {
    for row in STAGED.as_slice() {
        check_staged(&rt, rt.alloc(), row)?;
    }
    Ok(())
}
