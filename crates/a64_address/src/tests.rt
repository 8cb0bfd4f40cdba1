use crate::{MemShape, shape_of};
use a64_decode::decode;
use a64_state::{Core, Mode};
use std::process::Abort;

/// An instruction, its word, and the fields of the shape: the address, the bytes of an element, the elements, whether
/// it stores, whether the base is SP, what is written back, and ISV.
type Row = (
    &'static str,
    u32,
    u64,
    u32,
    u8,
    bool,
    bool,
    Option<u64>,
    bool,
);

const LOAD: bool = false;

const STORE: bool = true;
/// The base is a general register, or PC.
const X: bool = false;

const SP: bool = true;

/// The base of most rows.
const X1: u64 = 0x1_0000;
/// An offset whose lowest word is negative: it is 0xFFFF_FFF0, or -16 with its sign.
const X2: u64 = 0x1_FFFF_FFF0;
/// A base at the end of the address space, 8 below 2^64.
const X3: u64 = 0xFFFF_FFFF_FFFF_FFF8;
/// A base at the beginning.
const X4: u64 = 1;

const X5: u64 = 8;
/// Eight times as much is 8 modulo 2^64.
const X6: u64 = 0x2000_0000_0000_0001;

const STACK: u64 = 0x8000;

const PC: u64 = 0x4000;

#[rattlefmt::skip]
static OFFSETS: [Row; 33] = [
    // shows                  word         at                     width count        base back  isv
    ("strb w0, [x1, #4095]",  0x393F_FC20, 0x1_0FFF,              1,    1,    STORE, X,   None, true),
    ("ldrb w0, [x1, #1]",     0x3940_0420, 0x1_0001,              1,    1,    LOAD,  X,   None, true),
    ("ldrsb x0, [x1, #2]",    0x3980_0820, 0x1_0002,              1,    1,    LOAD,  X,   None, true),
    ("ldrsb w0, [x1, #3]",    0x39C0_0C20, 0x1_0003,              1,    1,    LOAD,  X,   None, true),
    ("strh w0, [x1, #8190]",  0x793F_FC20, 0x1_1FFE,              2,    1,    STORE, X,   None, true),
    ("ldrh w0, [x1, #2]",     0x7940_0420, 0x1_0002,              2,    1,    LOAD,  X,   None, true),
    ("ldrsh x0, [x1, #4]",    0x7980_0820, 0x1_0004,              2,    1,    LOAD,  X,   None, true),
    ("ldrsh w0, [x1, #6]",    0x79C0_0C20, 0x1_0006,              2,    1,    LOAD,  X,   None, true),
    ("str w0, [x1, #16380]",  0xB93F_FC20, 0x1_3FFC,              4,    1,    STORE, X,   None, true),
    ("ldr w0, [x1, #4]",      0xB940_0420, 0x1_0004,              4,    1,    LOAD,  X,   None, true),
    ("ldrsw x0, [x1, #8]",    0xB980_0820, 0x1_0008,              4,    1,    LOAD,  X,   None, true),
    ("str x0, [x1, #32760]",  0xF93F_FC20, 0x1_7FF8,              8,    1,    STORE, X,   None, true),
    ("ldr x0, [x1]",          0xF940_0020, 0x1_0000,              8,    1,    LOAD,  X,   None, true),
    ("ldr x1, [x1, #8]",      0xF940_0421, 0x1_0008,              8,    1,    LOAD,  X,   None, true),
    ("ldr xzr, [x1, #8]",     0xF940_043F, 0x1_0008,              8,    1,    LOAD,  X,   None, true),
    ("ldr x0, [sp, #16]",     0xF940_0BE0, 0x8010,                8,    1,    LOAD,  SP,  None, true),
    ("strb wzr, [sp]",        0x3900_03FF, 0x8000,                1,    1,    STORE, SP,  None, true),
    ("ldr x0, [x3, #16]",     0xF940_0860, 0x8,                   8,    1,    LOAD,  X,   None, true),
    ("sturb w0, [x1, #-256]", 0x3810_0020, 0xFF00,                1,    1,    STORE, X,   None, true),
    ("ldurb w0, [x1, #255]",  0x384F_F020, 0x1_00FF,              1,    1,    LOAD,  X,   None, true),
    ("ldursb x0, [x1, #-1]",  0x389F_F020, 0xFFFF,                1,    1,    LOAD,  X,   None, true),
    ("ldursb w0, [x1, #1]",   0x38C0_1020, 0x1_0001,              1,    1,    LOAD,  X,   None, true),
    ("sturh w0, [x1, #1]",    0x7800_1020, 0x1_0001,              2,    1,    STORE, X,   None, true),
    ("ldurh w0, [x1, #-2]",   0x785F_E020, 0xFFFE,                2,    1,    LOAD,  X,   None, true),
    ("ldursh x0, [x1, #3]",   0x7880_3020, 0x1_0003,              2,    1,    LOAD,  X,   None, true),
    ("ldursh w0, [x1, #-3]",  0x78DF_D020, 0xFFFD,                2,    1,    LOAD,  X,   None, true),
    ("stur w0, [x1, #-4]",    0xB81F_C020, 0xFFFC,                4,    1,    STORE, X,   None, true),
    ("ldur w0, [x1, #5]",     0xB840_5020, 0x1_0005,              4,    1,    LOAD,  X,   None, true),
    ("ldursw x0, [x1, #-5]",  0xB89F_B020, 0xFFFB,                4,    1,    LOAD,  X,   None, true),
    ("stur x0, [x1, #7]",     0xF800_7020, 0x1_0007,              8,    1,    STORE, X,   None, true),
    ("ldur x0, [x1, #-8]",    0xF85F_8020, 0xFFF8,                8,    1,    LOAD,  X,   None, true),
    ("ldur x0, [sp, #-8]",    0xF85F_83E0, 0x7FF8,                8,    1,    LOAD,  SP,  None, true),
    ("ldurb w0, [x4, #-2]",   0x385F_E080, 0xFFFF_FFFF_FFFF_FFFF, 1,    1,    LOAD,  X,   None, true),
];

#[rattlefmt::skip]
static INDEXED: [Row; 32] = [
    // shows                  word         at                     width count        base back                         isv
    ("strb w0, [x1], #-256",  0x3810_0420, 0x1_0000,              1,    1,    STORE, X,   Some(0xFF00),                false),
    ("ldrb w0, [x1], #255",   0x384F_F420, 0x1_0000,              1,    1,    LOAD,  X,   Some(0x1_00FF),              false),
    ("ldrsb x0, [x1], #-1",   0x389F_F420, 0x1_0000,              1,    1,    LOAD,  X,   Some(0xFFFF),                false),
    ("ldrsb w0, [x1], #1",    0x38C0_1420, 0x1_0000,              1,    1,    LOAD,  X,   Some(0x1_0001),              false),
    ("strh w0, [x1], #2",     0x7800_2420, 0x1_0000,              2,    1,    STORE, X,   Some(0x1_0002),              false),
    ("ldrh w0, [x1], #-2",    0x785F_E420, 0x1_0000,              2,    1,    LOAD,  X,   Some(0xFFFE),                false),
    ("ldrsh x0, [x1], #4",    0x7880_4420, 0x1_0000,              2,    1,    LOAD,  X,   Some(0x1_0004),              false),
    ("ldrsh w0, [x1], #-4",   0x78DF_C420, 0x1_0000,              2,    1,    LOAD,  X,   Some(0xFFFC),                false),
    ("str w0, [x1], #4",      0xB800_4420, 0x1_0000,              4,    1,    STORE, X,   Some(0x1_0004),              false),
    ("ldr w0, [x1], #-4",     0xB85F_C420, 0x1_0000,              4,    1,    LOAD,  X,   Some(0xFFFC),                false),
    ("ldrsw x0, [x1], #8",    0xB880_8420, 0x1_0000,              4,    1,    LOAD,  X,   Some(0x1_0008),              false),
    ("str x0, [x1], #-8",     0xF81F_8420, 0x1_0000,              8,    1,    STORE, X,   Some(0xFFF8),                false),
    ("ldr x0, [x1], #8",      0xF840_8420, 0x1_0000,              8,    1,    LOAD,  X,   Some(0x1_0008),              false),
    ("str xzr, [sp], #16",    0xF801_07FF, 0x8000,                8,    1,    STORE, SP,  Some(0x8010),                false),
    ("ldr x0, [x3], #16",     0xF841_0460, 0xFFFF_FFFF_FFFF_FFF8, 8,    1,    LOAD,  X,   Some(0x8),                   false),
    ("str x0, [x4], #-2",     0xF81F_E480, 0x1,                   8,    1,    STORE, X,   Some(0xFFFF_FFFF_FFFF_FFFF), false),
    ("strb w0, [x1, #-256]!", 0x3810_0C20, 0xFF00,                1,    1,    STORE, X,   Some(0xFF00),                false),
    ("ldrb w0, [x1, #255]!",  0x384F_FC20, 0x1_00FF,              1,    1,    LOAD,  X,   Some(0x1_00FF),              false),
    ("ldrsb x0, [x1, #-1]!",  0x389F_FC20, 0xFFFF,                1,    1,    LOAD,  X,   Some(0xFFFF),                false),
    ("ldrsb w0, [x1, #1]!",   0x38C0_1C20, 0x1_0001,              1,    1,    LOAD,  X,   Some(0x1_0001),              false),
    ("strh w0, [x1, #2]!",    0x7800_2C20, 0x1_0002,              2,    1,    STORE, X,   Some(0x1_0002),              false),
    ("ldrh w0, [x1, #-2]!",   0x785F_EC20, 0xFFFE,                2,    1,    LOAD,  X,   Some(0xFFFE),                false),
    ("ldrsh x0, [x1, #4]!",   0x7880_4C20, 0x1_0004,              2,    1,    LOAD,  X,   Some(0x1_0004),              false),
    ("ldrsh w0, [x1, #-4]!",  0x78DF_CC20, 0xFFFC,                2,    1,    LOAD,  X,   Some(0xFFFC),                false),
    ("str w0, [x1, #4]!",     0xB800_4C20, 0x1_0004,              4,    1,    STORE, X,   Some(0x1_0004),              false),
    ("ldr w0, [x1, #-4]!",    0xB85F_CC20, 0xFFFC,                4,    1,    LOAD,  X,   Some(0xFFFC),                false),
    ("ldrsw x0, [x1, #8]!",   0xB880_8C20, 0x1_0008,              4,    1,    LOAD,  X,   Some(0x1_0008),              false),
    ("str x0, [x1, #-8]!",    0xF81F_8C20, 0xFFF8,                8,    1,    STORE, X,   Some(0xFFF8),                false),
    ("ldr x0, [x1, #8]!",     0xF840_8C20, 0x1_0008,              8,    1,    LOAD,  X,   Some(0x1_0008),              false),
    ("str x0, [sp, #-16]!",   0xF81F_0FE0, 0x7FF0,                8,    1,    STORE, SP,  Some(0x7FF0),                false),
    ("ldr x0, [x3, #16]!",    0xF841_0C60, 0x8,                   8,    1,    LOAD,  X,   Some(0x8),                   false),
    ("str x0, [x4, #-2]!",    0xF81F_EC80, 0xFFFF_FFFF_FFFF_FFFF, 8,    1,    STORE, X,   Some(0xFFFF_FFFF_FFFF_FFFF), false),
];

#[rattlefmt::skip]
static REGISTERS: [Row; 33] = [
    // shows                        word         at              width count        base back  isv
    ("strb w0, [x1, w2, uxtw]",     0x3822_4820, 0x1_0000_FFF0,  1,    1,    STORE, X,   None, true),
    ("strb w0, [x1, w2, uxtw #0]",  0x3822_5820, 0x1_0000_FFF0,  1,    1,    STORE, X,   None, true),
    ("ldrb w0, [x1, x2]",           0x3862_6820, 0x2_0000_FFF0,  1,    1,    LOAD,  X,   None, true),
    ("ldrb w0, [x1, x2, lsl #0]",   0x3862_7820, 0x2_0000_FFF0,  1,    1,    LOAD,  X,   None, true),
    ("ldrsb x0, [x1, w2, sxtw]",    0x38A2_C820, 0xFFF0,         1,    1,    LOAD,  X,   None, true),
    ("ldrsb w0, [x1, x2, sxtx]",    0x38E2_E820, 0x2_0000_FFF0,  1,    1,    LOAD,  X,   None, true),
    ("strh w0, [x1, w2, uxtw #1]",  0x7822_5820, 0x2_0000_FFE0,  2,    1,    STORE, X,   None, true),
    ("ldrh w0, [x1, x2, lsl #1]",   0x7862_7820, 0x4_0000_FFE0,  2,    1,    LOAD,  X,   None, true),
    ("ldrsh x0, [x1, w2, sxtw #1]", 0x78A2_D820, 0xFFE0,         2,    1,    LOAD,  X,   None, true),
    ("ldrsh w0, [x1, x2, sxtx #1]", 0x78E2_F820, 0x4_0000_FFE0,  2,    1,    LOAD,  X,   None, true),
    ("str w0, [x1, w2, uxtw]",      0xB822_4820, 0x1_0000_FFF0,  4,    1,    STORE, X,   None, true),
    ("ldr w0, [x1, x2]",            0xB862_6820, 0x2_0000_FFF0,  4,    1,    LOAD,  X,   None, true),
    ("ldr w0, [x1, w2, sxtw]",      0xB862_C820, 0xFFF0,         4,    1,    LOAD,  X,   None, true),
    ("ldrsw x0, [x1, x2, sxtx]",    0xB8A2_E820, 0x2_0000_FFF0,  4,    1,    LOAD,  X,   None, true),
    ("str w0, [x1, w2, uxtw #2]",   0xB822_5820, 0x4_0000_FFC0,  4,    1,    STORE, X,   None, true),
    ("ldr w0, [x1, x2, lsl #2]",    0xB862_7820, 0x8_0000_FFC0,  4,    1,    LOAD,  X,   None, true),
    ("ldrsw x0, [x1, w2, sxtw #2]", 0xB8A2_D820, 0xFFC0,         4,    1,    LOAD,  X,   None, true),
    ("ldr w0, [x1, x2, sxtx #2]",   0xB862_F820, 0x8_0000_FFC0,  4,    1,    LOAD,  X,   None, true),
    ("str x0, [x1, w2, uxtw]",      0xF822_4820, 0x1_0000_FFF0,  8,    1,    STORE, X,   None, true),
    ("ldr x0, [x1, x2]",            0xF862_6820, 0x2_0000_FFF0,  8,    1,    LOAD,  X,   None, true),
    ("ldr x0, [x1, w2, sxtw]",      0xF862_C820, 0xFFF0,         8,    1,    LOAD,  X,   None, true),
    ("ldr x0, [x1, x2, sxtx]",      0xF862_E820, 0x2_0000_FFF0,  8,    1,    LOAD,  X,   None, true),
    ("str x0, [x1, w2, uxtw #3]",   0xF822_5820, 0x8_0000_FF80,  8,    1,    STORE, X,   None, true),
    ("ldr x0, [x1, x2, lsl #3]",    0xF862_7820, 0x10_0000_FF80, 8,    1,    LOAD,  X,   None, true),
    ("ldr x0, [x1, w2, sxtw #3]",   0xF862_D820, 0xFF80,         8,    1,    LOAD,  X,   None, true),
    ("str x0, [x1, x2, sxtx #3]",   0xF822_F820, 0x10_0000_FF80, 8,    1,    STORE, X,   None, true),
    ("ldr x0, [x1, xzr, lsl #3]",   0xF87F_7820, 0x1_0000,       8,    1,    LOAD,  X,   None, true),
    ("ldr x0, [x1, wzr, sxtw #3]",  0xF87F_D820, 0x1_0000,       8,    1,    LOAD,  X,   None, true),
    ("ldr x0, [sp, x5]",            0xF865_6BE0, 0x8008,         8,    1,    LOAD,  SP,  None, true),
    ("ldr x0, [x1, x1]",            0xF861_6820, 0x2_0000,       8,    1,    LOAD,  X,   None, true),
    ("str x0, [x3, x5, lsl #3]",    0xF825_7860, 0x38,           8,    1,    STORE, X,   None, true),
    ("ldr x0, [x1, x6, lsl #3]",    0xF866_7820, 0x1_0008,       8,    1,    LOAD,  X,   None, true),
    ("ldr x0, [x1, w5, sxtw]",      0xF865_C820, 0x1_0008,       8,    1,    LOAD,  X,   None, true),
];

#[rattlefmt::skip]
static LITERALS: [Row; 9] = [
    // shows              word         at                     width count       base back  isv
    ("ldr w0, #0",        0x1800_0000, 0x4000,                4,    1,    LOAD, X,   None, true),
    ("ldr w0, #4",        0x1800_0020, 0x4004,                4,    1,    LOAD, X,   None, true),
    ("ldr w0, #-4",       0x18FF_FFE0, 0x3FFC,                4,    1,    LOAD, X,   None, true),
    ("ldr x0, #8",        0x5800_0040, 0x4008,                8,    1,    LOAD, X,   None, true),
    ("ldr x0, #-8",       0x58FF_FFC0, 0x3FF8,                8,    1,    LOAD, X,   None, true),
    ("ldr x0, #1048572",  0x587F_FFE0, 0x10_3FFC,             8,    1,    LOAD, X,   None, true),
    ("ldr x0, #-1048576", 0x5880_0000, 0xFFFF_FFFF_FFF0_4000, 8,    1,    LOAD, X,   None, true),
    ("ldrsw x0, #12",     0x9800_0060, 0x400C,                4,    1,    LOAD, X,   None, true),
    ("ldrsw x0, #-12",    0x98FF_FFA0, 0x3FF4,                4,    1,    LOAD, X,   None, true),
];

#[rattlefmt::skip]
static PAIRS: [Row; 22] = [
    // shows                      word         at                     width count        base back                         isv
    ("stp w0, w5, [x1, #252]",    0x291F_9420, 0x1_00FC,              4,    2,    STORE, X,   None,                        false),
    ("ldp w0, w5, [x1, #-256]",   0x2960_1420, 0xFF00,                4,    2,    LOAD,  X,   None,                        false),
    ("ldpsw x0, x5, [x1, #4]",    0x6940_9420, 0x1_0004,              4,    2,    LOAD,  X,   None,                        false),
    ("stp x0, x5, [x1, #504]",    0xA91F_9420, 0x1_01F8,              8,    2,    STORE, X,   None,                        false),
    ("ldp x0, x5, [x1, #-512]",   0xA960_1420, 0xFE00,                8,    2,    LOAD,  X,   None,                        false),
    ("stp w0, w5, [x1], #4",      0x2880_9420, 0x1_0000,              4,    2,    STORE, X,   Some(0x1_0004),              false),
    ("ldp w0, w5, [x1], #-4",     0x28FF_9420, 0x1_0000,              4,    2,    LOAD,  X,   Some(0xFFFC),                false),
    ("ldpsw x0, x5, [x1], #8",    0x68C1_1420, 0x1_0000,              4,    2,    LOAD,  X,   Some(0x1_0008),              false),
    ("stp x0, x5, [x1], #-8",     0xA8BF_9420, 0x1_0000,              8,    2,    STORE, X,   Some(0xFFF8),                false),
    ("ldp x0, x5, [x1], #16",     0xA8C1_1420, 0x1_0000,              8,    2,    LOAD,  X,   Some(0x1_0010),              false),
    ("stp w0, w5, [x1, #4]!",     0x2980_9420, 0x1_0004,              4,    2,    STORE, X,   Some(0x1_0004),              false),
    ("ldp w0, w5, [x1, #-4]!",    0x29FF_9420, 0xFFFC,                4,    2,    LOAD,  X,   Some(0xFFFC),                false),
    ("ldpsw x0, x5, [x1, #-8]!",  0x69FF_1420, 0xFFF8,                4,    2,    LOAD,  X,   Some(0xFFF8),                false),
    ("stp x0, x5, [x1, #8]!",     0xA980_9420, 0x1_0008,              8,    2,    STORE, X,   Some(0x1_0008),              false),
    ("ldp x0, x5, [x1, #-16]!",   0xA9FF_1420, 0xFFF0,                8,    2,    LOAD,  X,   Some(0xFFF0),                false),
    ("stp x29, x30, [sp, #-16]!", 0xA9BF_7BFD, 0x7FF0,                8,    2,    STORE, SP,  Some(0x7FF0),                false),
    ("ldp x29, x30, [sp], #16",   0xA8C1_7BFD, 0x8000,                8,    2,    LOAD,  SP,  Some(0x8010),                false),
    ("ldp x0, xzr, [sp, #8]",     0xA940_FFE0, 0x8008,                8,    2,    LOAD,  SP,  None,                        false),
    ("ldp x1, x0, [x1]",          0xA940_0021, 0x1_0000,              8,    2,    LOAD,  X,   None,                        false),
    ("ldp x0, x5, [x3, #8]",      0xA940_9460, 0x0,                   8,    2,    LOAD,  X,   None,                        false),
    ("ldp x0, x5, [x4, #-8]!",    0xA9FF_9480, 0xFFFF_FFFF_FFFF_FFF9, 8,    2,    LOAD,  X,   Some(0xFFFF_FFFF_FFFF_FFF9), false),
    ("stp x0, x5, [x3], #16",     0xA881_1460, 0xFFFF_FFFF_FFFF_FFF8, 8,    2,    STORE, X,   Some(0x8),                   false),
];

/// What the word asks for.
fn asked(word: u32) -> Option<MemShape> {
    let mut core = Core::reset(0);
    core.pc = PC;
    core.sp1 = STACK;
    for (n, value) in [(1, X1), (2, X2), (3, X3), (4, X4), (5, X5), (6, X6)] {
        core.write_x(n, value);
    }
    shape_of(&core, &decode(word))
}

fn check_rows(rt: &impl Abort, rows: &[Row]) {
    for row in rows {
        check_row(rt, row);
    }
}

fn check_row(rt: &impl Abort, row: &Row) {
    let (shows, word, at, width, count, store, base_sp, back, isv) = *row;
    let shape = MemShape {
        at,
        width,
        count,
        store,
        base_sp,
        back,
        isv,
    };
    assert_eq!(rt; asked(word), Some(shape), "{shows}");
}

#[test]
fn loads_and_stores(rt: HostRuntime) {
    check_rows(&rt, OFFSETS.as_slice());
    check_rows(&rt, INDEXED.as_slice());
    check_rows(&rt, REGISTERS.as_slice());
    check_rows(&rt, LITERALS.as_slice());
    check_rows(&rt, PAIRS.as_slice());
}

#[rattlefmt::skip]
static NO_ACCESS: [(&str, u32); 12] = [
    // shows                             word
    ("prfm pldl1keep, #8",               0xD800_0040),
    ("prfm pldl1keep, [x1, #8]",         0xF980_0420),
    ("prfm pldl1keep, [sp, x2, lsl #3]", 0xF8A2_7BE0),
    ("prfum pldl1keep, [x1, #-8]",       0xF89F_8020),
    ("add x0, x1, #1",                   0x9100_0420),
    ("ldadd w0, w1, [x2]",               0xB820_0041),
    ("b #4",                             0x1400_0001),
    ("nop",                              0xD503_201F),
    ("svc #0",                           0xD400_0001),
    ("mrs x0, nzcv",                     0xD53B_4200),
    ("adr x0, #4",                       0x1000_0020),
    ("dc civac, x1",                     0xD50B_7E21),
];

#[test]
fn no_access(rt: HostRuntime) {
    for row in NO_ACCESS.as_slice() {
        check_no_access(&rt, row);
    }
}

fn check_no_access(rt: &impl Abort, row: &(&'static str, u32)) {
    let (shows, word) = *row;
    assert_eq!(rt; asked(word), None, "{shows}");
}

/// At EL0 the base is SP_EL0.
#[test]
fn selected_stack_pointer(rt: HostRuntime) {
    let mut core = Core::reset(0);
    core.sp0 = 0x9000;
    core.sp1 = STACK;
    core.set_mode(Mode::El0t);
    let pop = decode(0xF841_07E0); // ldr x0, [sp], #16
    let shape = MemShape {
        at: 0x9000,
        width: 8,
        count: 1,
        store: false,
        base_sp: true,
        back: Some(0x9010),
        isv: false,
    };
    assert_eq!(rt; shape_of(&core, &pop), Some(shape));
}
