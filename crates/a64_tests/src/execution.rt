use a64_decode::decode;
use a64_execute::{Need, complete, complete_access, want};
use a64_state::{Core, Mode, pstate};
use a64_sysreg::Moment;
use std::process::Abort;

/// A load or a store: its instruction and word, the address, the bytes of an element, the elements, what is loaded or
/// stored, and the registers that change. As a register that changes, 31 is SP.
type Access = (&'static str, u32, u64, u32, u8, u128, &'static [(u8, u64)]);

/// An instruction without an access: itself and its word, the flags before and after it, PC after it, and the registers
/// that change.
type Step = (&'static str, u32, u32, u32, u64, &'static [(u8, u64)]);

/// What is loaded: elements of any width have their highest bit set.
const HIGH: u128 = 0xF1E2_D3C4_B5A6_9788_8796_A5B4_C3D2_E1F0;
/// Elements of any width have it clear.
const LOW: u128 = 0x0F1E_2D3C_4B5A_6978_7869_5A4B_3C2D_1E0F;

const X0: u64 = 0x0123_4567_89AB_CDEF;

/// What the registers of the timer and of the interrupt interface show.
const NOW: Moment = Moment {
    count: 150,
    signal: Some(41),
};
/// The base of most rows.
const X1: u64 = 0x1_0000;
/// An offset whose lowest word is negative: it is 0xFFFF_FFF0, or -16 with its sign.
const X2: u64 = 0x1_FFFF_FFF0;
/// A base at the end of the address space, 8 below 2^64.
const X3: u64 = 0xFFFF_FFFF_FFFF_FFF8;
/// A base at the beginning.
const X4: u64 = 1;

const X5: u64 = 0xFEDC_BA98_7654_3210;
/// Only its lowest 32 bits are 0.
const X7: u64 = 0x1_0000_0000;

const X8: u64 = 0x5000;

const X30: u64 = 0x6000;

const STACK: u64 = 0x8000;

const PC: u64 = 0x4000;
/// The last instruction of the address space.
const END: u64 = 0xFFFF_FFFF_FFFF_FFFC;

#[rattlefmt::skip]
static OFFSETS: [Access; 30] = [
    // shows                   word         at        width  count  loaded  changes
    ("ldrb w0, [x1, #1]",      0x3940_0420, 0x1_0001, 1,     1,     HIGH,   &[(0, 0xF0)]),
    ("ldrsb x0, [x1, #2]",     0x3980_0820, 0x1_0002, 1,     1,     HIGH,   &[(0, 0xFFFF_FFFF_FFFF_FFF0)]),
    ("ldrsb x0, [x1, #2]",     0x3980_0820, 0x1_0002, 1,     1,     LOW,    &[(0, 0xF)]),
    ("ldrsb w0, [x1, #4095]",  0x39FF_FC20, 0x1_0FFF, 1,     1,     HIGH,   &[(0, 0xFFFF_FFF0)]),
    ("ldrsb w0, [x1, #4095]",  0x39FF_FC20, 0x1_0FFF, 1,     1,     LOW,    &[(0, 0xF)]),
    ("ldrh w0, [x1, #2]",      0x7940_0420, 0x1_0002, 2,     1,     HIGH,   &[(0, 0xE1F0)]),
    ("ldrsh x0, [x1, #4]",     0x7980_0820, 0x1_0004, 2,     1,     HIGH,   &[(0, 0xFFFF_FFFF_FFFF_E1F0)]),
    ("ldrsh x0, [x1, #4]",     0x7980_0820, 0x1_0004, 2,     1,     LOW,    &[(0, 0x1E0F)]),
    ("ldrsh w0, [x1, #6]",     0x79C0_0C20, 0x1_0006, 2,     1,     HIGH,   &[(0, 0xFFFF_E1F0)]),
    ("ldrsh w0, [x1, #6]",     0x79C0_0C20, 0x1_0006, 2,     1,     LOW,    &[(0, 0x1E0F)]),
    ("ldr w0, [x1, #4]",       0xB940_0420, 0x1_0004, 4,     1,     HIGH,   &[(0, 0xC3D2_E1F0)]),
    ("ldrsw x0, [x1, #8]",     0xB980_0820, 0x1_0008, 4,     1,     HIGH,   &[(0, 0xFFFF_FFFF_C3D2_E1F0)]),
    ("ldrsw x0, [x1, #8]",     0xB980_0820, 0x1_0008, 4,     1,     LOW,    &[(0, 0x3C2D_1E0F)]),
    ("ldr x0, [x1, #8]",       0xF940_0420, 0x1_0008, 8,     1,     HIGH,   &[(0, 0x8796_A5B4_C3D2_E1F0)]),
    ("ldr x1, [x1]",           0xF940_0021, 0x1_0000, 8,     1,     LOW,    &[(1, 0x7869_5A4B_3C2D_1E0F)]),
    ("ldr x30, [sp, #16]",     0xF940_0BFE, 0x8010,   8,     1,     HIGH,   &[(30, 0x8796_A5B4_C3D2_E1F0)]),
    ("ldr xzr, [x1, #8]",      0xF940_043F, 0x1_0008, 8,     1,     HIGH,   &[]),
    ("ldrb wzr, [sp]",         0x3940_03FF, 0x8000,   1,     1,     HIGH,   &[]),
    ("ldrsw xzr, [sp, #4]",    0xB980_07FF, 0x8004,   4,     1,     HIGH,   &[]),
    ("ldr x0, [x3, #16]",      0xF940_0860, 0x8,      8,     1,     LOW,    &[(0, 0x7869_5A4B_3C2D_1E0F)]),
    ("ldurb w0, [x1, #255]",   0x384F_F020, 0x1_00FF, 1,     1,     HIGH,   &[(0, 0xF0)]),
    ("ldursb x0, [x1, #-1]",   0x389F_F020, 0xFFFF,   1,     1,     HIGH,   &[(0, 0xFFFF_FFFF_FFFF_FFF0)]),
    ("ldursb w0, [x1, #-256]", 0x38D0_0020, 0xFF00,   1,     1,     HIGH,   &[(0, 0xFFFF_FFF0)]),
    ("ldurh w0, [x1, #-2]",    0x785F_E020, 0xFFFE,   2,     1,     HIGH,   &[(0, 0xE1F0)]),
    ("ldursh x0, [x1, #3]",    0x7880_3020, 0x1_0003, 2,     1,     HIGH,   &[(0, 0xFFFF_FFFF_FFFF_E1F0)]),
    ("ldursh w0, [x1, #-3]",   0x78DF_D020, 0xFFFD,   2,     1,     HIGH,   &[(0, 0xFFFF_E1F0)]),
    ("ldur w0, [x1, #5]",      0xB840_5020, 0x1_0005, 4,     1,     HIGH,   &[(0, 0xC3D2_E1F0)]),
    ("ldursw x0, [x1, #-5]",   0xB89F_B020, 0xFFFB,   4,     1,     HIGH,   &[(0, 0xFFFF_FFFF_C3D2_E1F0)]),
    ("ldur x0, [sp, #-8]",     0xF85F_83E0, 0x7FF8,   8,     1,     HIGH,   &[(0, 0x8796_A5B4_C3D2_E1F0)]),
    ("ldursh wzr, [x1, #1]",   0x78C0_103F, 0x1_0001, 2,     1,     HIGH,   &[]),
];

#[rattlefmt::skip]
static INDEXED: [Access; 25] = [
    // shows                 word         at        width  count  loaded  changes
    ("ldrb w0, [x1], #255",  0x384F_F420, 0x1_0000, 1,     1,     HIGH,   &[(0, 0xF0), (1, 0x1_00FF)]),
    ("ldrsb x0, [x1], #-1",  0x389F_F420, 0x1_0000, 1,     1,     HIGH,   &[(0, 0xFFFF_FFFF_FFFF_FFF0), (1, 0xFFFF)]),
    ("ldrsb w0, [x1], #1",   0x38C0_1420, 0x1_0000, 1,     1,     HIGH,   &[(0, 0xFFFF_FFF0), (1, 0x1_0001)]),
    ("ldrh w0, [x1], #-2",   0x785F_E420, 0x1_0000, 2,     1,     HIGH,   &[(0, 0xE1F0), (1, 0xFFFE)]),
    ("ldrsh x0, [x1], #4",   0x7880_4420, 0x1_0000, 2,     1,     HIGH,   &[(0, 0xFFFF_FFFF_FFFF_E1F0), (1, 0x1_0004)]),
    ("ldrsh w0, [x1], #-4",  0x78DF_C420, 0x1_0000, 2,     1,     HIGH,   &[(0, 0xFFFF_E1F0), (1, 0xFFFC)]),
    ("ldr w0, [x1], #-256",  0xB850_0420, 0x1_0000, 4,     1,     HIGH,   &[(0, 0xC3D2_E1F0), (1, 0xFF00)]),
    ("ldrsw x0, [x1], #8",   0xB880_8420, 0x1_0000, 4,     1,     HIGH,   &[(0, 0xFFFF_FFFF_C3D2_E1F0), (1, 0x1_0008)]),
    ("ldr x0, [x1], #8",     0xF840_8420, 0x1_0000, 8,     1,     HIGH,   &[(0, 0x8796_A5B4_C3D2_E1F0), (1, 0x1_0008)]),
    ("ldr x0, [sp], #16",    0xF841_07E0, 0x8000,   8,     1,     LOW,    &[(0, 0x7869_5A4B_3C2D_1E0F), (31, 0x8010)]),
    ("ldr xzr, [x1], #8",    0xF840_843F, 0x1_0000, 8,     1,     HIGH,   &[(1, 0x1_0008)]),
    ("ldr xzr, [sp], #8",    0xF840_87FF, 0x8000,   8,     1,     HIGH,   &[(31, 0x8008)]),
    ("ldrb w0, [x4], #-2",   0x385F_E480, 0x1,      1,     1,     LOW,    &[(0, 0xF), (4, 0xFFFF_FFFF_FFFF_FFFF)]),
    ("ldrb w0, [x1, #255]!", 0x384F_FC20, 0x1_00FF, 1,     1,     HIGH,   &[(0, 0xF0), (1, 0x1_00FF)]),
    ("ldrsb x0, [x1, #-1]!", 0x389F_FC20, 0xFFFF,   1,     1,     HIGH,   &[(0, 0xFFFF_FFFF_FFFF_FFF0), (1, 0xFFFF)]),
    ("ldrsb w0, [x1, #1]!",  0x38C0_1C20, 0x1_0001, 1,     1,     HIGH,   &[(0, 0xFFFF_FFF0), (1, 0x1_0001)]),
    ("ldrh w0, [x1, #-2]!",  0x785F_EC20, 0xFFFE,   2,     1,     HIGH,   &[(0, 0xE1F0), (1, 0xFFFE)]),
    ("ldrsh x0, [x1, #4]!",  0x7880_4C20, 0x1_0004, 2,     1,     HIGH,   &[(0, 0xFFFF_FFFF_FFFF_E1F0), (1, 0x1_0004)]),
    ("ldrsh w0, [x1, #-4]!", 0x78DF_CC20, 0xFFFC,   2,     1,     HIGH,   &[(0, 0xFFFF_E1F0), (1, 0xFFFC)]),
    ("ldr w0, [x1, #-256]!", 0xB850_0C20, 0xFF00,   4,     1,     HIGH,   &[(0, 0xC3D2_E1F0), (1, 0xFF00)]),
    ("ldrsw x0, [x1, #8]!",  0xB880_8C20, 0x1_0008, 4,     1,     HIGH,   &[(0, 0xFFFF_FFFF_C3D2_E1F0), (1, 0x1_0008)]),
    ("ldr x0, [x1, #8]!",    0xF840_8C20, 0x1_0008, 8,     1,     HIGH,   &[(0, 0x8796_A5B4_C3D2_E1F0), (1, 0x1_0008)]),
    ("ldr x0, [sp, #-16]!",  0xF85F_0FE0, 0x7FF0,   8,     1,     LOW,    &[(0, 0x7869_5A4B_3C2D_1E0F), (31, 0x7FF0)]),
    ("ldr xzr, [sp, #8]!",   0xF840_8FFF, 0x8008,   8,     1,     HIGH,   &[(31, 0x8008)]),
    ("ldr x0, [x3, #16]!",   0xF841_0C60, 0x8,      8,     1,     LOW,    &[(0, 0x7869_5A4B_3C2D_1E0F), (3, 0x8)]),
];

#[rattlefmt::skip]
static OTHER_BASES: [Access; 22] = [
    // shows                        word         at              width  count  loaded  changes
    ("ldrb w0, [x1, w2, uxtw]",     0x3862_4820, 0x1_0000_FFF0,  1,     1,     HIGH,   &[(0, 0xF0)]),
    ("ldrsb x0, [x1, w2, sxtw]",    0x38A2_C820, 0xFFF0,         1,     1,     HIGH,   &[(0, 0xFFFF_FFFF_FFFF_FFF0)]),
    ("ldrsb w0, [x1, x2, sxtx]",    0x38E2_E820, 0x2_0000_FFF0,  1,     1,     HIGH,   &[(0, 0xFFFF_FFF0)]),
    ("ldrb w0, [x1, x2, lsl #0]",   0x3862_7820, 0x2_0000_FFF0,  1,     1,     LOW,    &[(0, 0xF)]),
    ("ldrh w0, [x1, x2]",           0x7862_6820, 0x2_0000_FFF0,  2,     1,     HIGH,   &[(0, 0xE1F0)]),
    ("ldrsh x0, [x1, w2, sxtw #1]", 0x78A2_D820, 0xFFE0,         2,     1,     HIGH,   &[(0, 0xFFFF_FFFF_FFFF_E1F0)]),
    ("ldrsh w0, [x1, x2, lsl #1]",  0x78E2_7820, 0x4_0000_FFE0,  2,     1,     HIGH,   &[(0, 0xFFFF_E1F0)]),
    ("ldr w0, [x1, w2, uxtw #2]",   0xB862_5820, 0x4_0000_FFC0,  4,     1,     HIGH,   &[(0, 0xC3D2_E1F0)]),
    ("ldrsw x0, [x1, x2, sxtx #2]", 0xB8A2_F820, 0x8_0000_FFC0,  4,     1,     HIGH,   &[(0, 0xFFFF_FFFF_C3D2_E1F0)]),
    ("ldrsw x0, [x1, w2, sxtw]",    0xB8A2_C820, 0xFFF0,         4,     1,     LOW,    &[(0, 0x3C2D_1E0F)]),
    ("ldr x0, [x1, w2, sxtw #3]",   0xF862_D820, 0xFF80,         8,     1,     HIGH,   &[(0, 0x8796_A5B4_C3D2_E1F0)]),
    ("ldr x0, [x1, x2, lsl #3]",    0xF862_7820, 0x10_0000_FF80, 8,     1,     LOW,    &[(0, 0x7869_5A4B_3C2D_1E0F)]),
    ("ldr x2, [x1, x2]",            0xF862_6822, 0x2_0000_FFF0,  8,     1,     HIGH,   &[(2, 0x8796_A5B4_C3D2_E1F0)]),
    ("ldr xzr, [sp, x4, lsl #3]",   0xF864_7BFF, 0x8008,         8,     1,     HIGH,   &[]),
    ("ldr x0, [sp, xzr]",           0xF87F_6BE0, 0x8000,         8,     1,     HIGH,   &[(0, 0x8796_A5B4_C3D2_E1F0)]),
    ("ldr w0, #8",                  0x1800_0040, 0x4008,         4,     1,     HIGH,   &[(0, 0xC3D2_E1F0)]),
    ("ldr w0, #-8",                 0x18FF_FFC0, 0x3FF8,         4,     1,     LOW,    &[(0, 0x3C2D_1E0F)]),
    ("ldr x0, #1048572",            0x587F_FFE0, 0x10_3FFC,      8,     1,     HIGH,   &[(0, 0x8796_A5B4_C3D2_E1F0)]),
    ("ldr x0, #-8",                 0x58FF_FFC0, 0x3FF8,         8,     1,     LOW,    &[(0, 0x7869_5A4B_3C2D_1E0F)]),
    ("ldrsw x0, #12",               0x9800_0060, 0x400C,         4,     1,     HIGH,   &[(0, 0xFFFF_FFFF_C3D2_E1F0)]),
    ("ldrsw x0, #-12",              0x98FF_FFA0, 0x3FF4,         4,     1,     LOW,    &[(0, 0x3C2D_1E0F)]),
    ("ldr xzr, #8",                 0x5800_005F, 0x4008,         8,     1,     HIGH,   &[]),
];

#[rattlefmt::skip]
static PAIRS: [Access; 17] = [
    // shows                      word         at        width  count  loaded  changes
    ("ldp w0, w5, [x1, #252]",    0x295F_9420, 0x1_00FC, 4,     2,     HIGH,   &[(0, 0xC3D2_E1F0), (5, 0x8796_A5B4)]),
    ("ldpsw x0, x5, [x1, #-256]", 0x6960_1420, 0xFF00,   4,     2,     HIGH,   &[(0, 0xFFFF_FFFF_C3D2_E1F0), (5, 0xFFFF_FFFF_8796_A5B4)]),
    ("ldpsw x0, x5, [x1, #4]",    0x6940_9420, 0x1_0004, 4,     2,     LOW,    &[(0, 0x3C2D_1E0F), (5, 0x7869_5A4B)]),
    ("ldp x0, x5, [x1, #-512]",   0xA960_1420, 0xFE00,   8,     2,     HIGH,   &[(0, 0x8796_A5B4_C3D2_E1F0), (5, 0xF1E2_D3C4_B5A6_9788)]),
    ("ldp x1, x0, [x1]",          0xA940_0021, 0x1_0000, 8,     2,     LOW,    &[(1, 0x7869_5A4B_3C2D_1E0F), (0, 0xF1E_2D3C_4B5A_6978)]),
    ("ldp x0, xzr, [sp, #8]",     0xA940_FFE0, 0x8008,   8,     2,     HIGH,   &[(0, 0x8796_A5B4_C3D2_E1F0)]),
    ("ldp xzr, x5, [sp]",         0xA940_17FF, 0x8000,   8,     2,     HIGH,   &[(5, 0xF1E2_D3C4_B5A6_9788)]),
    ("ldp x0, x5, [x3, #8]",      0xA940_9460, 0x0,      8,     2,     LOW,    &[(0, 0x7869_5A4B_3C2D_1E0F), (5, 0xF1E_2D3C_4B5A_6978)]),
    ("ldp w0, w5, [x1], #-4",     0x28FF_9420, 0x1_0000, 4,     2,     HIGH,   &[(0, 0xC3D2_E1F0), (5, 0x8796_A5B4), (1, 0xFFFC)]),
    ("ldpsw x0, x5, [x1], #8",    0x68C1_1420, 0x1_0000, 4,     2,     HIGH,   &[(0, 0xFFFF_FFFF_C3D2_E1F0), (5, 0xFFFF_FFFF_8796_A5B4), (1, 0x1_0008)]),
    ("ldp x0, x5, [x1], #16",     0xA8C1_1420, 0x1_0000, 8,     2,     HIGH,   &[(0, 0x8796_A5B4_C3D2_E1F0), (5, 0xF1E2_D3C4_B5A6_9788), (1, 0x1_0010)]),
    ("ldp x29, x30, [sp], #16",   0xA8C1_7BFD, 0x8000,   8,     2,     LOW,    &[(29, 0x7869_5A4B_3C2D_1E0F), (30, 0xF1E_2D3C_4B5A_6978), (31, 0x8010)]),
    ("ldp x0, x5, [x4], #-8",     0xA8FF_9480, 0x1,      8,     2,     LOW,    &[(0, 0x7869_5A4B_3C2D_1E0F), (5, 0xF1E_2D3C_4B5A_6978), (4, 0xFFFF_FFFF_FFFF_FFF9)]),
    ("ldp w0, w5, [x1, #-4]!",    0x29FF_9420, 0xFFFC,   4,     2,     HIGH,   &[(0, 0xC3D2_E1F0), (5, 0x8796_A5B4), (1, 0xFFFC)]),
    ("ldpsw x0, x5, [x1, #-8]!",  0x69FF_1420, 0xFFF8,   4,     2,     HIGH,   &[(0, 0xFFFF_FFFF_C3D2_E1F0), (5, 0xFFFF_FFFF_8796_A5B4), (1, 0xFFF8)]),
    ("ldp x0, x5, [x1, #-16]!",   0xA9FF_1420, 0xFFF0,   8,     2,     HIGH,   &[(0, 0x8796_A5B4_C3D2_E1F0), (5, 0xF1E2_D3C4_B5A6_9788), (1, 0xFFF0)]),
    ("ldp x0, x5, [x3, #16]!",    0xA9C1_1460, 0x8,      8,     2,     LOW,    &[(0, 0x7869_5A4B_3C2D_1E0F), (5, 0xF1E_2D3C_4B5A_6978), (3, 0x8)]),
];

#[rattlefmt::skip]
static STORES: [Access; 46] = [
    // shows                       word         at              width  count  stored                                     changes
    ("strb w0, [x1, #4095]",       0x393F_FC20, 0x1_0FFF,       1,     1,     0xEF,                                      &[]),
    ("strh w0, [x1, #8190]",       0x793F_FC20, 0x1_1FFE,       2,     1,     0xCDEF,                                    &[]),
    ("str w0, [x1, #16380]",       0xB93F_FC20, 0x1_3FFC,       4,     1,     0x89AB_CDEF,                               &[]),
    ("str x0, [x1, #32760]",       0xF93F_FC20, 0x1_7FF8,       8,     1,     0x123_4567_89AB_CDEF,                      &[]),
    ("str x1, [x1]",               0xF900_0021, 0x1_0000,       8,     1,     0x1_0000,                                  &[]),
    ("strb wzr, [sp]",             0x3900_03FF, 0x8000,         1,     1,     0x0,                                       &[]),
    ("str xzr, [x1, #8]",          0xF900_043F, 0x1_0008,       8,     1,     0x0,                                       &[]),
    ("str w5, [x3, #16]",          0xB900_1065, 0x8,            4,     1,     0x7654_3210,                               &[]),
    ("sturb w0, [x1, #-256]",      0x3810_0020, 0xFF00,         1,     1,     0xEF,                                      &[]),
    ("sturh w0, [x1, #1]",         0x7800_1020, 0x1_0001,       2,     1,     0xCDEF,                                    &[]),
    ("stur w0, [x1, #-4]",         0xB81F_C020, 0xFFFC,         4,     1,     0x89AB_CDEF,                               &[]),
    ("stur x0, [sp, #7]",          0xF800_73E0, 0x8007,         8,     1,     0x123_4567_89AB_CDEF,                      &[]),
    ("strb w0, [x1], #-256",       0x3810_0420, 0x1_0000,       1,     1,     0xEF,                                      &[(1, 0xFF00)]),
    ("strh w0, [x1], #2",          0x7800_2420, 0x1_0000,       2,     1,     0xCDEF,                                    &[(1, 0x1_0002)]),
    ("str w0, [x1], #4",           0xB800_4420, 0x1_0000,       4,     1,     0x89AB_CDEF,                               &[(1, 0x1_0004)]),
    ("str x0, [x1], #-8",          0xF81F_8420, 0x1_0000,       8,     1,     0x123_4567_89AB_CDEF,                      &[(1, 0xFFF8)]),
    ("str xzr, [sp], #16",         0xF801_07FF, 0x8000,         8,     1,     0x0,                                       &[(31, 0x8010)]),
    ("str x0, [x4], #-2",          0xF81F_E480, 0x1,            8,     1,     0x123_4567_89AB_CDEF,                      &[(4, 0xFFFF_FFFF_FFFF_FFFF)]),
    ("strb w0, [x1, #-256]!",      0x3810_0C20, 0xFF00,         1,     1,     0xEF,                                      &[(1, 0xFF00)]),
    ("strh w0, [x1, #2]!",         0x7800_2C20, 0x1_0002,       2,     1,     0xCDEF,                                    &[(1, 0x1_0002)]),
    ("str w0, [x1, #4]!",          0xB800_4C20, 0x1_0004,       4,     1,     0x89AB_CDEF,                               &[(1, 0x1_0004)]),
    ("str x0, [x1, #-8]!",         0xF81F_8C20, 0xFFF8,         8,     1,     0x123_4567_89AB_CDEF,                      &[(1, 0xFFF8)]),
    ("str x0, [sp, #-16]!",        0xF81F_0FE0, 0x7FF0,         8,     1,     0x123_4567_89AB_CDEF,                      &[(31, 0x7FF0)]),
    ("strb w0, [x3, #16]!",        0x3801_0C60, 0x8,            1,     1,     0xEF,                                      &[(3, 0x8)]),
    ("strb w0, [x1, w2, uxtw]",    0x3822_4820, 0x1_0000_FFF0,  1,     1,     0xEF,                                      &[]),
    ("strb w0, [x1, x2, lsl #0]",  0x3822_7820, 0x2_0000_FFF0,  1,     1,     0xEF,                                      &[]),
    ("strh w0, [x1, w2, uxtw #1]", 0x7822_5820, 0x2_0000_FFE0,  2,     1,     0xCDEF,                                    &[]),
    ("strh w0, [x1, w2, sxtw]",    0x7822_C820, 0xFFF0,         2,     1,     0xCDEF,                                    &[]),
    ("str w0, [x1, x2, lsl #2]",   0xB822_7820, 0x8_0000_FFC0,  4,     1,     0x89AB_CDEF,                               &[]),
    ("str w0, [x1, x2, sxtx]",     0xB822_E820, 0x2_0000_FFF0,  4,     1,     0x89AB_CDEF,                               &[]),
    ("str x0, [x1, w2, sxtw #3]",  0xF822_D820, 0xFF80,         8,     1,     0x123_4567_89AB_CDEF,                      &[]),
    ("str x0, [x1, x2, sxtx #3]",  0xF822_F820, 0x10_0000_FF80, 8,     1,     0x123_4567_89AB_CDEF,                      &[]),
    ("str x1, [sp, x1]",           0xF821_6BE1, 0x1_8000,       8,     1,     0x1_0000,                                  &[]),
    ("stp w0, w5, [x1, #252]",     0x291F_9420, 0x1_00FC,       4,     2,     0x7654_3210_89AB_CDEF,                     &[]),
    ("stp x0, x5, [x1, #-512]",    0xA920_1420, 0xFE00,         8,     2,     0xFEDC_BA98_7654_3210_0123_4567_89AB_CDEF, &[]),
    ("stp x0, x0, [x1]",           0xA900_0020, 0x1_0000,       8,     2,     0x123_4567_89AB_CDEF_0123_4567_89AB_CDEF,  &[]),
    ("stp x0, xzr, [x1]",          0xA900_7C20, 0x1_0000,       8,     2,     0x123_4567_89AB_CDEF,                      &[]),
    ("stp wzr, w5, [sp, #8]",      0x2901_17FF, 0x8008,         4,     2,     0x7654_3210_0000_0000,                     &[]),
    ("stp x1, x5, [x1, #8]",       0xA900_9421, 0x1_0008,       8,     2,     0xFEDC_BA98_7654_3210_0000_0000_0001_0000, &[]),
    ("stp w0, w5, [x1], #4",       0x2880_9420, 0x1_0000,       4,     2,     0x7654_3210_89AB_CDEF,                     &[(1, 0x1_0004)]),
    ("stp x0, x5, [x1], #-8",      0xA8BF_9420, 0x1_0000,       8,     2,     0xFEDC_BA98_7654_3210_0123_4567_89AB_CDEF, &[(1, 0xFFF8)]),
    ("stp x0, x5, [x4], #-8",      0xA8BF_9480, 0x1,            8,     2,     0xFEDC_BA98_7654_3210_0123_4567_89AB_CDEF, &[(4, 0xFFFF_FFFF_FFFF_FFF9)]),
    ("stp w0, w5, [x1, #4]!",      0x2980_9420, 0x1_0004,       4,     2,     0x7654_3210_89AB_CDEF,                     &[(1, 0x1_0004)]),
    ("stp x0, x5, [x1, #504]!",    0xA99F_9420, 0x1_01F8,       8,     2,     0xFEDC_BA98_7654_3210_0123_4567_89AB_CDEF, &[(1, 0x1_01F8)]),
    ("stp x5, x0, [sp, #-16]!",    0xA9BF_03E5, 0x7FF0,         8,     2,     0x123_4567_89AB_CDEF_FEDC_BA98_7654_3210,  &[(31, 0x7FF0)]),
    ("stp x0, x5, [x3, #16]!",     0xA981_1460, 0x8,            8,     2,     0xFEDC_BA98_7654_3210_0123_4567_89AB_CDEF, &[(3, 0x8)]),
];

#[rattlefmt::skip]
static PROCESSING: [Step; 23] = [
    // shows                      word         flags  after  PC  changes
    ("add x0, x1, #1",            0x9100_0420, 0,     0,     0x4004,   &[(0, 0x1_0001)]),
    ("sub sp, sp, #16",           0xD100_43FF, 0,     0,     0x4004,   &[(31, 0x7FF0)]),
    ("subs x0, x4, #1",           0xF100_0480, 9,     6,     0x4004,   &[(0, 0x0)]),
    ("adds w0, w5, w0",           0x2B00_00A0, 0,     8,     0x4004,   &[(0, 0xFFFF_FFFF)]),
    ("subs xzr, x4, x1",          0xEB01_009F, 0,     8,     0x4004,   &[]),
    ("add x0, x1, w2, sxtw",      0x8B22_C020, 15,    15,    0x4004,   &[(0, 0xFFF0)]),
    ("adc x0, x1, x4",            0x9A04_0020, 2,     2,     0x4004,   &[(0, 0x1_0002)]),
    ("and x0, x5, #0xff",         0x9240_1CA0, 0,     0,     0x4004,   &[(0, 0x10)]),
    ("orr x0, xzr, x1",           0xAA01_03E0, 0,     0,     0x4004,   &[(0, 0x1_0000)]),
    ("bics xzr, x4, x4",          0xEA24_009F, 3,     4,     0x4004,   &[]),
    ("movz x0, #0xa5c3, lsl #16", 0xD2B4_B860, 0,     0,     0x4004,   &[(0, 0xA5C3_0000)]),
    ("movk x0, #0",               0xF280_0000, 0,     0,     0x4004,   &[(0, 0x123_4567_89AB_0000)]),
    ("adr x0, #-4",               0x10FF_FFE0, 0,     0,     0x4004,   &[(0, 0x3FFC)]),
    ("adrp x0, #4096",            0xB000_0000, 0,     0,     0x4004,   &[(0, 0x5000)]),
    ("lsr x0, x5, #60",           0xD37C_FCA0, 0,     0,     0x4004,   &[(0, 0xF)]),
    ("extr x0, x4, x1, #16",      0x93C1_4080, 0,     0,     0x4004,   &[(0, 0x1_0000_0000_0001)]),
    ("ccmp x4, #1, #15, ne",      0xFA41_188F, 4,     15,    0x4004,   &[]),
    ("csel x0, x1, x2, eq",       0x9A82_0020, 4,     4,     0x4004,   &[(0, 0x1_0000)]),
    ("csel x0, x1, x2, eq",       0x9A82_0020, 0,     0,     0x4004,   &[(0, 0x1_FFFF_FFF0)]),
    ("madd x0, x1, x4, x1",       0x9B04_0420, 0,     0,     0x4004,   &[(0, 0x2_0000)]),
    ("udiv x0, x2, x1",           0x9AC1_0840, 0,     0,     0x4004,   &[(0, 0x1_FFFF)]),
    ("lsl x0, x1, x4",            0x9AC4_2020, 0,     0,     0x4004,   &[(0, 0x2_0000)]),
    ("rev x0, x4",                0xDAC0_0C80, 0,     0,     0x4004,   &[(0, 0x100_0000_0000_0000)]),
];

#[rattlefmt::skip]
static BRANCHES: [Step; 40] = [
    // shows                 word         flags  after  PC               changes
    ("b #8",                 0x1400_0002, 0,     0,     0x4008,                &[]),
    ("b #-8",                0x17FF_FFFE, 0,     0,     0x3FF8,                &[]),
    ("b #0",                 0x1400_0000, 0,     0,     0x4000,                &[]),
    ("b #134217724",         0x15FF_FFFF, 0,     0,     0x800_3FFC,            &[]),
    ("b #-134217728",        0x1600_0000, 0,     0,     0xFFFF_FFFF_F800_4000, &[]),
    ("bl #8",                0x9400_0002, 0,     0,     0x4008,                &[(30, 0x4004)]),
    ("bl #-4",               0x97FF_FFFF, 0,     0,     0x3FFC,                &[(30, 0x4004)]),
    ("b.eq #8",              0x5400_0040, 4,     4,     0x4008,                &[]),
    ("b.eq #8",              0x5400_0040, 11,    11,    0x4004,                &[]),
    ("b.ne #-8",             0x54FF_FFC1, 0,     0,     0x3FF8,                &[]),
    ("b.ne #-8",             0x54FF_FFC1, 4,     4,     0x4004,                &[]),
    ("b.hi #1048572",        0x547F_FFE8, 2,     2,     0x10_3FFC,             &[]),
    ("b.hi #1048572",        0x547F_FFE8, 6,     6,     0x4004,                &[]),
    ("b.lt #-1048576",       0x5480_000B, 1,     1,     0xFFFF_FFFF_FFF0_4000, &[]),
    ("b.lt #-1048576",       0x5480_000B, 9,     9,     0x4004,                &[]),
    ("b.al #8",              0x5400_004E, 0,     0,     0x4008,                &[]),
    ("b.nv #8",              0x5400_004F, 0,     0,     0x4008,                &[]),
    ("cbz x0, #8",           0xB400_0040, 4,     4,     0x4004,                &[]),
    ("cbz w0, #8",           0x3400_0040, 4,     4,     0x4004,                &[]),
    ("cbz x7, #8",           0xB400_0047, 0,     0,     0x4004,                &[]),
    ("cbz w7, #8",           0x3400_0047, 0,     0,     0x4008,                &[]),
    ("cbz xzr, #-8",         0xB4FF_FFDF, 0,     0,     0x3FF8,                &[]),
    ("cbz wzr, #1048572",    0x347F_FFFF, 0,     0,     0x10_3FFC,             &[]),
    ("cbnz x0, #8",          0xB500_0040, 0,     0,     0x4008,                &[]),
    ("cbnz w0, #-8",         0x35FF_FFC0, 0,     0,     0x3FF8,                &[]),
    ("cbnz x7, #8",          0xB500_0047, 0,     0,     0x4008,                &[]),
    ("cbnz w7, #8",          0x3500_0047, 0,     0,     0x4004,                &[]),
    ("cbnz xzr, #8",         0xB500_005F, 0,     0,     0x4004,                &[]),
    ("cbnz wzr, #8",         0x3500_005F, 0,     0,     0x4004,                &[]),
    ("tbz x4, #0, #32764",   0x3603_FFE4, 0,     0,     0x4004,                &[]),
    ("tbz xzr, #63, #32764", 0xB6FB_FFFF, 0,     0,     0xBFFC,                &[]),
    ("tbnz x4, #0, #-32768", 0x3704_0004, 0,     0,     0xFFFF_FFFF_FFFF_C000, &[]),
    ("tbnz xzr, #63, #8",    0xB7F8_005F, 0,     0,     0x4004,                &[]),
    ("br x8",                0xD61F_0100, 0,     0,     0x5000,                &[]),
    ("br x3",                0xD61F_0060, 0,     0,     0xFFFF_FFFF_FFFF_FFF8, &[]),
    ("br xzr",               0xD61F_03E0, 0,     0,     0x0,                   &[]),
    ("blr x8",               0xD63F_0100, 0,     0,     0x5000,                &[(30, 0x4004)]),
    ("blr x30",              0xD63F_03C0, 0,     0,     0x6000,                &[(30, 0x4004)]),
    ("ret",                  0xD65F_03C0, 0,     0,     0x6000,                &[]),
    ("ret x8",               0xD65F_0100, 0,     0,     0x5000,                &[]),
];

#[rattlefmt::skip]
static STEPS_AT_THE_END: [Step; 13] = [
    // shows           word         flags  after  PC               changes
    ("nop",            0xD503_201F, 0,     0,     0x0,                   &[]),
    ("add x0, x1, #1", 0x9100_0420, 0,     0,     0x0,                   &[(0, 0x1_0001)]),
    ("adr x0, #8",     0x1000_0040, 0,     0,     0x0,                   &[(0, 0x4)]),
    ("b #8",           0x1400_0002, 0,     0,     0x4,                   &[]),
    ("bl #8",          0x9400_0002, 0,     0,     0x4,                   &[(30, 0x0)]),
    ("bl #0",          0x9400_0000, 0,     0,     0xFFFF_FFFF_FFFF_FFFC, &[(30, 0x0)]),
    ("b.eq #8",        0x5400_0040, 0,     0,     0x0,                   &[]),
    ("b.ne #8",        0x5400_0041, 0,     0,     0x4,                   &[]),
    ("cbz x0, #8",     0xB400_0040, 0,     0,     0x0,                   &[]),
    ("cbnz x0, #-4",   0xB5FF_FFE0, 0,     0,     0xFFFF_FFFF_FFFF_FFF8, &[]),
    ("tbz x4, #0, #8", 0x3600_0044, 0,     0,     0x0,                   &[]),
    ("tbz x4, #1, #8", 0x3608_0044, 0,     0,     0x4,                   &[]),
    ("blr x30",        0xD63F_03C0, 0,     0,     0x6000,                &[(30, 0x0)]),
];

#[rattlefmt::skip]
static LOADS_AT_THE_END: [Access; 2] = [
    // shows             word         at        width  count  loaded  changes
    ("ldr x0, #8",       0x5800_0040, 0x4,      8,     1,     HIGH,   &[(0, 0x8796_A5B4_C3D2_E1F0)]),
    ("ldr x0, [x1], #8", 0xF840_8420, 0x1_0000, 8,     1,     HIGH,   &[(0, 0x8796_A5B4_C3D2_E1F0), (1, 0x1_0008)]),
];

/// The core before each row.
fn before(pc: u64) -> Core {
    let mut core = Core::reset(0);
    core.pc = pc;
    core.sp1 = STACK;
    for (n, value) in [
        (0, X0),
        (1, X1),
        (2, X2),
        (3, X3),
        (4, X4),
        (5, X5),
        (7, X7),
        (8, X8),
        (30, X30),
    ] {
        core.write_x(n, value);
    }
    core
}

/// Writes the registers that a row says to change.
fn change(rt: &impl Abort, core: &mut Core, changes: &[(u8, u64)]) {
    for &(n, value) in changes {
        assert!(rt; n <= 31);
        if n == 31 {
            core.write_sp(value);
        } else {
            core.write_x(n, value);
        }
    }
}

/// The row's load, begun at `pc`, asks for what the row says, and changes the registers that it says and PC alone.
fn load_agrees(rt: &impl Abort, pc: u64, row: &Access) {
    let (shows, word, at, width, count, loaded, changes) = *row;
    let mut core = before(pc);
    let mut expected = core;
    change(rt, &mut expected, changes);
    expected.pc = pc.wrapping_add(4);

    let instr = decode(word);
    let Need::Load { shape } = want(&core, &instr) else {
        panic!(rt; "{shows}");
    };
    complete_access(&mut core, &instr, &shape, loaded);
    let seen = (
        shape.at,
        shape.width,
        shape.count,
        shape.store,
        core == expected,
    );
    assert_eq!(rt; seen, (at, width, count, false, true), "{shows}");
}

/// So does the row's store, whatever is taken as loaded.
fn store_agrees(rt: &impl Abort, pc: u64, row: &Access) {
    let (shows, word, at, width, count, stored, changes) = *row;
    let mut core = before(pc);
    let mut expected = core;
    change(rt, &mut expected, changes);
    expected.pc = pc.wrapping_add(4);

    let instr = decode(word);
    let Need::Store { shape, value } = want(&core, &instr) else {
        panic!(rt; "{shows}");
    };
    complete_access(&mut core, &instr, &shape, HIGH);
    let seen = (shape.at, shape.width, shape.count, value, core == expected);
    assert_eq!(rt; seen, (at, width, count, stored, true), "{shows}");
}

/// The row's instruction, begun at `pc`, asks for nothing, and changes what the row says alone.
fn step_agrees(rt: &impl Abort, pc: u64, row: &Step) {
    let (shows, word, flags, flags_after, pc_after, changes) = *row;
    assert!(rt; flags < 16 && flags_after < 16, "{shows}");
    let mut core = before(pc);
    let mut expected = core;
    change(rt, &mut expected, changes);
    expected.pc = pc_after;
    core.set_flags(flags);
    expected.set_flags(flags_after);

    let instr = decode(word);
    let Need::Done = want(&core, &instr) else {
        panic!(rt; "{shows}");
    };
    complete(&mut core, NOW, &instr);
    let seen = (core.pc, core == expected);
    assert_eq!(rt; seen, (pc_after, true), "{shows}");
}

fn loads_agree(rt: &impl Abort, pc: u64, rows: &[Access]) {
    for row in rows {
        load_agrees(rt, pc, row);
    }
}

fn stores_agree(rt: &impl Abort, pc: u64, rows: &[Access]) {
    for row in rows {
        store_agrees(rt, pc, row);
    }
}

fn steps_agree(rt: &impl Abort, pc: u64, rows: &[Step]) {
    for row in rows {
        step_agrees(rt, pc, row);
    }
}

#[test]
fn loads(rt: HostRuntime) {
    loads_agree(&rt, PC, OFFSETS.as_slice());
    loads_agree(&rt, PC, INDEXED.as_slice());
    loads_agree(&rt, PC, OTHER_BASES.as_slice());
    loads_agree(&rt, PC, PAIRS.as_slice());
}

#[test]
fn stores(rt: HostRuntime) {
    stores_agree(&rt, PC, STORES.as_slice());
}

#[test]
fn data_processing_and_branches(rt: HostRuntime) {
    steps_agree(&rt, PC, PROCESSING.as_slice());
    steps_agree(&rt, PC, BRANCHES.as_slice());
}

/// Each bit of X0 alone is set, and alone is clear.
#[test]
fn every_bit_tested(rt: HostRuntime) {
    for bit in 0..64u32 {
        // Bit 5 of the number is the word's bit 31, the others begin at its bit 19.
        let number = bit / 32 * (1 << 31) + bit % 32 * (1 << 19);
        bit_is_tested(&rt, TBZ + number, 1 << bit, 0x4004);
        bit_is_tested(&rt, TBZ + number, !(1 << bit), 0x4008);
        bit_is_tested(&rt, TBNZ + number, 1 << bit, 0x4008);
        bit_is_tested(&rt, TBNZ + number, !(1 << bit), 0x4004);
    }
}

const TBZ: u32 = 0x3600_0040; // tbz x0, #0, #8

const TBNZ: u32 = 0x3700_0040; // tbnz x0, #0, #8

fn bit_is_tested(rt: &impl Abort, word: u32, x0: u64, pc: u64) {
    let mut core = before(PC);
    core.write_x(0, x0);
    let mut expected = core;
    expected.pc = pc;
    let instr = decode(word);
    let Need::Done = want(&core, &instr) else {
        panic!(rt; "{word:08X}");
    };
    complete(&mut core, NOW, &instr);
    assert!(rt; core == expected, "{word:08X}");
}

#[test]
fn end_of_the_address_space(rt: HostRuntime) {
    steps_agree(&rt, END, STEPS_AT_THE_END.as_slice());
    loads_agree(&rt, END, LOADS_AT_THE_END.as_slice());
}

/// Hints, barriers and prefetches.
#[rattlefmt::skip]
static GOING_ON: [(&str, u32); 15] = [
    // shows                             word
    ("nop",                              0xD503_201F),
    ("yield",                            0xD503_203F),
    ("wfe",                              0xD503_205F),
    ("wfi",                              0xD503_207F),
    ("sev",                              0xD503_209F),
    ("sevl",                             0xD503_20BF),
    ("hint #127",                        0xD503_2FFF),
    ("clrex",                            0xD503_3F5F),
    ("dsb sy",                           0xD503_3F9F),
    ("dmb ish",                          0xD503_3BBF),
    ("isb",                              0xD503_3FDF),
    ("prfm pldl1keep, #8",               0xD800_0040),
    ("prfm pldl1keep, [x1, #8]",         0xF980_0420),
    ("prfm pldl1keep, [sp, x2, lsl #3]", 0xF8A2_7BE0),
    ("prfum pldl1keep, [x1, #-8]",       0xF89F_8020),
];

#[test]
fn nothing_but_the_next_instruction(rt: HostRuntime) {
    for row in GOING_ON.as_slice() {
        goes_on(&rt, row);
    }
}

fn goes_on(rt: &impl Abort, row: &(&'static str, u32)) {
    let (shows, word) = *row;
    step_agrees(rt, PC, &(shows, word, 5, 5, 0x4004, &[]));
}

/// An undefined instruction.
const UNDEFINED: Need = Need::Raise {
    esr: 0x0200_0000,
    back: 0x4000,
};

#[rattlefmt::skip]
const SVC_5: Need = Need::Raise { esr: 0x5600_0005, back: 0x4004 };

#[rattlefmt::skip]
const BRK_0: Need = Need::Raise { esr: 0xF200_0000, back: 0x4000 };

#[rattlefmt::skip]
const BRK_65535: Need = Need::Raise { esr: 0xF200_FFFF, back: 0x4000 };

#[rattlefmt::skip]
const HVC_0: Need = Need::Leave { esr: 0x5A00_0000, past: true };

#[rattlefmt::skip]
const HVC_1: Need = Need::Leave { esr: 0x5A00_0001, past: true };

#[rattlefmt::skip]
const SMC_0: Need = Need::Leave { esr: 0x5E00_0000, past: false };

#[rattlefmt::skip]
const SMC_65535: Need = Need::Leave { esr: 0x5E00_FFFF, past: false };

/// EL2 takes the write of ICC_SGI1R_EL1 from X0, by class 0x18.
#[rattlefmt::skip]
const SGI: Need = Need::Leave { esr: 0x623A_3016, past: false };

/// What an instruction asks at EL1 with its own SP, and at EL0.
type Asks = (&'static str, u32, Need, Need);

#[rattlefmt::skip]
static CALLS: [Asks; 8] = [
    // shows       word         at EL1     at EL0
    ("svc #5",     0xD400_00A1, SVC_5,     SVC_5),
    ("brk #0",     0xD420_0000, BRK_0,     BRK_0),
    ("brk #65535", 0xD43F_FFE0, BRK_65535, BRK_65535),
    ("hvc #0",     0xD400_0002, HVC_0,     UNDEFINED),
    ("hvc #1",     0xD400_0022, HVC_1,     UNDEFINED),
    ("smc #0",     0xD400_0003, SMC_0,     UNDEFINED),
    ("smc #65535", 0xD41F_FFE3, SMC_65535, UNDEFINED),
    ("eret",       0xD69F_03E0, Need::Done, UNDEFINED),
];

#[rattlefmt::skip]
static UNDEFINED_WORDS: [Asks; 4] = [
    // shows               word         at EL1     at EL0
    ("ldxr x0, [x1]",      0xC85F_7C20, UNDEFINED, UNDEFINED),
    ("ldadd w0, w1, [x2]", 0xB820_0041, UNDEFINED, UNDEFINED),
    ("udf #0",             0x0000_0000, UNDEFINED, UNDEFINED),
    ("udf #65535",         0x0000_FFFF, UNDEFINED, UNDEFINED),
];

#[rattlefmt::skip]
static REGISTERS: [Asks; 32] = [
    // shows                  word         at EL1         at EL0
    ("msr spsel, #1",         0xD500_41BF, Need::Done,    UNDEFINED),
    ("msr daifset, #2",       0xD503_42DF, Need::Done,    UNDEFINED),
    ("msr daifclr, #2",       0xD503_42FF, Need::Done,    UNDEFINED),
    ("dc civac, x1",          0xD50B_7E21, Need::Done,    UNDEFINED),
    ("ic iallu",              0xD508_751F, Need::Done,    UNDEFINED),
    ("tlbi vmalle1",          0xD508_871F, Need::Done,    UNDEFINED),
    ("mrs x0, nzcv",          0xD53B_4200, Need::Done,    Need::Done),
    ("msr nzcv, x0",          0xD51B_4200, Need::Done,    Need::Done),
    ("mrs x0, midr_el1",      0xD538_0000, Need::Done,    UNDEFINED),
    ("msr midr_el1, x0",      0xD518_0000, UNDEFINED,     UNDEFINED),
    ("msr tpidrro_el0, x0",   0xD51B_D060, Need::Done,    UNDEFINED),
    ("mrs x0, spsel",         0xD538_4200, Need::Done,    UNDEFINED),
    ("mrs x0, sctlr_el1",     0xD538_1000, Need::Done,    UNDEFINED),
    ("msr sctlr_el1, x0",     0xD518_1000, Need::Done,    UNDEFINED),
    ("mrs x0, prselr_el1",    0xD538_6220, Need::Done,    UNDEFINED),
    ("msr prbar_el1, x0",     0xD518_6800, Need::Done,    UNDEFINED),
    ("mrs x0, prlar_el1",     0xD538_6820, Need::Done,    UNDEFINED),
    ("mrs x0, prbar1_el1",    0xD538_6880, UNDEFINED,     UNDEFINED),
    ("mrs x0, icc_pmr_el1",   0xD538_4600, Need::Done,    UNDEFINED),
    ("msr icc_sgi1r_el1, x0", 0xD518_CBA0, SGI,           UNDEFINED),
    ("mrs x0, icc_sgi1r_el1", 0xD538_CBA0, UNDEFINED,     UNDEFINED),
    ("mrs x0, icc_iar1_el1",  0xD538_CC00, Need::Acknowledge, UNDEFINED),
    ("mrs xzr, icc_iar1_el1", 0xD538_CC1F, Need::Acknowledge, UNDEFINED),
    ("msr icc_iar1_el1, x0",  0xD518_CC00, UNDEFINED,     UNDEFINED),
    ("mrs x0, icc_hppir1_el1",0xD538_CC40, Need::Done,    UNDEFINED),
    ("msr icc_eoir1_el1, x0", 0xD518_CC20, Need::Done,    UNDEFINED),
    ("msr icc_eoir1_el1, xzr",0xD518_CC3F, Need::End { id: 0 }, UNDEFINED),
    ("msr cntv_ctl_el0, x0",  0xD51B_E320, Need::Done,    UNDEFINED),
    ("mrs x0, cntv_cval_el0", 0xD53B_E340, Need::Done,    UNDEFINED),
    ("mrs x0, cntvct_el0",    0xD53B_E040, Need::Done,    Need::Done),
    ("msr cntvct_el0, x0",    0xD51B_E040, UNDEFINED,     UNDEFINED),
    ("mrs x0, fpcr",          0xD53B_4400, UNDEFINED,     UNDEFINED),
];

#[test]
fn exceptions_and_registers(rt: HostRuntime) {
    asks_agree(&rt, CALLS.as_slice());
    asks_agree(&rt, UNDEFINED_WORDS.as_slice());
    asks_agree(&rt, REGISTERS.as_slice());
}

fn asks_agree(rt: &impl Abort, rows: &[Asks]) {
    for row in rows {
        ask_agrees(rt, row);
    }
}

fn ask_agrees(rt: &impl Abort, row: &Asks) {
    let (shows, word, el1, el0) = *row;
    let privileged = before(PC);
    let mut user = privileged;
    user.set_mode(Mode::El0t);
    let instr = decode(word);
    let asked = [want(&privileged, &instr), want(&user, &instr)];
    assert_eq!(rt; asked, [el1, el0], "{shows}");
}

/// While SP_EL0 is the selected SP it has no name of its own; SCTLR_EL1 is there with either.
#[test]
fn sp_el0_while_selected(rt: HostRuntime) {
    let mut core = before(PC);
    core.set_mode(Mode::El1t);
    let asked = [0xD538_4100, 0xD518_4100, 0xD538_1000].map(|word| want(&core, &decode(word)));
    assert_eq!(rt; asked, [UNDEFINED, UNDEFINED, Need::Done]);
}

/// SP_EL0 before them.
const SP0: u64 = 0x2000;

/// An instruction, PSTATE before it, and PC, PSTATE, X0 and SP_EL0 after it.
type Effect = (&'static str, u32, u32, [u64; 4]);

#[rattlefmt::skip]
static EFFECTS: [Effect; 22] = [
    // shows                word         PSTATE       PC      PSTATE       X0           SP_EL0
    ("eret to el0",         0xD69F_03E0, 0x0000_03C5, [0x9000, 0x6000_0000, X0,          SP0]),
    ("msr spsel, #0",       0xD500_40BF, 0x0000_03C5, [0x4004, 0x0000_03C4, X0,          SP0]),
    ("msr spsel, #1",       0xD500_41BF, 0x0000_03C4, [0x4004, 0x0000_03C5, X0,          SP0]),
    ("msr spsel, #14",      0xD500_4EBF, 0x0000_03C5, [0x4004, 0x0000_03C4, X0,          SP0]),
    ("msr daifset, #2",     0xD503_42DF, 0xA000_0105, [0x4004, 0xA000_0185, X0,          SP0]),
    ("msr daifset, #15",    0xD503_4FDF, 0x0000_0004, [0x4004, 0x0000_03C4, X0,          SP0]),
    ("msr daifset, #0",     0xD503_40DF, 0x0000_0105, [0x4004, 0x0000_0105, X0,          SP0]),
    ("msr daifclr, #2",     0xD503_42FF, 0x0000_03C5, [0x4004, 0x0000_0345, X0,          SP0]),
    ("msr daifclr, #8",     0xD503_48FF, 0x0000_0185, [0x4004, 0x0000_0185, X0,          SP0]),
    ("msr daifclr, #15",    0xD503_4FFF, 0xF000_03C5, [0x4004, 0xF000_0005, X0,          SP0]),
    ("mrs x0, sp_el0",      0xD538_4100, 0x0000_03C5, [0x4004, 0x0000_03C5, SP0,         SP0]),
    ("msr sp_el0, x0",      0xD518_4100, 0x0000_03C5, [0x4004, 0x0000_03C5, X0,          X0]),
    ("msr sp_el0, xzr",     0xD518_411F, 0x0000_03C5, [0x4004, 0x0000_03C5, X0,          0]),
    ("mrs x0, nzcv at el0", 0xD53B_4200, 0xA000_0000, [0x4004, 0xA000_0000, 0xA000_0000, SP0]),
    ("msr nzcv, x0 at el0", 0xD51B_4200, 0x7000_0000, [0x4004, 0x8000_0000, X0,          SP0]),
    ("mrs xzr, nzcv",       0xD53B_421F, 0xA000_0005, [0x4004, 0xA000_0005, X0,          SP0]),
    ("dc civac, x1",        0xD50B_7E21, 0x0000_03C5, [0x4004, 0x0000_03C5, X0,          SP0]),
    ("mrs x0, cntvct_el0",  0xD53B_E040, 0x0000_0000, [0x4004, 0x0000_0000, 150,         SP0]),
    ("mrs x0, icc_iar1_el1",0xD538_CC00, 0x0000_03C5, [0x4004, 0x0000_03C5, 41,          SP0]),
    ("mrs xzr, icc_iar1_el1",0xD538_CC1F,0x0000_03C5, [0x4004, 0x0000_03C5, X0,          SP0]),
    ("mrs x0, icc_rpr_el1", 0xD538_CB60, 0x0000_03C5, [0x4004, 0x0000_03C5, 0xFF,        SP0]),
    ("msr icc_eoir1_el1, xzr",0xD518_CC3F,0x0000_03C5,[0x4004, 0x0000_03C5, X0,          SP0]),
];

#[test]
fn returns_and_registers(rt: HostRuntime) {
    for row in EFFECTS.as_slice() {
        effect_agrees(&rt, row);
    }
}

fn effect_agrees(rt: &impl Abort, row: &Effect) {
    let (shows, word, pstate, [pc_after, pstate_after, x0, sp0]) = *row;
    let mut core = before(PC);
    assert!(rt; set_pstate(&mut core, u64::from(pstate)), "{shows}");
    core.sp0 = SP0;
    core.sys.elr = 0x9000;
    core.sys.spsr = 0x6000_0000;
    let mut expected = core;
    assert!(rt; set_pstate(&mut expected, pstate_after), "{shows}");
    expected.pc = pc_after;
    expected.write_x(0, x0);
    expected.sp0 = sp0;
    let instr = decode(word);
    let (Need::Done | Need::Acknowledge | Need::End { .. }) = want(&core, &instr) else {
        panic!(rt; "{shows}");
    };
    complete(&mut core, NOW, &instr);
    let seen = (
        core.pc,
        core.pstate,
        core.read_x(0),
        core.sp0,
        core == expected,
    );
    assert_eq!(rt; seen, (pc_after, expected.pstate, x0, sp0, true), "{shows}");
}

/// Sets the flags, the masks and the mode to those of a number, if it has a mode.
fn set_pstate(core: &mut Core, to: u64) -> bool {
    let to = (to % (1 << 32)) as u32;
    let Some(mode) = Mode::of(to) else {
        return false;
    };
    core.set_flags(pstate::flags(to));
    core.set_daif(pstate::daif(to));
    core.set_mode(mode);
    true
}
