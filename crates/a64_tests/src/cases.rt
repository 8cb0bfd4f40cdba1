//! Written by scripts/a64-alu-cases.py: what each instruction does when qemu-aarch64 runs it.

/// An instruction's word, x1, x2 and the flags before it, and x0, SP and the flags after it.
pub(crate) type Row = (u32, u64, u64, u32, u64, u64, u32);

// x0, x3 and SP before each instruction.
pub(crate) const OLD: u64 = 0xFEDC_BA98_7654_3210;

pub(crate) const ADDED: u64 = 0x123_4567_89AB_CDEF;

pub(crate) const STACK: u64 = 0x8000_0000_0000_1010;

#[rattlefmt::skip]
pub(crate) static ADDITIONS: [Row; 99] = [
    // word      x1 before              x2 before              flags  x0 after               SP after  flags after
    (0xAB02_0020, 0x0,                   0x0,                   0,     0x0,                   STACK,    4), // adds x0, x1, x2
    (0xAB02_0020, 0x0,                   0x1,                   0,     0x1,                   STACK,    0), // adds x0, x1, x2
    (0xAB02_0020, 0x1,                   0xFFFF_FFFF_FFFF_FFFF, 0,     0x0,                   STACK,    6), // adds x0, x1, x2
    (0xAB02_0020, 0x8000_0000,           0x8000_0000,           0,     0x1_0000_0000,         STACK,    0), // adds x0, x1, x2
    (0xAB02_0020, 0x7FFF_FFFF,           0x1,                   0,     0x8000_0000,           STACK,    0), // adds x0, x1, x2
    (0xAB02_0020, 0x8000_0000_0000_0000, 0x8000_0000_0000_0000, 0,     0x0,                   STACK,    7), // adds x0, x1, x2
    (0xAB02_0020, 0x7FFF_FFFF_FFFF_FFFF, 0x1,                   0,     0x8000_0000_0000_0000, STACK,    9), // adds x0, x1, x2
    (0xAB02_0020, 0xFFFF_FFFF_FFFF_FFFF, 0xFFFF_FFFF_FFFF_FFFF, 0,     0xFFFF_FFFF_FFFF_FFFE, STACK,    10), // adds x0, x1, x2
    (0xEB02_0020, 0x0,                   0x0,                   0,     0x0,                   STACK,    6), // subs x0, x1, x2
    (0xEB02_0020, 0x0,                   0x1,                   0,     0xFFFF_FFFF_FFFF_FFFF, STACK,    8), // subs x0, x1, x2
    (0xEB02_0020, 0x1,                   0xFFFF_FFFF_FFFF_FFFF, 0,     0x2,                   STACK,    0), // subs x0, x1, x2
    (0xEB02_0020, 0x8000_0000,           0x8000_0000,           0,     0x0,                   STACK,    6), // subs x0, x1, x2
    (0xEB02_0020, 0x7FFF_FFFF,           0x1,                   0,     0x7FFF_FFFE,           STACK,    2), // subs x0, x1, x2
    (0xEB02_0020, 0x8000_0000_0000_0000, 0x8000_0000_0000_0000, 0,     0x0,                   STACK,    6), // subs x0, x1, x2
    (0xEB02_0020, 0x7FFF_FFFF_FFFF_FFFF, 0x1,                   0,     0x7FFF_FFFF_FFFF_FFFE, STACK,    2), // subs x0, x1, x2
    (0xEB02_0020, 0xFFFF_FFFF_FFFF_FFFF, 0xFFFF_FFFF_FFFF_FFFF, 0,     0x0,                   STACK,    6), // subs x0, x1, x2
    (0xBA02_0020, 0x0,                   0x0,                   0,     0x0,                   STACK,    4), // adcs x0, x1, x2
    (0xBA02_0020, 0x0,                   0x0,                   2,     0x1,                   STACK,    0), // adcs x0, x1, x2
    (0xBA02_0020, 0xFFFF_FFFF_FFFF_FFFF, 0x0,                   2,     0x0,                   STACK,    6), // adcs x0, x1, x2
    (0xBA02_0020, 0x8000_0000,           0xFFFF_FFFF,           0,     0x1_7FFF_FFFF,         STACK,    0), // adcs x0, x1, x2
    (0xBA02_0020, 0x8000_0000_0000_0000, 0x1,                   13,    0x8000_0000_0000_0001, STACK,    8), // adcs x0, x1, x2
    (0xBA02_0020, 0x7FFF_FFFF_FFFF_FFFF, 0x0,                   2,     0x8000_0000_0000_0000, STACK,    9), // adcs x0, x1, x2
    (0xFA02_0020, 0x0,                   0x0,                   0,     0xFFFF_FFFF_FFFF_FFFF, STACK,    8), // sbcs x0, x1, x2
    (0xFA02_0020, 0x0,                   0x0,                   2,     0x0,                   STACK,    6), // sbcs x0, x1, x2
    (0xFA02_0020, 0xFFFF_FFFF_FFFF_FFFF, 0x0,                   2,     0xFFFF_FFFF_FFFF_FFFF, STACK,    10), // sbcs x0, x1, x2
    (0xFA02_0020, 0x8000_0000,           0xFFFF_FFFF,           0,     0xFFFF_FFFF_8000_0000, STACK,    8), // sbcs x0, x1, x2
    (0xFA02_0020, 0x8000_0000_0000_0000, 0x1,                   13,    0x7FFF_FFFF_FFFF_FFFE, STACK,    3), // sbcs x0, x1, x2
    (0xFA02_0020, 0x7FFF_FFFF_FFFF_FFFF, 0x0,                   2,     0x7FFF_FFFF_FFFF_FFFF, STACK,    2), // sbcs x0, x1, x2
    (0x9A02_0020, 0xFFFF_FFFF_FFFF_FFFF, 0x0,                   15,    0x0,                   STACK,    15), // adc x0, x1, x2
    (0xDA02_0020, 0x5,                   0x6,                   0,     0xFFFF_FFFF_FFFF_FFFE, STACK,    0), // sbc x0, x1, x2
    (0xAB02_7C20, 0x1,                   0x3,                   0,     0x1_8000_0001,         STACK,    0), // adds x0, x1, x2, lsl #31
    (0xCB82_7C20, 0x7,                   0xF0E1_D2C3_B4A5_9687, 15,    0x1E3C_5A80,           STACK,    15), // sub x0, x1, x2, asr #31
    (0xAB42_043F, 0xFFFF_FFFF_FFFF_FFFF, 0xFFFF_FFFF_FFFF_FFFF, 0,     0xFEDC_BA98_7654_3210, STACK,    2), // cmn x1, x2, lsr #1
    (0xEB02_003F, 0x8000_0000,           0x8000_0000,           0,     0xFEDC_BA98_7654_3210, STACK,    6), // cmp x1, x2
    (0xB13F_FC20, 0xFFFF_FFFF_FFFF_FFFF, 0x0,                   0,     0xFFE,                 STACK,    2), // adds x0, x1, #4095
    (0xF17F_FC20, 0x1,                   0x0,                   0,     0xFFFF_FFFF_FF00_1001, STACK,    8), // subs x0, x1, #4095, lsl #12
    (0x9100_0420, 0xFFFF_FFFF_FFFF_FFFF, 0x0,                   5,     0x0,                   STACK,    5), // add x0, x1, #1
    (0xD100_0420, 0x0,                   0x0,                   10,    0xFFFF_FFFF_FFFF_FFFF, STACK,    10), // sub x0, x1, #1
    (0x2B02_0020, 0x0,                   0x0,                   0,     0x0,                   STACK,    4), // adds w0, w1, w2
    (0x2B02_0020, 0x0,                   0x1,                   0,     0x1,                   STACK,    0), // adds w0, w1, w2
    (0x2B02_0020, 0x1,                   0xFFFF_FFFF_FFFF_FFFF, 0,     0x0,                   STACK,    6), // adds w0, w1, w2
    (0x2B02_0020, 0x8000_0000,           0x8000_0000,           0,     0x0,                   STACK,    7), // adds w0, w1, w2
    (0x2B02_0020, 0x7FFF_FFFF,           0x1,                   0,     0x8000_0000,           STACK,    9), // adds w0, w1, w2
    (0x2B02_0020, 0x8000_0000_0000_0000, 0x8000_0000_0000_0000, 0,     0x0,                   STACK,    4), // adds w0, w1, w2
    (0x2B02_0020, 0x7FFF_FFFF_FFFF_FFFF, 0x1,                   0,     0x0,                   STACK,    6), // adds w0, w1, w2
    (0x2B02_0020, 0xFFFF_FFFF_FFFF_FFFF, 0xFFFF_FFFF_FFFF_FFFF, 0,     0xFFFF_FFFE,           STACK,    10), // adds w0, w1, w2
    (0x6B02_0020, 0x0,                   0x0,                   0,     0x0,                   STACK,    6), // subs w0, w1, w2
    (0x6B02_0020, 0x0,                   0x1,                   0,     0xFFFF_FFFF,           STACK,    8), // subs w0, w1, w2
    (0x6B02_0020, 0x1,                   0xFFFF_FFFF_FFFF_FFFF, 0,     0x2,                   STACK,    0), // subs w0, w1, w2
    (0x6B02_0020, 0x8000_0000,           0x8000_0000,           0,     0x0,                   STACK,    6), // subs w0, w1, w2
    (0x6B02_0020, 0x7FFF_FFFF,           0x1,                   0,     0x7FFF_FFFE,           STACK,    2), // subs w0, w1, w2
    (0x6B02_0020, 0x8000_0000_0000_0000, 0x8000_0000_0000_0000, 0,     0x0,                   STACK,    6), // subs w0, w1, w2
    (0x6B02_0020, 0x7FFF_FFFF_FFFF_FFFF, 0x1,                   0,     0xFFFF_FFFE,           STACK,    10), // subs w0, w1, w2
    (0x6B02_0020, 0xFFFF_FFFF_FFFF_FFFF, 0xFFFF_FFFF_FFFF_FFFF, 0,     0x0,                   STACK,    6), // subs w0, w1, w2
    (0x3A02_0020, 0x0,                   0x0,                   0,     0x0,                   STACK,    4), // adcs w0, w1, w2
    (0x3A02_0020, 0x0,                   0x0,                   2,     0x1,                   STACK,    0), // adcs w0, w1, w2
    (0x3A02_0020, 0xFFFF_FFFF_FFFF_FFFF, 0x0,                   2,     0x0,                   STACK,    6), // adcs w0, w1, w2
    (0x3A02_0020, 0x8000_0000,           0xFFFF_FFFF,           0,     0x7FFF_FFFF,           STACK,    3), // adcs w0, w1, w2
    (0x3A02_0020, 0x8000_0000_0000_0000, 0x1,                   13,    0x1,                   STACK,    0), // adcs w0, w1, w2
    (0x3A02_0020, 0x7FFF_FFFF_FFFF_FFFF, 0x0,                   2,     0x0,                   STACK,    6), // adcs w0, w1, w2
    (0x7A02_0020, 0x0,                   0x0,                   0,     0xFFFF_FFFF,           STACK,    8), // sbcs w0, w1, w2
    (0x7A02_0020, 0x0,                   0x0,                   2,     0x0,                   STACK,    6), // sbcs w0, w1, w2
    (0x7A02_0020, 0xFFFF_FFFF_FFFF_FFFF, 0x0,                   2,     0xFFFF_FFFF,           STACK,    10), // sbcs w0, w1, w2
    (0x7A02_0020, 0x8000_0000,           0xFFFF_FFFF,           0,     0x8000_0000,           STACK,    8), // sbcs w0, w1, w2
    (0x7A02_0020, 0x8000_0000_0000_0000, 0x1,                   13,    0xFFFF_FFFE,           STACK,    8), // sbcs w0, w1, w2
    (0x7A02_0020, 0x7FFF_FFFF_FFFF_FFFF, 0x0,                   2,     0xFFFF_FFFF,           STACK,    10), // sbcs w0, w1, w2
    (0x1A02_0020, 0xFFFF_FFFF_FFFF_FFFF, 0x0,                   15,    0x0,                   STACK,    15), // adc w0, w1, w2
    (0x5A02_0020, 0x5,                   0x6,                   0,     0xFFFF_FFFE,           STACK,    0), // sbc w0, w1, w2
    (0x2B02_7C20, 0x1,                   0x3,                   0,     0x8000_0001,           STACK,    8), // adds w0, w1, w2, lsl #31
    (0x4B82_7C20, 0x7,                   0xF0E1_D2C3_B4A5_9687, 15,    0x8,                   STACK,    15), // sub w0, w1, w2, asr #31
    (0x2B42_043F, 0xFFFF_FFFF_FFFF_FFFF, 0xFFFF_FFFF_FFFF_FFFF, 0,     0xFEDC_BA98_7654_3210, STACK,    2), // cmn w1, w2, lsr #1
    (0x6B02_003F, 0x8000_0000,           0x8000_0000,           0,     0xFEDC_BA98_7654_3210, STACK,    6), // cmp w1, w2
    (0x313F_FC20, 0xFFFF_FFFF_FFFF_FFFF, 0x0,                   0,     0xFFE,                 STACK,    2), // adds w0, w1, #4095
    (0x717F_FC20, 0x1,                   0x0,                   0,     0xFF00_1001,           STACK,    8), // subs w0, w1, #4095, lsl #12
    (0x1100_0420, 0xFFFF_FFFF_FFFF_FFFF, 0x0,                   5,     0x0,                   STACK,    5), // add w0, w1, #1
    (0x5100_0420, 0x0,                   0x0,                   10,    0xFFFF_FFFF,           STACK,    10), // sub w0, w1, #1
    (0xAB02_0020, 0x1,                   0xF0E1_D2C3_B4A5_9687, 0,     0xF0E1_D2C3_B4A5_9688, STACK,    8), // adds x0, x1, x2, lsl #0
    (0xAB02_8020, 0x1,                   0xF0E1_D2C3_B4A5_9687, 0,     0xB4A5_9687_0000_0001, STACK,    8), // adds x0, x1, x2, lsl #32
    (0xAB02_FC20, 0x1,                   0xF0E1_D2C3_B4A5_9687, 0,     0x8000_0000_0000_0001, STACK,    8), // adds x0, x1, x2, lsl #63
    (0xAB42_0020, 0x1,                   0xF0E1_D2C3_B4A5_9687, 0,     0xF0E1_D2C3_B4A5_9688, STACK,    8), // adds x0, x1, x2, lsr #0
    (0xAB42_8020, 0x1,                   0xF0E1_D2C3_B4A5_9687, 0,     0xF0E1_D2C4,           STACK,    0), // adds x0, x1, x2, lsr #32
    (0xAB42_FC20, 0x1,                   0xF0E1_D2C3_B4A5_9687, 0,     0x2,                   STACK,    0), // adds x0, x1, x2, lsr #63
    (0xAB82_0020, 0x1,                   0xF0E1_D2C3_B4A5_9687, 0,     0xF0E1_D2C3_B4A5_9688, STACK,    8), // adds x0, x1, x2, asr #0
    (0xAB82_8020, 0x1,                   0xF0E1_D2C3_B4A5_9687, 0,     0xFFFF_FFFF_F0E1_D2C4, STACK,    8), // adds x0, x1, x2, asr #32
    (0xAB82_FC20, 0x1,                   0xF0E1_D2C3_B4A5_9687, 0,     0x0,                   STACK,    6), // adds x0, x1, x2, asr #63
    (0x8B22_1020, 0x0,                   0xF0E1_D2C3_B4A5_9687, 0,     0x870,                 STACK,    0), // add x0, x1, w2, uxtb #4
    (0x2B22_0420, 0x1,                   0xF0E1_D2C3_B4A5_9687, 0,     0x10F,                 STACK,    0), // adds w0, w1, w2, uxtb #1
    (0x8B22_3020, 0x0,                   0xF0E1_D2C3_B4A5_9687, 0,     0x9_6870,              STACK,    0), // add x0, x1, w2, uxth #4
    (0x2B22_2420, 0x1,                   0xF0E1_D2C3_B4A5_9687, 0,     0x1_2D0F,              STACK,    0), // adds w0, w1, w2, uxth #1
    (0x8B22_5020, 0x0,                   0xF0E1_D2C3_B4A5_9687, 0,     0xB_4A59_6870,         STACK,    0), // add x0, x1, w2, uxtw #4
    (0x2B22_4420, 0x1,                   0xF0E1_D2C3_B4A5_9687, 0,     0x694B_2D0F,           STACK,    0), // adds w0, w1, w2, uxtw #1
    (0x8B22_9020, 0x0,                   0xF0E1_D2C3_B4A5_9687, 0,     0xFFFF_FFFF_FFFF_F870, STACK,    0), // add x0, x1, w2, sxtb #4
    (0x2B22_8420, 0x1,                   0xF0E1_D2C3_B4A5_9687, 0,     0xFFFF_FF0F,           STACK,    8), // adds w0, w1, w2, sxtb #1
    (0x8B22_B020, 0x0,                   0xF0E1_D2C3_B4A5_9687, 0,     0xFFFF_FFFF_FFF9_6870, STACK,    0), // add x0, x1, w2, sxth #4
    (0x2B22_A420, 0x1,                   0xF0E1_D2C3_B4A5_9687, 0,     0xFFFF_2D0F,           STACK,    8), // adds w0, w1, w2, sxth #1
    (0x8B22_D020, 0x0,                   0xF0E1_D2C3_B4A5_9687, 0,     0xFFFF_FFFB_4A59_6870, STACK,    0), // add x0, x1, w2, sxtw #4
    (0x2B22_C420, 0x1,                   0xF0E1_D2C3_B4A5_9687, 0,     0x694B_2D0F,           STACK,    0), // adds w0, w1, w2, sxtw #1
    (0xEB22_6C20, 0x0,                   0xF0E1_D2C3_B4A5_9687, 0,     0x78F1_69E2_5AD3_4BC8, STACK,    0), // subs x0, x1, x2, uxtx #3
    (0xEB22_EC20, 0x0,                   0xF0E1_D2C3_B4A5_9687, 0,     0x78F1_69E2_5AD3_4BC8, STACK,    0), // subs x0, x1, x2, sxtx #3
];

#[rattlefmt::skip]
pub(crate) static LOGIC: [Row; 70] = [
    // word      x1 before              x2 before              flags  x0 after               SP after  flags after
    (0x9240_0020, 0xF0E1_D2C3_B4A5_9687, 0x0,                   15,    0x1,                   STACK,    15), // and x0, x1, #0x1
    (0x9200_F020, 0xF0E1_D2C3_B4A5_9687, 0x0,                   15,    0x5041_5041_1405_1405, STACK,    15), // and x0, x1, #0x5555555555555555
    (0x927C_EC20, 0xF0E1_D2C3_B4A5_9687, 0x0,                   15,    0xF0E1_D2C3_B4A5_9680, STACK,    15), // and x0, x1, #0xfffffffffffffff0
    (0xB240_0020, 0xF0E1_D2C3_B4A5_9687, 0x0,                   15,    0xF0E1_D2C3_B4A5_9687, STACK,    15), // orr x0, x1, #0x1
    (0xB200_F020, 0xF0E1_D2C3_B4A5_9687, 0x0,                   15,    0xF5F5_D7D7_F5F5_D7D7, STACK,    15), // orr x0, x1, #0x5555555555555555
    (0xB27C_EC20, 0xF0E1_D2C3_B4A5_9687, 0x0,                   15,    0xFFFF_FFFF_FFFF_FFF7, STACK,    15), // orr x0, x1, #0xfffffffffffffff0
    (0xD240_0020, 0xF0E1_D2C3_B4A5_9687, 0x0,                   15,    0xF0E1_D2C3_B4A5_9686, STACK,    15), // eor x0, x1, #0x1
    (0xD200_F020, 0xF0E1_D2C3_B4A5_9687, 0x0,                   15,    0xA5B4_8796_E1F0_C3D2, STACK,    15), // eor x0, x1, #0x5555555555555555
    (0xD27C_EC20, 0xF0E1_D2C3_B4A5_9687, 0x0,                   15,    0xF1E_2D3C_4B5A_6977,  STACK,    15), // eor x0, x1, #0xfffffffffffffff0
    (0xF240_0020, 0xF0E1_D2C3_B4A5_9687, 0x0,                   15,    0x1,                   STACK,    0), // ands x0, x1, #0x1
    (0xF200_F020, 0xF0E1_D2C3_B4A5_9687, 0x0,                   15,    0x5041_5041_1405_1405, STACK,    0), // ands x0, x1, #0x5555555555555555
    (0xF27C_EC20, 0xF0E1_D2C3_B4A5_9687, 0x0,                   15,    0xF0E1_D2C3_B4A5_9680, STACK,    8), // ands x0, x1, #0xfffffffffffffff0
    (0x8A02_0020, 0xFF_00FF_00FF_00FF,   0xF0E1_D2C3_B4A5_9687, 11,    0xE1_00C3_00A5_0087,   STACK,    11), // and x0, x1, x2
    (0xAA02_0020, 0xFF_00FF_00FF_00FF,   0xF0E1_D2C3_B4A5_9687, 11,    0xF0FF_D2FF_B4FF_96FF, STACK,    11), // orr x0, x1, x2
    (0xCA02_0020, 0xFF_00FF_00FF_00FF,   0xF0E1_D2C3_B4A5_9687, 11,    0xF01E_D23C_B45A_9678, STACK,    11), // eor x0, x1, x2
    (0xEA02_0020, 0xFF_00FF_00FF_00FF,   0xF0E1_D2C3_B4A5_9687, 11,    0xE1_00C3_00A5_0087,   STACK,    0), // ands x0, x1, x2
    (0x8A22_0020, 0xFF_00FF_00FF_00FF,   0xF0E1_D2C3_B4A5_9687, 11,    0x1E_003C_005A_0078,   STACK,    11), // bic x0, x1, x2
    (0xAA22_0020, 0xFF_00FF_00FF_00FF,   0xF0E1_D2C3_B4A5_9687, 11,    0xFFF_2DFF_4BFF_69FF,  STACK,    11), // orn x0, x1, x2
    (0xCA22_0020, 0xFF_00FF_00FF_00FF,   0xF0E1_D2C3_B4A5_9687, 11,    0xFE1_2DC3_4BA5_6987,  STACK,    11), // eon x0, x1, x2
    (0xEA22_0020, 0xFF_00FF_00FF_00FF,   0xF0E1_D2C3_B4A5_9687, 11,    0x1E_003C_005A_0078,   STACK,    0), // bics x0, x1, x2
    (0xAA02_0420, 0x0,                   0xF0E1_D2C3_B4A5_9687, 0,     0xE1C3_A587_694B_2D0E, STACK,    0), // orr x0, x1, x2, lsl #1
    (0xAA02_7C20, 0x0,                   0xF0E1_D2C3_B4A5_9687, 0,     0xDA52_CB43_8000_0000, STACK,    0), // orr x0, x1, x2, lsl #31
    (0xAA42_0420, 0x0,                   0xF0E1_D2C3_B4A5_9687, 0,     0x7870_E961_DA52_CB43, STACK,    0), // orr x0, x1, x2, lsr #1
    (0xAA42_7C20, 0x0,                   0xF0E1_D2C3_B4A5_9687, 0,     0x1_E1C3_A587,         STACK,    0), // orr x0, x1, x2, lsr #31
    (0xAA82_0420, 0x0,                   0xF0E1_D2C3_B4A5_9687, 0,     0xF870_E961_DA52_CB43, STACK,    0), // orr x0, x1, x2, asr #1
    (0xAA82_7C20, 0x0,                   0xF0E1_D2C3_B4A5_9687, 0,     0xFFFF_FFFF_E1C3_A587, STACK,    0), // orr x0, x1, x2, asr #31
    (0xAAC2_0420, 0x0,                   0xF0E1_D2C3_B4A5_9687, 0,     0xF870_E961_DA52_CB43, STACK,    0), // orr x0, x1, x2, ror #1
    (0xAAC2_7C20, 0x0,                   0xF0E1_D2C3_B4A5_9687, 0,     0x694B_2D0F_E1C3_A587, STACK,    0), // orr x0, x1, x2, ror #31
    (0xEA02_0020, 0x8000_0000_8000_0000, 0xFFFF_FFFF_FFFF_FFFF, 3,     0x8000_0000_8000_0000, STACK,    8), // ands x0, x1, x2
    (0xEA22_0020, 0xFFFF_FFFF_FFFF_FFFF, 0xFFFF_FFFF_FFFF_FFFF, 3,     0x0,                   STACK,    4), // bics x0, x1, x2
    (0xEAC2_043F, 0x8000_0000,           0x1,                   0,     0xFEDC_BA98_7654_3210, STACK,    4), // tst x1, x2, ror #1
    (0x1200_0020, 0xF0E1_D2C3_B4A5_9687, 0x0,                   15,    0x1,                   STACK,    15), // and w0, w1, #0x1
    (0x1200_F020, 0xF0E1_D2C3_B4A5_9687, 0x0,                   15,    0x1405_1405,           STACK,    15), // and w0, w1, #0x55555555
    (0x1201_0420, 0xF0E1_D2C3_B4A5_9687, 0x0,                   15,    0x8000_0001,           STACK,    15), // and w0, w1, #0x80000001
    (0x3200_0020, 0xF0E1_D2C3_B4A5_9687, 0x0,                   15,    0xB4A5_9687,           STACK,    15), // orr w0, w1, #0x1
    (0x3200_F020, 0xF0E1_D2C3_B4A5_9687, 0x0,                   15,    0xF5F5_D7D7,           STACK,    15), // orr w0, w1, #0x55555555
    (0x3201_0420, 0xF0E1_D2C3_B4A5_9687, 0x0,                   15,    0xB4A5_9687,           STACK,    15), // orr w0, w1, #0x80000001
    (0x5200_0020, 0xF0E1_D2C3_B4A5_9687, 0x0,                   15,    0xB4A5_9686,           STACK,    15), // eor w0, w1, #0x1
    (0x5200_F020, 0xF0E1_D2C3_B4A5_9687, 0x0,                   15,    0xE1F0_C3D2,           STACK,    15), // eor w0, w1, #0x55555555
    (0x5201_0420, 0xF0E1_D2C3_B4A5_9687, 0x0,                   15,    0x34A5_9686,           STACK,    15), // eor w0, w1, #0x80000001
    (0x7200_0020, 0xF0E1_D2C3_B4A5_9687, 0x0,                   15,    0x1,                   STACK,    0), // ands w0, w1, #0x1
    (0x7200_F020, 0xF0E1_D2C3_B4A5_9687, 0x0,                   15,    0x1405_1405,           STACK,    0), // ands w0, w1, #0x55555555
    (0x7201_0420, 0xF0E1_D2C3_B4A5_9687, 0x0,                   15,    0x8000_0001,           STACK,    8), // ands w0, w1, #0x80000001
    (0xA02_0020,  0xFF_00FF_00FF_00FF,   0xF0E1_D2C3_B4A5_9687, 11,    0xA5_0087,             STACK,    11), // and w0, w1, w2
    (0x2A02_0020, 0xFF_00FF_00FF_00FF,   0xF0E1_D2C3_B4A5_9687, 11,    0xB4FF_96FF,           STACK,    11), // orr w0, w1, w2
    (0x4A02_0020, 0xFF_00FF_00FF_00FF,   0xF0E1_D2C3_B4A5_9687, 11,    0xB45A_9678,           STACK,    11), // eor w0, w1, w2
    (0x6A02_0020, 0xFF_00FF_00FF_00FF,   0xF0E1_D2C3_B4A5_9687, 11,    0xA5_0087,             STACK,    0), // ands w0, w1, w2
    (0xA22_0020,  0xFF_00FF_00FF_00FF,   0xF0E1_D2C3_B4A5_9687, 11,    0x5A_0078,             STACK,    11), // bic w0, w1, w2
    (0x2A22_0020, 0xFF_00FF_00FF_00FF,   0xF0E1_D2C3_B4A5_9687, 11,    0x4BFF_69FF,           STACK,    11), // orn w0, w1, w2
    (0x4A22_0020, 0xFF_00FF_00FF_00FF,   0xF0E1_D2C3_B4A5_9687, 11,    0x4BA5_6987,           STACK,    11), // eon w0, w1, w2
    (0x6A22_0020, 0xFF_00FF_00FF_00FF,   0xF0E1_D2C3_B4A5_9687, 11,    0x5A_0078,             STACK,    0), // bics w0, w1, w2
    (0x2A02_0420, 0x0,                   0xF0E1_D2C3_B4A5_9687, 0,     0x694B_2D0E,           STACK,    0), // orr w0, w1, w2, lsl #1
    (0x2A02_7C20, 0x0,                   0xF0E1_D2C3_B4A5_9687, 0,     0x8000_0000,           STACK,    0), // orr w0, w1, w2, lsl #31
    (0x2A42_0420, 0x0,                   0xF0E1_D2C3_B4A5_9687, 0,     0x5A52_CB43,           STACK,    0), // orr w0, w1, w2, lsr #1
    (0x2A42_7C20, 0x0,                   0xF0E1_D2C3_B4A5_9687, 0,     0x1,                   STACK,    0), // orr w0, w1, w2, lsr #31
    (0x2A82_0420, 0x0,                   0xF0E1_D2C3_B4A5_9687, 0,     0xDA52_CB43,           STACK,    0), // orr w0, w1, w2, asr #1
    (0x2A82_7C20, 0x0,                   0xF0E1_D2C3_B4A5_9687, 0,     0xFFFF_FFFF,           STACK,    0), // orr w0, w1, w2, asr #31
    (0x2AC2_0420, 0x0,                   0xF0E1_D2C3_B4A5_9687, 0,     0xDA52_CB43,           STACK,    0), // orr w0, w1, w2, ror #1
    (0x2AC2_7C20, 0x0,                   0xF0E1_D2C3_B4A5_9687, 0,     0x694B_2D0F,           STACK,    0), // orr w0, w1, w2, ror #31
    (0x6A02_0020, 0x8000_0000_8000_0000, 0xFFFF_FFFF_FFFF_FFFF, 3,     0x8000_0000,           STACK,    8), // ands w0, w1, w2
    (0x6A22_0020, 0xFFFF_FFFF_FFFF_FFFF, 0xFFFF_FFFF_FFFF_FFFF, 3,     0x0,                   STACK,    4), // bics w0, w1, w2
    (0x6AC2_043F, 0x8000_0000,           0x1,                   0,     0xFEDC_BA98_7654_3210, STACK,    8), // tst w1, w2, ror #1
    (0xCA22_8020, 0x0,                   0xF0E1_D2C3_B4A5_9687, 0,     0x4B5A_6978_FFFF_FFFF, STACK,    0), // eon x0, x1, x2, lsl #32
    (0xCA22_FC20, 0x0,                   0xF0E1_D2C3_B4A5_9687, 0,     0x7FFF_FFFF_FFFF_FFFF, STACK,    0), // eon x0, x1, x2, lsl #63
    (0xCA62_8020, 0x0,                   0xF0E1_D2C3_B4A5_9687, 0,     0xFFFF_FFFF_0F1E_2D3C, STACK,    0), // eon x0, x1, x2, lsr #32
    (0xCA62_FC20, 0x0,                   0xF0E1_D2C3_B4A5_9687, 0,     0xFFFF_FFFF_FFFF_FFFE, STACK,    0), // eon x0, x1, x2, lsr #63
    (0xCAA2_8020, 0x0,                   0xF0E1_D2C3_B4A5_9687, 0,     0xF1E_2D3C,            STACK,    0), // eon x0, x1, x2, asr #32
    (0xCAA2_FC20, 0x0,                   0xF0E1_D2C3_B4A5_9687, 0,     0x0,                   STACK,    0), // eon x0, x1, x2, asr #63
    (0xCAE2_8020, 0x0,                   0xF0E1_D2C3_B4A5_9687, 0,     0x4B5A_6978_0F1E_2D3C, STACK,    0), // eon x0, x1, x2, ror #32
    (0xCAE2_FC20, 0x0,                   0xF0E1_D2C3_B4A5_9687, 0,     0x1E3C_5A78_96B4_D2F0, STACK,    0), // eon x0, x1, x2, ror #63
];

#[rattlefmt::skip]
pub(crate) static MOVES: [Row; 74] = [
    // word      x1 before              x2 before             flags  x0 after               SP after  flags after
    (0x9294_B860, 0x0,                   0x0,                  0,     0xFFFF_FFFF_FFFF_5A3C, STACK,    0), // movn x0, #0xa5c3, lsl #0
    (0x92B4_B860, 0x0,                   0x0,                  0,     0xFFFF_FFFF_5A3C_FFFF, STACK,    0), // movn x0, #0xa5c3, lsl #16
    (0x92D4_B860, 0x0,                   0x0,                  0,     0xFFFF_5A3C_FFFF_FFFF, STACK,    0), // movn x0, #0xa5c3, lsl #32
    (0x92F4_B860, 0x0,                   0x0,                  0,     0x5A3C_FFFF_FFFF_FFFF, STACK,    0), // movn x0, #0xa5c3, lsl #48
    (0x1294_B860, 0x0,                   0x0,                  0,     0xFFFF_5A3C,           STACK,    0), // movn w0, #0xa5c3, lsl #0
    (0x12B4_B860, 0x0,                   0x0,                  0,     0x5A3C_FFFF,           STACK,    0), // movn w0, #0xa5c3, lsl #16
    (0xD294_B860, 0x0,                   0x0,                  0,     0xA5C3,                STACK,    0), // movz x0, #0xa5c3, lsl #0
    (0xD2B4_B860, 0x0,                   0x0,                  0,     0xA5C3_0000,           STACK,    0), // movz x0, #0xa5c3, lsl #16
    (0xD2D4_B860, 0x0,                   0x0,                  0,     0xA5C3_0000_0000,      STACK,    0), // movz x0, #0xa5c3, lsl #32
    (0xD2F4_B860, 0x0,                   0x0,                  0,     0xA5C3_0000_0000_0000, STACK,    0), // movz x0, #0xa5c3, lsl #48
    (0x5294_B860, 0x0,                   0x0,                  0,     0xA5C3,                STACK,    0), // movz w0, #0xa5c3, lsl #0
    (0x52B4_B860, 0x0,                   0x0,                  0,     0xA5C3_0000,           STACK,    0), // movz w0, #0xa5c3, lsl #16
    (0xF294_B860, 0x0,                   0x0,                  0,     0xFEDC_BA98_7654_A5C3, STACK,    0), // movk x0, #0xa5c3, lsl #0
    (0xF2B4_B860, 0x0,                   0x0,                  0,     0xFEDC_BA98_A5C3_3210, STACK,    0), // movk x0, #0xa5c3, lsl #16
    (0xF2D4_B860, 0x0,                   0x0,                  0,     0xFEDC_A5C3_7654_3210, STACK,    0), // movk x0, #0xa5c3, lsl #32
    (0xF2F4_B860, 0x0,                   0x0,                  0,     0xA5C3_BA98_7654_3210, STACK,    0), // movk x0, #0xa5c3, lsl #48
    (0x7294_B860, 0x0,                   0x0,                  0,     0x7654_A5C3,           STACK,    0), // movk w0, #0xa5c3, lsl #0
    (0x72B4_B860, 0x0,                   0x0,                  0,     0xA5C3_3210,           STACK,    0), // movk w0, #0xa5c3, lsl #16
    (0x9340_0020, 0xF0E1_D2C3_B4A5_9687, 0x0,                  0,     0xFFFF_FFFF_FFFF_FFFF, STACK,    0), // sbfm x0, x1, #0, #0
    (0x9340_FC20, 0xF0E1_D2C3_B4A5_9687, 0x0,                  0,     0xF0E1_D2C3_B4A5_9687, STACK,    0), // sbfm x0, x1, #0, #63
    (0x937F_FC20, 0xF0E1_D2C3_B4A5_9687, 0x0,                  0,     0xFFFF_FFFF_FFFF_FFFF, STACK,    0), // sbfm x0, x1, #63, #63
    (0x937F_0020, 0xF0E1_D2C3_B4A5_9687, 0x0,                  0,     0xFFFF_FFFF_FFFF_FFFE, STACK,    0), // sbfm x0, x1, #63, #0
    (0x937F_F820, 0xF0E1_D2C3_B4A5_9687, 0x0,                  0,     0xE1C3_A587_694B_2D0E, STACK,    0), // sbfm x0, x1, #63, #62
    (0x9348_3C20, 0xF0E1_D2C3_B4A5_9687, 0x0,                  0,     0xFFFF_FFFF_FFFF_FF96, STACK,    0), // sbfm x0, x1, #8, #15
    (0x937C_0C20, 0xF0E1_D2C3_B4A5_9687, 0x0,                  0,     0x70,                  STACK,    0), // sbfm x0, x1, #60, #3
    (0x9341_7C20, 0xF0E1_D2C3_B4A5_9687, 0x0,                  0,     0xFFFF_FFFF_DA52_CB43, STACK,    0), // sbfm x0, x1, #1, #31
    (0x9360_7C20, 0xF0E1_D2C3_B4A5_9687, 0x0,                  0,     0xB4A5_9687_0000_0000, STACK,    0), // sbfm x0, x1, #32, #31
    (0x1300_0020, 0xF0E1_D2C3_B4A5_9687, 0x0,                  0,     0xFFFF_FFFF,           STACK,    0), // sbfm w0, w1, #0, #0
    (0x1300_7C20, 0xF0E1_D2C3_B4A5_9687, 0x0,                  0,     0xB4A5_9687,           STACK,    0), // sbfm w0, w1, #0, #31
    (0x131F_7C20, 0xF0E1_D2C3_B4A5_9687, 0x0,                  0,     0xFFFF_FFFF,           STACK,    0), // sbfm w0, w1, #31, #31
    (0x131F_0020, 0xF0E1_D2C3_B4A5_9687, 0x0,                  0,     0xFFFF_FFFE,           STACK,    0), // sbfm w0, w1, #31, #0
    (0x131F_7820, 0xF0E1_D2C3_B4A5_9687, 0x0,                  0,     0x694B_2D0E,           STACK,    0), // sbfm w0, w1, #31, #30
    (0x1308_3C20, 0xF0E1_D2C3_B4A5_9687, 0x0,                  0,     0xFFFF_FF96,           STACK,    0), // sbfm w0, w1, #8, #15
    (0x131C_0C20, 0xF0E1_D2C3_B4A5_9687, 0x0,                  0,     0x70,                  STACK,    0), // sbfm w0, w1, #28, #3
    (0xB340_0020, 0xF0E1_D2C3_B4A5_9687, 0x0,                  0,     0xFEDC_BA98_7654_3211, STACK,    0), // bfm x0, x1, #0, #0
    (0xB340_FC20, 0xF0E1_D2C3_B4A5_9687, 0x0,                  0,     0xF0E1_D2C3_B4A5_9687, STACK,    0), // bfm x0, x1, #0, #63
    (0xB37F_FC20, 0xF0E1_D2C3_B4A5_9687, 0x0,                  0,     0xFEDC_BA98_7654_3211, STACK,    0), // bfm x0, x1, #63, #63
    (0xB37F_0020, 0xF0E1_D2C3_B4A5_9687, 0x0,                  0,     0xFEDC_BA98_7654_3212, STACK,    0), // bfm x0, x1, #63, #0
    (0xB37F_F820, 0xF0E1_D2C3_B4A5_9687, 0x0,                  0,     0xE1C3_A587_694B_2D0E, STACK,    0), // bfm x0, x1, #63, #62
    (0xB348_3C20, 0xF0E1_D2C3_B4A5_9687, 0x0,                  0,     0xFEDC_BA98_7654_3296, STACK,    0), // bfm x0, x1, #8, #15
    (0xB37C_0C20, 0xF0E1_D2C3_B4A5_9687, 0x0,                  0,     0xFEDC_BA98_7654_3270, STACK,    0), // bfm x0, x1, #60, #3
    (0xB341_7C20, 0xF0E1_D2C3_B4A5_9687, 0x0,                  0,     0xFEDC_BA98_5A52_CB43, STACK,    0), // bfm x0, x1, #1, #31
    (0xB360_7C20, 0xF0E1_D2C3_B4A5_9687, 0x0,                  0,     0xB4A5_9687_7654_3210, STACK,    0), // bfm x0, x1, #32, #31
    (0x3300_0020, 0xF0E1_D2C3_B4A5_9687, 0x0,                  0,     0x7654_3211,           STACK,    0), // bfm w0, w1, #0, #0
    (0x3300_7C20, 0xF0E1_D2C3_B4A5_9687, 0x0,                  0,     0xB4A5_9687,           STACK,    0), // bfm w0, w1, #0, #31
    (0x331F_7C20, 0xF0E1_D2C3_B4A5_9687, 0x0,                  0,     0x7654_3211,           STACK,    0), // bfm w0, w1, #31, #31
    (0x331F_0020, 0xF0E1_D2C3_B4A5_9687, 0x0,                  0,     0x7654_3212,           STACK,    0), // bfm w0, w1, #31, #0
    (0x331F_7820, 0xF0E1_D2C3_B4A5_9687, 0x0,                  0,     0x694B_2D0E,           STACK,    0), // bfm w0, w1, #31, #30
    (0x3308_3C20, 0xF0E1_D2C3_B4A5_9687, 0x0,                  0,     0x7654_3296,           STACK,    0), // bfm w0, w1, #8, #15
    (0x331C_0C20, 0xF0E1_D2C3_B4A5_9687, 0x0,                  0,     0x7654_3270,           STACK,    0), // bfm w0, w1, #28, #3
    (0xD340_0020, 0xF0E1_D2C3_B4A5_9687, 0x0,                  0,     0x1,                   STACK,    0), // ubfm x0, x1, #0, #0
    (0xD340_FC20, 0xF0E1_D2C3_B4A5_9687, 0x0,                  0,     0xF0E1_D2C3_B4A5_9687, STACK,    0), // ubfm x0, x1, #0, #63
    (0xD37F_FC20, 0xF0E1_D2C3_B4A5_9687, 0x0,                  0,     0x1,                   STACK,    0), // ubfm x0, x1, #63, #63
    (0xD37F_0020, 0xF0E1_D2C3_B4A5_9687, 0x0,                  0,     0x2,                   STACK,    0), // ubfm x0, x1, #63, #0
    (0xD37F_F820, 0xF0E1_D2C3_B4A5_9687, 0x0,                  0,     0xE1C3_A587_694B_2D0E, STACK,    0), // ubfm x0, x1, #63, #62
    (0xD348_3C20, 0xF0E1_D2C3_B4A5_9687, 0x0,                  0,     0x96,                  STACK,    0), // ubfm x0, x1, #8, #15
    (0xD37C_0C20, 0xF0E1_D2C3_B4A5_9687, 0x0,                  0,     0x70,                  STACK,    0), // ubfm x0, x1, #60, #3
    (0xD341_7C20, 0xF0E1_D2C3_B4A5_9687, 0x0,                  0,     0x5A52_CB43,           STACK,    0), // ubfm x0, x1, #1, #31
    (0xD360_7C20, 0xF0E1_D2C3_B4A5_9687, 0x0,                  0,     0xB4A5_9687_0000_0000, STACK,    0), // ubfm x0, x1, #32, #31
    (0x5300_0020, 0xF0E1_D2C3_B4A5_9687, 0x0,                  0,     0x1,                   STACK,    0), // ubfm w0, w1, #0, #0
    (0x5300_7C20, 0xF0E1_D2C3_B4A5_9687, 0x0,                  0,     0xB4A5_9687,           STACK,    0), // ubfm w0, w1, #0, #31
    (0x531F_7C20, 0xF0E1_D2C3_B4A5_9687, 0x0,                  0,     0x1,                   STACK,    0), // ubfm w0, w1, #31, #31
    (0x531F_0020, 0xF0E1_D2C3_B4A5_9687, 0x0,                  0,     0x2,                   STACK,    0), // ubfm w0, w1, #31, #0
    (0x531F_7820, 0xF0E1_D2C3_B4A5_9687, 0x0,                  0,     0x694B_2D0E,           STACK,    0), // ubfm w0, w1, #31, #30
    (0x5308_3C20, 0xF0E1_D2C3_B4A5_9687, 0x0,                  0,     0x96,                  STACK,    0), // ubfm w0, w1, #8, #15
    (0x531C_0C20, 0xF0E1_D2C3_B4A5_9687, 0x0,                  0,     0x70,                  STACK,    0), // ubfm w0, w1, #28, #3
    (0x93C2_0020, 0xF0E1_D2C3_B4A5_9687, 0x123_4567_89AB_CDEF, 0,     0x123_4567_89AB_CDEF,  STACK,    0), // extr x0, x1, x2, #0
    (0x93C2_0420, 0xF0E1_D2C3_B4A5_9687, 0x123_4567_89AB_CDEF, 0,     0x8091_A2B3_C4D5_E6F7, STACK,    0), // extr x0, x1, x2, #1
    (0x93C2_7C20, 0xF0E1_D2C3_B4A5_9687, 0x123_4567_89AB_CDEF, 0,     0x694B_2D0E_0246_8ACF, STACK,    0), // extr x0, x1, x2, #31
    (0x93C2_8020, 0xF0E1_D2C3_B4A5_9687, 0x123_4567_89AB_CDEF, 0,     0xB4A5_9687_0123_4567, STACK,    0), // extr x0, x1, x2, #32
    (0x93C2_FC20, 0xF0E1_D2C3_B4A5_9687, 0x123_4567_89AB_CDEF, 0,     0xE1C3_A587_694B_2D0E, STACK,    0), // extr x0, x1, x2, #63
    (0x1382_0020, 0xF0E1_D2C3_B4A5_9687, 0x123_4567_89AB_CDEF, 0,     0x89AB_CDEF,           STACK,    0), // extr w0, w1, w2, #0
    (0x1382_0420, 0xF0E1_D2C3_B4A5_9687, 0x123_4567_89AB_CDEF, 0,     0xC4D5_E6F7,           STACK,    0), // extr w0, w1, w2, #1
    (0x1382_7C20, 0xF0E1_D2C3_B4A5_9687, 0x123_4567_89AB_CDEF, 0,     0x694B_2D0F,           STACK,    0), // extr w0, w1, w2, #31
];

#[rattlefmt::skip]
pub(crate) static CONDITIONS: [Row; 116] = [
    // word      x1 before              x2 before              flags  x0 after               SP after  flags after
    (0x9A82_0020, 0x1,                   0x2,                   2,     0x2,                   STACK,    2), // csel x0, x1, x2, eq
    (0x9A82_0020, 0x1,                   0x2,                   6,     0x1,                   STACK,    6), // csel x0, x1, x2, eq
    (0x9A82_0020, 0x1,                   0x2,                   8,     0x2,                   STACK,    8), // csel x0, x1, x2, eq
    (0x9A82_0020, 0x1,                   0x2,                   9,     0x2,                   STACK,    9), // csel x0, x1, x2, eq
    (0x9A82_1020, 0x1,                   0x2,                   2,     0x1,                   STACK,    2), // csel x0, x1, x2, ne
    (0x9A82_1020, 0x1,                   0x2,                   6,     0x2,                   STACK,    6), // csel x0, x1, x2, ne
    (0x9A82_1020, 0x1,                   0x2,                   8,     0x1,                   STACK,    8), // csel x0, x1, x2, ne
    (0x9A82_1020, 0x1,                   0x2,                   9,     0x1,                   STACK,    9), // csel x0, x1, x2, ne
    (0x9A82_2020, 0x1,                   0x2,                   2,     0x1,                   STACK,    2), // csel x0, x1, x2, cs
    (0x9A82_2020, 0x1,                   0x2,                   6,     0x1,                   STACK,    6), // csel x0, x1, x2, cs
    (0x9A82_2020, 0x1,                   0x2,                   8,     0x2,                   STACK,    8), // csel x0, x1, x2, cs
    (0x9A82_2020, 0x1,                   0x2,                   9,     0x2,                   STACK,    9), // csel x0, x1, x2, cs
    (0x9A82_3020, 0x1,                   0x2,                   2,     0x2,                   STACK,    2), // csel x0, x1, x2, cc
    (0x9A82_3020, 0x1,                   0x2,                   6,     0x2,                   STACK,    6), // csel x0, x1, x2, cc
    (0x9A82_3020, 0x1,                   0x2,                   8,     0x1,                   STACK,    8), // csel x0, x1, x2, cc
    (0x9A82_3020, 0x1,                   0x2,                   9,     0x1,                   STACK,    9), // csel x0, x1, x2, cc
    (0x9A82_4020, 0x1,                   0x2,                   2,     0x2,                   STACK,    2), // csel x0, x1, x2, mi
    (0x9A82_4020, 0x1,                   0x2,                   6,     0x2,                   STACK,    6), // csel x0, x1, x2, mi
    (0x9A82_4020, 0x1,                   0x2,                   8,     0x1,                   STACK,    8), // csel x0, x1, x2, mi
    (0x9A82_4020, 0x1,                   0x2,                   9,     0x1,                   STACK,    9), // csel x0, x1, x2, mi
    (0x9A82_5020, 0x1,                   0x2,                   2,     0x1,                   STACK,    2), // csel x0, x1, x2, pl
    (0x9A82_5020, 0x1,                   0x2,                   6,     0x1,                   STACK,    6), // csel x0, x1, x2, pl
    (0x9A82_5020, 0x1,                   0x2,                   8,     0x2,                   STACK,    8), // csel x0, x1, x2, pl
    (0x9A82_5020, 0x1,                   0x2,                   9,     0x2,                   STACK,    9), // csel x0, x1, x2, pl
    (0x9A82_6020, 0x1,                   0x2,                   2,     0x2,                   STACK,    2), // csel x0, x1, x2, vs
    (0x9A82_6020, 0x1,                   0x2,                   6,     0x2,                   STACK,    6), // csel x0, x1, x2, vs
    (0x9A82_6020, 0x1,                   0x2,                   8,     0x2,                   STACK,    8), // csel x0, x1, x2, vs
    (0x9A82_6020, 0x1,                   0x2,                   9,     0x1,                   STACK,    9), // csel x0, x1, x2, vs
    (0x9A82_7020, 0x1,                   0x2,                   2,     0x1,                   STACK,    2), // csel x0, x1, x2, vc
    (0x9A82_7020, 0x1,                   0x2,                   6,     0x1,                   STACK,    6), // csel x0, x1, x2, vc
    (0x9A82_7020, 0x1,                   0x2,                   8,     0x1,                   STACK,    8), // csel x0, x1, x2, vc
    (0x9A82_7020, 0x1,                   0x2,                   9,     0x2,                   STACK,    9), // csel x0, x1, x2, vc
    (0x9A82_8020, 0x1,                   0x2,                   2,     0x1,                   STACK,    2), // csel x0, x1, x2, hi
    (0x9A82_8020, 0x1,                   0x2,                   6,     0x2,                   STACK,    6), // csel x0, x1, x2, hi
    (0x9A82_8020, 0x1,                   0x2,                   8,     0x2,                   STACK,    8), // csel x0, x1, x2, hi
    (0x9A82_8020, 0x1,                   0x2,                   9,     0x2,                   STACK,    9), // csel x0, x1, x2, hi
    (0x9A82_9020, 0x1,                   0x2,                   2,     0x2,                   STACK,    2), // csel x0, x1, x2, ls
    (0x9A82_9020, 0x1,                   0x2,                   6,     0x1,                   STACK,    6), // csel x0, x1, x2, ls
    (0x9A82_9020, 0x1,                   0x2,                   8,     0x1,                   STACK,    8), // csel x0, x1, x2, ls
    (0x9A82_9020, 0x1,                   0x2,                   9,     0x1,                   STACK,    9), // csel x0, x1, x2, ls
    (0x9A82_A020, 0x1,                   0x2,                   2,     0x1,                   STACK,    2), // csel x0, x1, x2, ge
    (0x9A82_A020, 0x1,                   0x2,                   6,     0x1,                   STACK,    6), // csel x0, x1, x2, ge
    (0x9A82_A020, 0x1,                   0x2,                   8,     0x2,                   STACK,    8), // csel x0, x1, x2, ge
    (0x9A82_A020, 0x1,                   0x2,                   9,     0x1,                   STACK,    9), // csel x0, x1, x2, ge
    (0x9A82_B020, 0x1,                   0x2,                   2,     0x2,                   STACK,    2), // csel x0, x1, x2, lt
    (0x9A82_B020, 0x1,                   0x2,                   6,     0x2,                   STACK,    6), // csel x0, x1, x2, lt
    (0x9A82_B020, 0x1,                   0x2,                   8,     0x1,                   STACK,    8), // csel x0, x1, x2, lt
    (0x9A82_B020, 0x1,                   0x2,                   9,     0x2,                   STACK,    9), // csel x0, x1, x2, lt
    (0x9A82_C020, 0x1,                   0x2,                   2,     0x1,                   STACK,    2), // csel x0, x1, x2, gt
    (0x9A82_C020, 0x1,                   0x2,                   6,     0x2,                   STACK,    6), // csel x0, x1, x2, gt
    (0x9A82_C020, 0x1,                   0x2,                   8,     0x2,                   STACK,    8), // csel x0, x1, x2, gt
    (0x9A82_C020, 0x1,                   0x2,                   9,     0x1,                   STACK,    9), // csel x0, x1, x2, gt
    (0x9A82_D020, 0x1,                   0x2,                   2,     0x2,                   STACK,    2), // csel x0, x1, x2, le
    (0x9A82_D020, 0x1,                   0x2,                   6,     0x1,                   STACK,    6), // csel x0, x1, x2, le
    (0x9A82_D020, 0x1,                   0x2,                   8,     0x1,                   STACK,    8), // csel x0, x1, x2, le
    (0x9A82_D020, 0x1,                   0x2,                   9,     0x2,                   STACK,    9), // csel x0, x1, x2, le
    (0x9A82_E020, 0x1,                   0x2,                   2,     0x1,                   STACK,    2), // csel x0, x1, x2, al
    (0x9A82_E020, 0x1,                   0x2,                   6,     0x1,                   STACK,    6), // csel x0, x1, x2, al
    (0x9A82_E020, 0x1,                   0x2,                   8,     0x1,                   STACK,    8), // csel x0, x1, x2, al
    (0x9A82_E020, 0x1,                   0x2,                   9,     0x1,                   STACK,    9), // csel x0, x1, x2, al
    (0x9A82_F020, 0x1,                   0x2,                   2,     0x1,                   STACK,    2), // csel x0, x1, x2, nv
    (0x9A82_F020, 0x1,                   0x2,                   6,     0x1,                   STACK,    6), // csel x0, x1, x2, nv
    (0x9A82_F020, 0x1,                   0x2,                   8,     0x1,                   STACK,    8), // csel x0, x1, x2, nv
    (0x9A82_F020, 0x1,                   0x2,                   9,     0x1,                   STACK,    9), // csel x0, x1, x2, nv
    (0x9A82_1420, 0x7,                   0x0,                   4,     0x1,                   STACK,    4), // csinc x0, x1, x2, ne
    (0x9A82_1420, 0x7,                   0x1,                   4,     0x2,                   STACK,    4), // csinc x0, x1, x2, ne
    (0x9A82_1420, 0x7,                   0xFFFF_FFFF_FFFF_FFFF, 4,     0x0,                   STACK,    4), // csinc x0, x1, x2, ne
    (0x9A82_1420, 0x7,                   0x8000_0000,           4,     0x8000_0001,           STACK,    4), // csinc x0, x1, x2, ne
    (0x9A82_1420, 0x7,                   0x8000_0000_0000_0000, 4,     0x8000_0000_0000_0001, STACK,    4), // csinc x0, x1, x2, ne
    (0x9A82_0420, 0xF0E1_D2C3_B4A5_9687, 0x0,                   4,     0xF0E1_D2C3_B4A5_9687, STACK,    4), // csinc x0, x1, x2, eq
    (0xDA82_1020, 0x7,                   0x0,                   4,     0xFFFF_FFFF_FFFF_FFFF, STACK,    4), // csinv x0, x1, x2, ne
    (0xDA82_1020, 0x7,                   0x1,                   4,     0xFFFF_FFFF_FFFF_FFFE, STACK,    4), // csinv x0, x1, x2, ne
    (0xDA82_1020, 0x7,                   0xFFFF_FFFF_FFFF_FFFF, 4,     0x0,                   STACK,    4), // csinv x0, x1, x2, ne
    (0xDA82_1020, 0x7,                   0x8000_0000,           4,     0xFFFF_FFFF_7FFF_FFFF, STACK,    4), // csinv x0, x1, x2, ne
    (0xDA82_1020, 0x7,                   0x8000_0000_0000_0000, 4,     0x7FFF_FFFF_FFFF_FFFF, STACK,    4), // csinv x0, x1, x2, ne
    (0xDA82_0020, 0xF0E1_D2C3_B4A5_9687, 0x0,                   4,     0xF0E1_D2C3_B4A5_9687, STACK,    4), // csinv x0, x1, x2, eq
    (0xDA82_1420, 0x7,                   0x0,                   4,     0x0,                   STACK,    4), // csneg x0, x1, x2, ne
    (0xDA82_1420, 0x7,                   0x1,                   4,     0xFFFF_FFFF_FFFF_FFFF, STACK,    4), // csneg x0, x1, x2, ne
    (0xDA82_1420, 0x7,                   0xFFFF_FFFF_FFFF_FFFF, 4,     0x1,                   STACK,    4), // csneg x0, x1, x2, ne
    (0xDA82_1420, 0x7,                   0x8000_0000,           4,     0xFFFF_FFFF_8000_0000, STACK,    4), // csneg x0, x1, x2, ne
    (0xDA82_1420, 0x7,                   0x8000_0000_0000_0000, 4,     0x8000_0000_0000_0000, STACK,    4), // csneg x0, x1, x2, ne
    (0xDA82_0420, 0xF0E1_D2C3_B4A5_9687, 0x0,                   4,     0xF0E1_D2C3_B4A5_9687, STACK,    4), // csneg x0, x1, x2, eq
    (0xBA42_0025, 0xFFFF_FFFF_FFFF_FFFF, 0x1,                   4,     0xFEDC_BA98_7654_3210, STACK,    6), // ccmn x1, x2, #5, eq
    (0xBA42_1025, 0xFFFF_FFFF_FFFF_FFFF, 0x1,                   4,     0xFEDC_BA98_7654_3210, STACK,    5), // ccmn x1, x2, #5, ne
    (0xBA5F_A82A, 0x1F,                  0x0,                   9,     0xFEDC_BA98_7654_3210, STACK,    0), // ccmn x1, #31, #10, ge
    (0xBA5F_B82A, 0x1F,                  0x0,                   9,     0xFEDC_BA98_7654_3210, STACK,    10), // ccmn x1, #31, #10, lt
    (0xFA42_0025, 0xFFFF_FFFF_FFFF_FFFF, 0x1,                   4,     0xFEDC_BA98_7654_3210, STACK,    10), // ccmp x1, x2, #5, eq
    (0xFA42_1025, 0xFFFF_FFFF_FFFF_FFFF, 0x1,                   4,     0xFEDC_BA98_7654_3210, STACK,    5), // ccmp x1, x2, #5, ne
    (0xFA5F_A82A, 0x1F,                  0x0,                   9,     0xFEDC_BA98_7654_3210, STACK,    6), // ccmp x1, #31, #10, ge
    (0xFA5F_B82A, 0x1F,                  0x0,                   9,     0xFEDC_BA98_7654_3210, STACK,    10), // ccmp x1, #31, #10, lt
    (0x1A82_1420, 0x7,                   0x0,                   4,     0x1,                   STACK,    4), // csinc w0, w1, w2, ne
    (0x1A82_1420, 0x7,                   0x1,                   4,     0x2,                   STACK,    4), // csinc w0, w1, w2, ne
    (0x1A82_1420, 0x7,                   0xFFFF_FFFF_FFFF_FFFF, 4,     0x0,                   STACK,    4), // csinc w0, w1, w2, ne
    (0x1A82_1420, 0x7,                   0x8000_0000,           4,     0x8000_0001,           STACK,    4), // csinc w0, w1, w2, ne
    (0x1A82_1420, 0x7,                   0x8000_0000_0000_0000, 4,     0x1,                   STACK,    4), // csinc w0, w1, w2, ne
    (0x1A82_0420, 0xF0E1_D2C3_B4A5_9687, 0x0,                   4,     0xB4A5_9687,           STACK,    4), // csinc w0, w1, w2, eq
    (0x5A82_1020, 0x7,                   0x0,                   4,     0xFFFF_FFFF,           STACK,    4), // csinv w0, w1, w2, ne
    (0x5A82_1020, 0x7,                   0x1,                   4,     0xFFFF_FFFE,           STACK,    4), // csinv w0, w1, w2, ne
    (0x5A82_1020, 0x7,                   0xFFFF_FFFF_FFFF_FFFF, 4,     0x0,                   STACK,    4), // csinv w0, w1, w2, ne
    (0x5A82_1020, 0x7,                   0x8000_0000,           4,     0x7FFF_FFFF,           STACK,    4), // csinv w0, w1, w2, ne
    (0x5A82_1020, 0x7,                   0x8000_0000_0000_0000, 4,     0xFFFF_FFFF,           STACK,    4), // csinv w0, w1, w2, ne
    (0x5A82_0020, 0xF0E1_D2C3_B4A5_9687, 0x0,                   4,     0xB4A5_9687,           STACK,    4), // csinv w0, w1, w2, eq
    (0x5A82_1420, 0x7,                   0x0,                   4,     0x0,                   STACK,    4), // csneg w0, w1, w2, ne
    (0x5A82_1420, 0x7,                   0x1,                   4,     0xFFFF_FFFF,           STACK,    4), // csneg w0, w1, w2, ne
    (0x5A82_1420, 0x7,                   0xFFFF_FFFF_FFFF_FFFF, 4,     0x1,                   STACK,    4), // csneg w0, w1, w2, ne
    (0x5A82_1420, 0x7,                   0x8000_0000,           4,     0x8000_0000,           STACK,    4), // csneg w0, w1, w2, ne
    (0x5A82_1420, 0x7,                   0x8000_0000_0000_0000, 4,     0x0,                   STACK,    4), // csneg w0, w1, w2, ne
    (0x5A82_0420, 0xF0E1_D2C3_B4A5_9687, 0x0,                   4,     0xB4A5_9687,           STACK,    4), // csneg w0, w1, w2, eq
    (0x3A42_0025, 0xFFFF_FFFF_FFFF_FFFF, 0x1,                   4,     0xFEDC_BA98_7654_3210, STACK,    6), // ccmn w1, w2, #5, eq
    (0x3A42_1025, 0xFFFF_FFFF_FFFF_FFFF, 0x1,                   4,     0xFEDC_BA98_7654_3210, STACK,    5), // ccmn w1, w2, #5, ne
    (0x3A5F_A82A, 0x1F,                  0x0,                   9,     0xFEDC_BA98_7654_3210, STACK,    0), // ccmn w1, #31, #10, ge
    (0x3A5F_B82A, 0x1F,                  0x0,                   9,     0xFEDC_BA98_7654_3210, STACK,    10), // ccmn w1, #31, #10, lt
    (0x7A42_0025, 0xFFFF_FFFF_FFFF_FFFF, 0x1,                   4,     0xFEDC_BA98_7654_3210, STACK,    10), // ccmp w1, w2, #5, eq
    (0x7A42_1025, 0xFFFF_FFFF_FFFF_FFFF, 0x1,                   4,     0xFEDC_BA98_7654_3210, STACK,    5), // ccmp w1, w2, #5, ne
    (0x7A5F_A82A, 0x1F,                  0x0,                   9,     0xFEDC_BA98_7654_3210, STACK,    6), // ccmp w1, #31, #10, ge
    (0x7A5F_B82A, 0x1F,                  0x0,                   9,     0xFEDC_BA98_7654_3210, STACK,    10), // ccmp w1, #31, #10, lt
];

#[rattlefmt::skip]
pub(crate) static PRODUCTS: [Row; 86] = [
    // word      x1 before              x2 before              flags  x0 after               SP after  flags after
    (0x9B02_0C20, 0x0,                   0x0,                   0,     0x123_4567_89AB_CDEF,  STACK,    0), // madd x0, x1, x2, x3
    (0x9B02_8C20, 0x0,                   0x0,                   0,     0x123_4567_89AB_CDEF,  STACK,    0), // msub x0, x1, x2, x3
    (0x9B02_0C20, 0xFFFF_FFFF_FFFF_FFFF, 0xFFFF_FFFF_FFFF_FFFF, 0,     0x123_4567_89AB_CDF0,  STACK,    0), // madd x0, x1, x2, x3
    (0x9B02_8C20, 0xFFFF_FFFF_FFFF_FFFF, 0xFFFF_FFFF_FFFF_FFFF, 0,     0x123_4567_89AB_CDEE,  STACK,    0), // msub x0, x1, x2, x3
    (0x9B02_0C20, 0x8000_0000,           0x2,                   0,     0x123_4568_89AB_CDEF,  STACK,    0), // madd x0, x1, x2, x3
    (0x9B02_8C20, 0x8000_0000,           0x2,                   0,     0x123_4566_89AB_CDEF,  STACK,    0), // msub x0, x1, x2, x3
    (0x9B02_0C20, 0x8000_0000_0000_0000, 0x2,                   0,     0x123_4567_89AB_CDEF,  STACK,    0), // madd x0, x1, x2, x3
    (0x9B02_8C20, 0x8000_0000_0000_0000, 0x2,                   0,     0x123_4567_89AB_CDEF,  STACK,    0), // msub x0, x1, x2, x3
    (0x9B02_0C20, 0xF0E1_D2C3_B4A5_9687, 0xF0E1_D2C3_B4A5_9687, 0,     0x1923_59DA_C434_4920, STACK,    0), // madd x0, x1, x2, x3
    (0x9B02_8C20, 0xF0E1_D2C3_B4A5_9687, 0xF0E1_D2C3_B4A5_9687, 0,     0xE923_30F4_4F23_52BE, STACK,    0), // msub x0, x1, x2, x3
    (0x9AC2_0820, 0x7,                   0x0,                   0,     0x0,                   STACK,    0), // udiv x0, x1, x2
    (0x9AC2_0820, 0x7,                   0x2,                   0,     0x3,                   STACK,    0), // udiv x0, x1, x2
    (0x9AC2_0820, 0xFFFF_FFFF_FFFF_FFF9, 0x2,                   0,     0x7FFF_FFFF_FFFF_FFFC, STACK,    0), // udiv x0, x1, x2
    (0x9AC2_0820, 0x7,                   0xFFFF_FFFF_FFFF_FFFE, 0,     0x0,                   STACK,    0), // udiv x0, x1, x2
    (0x9AC2_0820, 0xFFFF_FFFF_FFFF_FFF9, 0xFFFF_FFFF_FFFF_FFFE, 0,     0x0,                   STACK,    0), // udiv x0, x1, x2
    (0x9AC2_0820, 0x8000_0000,           0xFFFF_FFFF_FFFF_FFFF, 0,     0x0,                   STACK,    0), // udiv x0, x1, x2
    (0x9AC2_0820, 0x8000_0000_0000_0000, 0xFFFF_FFFF_FFFF_FFFF, 0,     0x0,                   STACK,    0), // udiv x0, x1, x2
    (0x9AC2_0820, 0x8000_0000_0000_0000, 0x1,                   0,     0x8000_0000_0000_0000, STACK,    0), // udiv x0, x1, x2
    (0x9AC2_0820, 0xFFFF_FFFF_FFFF_FFFF, 0x8000_0000_0000_0000, 0,     0x1,                   STACK,    0), // udiv x0, x1, x2
    (0x9AC2_0820, 0xF0E1_D2C3_B4A5_9687, 0x8000_0000,           0,     0x1_E1C3_A587,         STACK,    0), // udiv x0, x1, x2
    (0x9AC2_0C20, 0x7,                   0x0,                   0,     0x0,                   STACK,    0), // sdiv x0, x1, x2
    (0x9AC2_0C20, 0x7,                   0x2,                   0,     0x3,                   STACK,    0), // sdiv x0, x1, x2
    (0x9AC2_0C20, 0xFFFF_FFFF_FFFF_FFF9, 0x2,                   0,     0xFFFF_FFFF_FFFF_FFFD, STACK,    0), // sdiv x0, x1, x2
    (0x9AC2_0C20, 0x7,                   0xFFFF_FFFF_FFFF_FFFE, 0,     0xFFFF_FFFF_FFFF_FFFD, STACK,    0), // sdiv x0, x1, x2
    (0x9AC2_0C20, 0xFFFF_FFFF_FFFF_FFF9, 0xFFFF_FFFF_FFFF_FFFE, 0,     0x3,                   STACK,    0), // sdiv x0, x1, x2
    (0x9AC2_0C20, 0x8000_0000,           0xFFFF_FFFF_FFFF_FFFF, 0,     0xFFFF_FFFF_8000_0000, STACK,    0), // sdiv x0, x1, x2
    (0x9AC2_0C20, 0x8000_0000_0000_0000, 0xFFFF_FFFF_FFFF_FFFF, 0,     0x8000_0000_0000_0000, STACK,    0), // sdiv x0, x1, x2
    (0x9AC2_0C20, 0x8000_0000_0000_0000, 0x1,                   0,     0x8000_0000_0000_0000, STACK,    0), // sdiv x0, x1, x2
    (0x9AC2_0C20, 0xFFFF_FFFF_FFFF_FFFF, 0x8000_0000_0000_0000, 0,     0x0,                   STACK,    0), // sdiv x0, x1, x2
    (0x9AC2_0C20, 0xF0E1_D2C3_B4A5_9687, 0x8000_0000,           0,     0xFFFF_FFFF_E1C3_A588, STACK,    0), // sdiv x0, x1, x2
    (0x1B02_0C20, 0x0,                   0x0,                   0,     0x89AB_CDEF,           STACK,    0), // madd w0, w1, w2, w3
    (0x1B02_8C20, 0x0,                   0x0,                   0,     0x89AB_CDEF,           STACK,    0), // msub w0, w1, w2, w3
    (0x1B02_0C20, 0xFFFF_FFFF_FFFF_FFFF, 0xFFFF_FFFF_FFFF_FFFF, 0,     0x89AB_CDF0,           STACK,    0), // madd w0, w1, w2, w3
    (0x1B02_8C20, 0xFFFF_FFFF_FFFF_FFFF, 0xFFFF_FFFF_FFFF_FFFF, 0,     0x89AB_CDEE,           STACK,    0), // msub w0, w1, w2, w3
    (0x1B02_0C20, 0x8000_0000,           0x2,                   0,     0x89AB_CDEF,           STACK,    0), // madd w0, w1, w2, w3
    (0x1B02_8C20, 0x8000_0000,           0x2,                   0,     0x89AB_CDEF,           STACK,    0), // msub w0, w1, w2, w3
    (0x1B02_0C20, 0x8000_0000_0000_0000, 0x2,                   0,     0x89AB_CDEF,           STACK,    0), // madd w0, w1, w2, w3
    (0x1B02_8C20, 0x8000_0000_0000_0000, 0x2,                   0,     0x89AB_CDEF,           STACK,    0), // msub w0, w1, w2, w3
    (0x1B02_0C20, 0xF0E1_D2C3_B4A5_9687, 0xF0E1_D2C3_B4A5_9687, 0,     0xC434_4920,           STACK,    0), // madd w0, w1, w2, w3
    (0x1B02_8C20, 0xF0E1_D2C3_B4A5_9687, 0xF0E1_D2C3_B4A5_9687, 0,     0x4F23_52BE,           STACK,    0), // msub w0, w1, w2, w3
    (0x1AC2_0820, 0x7,                   0x0,                   0,     0x0,                   STACK,    0), // udiv w0, w1, w2
    (0x1AC2_0820, 0x7,                   0x2,                   0,     0x3,                   STACK,    0), // udiv w0, w1, w2
    (0x1AC2_0820, 0xFFFF_FFFF_FFFF_FFF9, 0x2,                   0,     0x7FFF_FFFC,           STACK,    0), // udiv w0, w1, w2
    (0x1AC2_0820, 0x7,                   0xFFFF_FFFF_FFFF_FFFE, 0,     0x0,                   STACK,    0), // udiv w0, w1, w2
    (0x1AC2_0820, 0xFFFF_FFFF_FFFF_FFF9, 0xFFFF_FFFF_FFFF_FFFE, 0,     0x0,                   STACK,    0), // udiv w0, w1, w2
    (0x1AC2_0820, 0x8000_0000,           0xFFFF_FFFF_FFFF_FFFF, 0,     0x0,                   STACK,    0), // udiv w0, w1, w2
    (0x1AC2_0820, 0x8000_0000_0000_0000, 0xFFFF_FFFF_FFFF_FFFF, 0,     0x0,                   STACK,    0), // udiv w0, w1, w2
    (0x1AC2_0820, 0x8000_0000_0000_0000, 0x1,                   0,     0x0,                   STACK,    0), // udiv w0, w1, w2
    (0x1AC2_0820, 0xFFFF_FFFF_FFFF_FFFF, 0x8000_0000_0000_0000, 0,     0x0,                   STACK,    0), // udiv w0, w1, w2
    (0x1AC2_0820, 0xF0E1_D2C3_B4A5_9687, 0x8000_0000,           0,     0x1,                   STACK,    0), // udiv w0, w1, w2
    (0x1AC2_0C20, 0x7,                   0x0,                   0,     0x0,                   STACK,    0), // sdiv w0, w1, w2
    (0x1AC2_0C20, 0x7,                   0x2,                   0,     0x3,                   STACK,    0), // sdiv w0, w1, w2
    (0x1AC2_0C20, 0xFFFF_FFFF_FFFF_FFF9, 0x2,                   0,     0xFFFF_FFFD,           STACK,    0), // sdiv w0, w1, w2
    (0x1AC2_0C20, 0x7,                   0xFFFF_FFFF_FFFF_FFFE, 0,     0xFFFF_FFFD,           STACK,    0), // sdiv w0, w1, w2
    (0x1AC2_0C20, 0xFFFF_FFFF_FFFF_FFF9, 0xFFFF_FFFF_FFFF_FFFE, 0,     0x3,                   STACK,    0), // sdiv w0, w1, w2
    (0x1AC2_0C20, 0x8000_0000,           0xFFFF_FFFF_FFFF_FFFF, 0,     0x8000_0000,           STACK,    0), // sdiv w0, w1, w2
    (0x1AC2_0C20, 0x8000_0000_0000_0000, 0xFFFF_FFFF_FFFF_FFFF, 0,     0x0,                   STACK,    0), // sdiv w0, w1, w2
    (0x1AC2_0C20, 0x8000_0000_0000_0000, 0x1,                   0,     0x0,                   STACK,    0), // sdiv w0, w1, w2
    (0x1AC2_0C20, 0xFFFF_FFFF_FFFF_FFFF, 0x8000_0000_0000_0000, 0,     0x0,                   STACK,    0), // sdiv w0, w1, w2
    (0x1AC2_0C20, 0xF0E1_D2C3_B4A5_9687, 0x8000_0000,           0,     0x0,                   STACK,    0), // sdiv w0, w1, w2
    (0x9B22_0C20, 0x8000_0000,           0x8000_0000,           0,     0x4123_4567_89AB_CDEF, STACK,    0), // smaddl x0, w1, w2, x3
    (0x9B22_0C20, 0xFFFF_FFFF,           0xFFFF_FFFF,           0,     0x123_4567_89AB_CDF0,  STACK,    0), // smaddl x0, w1, w2, x3
    (0x9B22_0C20, 0x7FFF_FFFF,           0x8000_0000,           0,     0xC123_4568_09AB_CDEF, STACK,    0), // smaddl x0, w1, w2, x3
    (0x9B22_0C20, 0xF0E1_D2C3_B4A5_9687, 0x1_0000_0003,         0,     0x123_4566_A79C_9184,  STACK,    0), // smaddl x0, w1, w2, x3
    (0x9B22_8C20, 0x8000_0000,           0x8000_0000,           0,     0xC123_4567_89AB_CDEF, STACK,    0), // smsubl x0, w1, w2, x3
    (0x9B22_8C20, 0xFFFF_FFFF,           0xFFFF_FFFF,           0,     0x123_4567_89AB_CDEE,  STACK,    0), // smsubl x0, w1, w2, x3
    (0x9B22_8C20, 0x7FFF_FFFF,           0x8000_0000,           0,     0x4123_4567_09AB_CDEF, STACK,    0), // smsubl x0, w1, w2, x3
    (0x9B22_8C20, 0xF0E1_D2C3_B4A5_9687, 0x1_0000_0003,         0,     0x123_4568_6BBB_0A5A,  STACK,    0), // smsubl x0, w1, w2, x3
    (0x9BA2_0C20, 0x8000_0000,           0x8000_0000,           0,     0x4123_4567_89AB_CDEF, STACK,    0), // umaddl x0, w1, w2, x3
    (0x9BA2_0C20, 0xFFFF_FFFF,           0xFFFF_FFFF,           0,     0x123_4565_89AB_CDF0,  STACK,    0), // umaddl x0, w1, w2, x3
    (0x9BA2_0C20, 0x7FFF_FFFF,           0x8000_0000,           0,     0x4123_4567_09AB_CDEF, STACK,    0), // umaddl x0, w1, w2, x3
    (0x9BA2_0C20, 0xF0E1_D2C3_B4A5_9687, 0x1_0000_0003,         0,     0x123_4569_A79C_9184,  STACK,    0), // umaddl x0, w1, w2, x3
    (0x9BA2_8C20, 0x8000_0000,           0x8000_0000,           0,     0xC123_4567_89AB_CDEF, STACK,    0), // umsubl x0, w1, w2, x3
    (0x9BA2_8C20, 0xFFFF_FFFF,           0xFFFF_FFFF,           0,     0x123_4569_89AB_CDEE,  STACK,    0), // umsubl x0, w1, w2, x3
    (0x9BA2_8C20, 0x7FFF_FFFF,           0x8000_0000,           0,     0xC123_4568_09AB_CDEF, STACK,    0), // umsubl x0, w1, w2, x3
    (0x9BA2_8C20, 0xF0E1_D2C3_B4A5_9687, 0x1_0000_0003,         0,     0x123_4565_6BBB_0A5A,  STACK,    0), // umsubl x0, w1, w2, x3
    (0x9B42_7C20, 0xFFFF_FFFF_FFFF_FFFF, 0xFFFF_FFFF_FFFF_FFFF, 0,     0x0,                   STACK,    0), // smulh x0, x1, x2
    (0x9B42_7C20, 0x8000_0000_0000_0000, 0x8000_0000_0000_0000, 0,     0x4000_0000_0000_0000, STACK,    0), // smulh x0, x1, x2
    (0x9B42_7C20, 0x8000_0000_0000_0000, 0x2,                   0,     0xFFFF_FFFF_FFFF_FFFF, STACK,    0), // smulh x0, x1, x2
    (0x9B42_7C20, 0x1,                   0xFFFF_FFFF_FFFF_FFFF, 0,     0xFFFF_FFFF_FFFF_FFFF, STACK,    0), // smulh x0, x1, x2
    (0x9B42_7C20, 0xF0E1_D2C3_B4A5_9687, 0xF0E1_D2C3_B4A5_9687, 0,     0xE4_8CDB_B2F4_823E,   STACK,    0), // smulh x0, x1, x2
    (0x9BC2_7C20, 0xFFFF_FFFF_FFFF_FFFF, 0xFFFF_FFFF_FFFF_FFFF, 0,     0xFFFF_FFFF_FFFF_FFFE, STACK,    0), // umulh x0, x1, x2
    (0x9BC2_7C20, 0x8000_0000_0000_0000, 0x8000_0000_0000_0000, 0,     0x4000_0000_0000_0000, STACK,    0), // umulh x0, x1, x2
    (0x9BC2_7C20, 0x8000_0000_0000_0000, 0x2,                   0,     0x1,                   STACK,    0), // umulh x0, x1, x2
    (0x9BC2_7C20, 0x1,                   0xFFFF_FFFF_FFFF_FFFF, 0,     0x0,                   STACK,    0), // umulh x0, x1, x2
    (0x9BC2_7C20, 0xF0E1_D2C3_B4A5_9687, 0xF0E1_D2C3_B4A5_9687, 0,     0xE2A8_3263_1C3F_AF4C, STACK,    0), // umulh x0, x1, x2
];

#[rattlefmt::skip]
pub(crate) static REVERSALS: [Row; 94] = [
    // word      x1 before              x2 before              flags  x0 after               SP after  flags after
    (0x9AC2_2020, 0xF0E1_D2C3_B4A5_9687, 0x1F,                  0,     0xDA52_CB43_8000_0000, STACK,    0), // lsl x0, x1, x2
    (0x9AC2_2020, 0xF0E1_D2C3_B4A5_9687, 0x20,                  0,     0xB4A5_9687_0000_0000, STACK,    0), // lsl x0, x1, x2
    (0x9AC2_2020, 0xF0E1_D2C3_B4A5_9687, 0x3F,                  0,     0x8000_0000_0000_0000, STACK,    0), // lsl x0, x1, x2
    (0x9AC2_2020, 0xF0E1_D2C3_B4A5_9687, 0xFFFF_FFFF_FFFF_FFFF, 0,     0x8000_0000_0000_0000, STACK,    0), // lsl x0, x1, x2
    (0x9AC2_2420, 0xF0E1_D2C3_B4A5_9687, 0x1F,                  0,     0x1_E1C3_A587,         STACK,    0), // lsr x0, x1, x2
    (0x9AC2_2420, 0xF0E1_D2C3_B4A5_9687, 0x20,                  0,     0xF0E1_D2C3,           STACK,    0), // lsr x0, x1, x2
    (0x9AC2_2420, 0xF0E1_D2C3_B4A5_9687, 0x3F,                  0,     0x1,                   STACK,    0), // lsr x0, x1, x2
    (0x9AC2_2420, 0xF0E1_D2C3_B4A5_9687, 0xFFFF_FFFF_FFFF_FFFF, 0,     0x1,                   STACK,    0), // lsr x0, x1, x2
    (0x9AC2_2820, 0xF0E1_D2C3_B4A5_9687, 0x1F,                  0,     0xFFFF_FFFF_E1C3_A587, STACK,    0), // asr x0, x1, x2
    (0x9AC2_2820, 0xF0E1_D2C3_B4A5_9687, 0x20,                  0,     0xFFFF_FFFF_F0E1_D2C3, STACK,    0), // asr x0, x1, x2
    (0x9AC2_2820, 0xF0E1_D2C3_B4A5_9687, 0x3F,                  0,     0xFFFF_FFFF_FFFF_FFFF, STACK,    0), // asr x0, x1, x2
    (0x9AC2_2820, 0xF0E1_D2C3_B4A5_9687, 0xFFFF_FFFF_FFFF_FFFF, 0,     0xFFFF_FFFF_FFFF_FFFF, STACK,    0), // asr x0, x1, x2
    (0x9AC2_2C20, 0xF0E1_D2C3_B4A5_9687, 0x1F,                  0,     0x694B_2D0F_E1C3_A587, STACK,    0), // ror x0, x1, x2
    (0x9AC2_2C20, 0xF0E1_D2C3_B4A5_9687, 0x20,                  0,     0xB4A5_9687_F0E1_D2C3, STACK,    0), // ror x0, x1, x2
    (0x9AC2_2C20, 0xF0E1_D2C3_B4A5_9687, 0x3F,                  0,     0xE1C3_A587_694B_2D0F, STACK,    0), // ror x0, x1, x2
    (0x9AC2_2C20, 0xF0E1_D2C3_B4A5_9687, 0xFFFF_FFFF_FFFF_FFFF, 0,     0xE1C3_A587_694B_2D0F, STACK,    0), // ror x0, x1, x2
    (0xDAC0_0020, 0x0,                   0x0,                   0,     0x0,                   STACK,    0), // rbit x0, x1
    (0xDAC0_0020, 0x1,                   0x0,                   0,     0x8000_0000_0000_0000, STACK,    0), // rbit x0, x1
    (0xDAC0_0020, 0xFFFF_FFFF_FFFF_FFFF, 0x0,                   0,     0xFFFF_FFFF_FFFF_FFFF, STACK,    0), // rbit x0, x1
    (0xDAC0_0020, 0x8000_0000,           0x0,                   0,     0x1_0000_0000,         STACK,    0), // rbit x0, x1
    (0xDAC0_0020, 0x8000_0000_0000_0000, 0x0,                   0,     0x1,                   STACK,    0), // rbit x0, x1
    (0xDAC0_0020, 0xF0E1_D2C3_B4A5_9687, 0x0,                   0,     0xE169_A52D_C34B_870F, STACK,    0), // rbit x0, x1
    (0xDAC0_0420, 0x0,                   0x0,                   0,     0x0,                   STACK,    0), // rev16 x0, x1
    (0xDAC0_0420, 0x1,                   0x0,                   0,     0x100,                 STACK,    0), // rev16 x0, x1
    (0xDAC0_0420, 0xFFFF_FFFF_FFFF_FFFF, 0x0,                   0,     0xFFFF_FFFF_FFFF_FFFF, STACK,    0), // rev16 x0, x1
    (0xDAC0_0420, 0x8000_0000,           0x0,                   0,     0x80_0000,             STACK,    0), // rev16 x0, x1
    (0xDAC0_0420, 0x8000_0000_0000_0000, 0x0,                   0,     0x80_0000_0000_0000,   STACK,    0), // rev16 x0, x1
    (0xDAC0_0420, 0xF0E1_D2C3_B4A5_9687, 0x0,                   0,     0xE1F0_C3D2_A5B4_8796, STACK,    0), // rev16 x0, x1
    (0xDAC0_0C20, 0x0,                   0x0,                   0,     0x0,                   STACK,    0), // rev x0, x1
    (0xDAC0_0C20, 0x1,                   0x0,                   0,     0x100_0000_0000_0000,  STACK,    0), // rev x0, x1
    (0xDAC0_0C20, 0xFFFF_FFFF_FFFF_FFFF, 0x0,                   0,     0xFFFF_FFFF_FFFF_FFFF, STACK,    0), // rev x0, x1
    (0xDAC0_0C20, 0x8000_0000,           0x0,                   0,     0x80_0000_0000,        STACK,    0), // rev x0, x1
    (0xDAC0_0C20, 0x8000_0000_0000_0000, 0x0,                   0,     0x80,                  STACK,    0), // rev x0, x1
    (0xDAC0_0C20, 0xF0E1_D2C3_B4A5_9687, 0x0,                   0,     0x8796_A5B4_C3D2_E1F0, STACK,    0), // rev x0, x1
    (0xDAC0_1020, 0x0,                   0x0,                   0,     0x40,                  STACK,    0), // clz x0, x1
    (0xDAC0_1020, 0x1,                   0x0,                   0,     0x3F,                  STACK,    0), // clz x0, x1
    (0xDAC0_1020, 0xFFFF_FFFF_FFFF_FFFF, 0x0,                   0,     0x0,                   STACK,    0), // clz x0, x1
    (0xDAC0_1020, 0x8000_0000,           0x0,                   0,     0x20,                  STACK,    0), // clz x0, x1
    (0xDAC0_1020, 0x8000_0000_0000_0000, 0x0,                   0,     0x0,                   STACK,    0), // clz x0, x1
    (0xDAC0_1020, 0xF0E1_D2C3_B4A5_9687, 0x0,                   0,     0x0,                   STACK,    0), // clz x0, x1
    (0xDAC0_1420, 0x0,                   0x0,                   0,     0x3F,                  STACK,    0), // cls x0, x1
    (0xDAC0_1420, 0x1,                   0x0,                   0,     0x3E,                  STACK,    0), // cls x0, x1
    (0xDAC0_1420, 0xFFFF_FFFF_FFFF_FFFF, 0x0,                   0,     0x3F,                  STACK,    0), // cls x0, x1
    (0xDAC0_1420, 0x8000_0000,           0x0,                   0,     0x1F,                  STACK,    0), // cls x0, x1
    (0xDAC0_1420, 0x8000_0000_0000_0000, 0x0,                   0,     0x0,                   STACK,    0), // cls x0, x1
    (0xDAC0_1420, 0xF0E1_D2C3_B4A5_9687, 0x0,                   0,     0x3,                   STACK,    0), // cls x0, x1
    (0x1AC2_2020, 0xF0E1_D2C3_B4A5_9687, 0x1F,                  0,     0x8000_0000,           STACK,    0), // lsl w0, w1, w2
    (0x1AC2_2020, 0xF0E1_D2C3_B4A5_9687, 0x20,                  0,     0xB4A5_9687,           STACK,    0), // lsl w0, w1, w2
    (0x1AC2_2020, 0xF0E1_D2C3_B4A5_9687, 0x3F,                  0,     0x8000_0000,           STACK,    0), // lsl w0, w1, w2
    (0x1AC2_2020, 0xF0E1_D2C3_B4A5_9687, 0xFFFF_FFFF_FFFF_FFFF, 0,     0x8000_0000,           STACK,    0), // lsl w0, w1, w2
    (0x1AC2_2420, 0xF0E1_D2C3_B4A5_9687, 0x1F,                  0,     0x1,                   STACK,    0), // lsr w0, w1, w2
    (0x1AC2_2420, 0xF0E1_D2C3_B4A5_9687, 0x20,                  0,     0xB4A5_9687,           STACK,    0), // lsr w0, w1, w2
    (0x1AC2_2420, 0xF0E1_D2C3_B4A5_9687, 0x3F,                  0,     0x1,                   STACK,    0), // lsr w0, w1, w2
    (0x1AC2_2420, 0xF0E1_D2C3_B4A5_9687, 0xFFFF_FFFF_FFFF_FFFF, 0,     0x1,                   STACK,    0), // lsr w0, w1, w2
    (0x1AC2_2820, 0xF0E1_D2C3_B4A5_9687, 0x1F,                  0,     0xFFFF_FFFF,           STACK,    0), // asr w0, w1, w2
    (0x1AC2_2820, 0xF0E1_D2C3_B4A5_9687, 0x20,                  0,     0xB4A5_9687,           STACK,    0), // asr w0, w1, w2
    (0x1AC2_2820, 0xF0E1_D2C3_B4A5_9687, 0x3F,                  0,     0xFFFF_FFFF,           STACK,    0), // asr w0, w1, w2
    (0x1AC2_2820, 0xF0E1_D2C3_B4A5_9687, 0xFFFF_FFFF_FFFF_FFFF, 0,     0xFFFF_FFFF,           STACK,    0), // asr w0, w1, w2
    (0x1AC2_2C20, 0xF0E1_D2C3_B4A5_9687, 0x1F,                  0,     0x694B_2D0F,           STACK,    0), // ror w0, w1, w2
    (0x1AC2_2C20, 0xF0E1_D2C3_B4A5_9687, 0x20,                  0,     0xB4A5_9687,           STACK,    0), // ror w0, w1, w2
    (0x1AC2_2C20, 0xF0E1_D2C3_B4A5_9687, 0x3F,                  0,     0x694B_2D0F,           STACK,    0), // ror w0, w1, w2
    (0x1AC2_2C20, 0xF0E1_D2C3_B4A5_9687, 0xFFFF_FFFF_FFFF_FFFF, 0,     0x694B_2D0F,           STACK,    0), // ror w0, w1, w2
    (0x5AC0_0020, 0x0,                   0x0,                   0,     0x0,                   STACK,    0), // rbit w0, w1
    (0x5AC0_0020, 0x1,                   0x0,                   0,     0x8000_0000,           STACK,    0), // rbit w0, w1
    (0x5AC0_0020, 0xFFFF_FFFF_FFFF_FFFF, 0x0,                   0,     0xFFFF_FFFF,           STACK,    0), // rbit w0, w1
    (0x5AC0_0020, 0x8000_0000,           0x0,                   0,     0x1,                   STACK,    0), // rbit w0, w1
    (0x5AC0_0020, 0x8000_0000_0000_0000, 0x0,                   0,     0x0,                   STACK,    0), // rbit w0, w1
    (0x5AC0_0020, 0xF0E1_D2C3_B4A5_9687, 0x0,                   0,     0xE169_A52D,           STACK,    0), // rbit w0, w1
    (0x5AC0_0420, 0x0,                   0x0,                   0,     0x0,                   STACK,    0), // rev16 w0, w1
    (0x5AC0_0420, 0x1,                   0x0,                   0,     0x100,                 STACK,    0), // rev16 w0, w1
    (0x5AC0_0420, 0xFFFF_FFFF_FFFF_FFFF, 0x0,                   0,     0xFFFF_FFFF,           STACK,    0), // rev16 w0, w1
    (0x5AC0_0420, 0x8000_0000,           0x0,                   0,     0x80_0000,             STACK,    0), // rev16 w0, w1
    (0x5AC0_0420, 0x8000_0000_0000_0000, 0x0,                   0,     0x0,                   STACK,    0), // rev16 w0, w1
    (0x5AC0_0420, 0xF0E1_D2C3_B4A5_9687, 0x0,                   0,     0xA5B4_8796,           STACK,    0), // rev16 w0, w1
    (0x5AC0_0820, 0x0,                   0x0,                   0,     0x0,                   STACK,    0), // rev w0, w1
    (0x5AC0_0820, 0x1,                   0x0,                   0,     0x100_0000,            STACK,    0), // rev w0, w1
    (0x5AC0_0820, 0xFFFF_FFFF_FFFF_FFFF, 0x0,                   0,     0xFFFF_FFFF,           STACK,    0), // rev w0, w1
    (0x5AC0_0820, 0x8000_0000,           0x0,                   0,     0x80,                  STACK,    0), // rev w0, w1
    (0x5AC0_0820, 0x8000_0000_0000_0000, 0x0,                   0,     0x0,                   STACK,    0), // rev w0, w1
    (0x5AC0_0820, 0xF0E1_D2C3_B4A5_9687, 0x0,                   0,     0x8796_A5B4,           STACK,    0), // rev w0, w1
    (0x5AC0_1020, 0x0,                   0x0,                   0,     0x20,                  STACK,    0), // clz w0, w1
    (0x5AC0_1020, 0x1,                   0x0,                   0,     0x1F,                  STACK,    0), // clz w0, w1
    (0x5AC0_1020, 0xFFFF_FFFF_FFFF_FFFF, 0x0,                   0,     0x0,                   STACK,    0), // clz w0, w1
    (0x5AC0_1020, 0x8000_0000,           0x0,                   0,     0x0,                   STACK,    0), // clz w0, w1
    (0x5AC0_1020, 0x8000_0000_0000_0000, 0x0,                   0,     0x20,                  STACK,    0), // clz w0, w1
    (0x5AC0_1020, 0xF0E1_D2C3_B4A5_9687, 0x0,                   0,     0x0,                   STACK,    0), // clz w0, w1
    (0x5AC0_1420, 0x0,                   0x0,                   0,     0x1F,                  STACK,    0), // cls w0, w1
    (0x5AC0_1420, 0x1,                   0x0,                   0,     0x1E,                  STACK,    0), // cls w0, w1
    (0x5AC0_1420, 0xFFFF_FFFF_FFFF_FFFF, 0x0,                   0,     0x1F,                  STACK,    0), // cls w0, w1
    (0x5AC0_1420, 0x8000_0000,           0x0,                   0,     0x0,                   STACK,    0), // cls w0, w1
    (0x5AC0_1420, 0x8000_0000_0000_0000, 0x0,                   0,     0x1F,                  STACK,    0), // cls w0, w1
    (0x5AC0_1420, 0xF0E1_D2C3_B4A5_9687, 0x0,                   0,     0x0,                   STACK,    0), // cls w0, w1
    (0xDAC0_0820, 0x1,                   0x0,                   0,     0x100_0000,            STACK,    0), // rev32 x0, x1
    (0xDAC0_0820, 0xF0E1_D2C3_B4A5_9687, 0x0,                   0,     0xC3D2_E1F0_8796_A5B4, STACK,    0), // rev32 x0, x1
];

#[rattlefmt::skip]
pub(crate) static SPECIAL: [Row; 20] = [
    // word      x1 before  x2 before              flags  x0 after               SP after               flags after
    (0x9100_43E0, 0x11,      0xFFFF_FFFF_0000_0300, 4,     0x8000_0000_0000_1020, STACK,                 4), // add x0, sp, #16
    (0x9100_43FF, 0x11,      0xFFFF_FFFF_0000_0300, 4,     0xFEDC_BA98_7654_3210, 0x8000_0000_0000_1020, 4), // add sp, sp, #16
    (0x5100_043F, 0x11,      0xFFFF_FFFF_0000_0300, 4,     0xFEDC_BA98_7654_3210, 0x10,                  4), // sub wsp, w1, #1
    (0xB100_43E0, 0x11,      0xFFFF_FFFF_0000_0300, 4,     0x8000_0000_0000_1020, STACK,                 8), // adds x0, sp, #16
    (0xB100_43FF, 0x11,      0xFFFF_FFFF_0000_0300, 4,     0xFEDC_BA98_7654_3210, STACK,                 8), // cmn sp, #16
    (0x8B22_083F, 0x11,      0xFFFF_FFFF_0000_0300, 4,     0xFEDC_BA98_7654_3210, 0x11,                  4), // add sp, x1, w2, uxtb #2
    (0xCB22_67E0, 0x11,      0xFFFF_FFFF_0000_0300, 4,     0x8000_0002_0000_0A10, STACK,                 4), // sub x0, sp, x2, lsl #1
    (0xEB22_63FF, 0x11,      0xFFFF_FFFF_0000_0300, 4,     0xFEDC_BA98_7654_3210, STACK,                 8), // subs xzr, sp, x2
    (0x9240_1C3F, 0x11,      0xFFFF_FFFF_0000_0300, 4,     0xFEDC_BA98_7654_3210, 0x11,                  4), // and sp, x1, #0xff
    (0x3200_03FF, 0x11,      0xFFFF_FFFF_0000_0300, 4,     0xFEDC_BA98_7654_3210, 0x1,                   4), // orr wsp, wzr, #1
    (0xF240_1C3F, 0x11,      0xFFFF_FFFF_0000_0300, 4,     0xFEDC_BA98_7654_3210, STACK,                 0), // ands xzr, x1, #0xff
    (0xAA02_03E0, 0x11,      0xFFFF_FFFF_0000_0300, 4,     0xFFFF_FFFF_0000_0300, STACK,                 4), // orr x0, xzr, x2
    (0x8B02_03E0, 0x11,      0xFFFF_FFFF_0000_0300, 4,     0xFFFF_FFFF_0000_0300, STACK,                 4), // add x0, xzr, x2
    (0xD280_003F, 0x11,      0xFFFF_FFFF_0000_0300, 4,     0xFEDC_BA98_7654_3210, STACK,                 4), // movz xzr, #1
    (0x9340_0C3F, 0x11,      0xFFFF_FFFF_0000_0300, 4,     0xFEDC_BA98_7654_3210, STACK,                 4), // sbfm xzr, x1, #0, #3
    (0x9A9F_17E0, 0x11,      0xFFFF_FFFF_0000_0300, 4,     0x1,                   STACK,                 4), // csinc x0, xzr, xzr, ne
    (0x9B02_7C20, 0x11,      0xFFFF_FFFF_0000_0300, 4,     0xFFFF_FFEF_0000_3300, STACK,                 4), // mul x0, x1, x2
    (0x9ADF_0820, 0x11,      0xFFFF_FFFF_0000_0300, 4,     0x0,                   STACK,                 4), // udiv x0, x1, xzr
    (0xDAC0_17E0, 0x11,      0xFFFF_FFFF_0000_0300, 4,     0x3F,                  STACK,                 4), // cls x0, xzr
    (0x93C2_13E0, 0x11,      0xFFFF_FFFF_0000_0300, 4,     0xFFF_FFFF_F000_0030,  STACK,                 4), // extr x0, xzr, x2, #4
];
