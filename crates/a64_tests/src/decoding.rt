use a64_decode::{
    BarrierKind, BitfieldKind, BranchKind, Condition, ExceptionKind, Extend, IndexMode, Instr,
    LiteralKind, LogicalKind, MoveKind, OneSourceKind, Operand, PairKind, ProductKind, PstateField,
    Reg, SelectKind, Shift, Size, Transfer, TwoSourceKind, access_of, decode, extended, loaded,
    low, sign_extend, width,
};
use bao_types::SysId;
use std::process::Abort;

/// What it shows, a word, and its instruction.
type Row = (&'static str, u32, Instr);

/// An offset of -1.
const MINUS_1: u64 = u64::MAX;

#[rattlefmt::skip]
static IMMEDIATES_AND_BRANCHES: [Row; 53] = [
    // shows                                         word         instruction
    // address
    ("adr x1, #5",                                  0x3000_0021, Instr::Address { page: false, offset: 5, rd: Reg(1) }),
    ("adr x30, #-1",                                0x70FF_FFFE, Instr::Address { page: false, offset: MINUS_1, rd: Reg(30) }),
    ("adrp x2, #0x7000",                            0xF000_0022, Instr::Address { page: true, offset: 7, rd: Reg(2) }),
    ("adrp xzr, #-4294967296",                      0x9080_001F, Instr::Address { page: true, offset: MINUS_1 - 0xFFFFF, rd: Reg(31) }),
    // add sub immediate
    ("add x0, x1, #1",                              0x9100_0420, Instr::AddSubImmediate { wide: true, subtract: false, flags: false, shifted: false, imm12: 1, rn: Reg(1), rd: Reg(0) }),
    ("subs w3, wsp, #4095",                         0x713F_FFE3, Instr::AddSubImmediate { wide: false, subtract: true, flags: true, shifted: false, imm12: 4095, rn: Reg(31), rd: Reg(3) }),
    ("sub sp, sp, #2, lsl #12",                     0xD140_0BFF, Instr::AddSubImmediate { wide: true, subtract: true, flags: false, shifted: true, imm12: 2, rn: Reg(31), rd: Reg(31) }),
    ("bit 23 of an addition",                       0x1180_0020, Instr::Undefined),
    // logical immediate
    ("and x4, x1, #0xfffffffffffffff0",             0x927C_EC24, Instr::LogicalImmediate { wide: true, kind: LogicalKind::And, n: 1, immr: 60, imms: 59, rn: Reg(1), rd: Reg(4) }),
    ("orr w0, w1, #0x80000001",                     0x3201_0420, Instr::LogicalImmediate { wide: false, kind: LogicalKind::Orr, n: 0, immr: 1, imms: 1, rn: Reg(1), rd: Reg(0) }),
    ("eor x5, x6, #0x5555555555555555",             0xD200_F0C5, Instr::LogicalImmediate { wide: true, kind: LogicalKind::Eor, n: 0, immr: 0, imms: 60, rn: Reg(6), rd: Reg(5) }),
    ("ands w7, w8, #1",                             0x7200_0107, Instr::LogicalImmediate { wide: false, kind: LogicalKind::Ands, n: 0, immr: 0, imms: 0, rn: Reg(8), rd: Reg(7) }),
    ("64 ones",                                     0x9240_FC20, Instr::Undefined),
    ("N of a 32-bit form",                          0x1240_0020, Instr::Undefined),
    ("32 ones",                                     0x1200_FC20, Instr::Undefined),
    ("2 ones of 2",                                 0x1200_F420, Instr::Undefined),
    // move wide
    ("movn x0, #1",                                 0x9280_0020, Instr::MoveWide { wide: true, kind: MoveKind::Movn, hw: 0, imm16: 1, rd: Reg(0) }),
    ("movz w1, #0xffff, lsl #16",                   0x52BF_FFE1, Instr::MoveWide { wide: false, kind: MoveKind::Movz, hw: 1, imm16: 0xFFFF, rd: Reg(1) }),
    ("movk x2, #0x1234, lsl #48",                   0xF2E2_4682, Instr::MoveWide { wide: true, kind: MoveKind::Movk, hw: 3, imm16: 0x1234, rd: Reg(2) }),
    ("a wide move with opc 1",                      0xB280_0000, Instr::Undefined),
    ("a 32-bit move to bit 32",                     0x52C0_0001, Instr::Undefined),
    // bitfield
    ("sbfm x0, x1, #63, #62",                       0x937F_F820, Instr::Bitfield { wide: true, kind: BitfieldKind::Sbfm, immr: 63, imms: 62, rn: Reg(1), rd: Reg(0) }),
    ("bfm w2, w3, #31, #4",                         0x331F_1062, Instr::Bitfield { wide: false, kind: BitfieldKind::Bfm, immr: 31, imms: 4, rn: Reg(3), rd: Reg(2) }),
    ("ubfm x4, x5, #8, #15",                        0xD348_3CA4, Instr::Bitfield { wide: true, kind: BitfieldKind::Ubfm, immr: 8, imms: 15, rn: Reg(5), rd: Reg(4) }),
    ("a bitfield with opc 3",                       0xF340_0000, Instr::Undefined),
    ("a bitfield with N that isn't sf",             0xD308_0CA4, Instr::Undefined),
    ("a 32-bit bitfield with immr 32",              0x5320_0000, Instr::Undefined),
    ("a 32-bit bitfield with imms 32",              0x5300_8000, Instr::Undefined),
    // extract
    ("extr x0, x1, x2, #63",                        0x93C2_FC20, Instr::Extract { wide: true, rm: Reg(2), imms: 63, rn: Reg(1), rd: Reg(0) }),
    ("extr w3, w4, w5, #31",                        0x1385_7C83, Instr::Extract { wide: false, rm: Reg(5), imms: 31, rn: Reg(4), rd: Reg(3) }),
    ("extr x6, x7, x7, #1",                         0x93C7_04E6, Instr::Extract { wide: true, rm: Reg(7), imms: 1, rn: Reg(7), rd: Reg(6) }),
    ("an extract with N that isn't sf",             0x9382_0020, Instr::Undefined),
    ("a 32-bit extract at 32",                      0x1385_8083, Instr::Undefined),
    ("bit 21 of an extract",                        0x93E2_FC20, Instr::Undefined),
    // branch
    ("b #0",                                        0x1400_0000, Instr::Branch { link: false, offset: 0 }),
    ("b #-4",                                       0x17FF_FFFF, Instr::Branch { link: false, offset: MINUS_1 }),
    ("bl #134217724",                               0x95FF_FFFF, Instr::Branch { link: true, offset: 0x1FFFFFF }),
    // branch conditional
    ("b.eq #8",                                     0x5400_0040, Instr::BranchConditional { offset: 2, condition: Condition::Eq }),
    ("b.le #-1048576",                              0x5480_000D, Instr::BranchConditional { offset: MINUS_1 - 0x3FFFF, condition: Condition::Le }),
    ("b.al #1048572",                               0x547F_FFEE, Instr::BranchConditional { offset: 0x3FFFF, condition: Condition::Al }),
    ("bit 4 of a conditional branch",               0x5400_0050, Instr::Undefined),
    // compare branch
    ("cbz w0, #4",                                  0x3400_0020, Instr::CompareBranch { wide: false, nonzero: false, offset: 1, rt: Reg(0) }),
    ("cbnz x1, #-4",                                0xB5FF_FFE1, Instr::CompareBranch { wide: true, nonzero: true, offset: MINUS_1, rt: Reg(1) }),
    ("cbz xzr, #1048572",                           0xB47F_FFFF, Instr::CompareBranch { wide: true, nonzero: false, offset: 0x3FFFF, rt: Reg(31) }),
    // test branch
    ("tbz w0, #31, #4",                             0x36F8_0020, Instr::TestBranch { bit: 31, nonzero: false, offset: 1, rt: Reg(0) }),
    ("tbnz x1, #63, #-32768",                       0xB7FC_0001, Instr::TestBranch { bit: 63, nonzero: true, offset: MINUS_1 - 0x1FFF, rt: Reg(1) }),
    ("tbz x2, #32, #32764",                         0xB603_FFE2, Instr::TestBranch { bit: 32, nonzero: false, offset: 0x1FFF, rt: Reg(2) }),
    // branch register
    ("br x0",                                       0xD61F_0000, Instr::BranchRegister { kind: BranchKind::Br, rn: Reg(0) }),
    ("blr x17",                                     0xD63F_0220, Instr::BranchRegister { kind: BranchKind::Blr, rn: Reg(17) }),
    ("ret",                                         0xD65F_03C0, Instr::BranchRegister { kind: BranchKind::Ret, rn: Reg(30) }),
    ("a branch with opc 3",                         0xD67F_0000, Instr::Undefined),
    ("bit 0 of a branch",                           0xD61F_0001, Instr::Undefined),
    ("braaz x0",                                    0xD61F_0800, Instr::Undefined),
];

#[test]
fn immediates_and_branches(rt: HostRuntime) {
    check_rows(&rt, IMMEDIATES_AND_BRANCHES.as_slice());
}

#[rattlefmt::skip]
static SYSTEM_WORDS: [Row; 38] = [
    // shows                                         word         instruction
    // exception return
    ("eret",                                        0xD69F_03E0, Instr::ExceptionReturn),
    ("bit 5 of a return",                           0xD69F_03C0, Instr::Undefined),
    ("drps",                                        0xD6BF_03E0, Instr::Undefined),
    // exception
    ("svc #5",                                      0xD400_00A1, Instr::Exception { kind: ExceptionKind::Svc, imm16: 5 }),
    ("hvc #0xffff",                                 0xD41F_FFE2, Instr::Exception { kind: ExceptionKind::Hvc, imm16: 0xFFFF }),
    ("smc #0",                                      0xD400_0003, Instr::Exception { kind: ExceptionKind::Smc, imm16: 0 }),
    ("brk #0x8000",                                 0xD430_0000, Instr::Exception { kind: ExceptionKind::Brk, imm16: 0x8000 }),
    ("a call of no kind",                           0xD400_0000, Instr::Undefined),
    ("a breakpoint of another kind",                0xD420_0001, Instr::Undefined),
    ("hlt #0",                                      0xD440_0000, Instr::Undefined),
    ("bit 2 of a call",                             0xD400_0005, Instr::Undefined),
    // hint
    ("nop",                                         0xD503_201F, Instr::Hint { crm: 0, op2: 0 }),
    ("wfi",                                         0xD503_207F, Instr::Hint { crm: 0, op2: 3 }),
    ("hint #127",                                   0xD503_2FFF, Instr::Hint { crm: 15, op2: 7 }),
    ("bit 0 of a hint",                             0xD503_201E, Instr::Undefined),
    // barrier
    ("clrex",                                       0xD503_3F5F, Instr::Barrier { crm: 15, kind: BarrierKind::Clrex }),
    ("dsb sy",                                      0xD503_3F9F, Instr::Barrier { crm: 15, kind: BarrierKind::Dsb }),
    ("dmb ish",                                     0xD503_3BBF, Instr::Barrier { crm: 11, kind: BarrierKind::Dmb }),
    ("isb",                                         0xD503_3FDF, Instr::Barrier { crm: 15, kind: BarrierKind::Isb }),
    ("a barrier with op2 0",                        0xD503_301F, Instr::Undefined),
    ("a barrier with op2 3",                        0xD503_307F, Instr::Undefined),
    ("sb",                                          0xD503_30FF, Instr::Undefined),
    // msr immediate
    ("msr spsel, #1",                               0xD500_41BF, Instr::MsrImmediate { field: PstateField::SpSel, crm: 1 }),
    ("msr daifset, #15",                            0xD503_4FDF, Instr::MsrImmediate { field: PstateField::DaifSet, crm: 15 }),
    ("msr daifclr, #2",                             0xD503_42FF, Instr::MsrImmediate { field: PstateField::DaifClr, crm: 2 }),
    ("msr pan, #0",                                 0xD500_409F, Instr::Undefined),
    ("op2 5 with op1 3",                            0xD503_41BF, Instr::Undefined),
    ("op2 6 with op1 0",                            0xD500_40DF, Instr::Undefined),
    // system
    ("ic ialluis",                                  0xD508_711F, Instr::System { op1: 0, crn: 7, crm: 1, op2: 0, rt: Reg(31) }),
    ("dc civac, x3",                                0xD50B_7E23, Instr::System { op1: 3, crn: 7, crm: 14, op2: 1, rt: Reg(3) }),
    ("tlbi vmalle1",                                0xD508_871F, Instr::System { op1: 0, crn: 8, crm: 7, op2: 0, rt: Reg(31) }),
    ("dc zva, x0",                                  0xD50B_7420, Instr::Undefined),
    ("at s1e1r, x1",                                0xD508_7801, Instr::Undefined),
    ("sys #0, c9, c0, #0, x0",                      0xD508_9000, Instr::Undefined),
    // system register
    ("mrs x0, S3_0_C0_C0_5",                        0xD538_00A0, Instr::SystemRegister { read: true, id: SysId { op0: 3, op1: 0, crn: 0, crm: 0, op2: 5 }, rt: Reg(0) }),
    ("msr S3_3_C14_C3_1, x7",                       0xD51B_E327, Instr::SystemRegister { read: false, id: SysId { op0: 3, op1: 3, crn: 14, crm: 3, op2: 1 }, rt: Reg(7) }),
    ("mrs xzr, S2_7_C15_C15_7",                     0xD537_FFFF, Instr::SystemRegister { read: true, id: SysId { op0: 2, op1: 7, crn: 15, crm: 15, op2: 7 }, rt: Reg(31) }),
    ("sysl",                                        0xD528_0000, Instr::Undefined),
];

#[test]
fn system_words(rt: HostRuntime) {
    check_rows(&rt, SYSTEM_WORDS.as_slice());
}

#[rattlefmt::skip]
static REGISTERS: [Row; 63] = [
    // shows                                         word         instruction
    // logical shifted
    ("and x0, x1, x2, ror #63",                     0x8AC2_FC20, Instr::LogicalShifted { wide: true, kind: LogicalKind::And, shift: Shift::Ror, invert: false, rm: Reg(2), amount: 63, rn: Reg(1), rd: Reg(0) }),
    ("orn w3, wzr, w4, lsr #31",                    0x2A64_7FE3, Instr::LogicalShifted { wide: false, kind: LogicalKind::Orr, shift: Shift::Lsr, invert: true, rm: Reg(4), amount: 31, rn: Reg(31), rd: Reg(3) }),
    ("eon x5, x6, x7",                              0xCA27_00C5, Instr::LogicalShifted { wide: true, kind: LogicalKind::Eor, shift: Shift::Lsl, invert: true, rm: Reg(7), amount: 0, rn: Reg(6), rd: Reg(5) }),
    ("bics w8, w9, w10, asr #1",                    0x6AAA_0528, Instr::LogicalShifted { wide: false, kind: LogicalKind::Ands, shift: Shift::Asr, invert: true, rm: Reg(10), amount: 1, rn: Reg(9), rd: Reg(8) }),
    ("a 32-bit shift by 32",                        0x0A02_8020, Instr::Undefined),
    ("orr w0, w0, w0, mode 4 of a pair",            0x2A00_0000, Instr::LogicalShifted { wide: false, kind: LogicalKind::Orr, shift: Shift::Lsl, invert: false, rm: Reg(0), amount: 0, rn: Reg(0), rd: Reg(0) }),
    // add sub shifted
    ("add x0, x1, x2",                              0x8B02_0020, Instr::AddSubShifted { wide: true, subtract: false, flags: false, shift: Shift::Lsl, rm: Reg(2), amount: 0, rn: Reg(1), rd: Reg(0) }),
    ("subs w3, w4, w5, asr #31",                    0x6B85_7C83, Instr::AddSubShifted { wide: false, subtract: true, flags: true, shift: Shift::Asr, rm: Reg(5), amount: 31, rn: Reg(4), rd: Reg(3) }),
    ("adds xzr, x6, x7, lsr #32",                   0xAB47_80DF, Instr::AddSubShifted { wide: true, subtract: false, flags: true, shift: Shift::Lsr, rm: Reg(7), amount: 32, rn: Reg(6), rd: Reg(31) }),
    ("a rotation in an addition",                   0x8BC2_0020, Instr::Undefined),
    ("a 32-bit addition shifted by 32",             0x0B02_8020, Instr::Undefined),
    // add sub extended
    ("add sp, sp, x1",                              0x8B21_63FF, Instr::AddSubExtended { wide: true, subtract: false, flags: false, rm: Reg(1), extend: Extend::Uxtx, amount: 0, rn: Reg(31), rd: Reg(31) }),
    ("subs w2, w3, w4, sxtb #4",                    0x6B24_9062, Instr::AddSubExtended { wide: false, subtract: true, flags: true, rm: Reg(4), extend: Extend::Sxtb, amount: 4, rn: Reg(3), rd: Reg(2) }),
    ("sub x5, x6, w7, uxth #1",                     0xCB27_24C5, Instr::AddSubExtended { wide: true, subtract: true, flags: false, rm: Reg(7), extend: Extend::Uxth, amount: 1, rn: Reg(6), rd: Reg(5) }),
    ("an extension shifted by 5",                   0x8B22_7420, Instr::Undefined),
    ("an extension with bit 22, mode 6 of a pair",  0xAB62_2020, Instr::Undefined),
    ("an extension with bit 22",                    0x8B62_2020, Instr::Undefined),
    // add sub carry
    ("adc x0, x1, x2",                              0x9A02_0020, Instr::AddSubCarry { wide: true, subtract: false, flags: false, rm: Reg(2), rn: Reg(1), rd: Reg(0) }),
    ("sbcs w3, wzr, w4",                            0x7A04_03E3, Instr::AddSubCarry { wide: false, subtract: true, flags: true, rm: Reg(4), rn: Reg(31), rd: Reg(3) }),
    ("adcs w5, w6, w7",                             0x3A07_00C5, Instr::AddSubCarry { wide: false, subtract: false, flags: true, rm: Reg(7), rn: Reg(6), rd: Reg(5) }),
    ("bit 10 of an addition with carry",            0x9A02_0420, Instr::Undefined),
    // conditional compare
    ("ccmn x1, #31, #0, eq",                        0xBA5F_0820, Instr::ConditionalCompare { wide: true, subtract: false, operand: Operand::Immediate(31), condition: Condition::Eq, rn: Reg(1), nzcv: 0 }),
    ("ccmp w2, w3, #15, nv",                        0x7A43_F04F, Instr::ConditionalCompare { wide: false, subtract: true, operand: Operand::Register(Reg(3)), condition: Condition::Nv, rn: Reg(2), nzcv: 15 }),
    ("ccmp x4, #0, #4, lt",                         0xFA40_B884, Instr::ConditionalCompare { wide: true, subtract: true, operand: Operand::Immediate(0), condition: Condition::Lt, rn: Reg(4), nzcv: 4 }),
    ("bit 10 of a compare",                         0xBA41_0420, Instr::Undefined),
    ("bit 4 of a compare",                          0xBA41_0030, Instr::Undefined),
    ("a compare without S",                         0x9A41_0820, Instr::Undefined),
    // conditional select
    ("csel x0, x1, x2, hi",                         0x9A82_8020, Instr::ConditionalSelect { wide: true, kind: SelectKind::Csel, rm: Reg(2), condition: Condition::Hi, rn: Reg(1), rd: Reg(0) }),
    ("csinc w3, w4, w5, ls",                        0x1A85_9483, Instr::ConditionalSelect { wide: false, kind: SelectKind::Csinc, rm: Reg(5), condition: Condition::Ls, rn: Reg(4), rd: Reg(3) }),
    ("csinv x6, x7, xzr, ge",                       0xDA9F_A0E6, Instr::ConditionalSelect { wide: true, kind: SelectKind::Csinv, rm: Reg(31), condition: Condition::Ge, rn: Reg(7), rd: Reg(6) }),
    ("csneg w8, w9, w10, mi",                       0x5A8A_4528, Instr::ConditionalSelect { wide: false, kind: SelectKind::Csneg, rm: Reg(10), condition: Condition::Mi, rn: Reg(9), rd: Reg(8) }),
    ("bit 11 of a select",                          0x9A82_0820, Instr::Undefined),
    ("a select with S",                             0xBA82_0020, Instr::Undefined),
    // three sources
    ("madd x0, x1, x2, x3",                         0x9B02_0C20, Instr::ThreeSources { wide: true, kind: ProductKind::Madd, rm: Reg(2), ra: Reg(3), rn: Reg(1), rd: Reg(0) }),
    ("msub w4, w5, w6, wzr",                        0x1B06_FCA4, Instr::ThreeSources { wide: false, kind: ProductKind::Msub, rm: Reg(6), ra: Reg(31), rn: Reg(5), rd: Reg(4) }),
    ("smaddl x7, w8, w9, x10",                      0x9B29_2907, Instr::ThreeSources { wide: true, kind: ProductKind::Smaddl, rm: Reg(9), ra: Reg(10), rn: Reg(8), rd: Reg(7) }),
    ("smsubl x7, w8, w9, x10",                      0x9B29_A907, Instr::ThreeSources { wide: true, kind: ProductKind::Smsubl, rm: Reg(9), ra: Reg(10), rn: Reg(8), rd: Reg(7) }),
    ("umaddl x7, w8, w9, x10",                      0x9BA9_2907, Instr::ThreeSources { wide: true, kind: ProductKind::Umaddl, rm: Reg(9), ra: Reg(10), rn: Reg(8), rd: Reg(7) }),
    ("umsubl x7, w8, w9, x10",                      0x9BA9_A907, Instr::ThreeSources { wide: true, kind: ProductKind::Umsubl, rm: Reg(9), ra: Reg(10), rn: Reg(8), rd: Reg(7) }),
    ("smulh x11, x12, x13",                         0x9B4D_7D8B, Instr::ThreeSources { wide: true, kind: ProductKind::Smulh, rm: Reg(13), ra: Reg(31), rn: Reg(12), rd: Reg(11) }),
    ("umulh x11, x12, x13",                         0x9BCD_7D8B, Instr::ThreeSources { wide: true, kind: ProductKind::Umulh, rm: Reg(13), ra: Reg(31), rn: Reg(12), rd: Reg(11) }),
    ("a 32-bit smaddl",                             0x1B22_0C20, Instr::Undefined),
    ("smulh with o0",                               0x9B42_FC20, Instr::Undefined),
    ("op31 3",                                      0x9B62_0C20, Instr::Undefined),
    // two sources
    ("udiv x0, x1, x2",                             0x9AC2_0820, Instr::TwoSources { wide: true, kind: TwoSourceKind::Udiv, rm: Reg(2), rn: Reg(1), rd: Reg(0) }),
    ("sdiv w3, w4, w5",                             0x1AC5_0C83, Instr::TwoSources { wide: false, kind: TwoSourceKind::Sdiv, rm: Reg(5), rn: Reg(4), rd: Reg(3) }),
    ("lsl x6, x7, x8",                              0x9AC8_20E6, Instr::TwoSources { wide: true, kind: TwoSourceKind::Lslv, rm: Reg(8), rn: Reg(7), rd: Reg(6) }),
    ("lsr w6, w7, w8",                              0x1AC8_24E6, Instr::TwoSources { wide: false, kind: TwoSourceKind::Lsrv, rm: Reg(8), rn: Reg(7), rd: Reg(6) }),
    ("asr x6, x7, x8",                              0x9AC8_28E6, Instr::TwoSources { wide: true, kind: TwoSourceKind::Asrv, rm: Reg(8), rn: Reg(7), rd: Reg(6) }),
    ("ror w6, w7, w8",                              0x1AC8_2CE6, Instr::TwoSources { wide: false, kind: TwoSourceKind::Rorv, rm: Reg(8), rn: Reg(7), rd: Reg(6) }),
    ("opcode 1",                                    0x9AC2_0420, Instr::Undefined),
    ("opcode 12",                                   0x9AC2_3020, Instr::Undefined),
    ("crc32b",                                      0x9AC2_4020, Instr::Undefined),
    // one source
    ("rbit x0, x1",                                 0xDAC0_0020, Instr::OneSource { wide: true, kind: OneSourceKind::Rbit, rn: Reg(1), rd: Reg(0) }),
    ("rev16 w2, w3",                                0x5AC0_0462, Instr::OneSource { wide: false, kind: OneSourceKind::Rev16, rn: Reg(3), rd: Reg(2) }),
    ("rev w4, w5",                                  0x5AC0_08A4, Instr::OneSource { wide: false, kind: OneSourceKind::Rev32, rn: Reg(5), rd: Reg(4) }),
    ("rev32 x4, x5",                                0xDAC0_08A4, Instr::OneSource { wide: true, kind: OneSourceKind::Rev32, rn: Reg(5), rd: Reg(4) }),
    ("rev x6, x7",                                  0xDAC0_0CE6, Instr::OneSource { wide: true, kind: OneSourceKind::Rev64, rn: Reg(7), rd: Reg(6) }),
    ("clz w8, w9",                                  0x5AC0_1128, Instr::OneSource { wide: false, kind: OneSourceKind::Clz, rn: Reg(9), rd: Reg(8) }),
    ("cls x8, x9",                                  0xDAC0_1528, Instr::OneSource { wide: true, kind: OneSourceKind::Cls, rn: Reg(9), rd: Reg(8) }),
    ("a 32-bit rev of 8 bytes",                     0x5AC0_0C20, Instr::Undefined),
    ("opcode 6",                                    0xDAC0_1820, Instr::Undefined),
    ("pacia",                                       0xDAC1_0020, Instr::Undefined),
];

#[test]
fn registers(rt: HostRuntime) {
    check_rows(&rt, REGISTERS.as_slice());
}

#[rattlefmt::skip]
static LOADS_AND_STORES: [Row; 48] = [
    // shows                                         word         instruction
    // load literal
    ("ldr w0, #4",                                  0x1800_0020, Instr::LoadLiteral { kind: LiteralKind::Word, offset: 1, rt: Reg(0) }),
    ("ldr x1, #-4",                                 0x58FF_FFE1, Instr::LoadLiteral { kind: LiteralKind::Double, offset: MINUS_1, rt: Reg(1) }),
    ("ldrsw x2, #1048572",                          0x987F_FFE2, Instr::LoadLiteral { kind: LiteralKind::SignedWord, offset: 0x3FFFF, rt: Reg(2) }),
    ("prfm pldl1keep, #0",                          0xD800_0000, Instr::LoadLiteral { kind: LiteralKind::Prefetch, offset: 0, rt: Reg(0) }),
    ("ldr s0, #4",                                  0x1C00_0020, Instr::Undefined),
    // pair
    ("ldp w0, w1, [x2], #-256",                     0x28E0_0440, Instr::Pair { kind: PairKind::Word, mode: IndexMode::Post, load: true, offset: MINUS_1 - 63, rt2: Reg(1), rn: Reg(2), rt: Reg(0) }),
    ("stp x3, x4, [sp, #504]",                      0xA91F_93E3, Instr::Pair { kind: PairKind::Double, mode: IndexMode::Offset, load: false, offset: 63, rt2: Reg(4), rn: Reg(31), rt: Reg(3) }),
    ("stp x29, x30, [sp, #-16]!",                   0xA9BF_7BFD, Instr::Pair { kind: PairKind::Double, mode: IndexMode::Pre, load: false, offset: MINUS_1 - 1, rt2: Reg(30), rn: Reg(31), rt: Reg(29) }),
    ("ldpsw x5, x6, [x7, #4]",                      0x6940_98E5, Instr::Pair { kind: PairKind::SignedWord, mode: IndexMode::Offset, load: true, offset: 1, rt2: Reg(6), rn: Reg(7), rt: Reg(5) }),
    ("stp x0, x0, [x1]",                            0xA900_0020, Instr::Pair { kind: PairKind::Double, mode: IndexMode::Offset, load: false, offset: 0, rt2: Reg(0), rn: Reg(1), rt: Reg(0) }),
    ("a store of signed words",                     0x6900_1CE5, Instr::Undefined),
    ("ldp x1, x0, [x1]",                            0xA940_0021, Instr::Pair { kind: PairKind::Double, mode: IndexMode::Offset, load: true, offset: 0, rt2: Reg(0), rn: Reg(1), rt: Reg(1) }),
    ("ldp x1, x1, [x2]",                            0xA940_0441, Instr::Undefined),
    ("a pair with opc 3",                           0xE940_0420, Instr::Undefined),
    ("ldnp x0, x1, [x1]",                           0xA840_0420, Instr::Undefined),
    ("stp x1, x0, [x1], #0",                        0xA880_0021, Instr::Undefined),
    ("ldp x0, x1, [x1], #0",                        0xA8C0_0420, Instr::Undefined),
    // load store unsigned
    ("strb w0, [x1, #4095]",                        0x393F_FC20, Instr::LoadStoreUnsigned { size: Size::Byte, transfer: Transfer::Store, imm12: 4095, rn: Reg(1), rt: Reg(0) }),
    ("ldr x2, [sp, #8]",                            0xF940_07E2, Instr::LoadStoreUnsigned { size: Size::Double, transfer: Transfer::Load, imm12: 1, rn: Reg(31), rt: Reg(2) }),
    ("ldrsh x3, [x4, #2]",                          0x7980_0483, Instr::LoadStoreUnsigned { size: Size::Half, transfer: Transfer::LoadSigned, imm12: 1, rn: Reg(4), rt: Reg(3) }),
    ("ldrsb w5, [x6]",                              0x39C0_00C5, Instr::LoadStoreUnsigned { size: Size::Byte, transfer: Transfer::LoadSignedWord, imm12: 0, rn: Reg(6), rt: Reg(5) }),
    ("ldrsw x7, [x8]",                              0xB980_0107, Instr::LoadStoreUnsigned { size: Size::Word, transfer: Transfer::LoadSigned, imm12: 0, rn: Reg(8), rt: Reg(7) }),
    ("prfm pldl1keep, [x0]",                        0xF980_0000, Instr::LoadStoreUnsigned { size: Size::Double, transfer: Transfer::LoadSigned, imm12: 0, rn: Reg(0), rt: Reg(0) }),
    ("a word to 32 bits with its sign",             0xB9C0_0020, Instr::Undefined),
    ("size 3 with opc 3",                           0xF9C0_0020, Instr::Undefined),
    // load store indexed
    ("ldurb w0, [x1, #-1]",                         0x385F_F020, Instr::LoadStoreIndexed { size: Size::Byte, transfer: Transfer::Load, offset: MINUS_1, mode: IndexMode::Offset, rn: Reg(1), rt: Reg(0) }),
    ("str x2, [sp, #-16]!",                         0xF81F_0FE2, Instr::LoadStoreIndexed { size: Size::Double, transfer: Transfer::Store, offset: MINUS_1 - 15, mode: IndexMode::Pre, rn: Reg(31), rt: Reg(2) }),
    ("ldrsw x3, [x4], #255",                        0xB88F_F483, Instr::LoadStoreIndexed { size: Size::Word, transfer: Transfer::LoadSigned, offset: 255, mode: IndexMode::Post, rn: Reg(4), rt: Reg(3) }),
    ("prfum pldl1keep, [x5, #-256]",                0xF890_00A0, Instr::LoadStoreIndexed { size: Size::Double, transfer: Transfer::LoadSigned, offset: MINUS_1 - 255, mode: IndexMode::Offset, rn: Reg(5), rt: Reg(0) }),
    ("str xzr, [sp], #8",                           0xF800_87FF, Instr::LoadStoreIndexed { size: Size::Double, transfer: Transfer::Store, offset: 8, mode: IndexMode::Post, rn: Reg(31), rt: Reg(31) }),
    ("stur x1, [x1]",                               0xF800_0021, Instr::LoadStoreIndexed { size: Size::Double, transfer: Transfer::Store, offset: 0, mode: IndexMode::Offset, rn: Reg(1), rt: Reg(1) }),
    ("sttrb w0, [x1]",                              0x3800_0820, Instr::Undefined),
    ("a prefetch with write-back",                  0xF880_0C20, Instr::Undefined),
    ("ldr x1, [x1], #8",                            0xF840_8421, Instr::Undefined),
    ("str x1, [x1, #0]!",                           0xF800_0C21, Instr::Undefined),
    ("size 2 with opc 3",                           0xB8C0_0020, Instr::Undefined),
    // load store register
    ("ldr x0, [x1, x2]",                            0xF862_6820, Instr::LoadStoreRegister { size: Size::Double, transfer: Transfer::Load, rm: Reg(2), extend: Extend::Uxtx, scaled: false, rn: Reg(1), rt: Reg(0) }),
    ("strh w3, [sp, w4, uxtw #1]",                  0x7824_5BE3, Instr::LoadStoreRegister { size: Size::Half, transfer: Transfer::Store, rm: Reg(4), extend: Extend::Uxtw, scaled: true, rn: Reg(31), rt: Reg(3) }),
    ("ldrsb x5, [x6, w7, sxtw]",                    0x38A7_C8C5, Instr::LoadStoreRegister { size: Size::Byte, transfer: Transfer::LoadSigned, rm: Reg(7), extend: Extend::Sxtw, scaled: false, rn: Reg(6), rt: Reg(5) }),
    ("ldrsh w8, [x9, x10, sxtx #1]",                0x78EA_F928, Instr::LoadStoreRegister { size: Size::Half, transfer: Transfer::LoadSignedWord, rm: Reg(10), extend: Extend::Sxtx, scaled: true, rn: Reg(9), rt: Reg(8) }),
    ("option 0",                                    0xF862_0820, Instr::Undefined),
    ("option 5",                                    0xF862_A820, Instr::Undefined),
    ("bits 11 and 10 both 0",                       0xF862_6020, Instr::Undefined),
    ("a register offset, size 3 with opc 3",        0xF8E2_6820, Instr::Undefined),
    // no row
    ("udf #0",                                      0x0000_0000, Instr::Undefined),
    ("all ones",                                    0xFFFF_FFFF, Instr::Undefined),
    ("fmov s0, #2.0",                               0x1E20_1000, Instr::Undefined),
    ("stxrb w0, w0, [x0]",                          0x0800_7C00, Instr::Undefined),
];

#[test]
fn loads_and_stores(rt: HostRuntime) {
    check_rows(&rt, LOADS_AND_STORES.as_slice());
}

fn check_rows(rt: &impl Abort, rows: &[Row]) {
    for row in rows {
        check_row(rt, row);
    }
}

fn check_row(rt: &impl Abort, row: &Row) {
    let (shows, word, instr) = *row;
    assert_eq!(rt; decode(word), instr, "{shows}");
}

/// Calls on 2^16 words that are spread evenly: each returns, and most words of the table's groups are instructions.
#[test]
fn words_all_over(rt: HostRuntime) {
    let mut defined = 0u32;
    for place in 0..0x1_0000u32 {
        if decode(place * 0x1_0000 + place) != Instr::Undefined && defined < u32::MAX {
            defined += 1;
        }
    }
    assert!(rt; 0 < defined && defined < 0x1_0000);
}

/// What it shows, a load's or store's word, and what the word says of the access: the bytes of an element, store, signed,
/// a register of 64 bits, the register, and whether a syndrome describes it. By "ISS encoding for an exception from a
/// Data Abort" of ARM DDI 0487.
type AccessRow = (&'static str, u32, Option<(u32, bool, bool, bool, u8, bool)>);

#[rattlefmt::skip]
static ACCESSES: [AccessRow; 19] = [
    // shows                            word         bytes store  signed wide   Rt described
    ("ldr w0, #4",                     0x1800_0020, Some((4, false, false, false, 0, true))),
    ("ldr x1, #-4",                    0x58FF_FFE1, Some((8, false, false, true,  1, true))),
    ("ldrsw x2, #1048572",             0x987F_FFE2, Some((4, false, true,  true,  2, true))),
    ("prfm pldl1keep, #0",             0xD800_0000, None),
    ("ldp w0, w1, [x2], #-256",        0x28E0_0440, Some((4, false, false, false, 0, false))),
    ("stp x3, x4, [sp, #504]",         0xA91F_93E3, Some((8, true,  false, true,  3, false))),
    ("ldpsw x5, x6, [x7, #4]",         0x6940_98E5, Some((4, false, true,  true,  5, false))),
    ("strb w0, [x1, #4095]",           0x393F_FC20, Some((1, true,  false, false, 0, true))),
    ("ldr x2, [sp, #8]",               0xF940_07E2, Some((8, false, false, true,  2, true))),
    ("ldrsh x3, [x4, #2]",             0x7980_0483, Some((2, false, true,  true,  3, true))),
    ("ldrsb w5, [x6]",                 0x39C0_00C5, Some((1, false, true,  false, 5, true))),
    ("prfm pldl1keep, [x0]",           0xF980_0000, None),
    ("ldurb w0, [x1, #-1]",            0x385F_F020, Some((1, false, false, false, 0, true))),
    ("str x2, [sp, #-16]!",            0xF81F_0FE2, Some((8, true,  false, true,  2, false))),
    ("ldrsw x3, [x4], #255",           0xB88F_F483, Some((4, false, true,  true,  3, false))),
    ("str xzr, [sp], #8",              0xF800_87FF, Some((8, true,  false, true,  31, false))),
    ("strh w3, [sp, w4, uxtw #1]",     0x7824_5BE3, Some((2, true,  false, false, 3, true))),
    ("ldrsh w8, [x9, x10, sxtx #1]",   0x78EA_F928, Some((2, false, true,  false, 8, true))),
    ("add x0, x1, #1",                 0x9100_0420, None),
];

#[test]
fn accesses(rt: HostRuntime) {
    for row in ACCESSES.as_slice() {
        check_access(&rt, row);
    }
}

fn check_access(rt: &impl Abort, row: &AccessRow) {
    let (shows, word, expected) = *row;
    let seen = access_of(&decode(word)).map(|access| {
        (
            access.size.bytes(),
            access.store,
            access.signed,
            access.wide,
            access.rt.0,
            access.described,
        )
    });
    assert_eq!(rt; seen, expected, "{shows}");
}

/// By "SignExtend" and "ExtendReg" of ARM DDI 0487.
#[test]
fn numbers(rt: HostRuntime) {
    let seen = [
        u64::from(width(true)),
        u64::from(width(false)),
        low(0xFFFF_FFFF_FFFF_FF81, 8),
        sign_extend(8, 0x81),
        extended(Extend::Sxth, 0x1_8000),
        extended(Extend::Uxtw, 0x1_8000_0000),
        loaded(true, true, 16, 0x8000),
        loaded(true, false, 16, 0x8000),
        loaded(false, true, 16, 0x8000),
    ];
    assert_eq!(rt;
        seen,
        [
            64,
            32,
            0x81,
            0xFFFF_FFFF_FFFF_FF81,
            0xFFFF_FFFF_FFFF_8000,
            0x8000_0000,
            0xFFFF_FFFF_FFFF_8000,
            0xFFFF_8000,
            0x8000
        ]
    );
}
