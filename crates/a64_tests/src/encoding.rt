use a64_decode::{
    BarrierKind, BitfieldKind, BranchKind, Condition, ExceptionKind, Extend, IndexMode, Instr,
    LiteralKind, LogicalKind, MoveKind, OneSourceKind, Operand, PairKind, ProductKind, PstateField,
    Reg, SelectKind, Shift, Size, Transfer, TwoSourceKind, decode,
};
use a64_encode::encode;
use bao_types::SysId;
use std::process::Abort;

/// What it shows, an instruction, and its word.
type Row = (&'static str, Instr, Option<u32>);

/// An offset of -1.
const MINUS_1: u64 = u64::MAX;

/// Words by the manual's encodings (ARM DDI 0487, "A64 Instruction Set Encoding"): each variant, with fields at their
/// bounds.
#[rattlefmt::skip]
static WORDS: [Row; 63] = [
    // shows                                         instruction, word
    ("adr x1, #5",                                Instr::Address { page: false, offset: 5, rd: Reg(1) }, Some(0x3000_0021)),
    ("adrp xzr, #-4294967296",                    Instr::Address { page: true, offset: MINUS_1 - 0xFFFFF, rd: Reg(31) }, Some(0x9080_001F)),
    ("add x0, x1, #1",                            Instr::AddSubImmediate { wide: true, subtract: false, flags: false, shifted: false, imm12: 1, rn: Reg(1), rd: Reg(0) }, Some(0x9100_0420)),
    ("sub sp, sp, #2, lsl #12",                   Instr::AddSubImmediate { wide: true, subtract: true, flags: false, shifted: true, imm12: 2, rn: Reg(31), rd: Reg(31) }, Some(0xD140_0BFF)),
    ("and x4, x1, #0xfffffffffffffff0",           Instr::LogicalImmediate { wide: true, kind: LogicalKind::And, n: 1, immr: 60, imms: 59, rn: Reg(1), rd: Reg(4) }, Some(0x927C_EC24)),
    ("ands w7, w8, #1",                           Instr::LogicalImmediate { wide: false, kind: LogicalKind::Ands, n: 0, immr: 0, imms: 0, rn: Reg(8), rd: Reg(7) }, Some(0x7200_0107)),
    ("movn x0, #1",                               Instr::MoveWide { wide: true, kind: MoveKind::Movn, hw: 0, imm16: 1, rd: Reg(0) }, Some(0x9280_0020)),
    ("movk x2, #0x1234, lsl #48",                 Instr::MoveWide { wide: true, kind: MoveKind::Movk, hw: 3, imm16: 0x1234, rd: Reg(2) }, Some(0xF2E2_4682)),
    ("sbfm x0, x1, #63, #62",                     Instr::Bitfield { wide: true, kind: BitfieldKind::Sbfm, immr: 63, imms: 62, rn: Reg(1), rd: Reg(0) }, Some(0x937F_F820)),
    ("ubfm x4, x5, #8, #15",                      Instr::Bitfield { wide: true, kind: BitfieldKind::Ubfm, immr: 8, imms: 15, rn: Reg(5), rd: Reg(4) }, Some(0xD348_3CA4)),
    ("extr x0, x1, x2, #63",                      Instr::Extract { wide: true, rm: Reg(2), imms: 63, rn: Reg(1), rd: Reg(0) }, Some(0x93C2_FC20)),
    ("extr x6, x7, x7, #1",                       Instr::Extract { wide: true, rm: Reg(7), imms: 1, rn: Reg(7), rd: Reg(6) }, Some(0x93C7_04E6)),
    ("b #0",                                      Instr::Branch { link: false, offset: 0 }, Some(0x1400_0000)),
    ("bl #134217724",                             Instr::Branch { link: true, offset: 0x1FFFFFF }, Some(0x95FF_FFFF)),
    ("b.eq #8",                                   Instr::BranchConditional { offset: 2, condition: Condition::Eq }, Some(0x5400_0040)),
    ("b.al #1048572",                             Instr::BranchConditional { offset: 0x3FFFF, condition: Condition::Al }, Some(0x547F_FFEE)),
    ("cbz w0, #4",                                Instr::CompareBranch { wide: false, nonzero: false, offset: 1, rt: Reg(0) }, Some(0x3400_0020)),
    ("cbz xzr, #1048572",                         Instr::CompareBranch { wide: true, nonzero: false, offset: 0x3FFFF, rt: Reg(31) }, Some(0xB47F_FFFF)),
    ("tbz w0, #31, #4",                           Instr::TestBranch { bit: 31, nonzero: false, offset: 1, rt: Reg(0) }, Some(0x36F8_0020)),
    ("tbz x2, #32, #32764",                       Instr::TestBranch { bit: 32, nonzero: false, offset: 0x1FFF, rt: Reg(2) }, Some(0xB603_FFE2)),
    ("br x0",                                     Instr::BranchRegister { kind: BranchKind::Br, rn: Reg(0) }, Some(0xD61F_0000)),
    ("ret",                                       Instr::BranchRegister { kind: BranchKind::Ret, rn: Reg(30) }, Some(0xD65F_03C0)),
    ("eret",                                      Instr::ExceptionReturn, Some(0xD69F_03E0)),
    ("svc #5",                                    Instr::Exception { kind: ExceptionKind::Svc, imm16: 5 }, Some(0xD400_00A1)),
    ("brk #0x8000",                               Instr::Exception { kind: ExceptionKind::Brk, imm16: 0x8000 }, Some(0xD430_0000)),
    ("nop",                                       Instr::Hint { crm: 0, op2: 0 }, Some(0xD503_201F)),
    ("hint #127",                                 Instr::Hint { crm: 15, op2: 7 }, Some(0xD503_2FFF)),
    ("clrex",                                     Instr::Barrier { crm: 15, kind: BarrierKind::Clrex }, Some(0xD503_3F5F)),
    ("isb",                                       Instr::Barrier { crm: 15, kind: BarrierKind::Isb }, Some(0xD503_3FDF)),
    ("msr spsel, #1",                             Instr::MsrImmediate { field: PstateField::SpSel, crm: 1 }, Some(0xD500_41BF)),
    ("msr daifclr, #2",                           Instr::MsrImmediate { field: PstateField::DaifClr, crm: 2 }, Some(0xD503_42FF)),
    ("ic ialluis",                                Instr::System { op1: 0, crn: 7, crm: 1, op2: 0, rt: Reg(31) }, Some(0xD508_711F)),
    ("tlbi vmalle1",                              Instr::System { op1: 0, crn: 8, crm: 7, op2: 0, rt: Reg(31) }, Some(0xD508_871F)),
    ("mrs x0, S3_0_C0_C0_5",                      Instr::SystemRegister { read: true, id: SysId { op0: 3, op1: 0, crn: 0, crm: 0, op2: 5 }, rt: Reg(0) }, Some(0xD538_00A0)),
    ("mrs xzr, S2_7_C15_C15_7",                   Instr::SystemRegister { read: true, id: SysId { op0: 2, op1: 7, crn: 15, crm: 15, op2: 7 }, rt: Reg(31) }, Some(0xD537_FFFF)),
    ("and x0, x1, x2, ror #63",                   Instr::LogicalShifted { wide: true, kind: LogicalKind::And, shift: Shift::Ror, invert: false, rm: Reg(2), amount: 63, rn: Reg(1), rd: Reg(0) }, Some(0x8AC2_FC20)),
    ("orr w0, w0, w0, mode 4 of a pair",          Instr::LogicalShifted { wide: false, kind: LogicalKind::Orr, shift: Shift::Lsl, invert: false, rm: Reg(0), amount: 0, rn: Reg(0), rd: Reg(0) }, Some(0x2A00_0000)),
    ("add x0, x1, x2",                            Instr::AddSubShifted { wide: true, subtract: false, flags: false, shift: Shift::Lsl, rm: Reg(2), amount: 0, rn: Reg(1), rd: Reg(0) }, Some(0x8B02_0020)),
    ("adds xzr, x6, x7, lsr #32",                 Instr::AddSubShifted { wide: true, subtract: false, flags: true, shift: Shift::Lsr, rm: Reg(7), amount: 32, rn: Reg(6), rd: Reg(31) }, Some(0xAB47_80DF)),
    ("add sp, sp, x1",                            Instr::AddSubExtended { wide: true, subtract: false, flags: false, rm: Reg(1), extend: Extend::Uxtx, amount: 0, rn: Reg(31), rd: Reg(31) }, Some(0x8B21_63FF)),
    ("sub x5, x6, w7, uxth #1",                   Instr::AddSubExtended { wide: true, subtract: true, flags: false, rm: Reg(7), extend: Extend::Uxth, amount: 1, rn: Reg(6), rd: Reg(5) }, Some(0xCB27_24C5)),
    ("adc x0, x1, x2",                            Instr::AddSubCarry { wide: true, subtract: false, flags: false, rm: Reg(2), rn: Reg(1), rd: Reg(0) }, Some(0x9A02_0020)),
    ("adcs w5, w6, w7",                           Instr::AddSubCarry { wide: false, subtract: false, flags: true, rm: Reg(7), rn: Reg(6), rd: Reg(5) }, Some(0x3A07_00C5)),
    ("ccmn x1, #31, #0, eq",                      Instr::ConditionalCompare { wide: true, subtract: false, operand: Operand::Immediate(31), condition: Condition::Eq, rn: Reg(1), nzcv: 0 }, Some(0xBA5F_0820)),
    ("ccmp x4, #0, #4, lt",                       Instr::ConditionalCompare { wide: true, subtract: true, operand: Operand::Immediate(0), condition: Condition::Lt, rn: Reg(4), nzcv: 4 }, Some(0xFA40_B884)),
    ("csel x0, x1, x2, hi",                       Instr::ConditionalSelect { wide: true, kind: SelectKind::Csel, rm: Reg(2), condition: Condition::Hi, rn: Reg(1), rd: Reg(0) }, Some(0x9A82_8020)),
    ("csneg w8, w9, w10, mi",                     Instr::ConditionalSelect { wide: false, kind: SelectKind::Csneg, rm: Reg(10), condition: Condition::Mi, rn: Reg(9), rd: Reg(8) }, Some(0x5A8A_4528)),
    ("madd x0, x1, x2, x3",                       Instr::ThreeSources { wide: true, kind: ProductKind::Madd, rm: Reg(2), ra: Reg(3), rn: Reg(1), rd: Reg(0) }, Some(0x9B02_0C20)),
    ("umulh x11, x12, x13",                       Instr::ThreeSources { wide: true, kind: ProductKind::Umulh, rm: Reg(13), ra: Reg(31), rn: Reg(12), rd: Reg(11) }, Some(0x9BCD_7D8B)),
    ("udiv x0, x1, x2",                           Instr::TwoSources { wide: true, kind: TwoSourceKind::Udiv, rm: Reg(2), rn: Reg(1), rd: Reg(0) }, Some(0x9AC2_0820)),
    ("ror w6, w7, w8",                            Instr::TwoSources { wide: false, kind: TwoSourceKind::Rorv, rm: Reg(8), rn: Reg(7), rd: Reg(6) }, Some(0x1AC8_2CE6)),
    ("rbit x0, x1",                               Instr::OneSource { wide: true, kind: OneSourceKind::Rbit, rn: Reg(1), rd: Reg(0) }, Some(0xDAC0_0020)),
    ("cls x8, x9",                                Instr::OneSource { wide: true, kind: OneSourceKind::Cls, rn: Reg(9), rd: Reg(8) }, Some(0xDAC0_1528)),
    ("ldr w0, #4",                                Instr::LoadLiteral { kind: LiteralKind::Word, offset: 1, rt: Reg(0) }, Some(0x1800_0020)),
    ("prfm pldl1keep, #0",                        Instr::LoadLiteral { kind: LiteralKind::Prefetch, offset: 0, rt: Reg(0) }, Some(0xD800_0000)),
    ("ldp w0, w1, [x2], #-256",                   Instr::Pair { kind: PairKind::Word, mode: IndexMode::Post, load: true, offset: MINUS_1 - 63, rt2: Reg(1), rn: Reg(2), rt: Reg(0) }, Some(0x28E0_0440)),
    ("ldp x1, x0, [x1]",                          Instr::Pair { kind: PairKind::Double, mode: IndexMode::Offset, load: true, offset: 0, rt2: Reg(0), rn: Reg(1), rt: Reg(1) }, Some(0xA940_0021)),
    ("strb w0, [x1, #4095]",                      Instr::LoadStoreUnsigned { size: Size::Byte, transfer: Transfer::Store, imm12: 4095, rn: Reg(1), rt: Reg(0) }, Some(0x393F_FC20)),
    ("prfm pldl1keep, [x0]",                      Instr::LoadStoreUnsigned { size: Size::Double, transfer: Transfer::LoadSigned, imm12: 0, rn: Reg(0), rt: Reg(0) }, Some(0xF980_0000)),
    ("ldurb w0, [x1, #-1]",                       Instr::LoadStoreIndexed { size: Size::Byte, transfer: Transfer::Load, offset: MINUS_1, mode: IndexMode::Offset, rn: Reg(1), rt: Reg(0) }, Some(0x385F_F020)),
    ("stur x1, [x1]",                             Instr::LoadStoreIndexed { size: Size::Double, transfer: Transfer::Store, offset: 0, mode: IndexMode::Offset, rn: Reg(1), rt: Reg(1) }, Some(0xF800_0021)),
    ("ldr x0, [x1, x2]",                          Instr::LoadStoreRegister { size: Size::Double, transfer: Transfer::Load, rm: Reg(2), extend: Extend::Uxtx, scaled: false, rn: Reg(1), rt: Reg(0) }, Some(0xF862_6820)),
    ("ldrsh w8, [x9, x10, sxtx #1]",              Instr::LoadStoreRegister { size: Size::Half, transfer: Transfer::LoadSignedWord, rm: Reg(10), extend: Extend::Sxtx, scaled: true, rn: Reg(9), rt: Reg(8) }, Some(0x78EA_F928)),
];

/// What it shows, and an instruction that has no word: each variant that can be one, with a field one past its bound or
/// fields that no word has together.
type Unwritable = (&'static str, Instr);

#[rattlefmt::skip]
static WITHOUT_A_WORD: [Unwritable; 40] = [
    ("undefined",                                 Instr::Undefined),
    ("an address of 2^20 bytes",                  Instr::Address { page: false, offset: 0x10_0000, rd: Reg(0) }),
    ("register 32",                               Instr::Address { page: false, offset: 0, rd: Reg(32) }),
    ("an immediate of 4096",                      Instr::AddSubImmediate { wide: true, subtract: false, flags: false, shifted: false, imm12: 4096, rn: Reg(0), rd: Reg(0) }),
    ("a reserved bitmask",                        Instr::LogicalImmediate { wide: true, kind: LogicalKind::And, n: 1, immr: 0, imms: 63, rn: Reg(0), rd: Reg(0) }),
    ("immr 64",                                   Instr::LogicalImmediate { wide: true, kind: LogicalKind::And, n: 0, immr: 64, imms: 0, rn: Reg(0), rd: Reg(0) }),
    ("a 32-bit move to bit 32",                   Instr::MoveWide { wide: false, kind: MoveKind::Movz, hw: 2, imm16: 0, rd: Reg(0) }),
    ("a move to bit 64",                          Instr::MoveWide { wide: true, kind: MoveKind::Movz, hw: 4, imm16: 0, rd: Reg(0) }),
    ("a 32-bit bitfield with immr 32",            Instr::Bitfield { wide: false, kind: BitfieldKind::Ubfm, immr: 32, imms: 0, rn: Reg(0), rd: Reg(0) }),
    ("a 32-bit extract at 32",                    Instr::Extract { wide: false, rm: Reg(0), imms: 32, rn: Reg(0), rd: Reg(0) }),
    ("a branch by 2^25 words",                    Instr::Branch { link: false, offset: 0x200_0000 }),
    ("a branch back by 2^25 + 1 words",           Instr::Branch { link: false, offset: MINUS_1 - 0x200_0000 }),
    ("a conditional branch by 2^18 words",        Instr::BranchConditional { offset: 0x4_0000, condition: Condition::Eq }),
    ("a compare and branch by 2^18 words",        Instr::CompareBranch { wide: true, nonzero: false, offset: 0x4_0000, rt: Reg(0) }),
    ("a test and branch by 2^13 words",           Instr::TestBranch { bit: 0, nonzero: false, offset: 0x2000, rt: Reg(0) }),
    ("a test of bit 64",                          Instr::TestBranch { bit: 64, nonzero: false, offset: 0, rt: Reg(0) }),
    ("a branch to register 32",                   Instr::BranchRegister { kind: BranchKind::Br, rn: Reg(32) }),
    ("a hint with op2 8",                         Instr::Hint { crm: 0, op2: 8 }),
    ("a barrier with CRm 16",                     Instr::Barrier { crm: 16, kind: BarrierKind::Dsb }),
    ("a PSTATE field with CRm 16",                Instr::MsrImmediate { field: PstateField::DaifSet, crm: 16 }),
    ("SYS with CRn 6",                            Instr::System { op1: 0, crn: 6, crm: 0, op2: 0, rt: Reg(0) }),
    ("op0 1",                                     Instr::SystemRegister { read: true, id: SysId { op0: 1, op1: 0, crn: 0, crm: 0, op2: 0 }, rt: Reg(0) }),
    ("op0 4",                                     Instr::SystemRegister { read: true, id: SysId { op0: 4, op1: 0, crn: 0, crm: 0, op2: 0 }, rt: Reg(0) }),
    ("a 32-bit shift by 32",                      Instr::LogicalShifted { wide: false, kind: LogicalKind::And, shift: Shift::Lsl, invert: false, rm: Reg(0), amount: 32, rn: Reg(0), rd: Reg(0) }),
    ("a rotated operand of an addition",          Instr::AddSubShifted { wide: true, subtract: false, flags: false, shift: Shift::Ror, rm: Reg(0), amount: 0, rn: Reg(0), rd: Reg(0) }),
    ("an extended operand shifted by 5",          Instr::AddSubExtended { wide: true, subtract: false, flags: false, rm: Reg(0), extend: Extend::Uxtx, amount: 5, rn: Reg(0), rd: Reg(0) }),
    ("carry with register 32",                    Instr::AddSubCarry { wide: true, subtract: false, flags: false, rm: Reg(32), rn: Reg(0), rd: Reg(0) }),
    ("a compare with 32",                         Instr::ConditionalCompare { wide: true, subtract: true, operand: Operand::Immediate(32), condition: Condition::Eq, rn: Reg(0), nzcv: 0 }),
    ("a select of register 32",                   Instr::ConditionalSelect { wide: true, kind: SelectKind::Csel, rm: Reg(0), condition: Condition::Eq, rn: Reg(32), rd: Reg(0) }),
    ("a 32-bit high product",                     Instr::ThreeSources { wide: false, kind: ProductKind::Umulh, rm: Reg(0), ra: Reg(0), rn: Reg(0), rd: Reg(0) }),
    ("a quotient in register 32",                 Instr::TwoSources { wide: true, kind: TwoSourceKind::Udiv, rm: Reg(0), rn: Reg(0), rd: Reg(32) }),
    ("a 32-bit reversal of 8 bytes",              Instr::OneSource { wide: false, kind: OneSourceKind::Rev64, rn: Reg(0), rd: Reg(0) }),
    ("a literal at 2^18 words",                   Instr::LoadLiteral { kind: LiteralKind::Word, offset: 0x4_0000, rt: Reg(0) }),
    ("a pair at 64 elements",                     Instr::Pair { kind: PairKind::Double, mode: IndexMode::Offset, load: true, offset: 64, rt2: Reg(1), rn: Reg(2), rt: Reg(0) }),
    ("a store of signed words",                   Instr::Pair { kind: PairKind::SignedWord, mode: IndexMode::Offset, load: false, offset: 0, rt2: Reg(1), rn: Reg(2), rt: Reg(0) }),
    ("a pair of one register",                    Instr::Pair { kind: PairKind::Double, mode: IndexMode::Offset, load: true, offset: 0, rt2: Reg(0), rn: Reg(2), rt: Reg(0) }),
    ("a load at 4096 elements",                   Instr::LoadStoreUnsigned { size: Size::Double, transfer: Transfer::Load, imm12: 4096, rn: Reg(1), rt: Reg(0) }),
    ("a write-back to what is loaded",            Instr::LoadStoreIndexed { size: Size::Double, transfer: Transfer::Load, offset: 8, mode: IndexMode::Pre, rn: Reg(1), rt: Reg(1) }),
    ("an offset of 256",                          Instr::LoadStoreIndexed { size: Size::Byte, transfer: Transfer::Store, offset: 256, mode: IndexMode::Post, rn: Reg(1), rt: Reg(0) }),
    ("an offset extended by UXTB",                Instr::LoadStoreRegister { size: Size::Double, transfer: Transfer::Load, rm: Reg(1), extend: Extend::Uxtb, scaled: false, rn: Reg(2), rt: Reg(0) }),
];

#[test]
fn words(rt: HostRuntime) {
    for row in WORDS.as_slice() {
        check_word(&rt, row);
    }
}

fn check_word(rt: &impl Abort, row: &Row) {
    let (shows, instr, word) = *row;
    assert_eq!(rt; encode(&instr), word, "{shows}");
}

#[test]
fn without_a_word(rt: HostRuntime) {
    for row in WITHOUT_A_WORD.as_slice() {
        check_none(&rt, row);
    }
}

fn check_none(rt: &impl Abort, row: &Unwritable) {
    let (shows, instr) = *row;
    assert_eq!(rt; encode(&instr), None, "{shows}");
}

/// Of 2^16 words that are spread evenly, each that is an instruction is its word.
#[test]
fn words_all_over(rt: HostRuntime) {
    for place in 0..0x1_0000u32 {
        check_returns(&rt, place * 0x1_0000 + place);
    }
}

fn check_returns(rt: &impl Abort, word: u32) {
    let instr = decode(word);
    let expected = if instr == Instr::Undefined {
        None
    } else {
        Some(word)
    };
    assert_eq!(rt; encode(&instr), expected, "{word}");
}
