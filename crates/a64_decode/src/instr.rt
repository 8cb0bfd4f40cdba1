use crate::operand::{
    BarrierKind, BitfieldKind, BranchKind, Condition, ExceptionKind, Extend, IndexMode,
    LiteralKind, LogicalKind, MoveKind, OneSourceKind, Operand, PairKind, ProductKind, PstateField,
    Reg, SelectKind, Shift, Size, Transfer, TwoSourceKind,
};
use bao_types::SysId;

/// An A64 instruction of the base integer set: one variant for each row of the table of words, with all that varies
/// in the word, and `Undefined` for every other word.
///
/// `wide` is the word's bit sf: whether the form works on 64 bits. An `offset` is sign-extended to 64 bits, in two's
/// complement; it isn't scaled.
#[derive(Clone, Copy, Debug, PartialEq, Eq)]
pub enum Instr {
    /// ADR, and ADRP with `page`, whose offset counts pages of 4096 bytes.
    Address {
        page: bool,
        offset: u64,
        rd: Reg,
    },
    /// ADD, ADDS, SUB and SUBS of a 12-bit number, shifted by 12 with `shifted`.
    AddSubImmediate {
        wide: bool,
        subtract: bool,
        flags: bool,
        shifted: bool,
        imm12: u16,
        rn: Reg,
        rd: Reg,
    },
    /// AND, ORR, EOR and ANDS of the bitmask that N, immr and imms spell.
    LogicalImmediate {
        wide: bool,
        kind: LogicalKind,
        n: u8,
        immr: u8,
        imms: u8,
        rn: Reg,
        rd: Reg,
    },
    /// MOVN, MOVZ and MOVK of 16 bits at bit 16 times `hw`.
    MoveWide {
        wide: bool,
        kind: MoveKind,
        hw: u8,
        imm16: u16,
        rd: Reg,
    },
    /// SBFM, BFM and UBFM.
    Bitfield {
        wide: bool,
        kind: BitfieldKind,
        immr: u8,
        imms: u8,
        rn: Reg,
        rd: Reg,
    },
    /// EXTR.
    Extract {
        wide: bool,
        rm: Reg,
        imms: u8,
        rn: Reg,
        rd: Reg,
    },
    /// B, and BL with `link`. The offset counts words.
    Branch {
        link: bool,
        offset: u64,
    },
    /// B.cond. The offset counts words.
    BranchConditional {
        offset: u64,
        condition: Condition,
    },
    /// CBZ, and CBNZ with `nonzero`. The offset counts words.
    CompareBranch {
        wide: bool,
        nonzero: bool,
        offset: u64,
        rt: Reg,
    },
    /// TBZ, and TBNZ with `nonzero`, of a bit from 0 to 63. The offset counts words.
    TestBranch {
        bit: u8,
        nonzero: bool,
        offset: u64,
        rt: Reg,
    },
    /// BR, BLR and RET.
    BranchRegister {
        kind: BranchKind,
        rn: Reg,
    },
    /// ERET.
    ExceptionReturn,
    /// SVC, HVC, SMC and BRK.
    Exception {
        kind: ExceptionKind,
        imm16: u16,
    },
    /// The hints, NOP, WFE and WFI among them, by CRm and op2.
    Hint {
        crm: u8,
        op2: u8,
    },
    /// CLREX, DSB, DMB and ISB.
    Barrier {
        crm: u8,
        kind: BarrierKind,
    },
    /// MSR of a field of PSTATE.
    MsrImmediate {
        field: PstateField,
        crm: u8,
    },
    /// SYS, cache and TLB maintenance among them.
    System {
        op1: u8,
        crn: u8,
        crm: u8,
        op2: u8,
        rt: Reg,
    },
    /// MSR of a register, and MRS with `read`.
    SystemRegister {
        read: bool,
        id: SysId,
        rt: Reg,
    },
    /// AND, ORR, EOR and ANDS, and with `invert` BIC, ORN, EON and BICS, of a shifted register.
    LogicalShifted {
        wide: bool,
        kind: LogicalKind,
        shift: Shift,
        invert: bool,
        rm: Reg,
        amount: u8,
        rn: Reg,
        rd: Reg,
    },
    /// ADD, ADDS, SUB and SUBS of a shifted register; the shift is never ROR.
    AddSubShifted {
        wide: bool,
        subtract: bool,
        flags: bool,
        shift: Shift,
        rm: Reg,
        amount: u8,
        rn: Reg,
        rd: Reg,
    },
    /// ADD, ADDS, SUB and SUBS of an extended register, shifted left by 0 to 4.
    AddSubExtended {
        wide: bool,
        subtract: bool,
        flags: bool,
        rm: Reg,
        extend: Extend,
        amount: u8,
        rn: Reg,
        rd: Reg,
    },
    /// ADC, ADCS, SBC and SBCS.
    AddSubCarry {
        wide: bool,
        subtract: bool,
        flags: bool,
        rm: Reg,
        rn: Reg,
        rd: Reg,
    },
    /// CCMN, and CCMP with `subtract`. The flags are `nzcv` where the condition fails.
    ConditionalCompare {
        wide: bool,
        subtract: bool,
        operand: Operand,
        condition: Condition,
        rn: Reg,
        nzcv: u8,
    },
    /// CSEL, CSINC, CSINV and CSNEG.
    ConditionalSelect {
        wide: bool,
        kind: SelectKind,
        rm: Reg,
        condition: Condition,
        rn: Reg,
        rd: Reg,
    },
    /// MADD and MSUB; in the 64-bit form also the products of 32-bit registers, and the high halves of products.
    ThreeSources {
        wide: bool,
        kind: ProductKind,
        rm: Reg,
        ra: Reg,
        rn: Reg,
        rd: Reg,
    },
    /// UDIV, SDIV, and shifts by a register.
    TwoSources {
        wide: bool,
        kind: TwoSourceKind,
        rm: Reg,
        rn: Reg,
        rd: Reg,
    },
    /// RBIT, REV16, REV32, REV, CLZ and CLS.
    OneSource {
        wide: bool,
        kind: OneSourceKind,
        rn: Reg,
        rd: Reg,
    },
    /// LDR and LDRSW of a word of the program, and a prefetch. The offset counts words.
    LoadLiteral {
        kind: LiteralKind,
        offset: u64,
        rt: Reg,
    },
    /// LDP, STP and LDPSW. The offset counts elements.
    Pair {
        kind: PairKind,
        mode: IndexMode,
        load: bool,
        offset: u64,
        rt2: Reg,
        rn: Reg,
        rt: Reg,
    },
    /// Loads and stores at a register plus `imm12`, which counts elements.
    LoadStoreUnsigned {
        size: Size,
        transfer: Transfer,
        imm12: u16,
        rn: Reg,
        rt: Reg,
    },
    /// Loads and stores at a register plus an offset in bytes, with or without write-back.
    LoadStoreIndexed {
        size: Size,
        transfer: Transfer,
        offset: u64,
        mode: IndexMode,
        rn: Reg,
        rt: Reg,
    },
    /// Loads and stores at a register plus another one, extended, and with `scaled` shifted left by the size.
    LoadStoreRegister {
        size: Size,
        transfer: Transfer,
        rm: Reg,
        extend: Extend,
        scaled: bool,
        rn: Reg,
        rt: Reg,
    },
    /// Every other word.
    Undefined,
}
