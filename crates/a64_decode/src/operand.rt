//! What the fields of a word stand for.

/// A general register by its number, 0 to 31. Whether 31 is the zero register or SP is the instruction's to say.
#[derive(Clone, Copy, Debug, PartialEq, Eq)]
pub struct Reg(pub u8);

/// The conditions, by their encoding from 0 on. AL and NV always hold.
#[derive(Clone, Copy, Debug, PartialEq, Eq)]
pub enum Condition {
    Eq,
    Ne,
    Cs,
    Cc,
    Mi,
    Pl,
    Vs,
    Vc,
    Hi,
    Ls,
    Ge,
    Lt,
    Gt,
    Le,
    Al,
    Nv,
}

/// How an operand is shifted, by the encoding from 0 on.
#[derive(Clone, Copy, Debug, PartialEq, Eq)]
pub enum Shift {
    Lsl,
    Lsr,
    Asr,
    Ror,
}

/// How an operand is extended, by the encoding (option) from 0 on.
#[derive(Clone, Copy, Debug, PartialEq, Eq)]
pub enum Extend {
    Uxtb,
    Uxth,
    Uxtw,
    Uxtx,
    Sxtb,
    Sxth,
    Sxtw,
    Sxtx,
}

/// The logical operations, by opc from 0 on. ANDS sets the flags.
#[derive(Clone, Copy, Debug, PartialEq, Eq)]
pub enum LogicalKind {
    And,
    Orr,
    Eor,
    Ands,
}

/// The wide moves: opc 0, 2 and 3.
#[derive(Clone, Copy, Debug, PartialEq, Eq)]
pub enum MoveKind {
    Movn,
    Movz,
    Movk,
}

/// The bitfield moves, by opc from 0 on.
#[derive(Clone, Copy, Debug, PartialEq, Eq)]
pub enum BitfieldKind {
    Sbfm,
    Bfm,
    Ubfm,
}

/// The branches to a register, by opc from 0 on.
#[derive(Clone, Copy, Debug, PartialEq, Eq)]
pub enum BranchKind {
    Br,
    Blr,
    Ret,
}

/// The instructions that make an exception.
#[derive(Clone, Copy, Debug, PartialEq, Eq)]
pub enum ExceptionKind {
    Svc,
    Hvc,
    Smc,
    Brk,
}

/// The barriers: op2 2, 4, 5 and 6.
#[derive(Clone, Copy, Debug, PartialEq, Eq)]
pub enum BarrierKind {
    Clrex,
    Dsb,
    Dmb,
    Isb,
}

/// The fields of PSTATE that an immediate can be written to.
#[derive(Clone, Copy, Debug, PartialEq, Eq)]
pub enum PstateField {
    /// Bit 0 of the immediate selects the stack pointer.
    SpSel,
    /// The immediate's bits mask D, A, I and F.
    DaifSet,
    /// The immediate's bits unmask D, A, I and F.
    DaifClr,
}

/// The second operand of a conditional compare.
#[derive(Clone, Copy, Debug, PartialEq, Eq)]
pub enum Operand {
    Register(Reg),
    /// A number from 0 to 31.
    Immediate(u8),
}

/// The conditional selects, by op and o2.
#[derive(Clone, Copy, Debug, PartialEq, Eq)]
pub enum SelectKind {
    Csel,
    Csinc,
    Csinv,
    Csneg,
}

/// The products.
#[derive(Clone, Copy, Debug, PartialEq, Eq)]
pub enum ProductKind {
    Madd,
    Msub,
    Smaddl,
    Smsubl,
    Smulh,
    Umaddl,
    Umsubl,
    Umulh,
}

/// The operations on two registers: opcode 2, 3, and 8 to 11.
#[derive(Clone, Copy, Debug, PartialEq, Eq)]
pub enum TwoSourceKind {
    Udiv,
    Sdiv,
    Lslv,
    Lsrv,
    Asrv,
    Rorv,
}

/// The operations on one register.
#[derive(Clone, Copy, Debug, PartialEq, Eq)]
pub enum OneSourceKind {
    Rbit,
    /// Reverses the bytes of each half word.
    Rev16,
    /// Reverses the bytes of each word: REV of the 32-bit form, REV32 of the 64-bit form.
    Rev32,
    /// Reverses all eight bytes: REV of the 64-bit form.
    Rev64,
    Clz,
    Cls,
}

/// The loads of a literal, by opc from 0 on.
#[derive(Clone, Copy, Debug, PartialEq, Eq)]
pub enum LiteralKind {
    /// LDR of a W register.
    Word,
    /// LDR of an X register.
    Double,
    /// LDRSW.
    SignedWord,
    /// PRFM, which does nothing.
    Prefetch,
}

/// The elements of a pair, by opc from 0 on.
#[derive(Clone, Copy, Debug, PartialEq, Eq)]
pub enum PairKind {
    /// W registers.
    Word,
    /// Words that are loaded to X registers with their sign (LDPSW).
    SignedWord,
    /// X registers.
    Double,
}

/// How the base register and the offset give the address.
#[derive(Clone, Copy, Debug, PartialEq, Eq)]
pub enum IndexMode {
    /// The access is at the base, to which the offset is added afterwards.
    Post,
    /// The access is at base plus offset; the base stays.
    Offset,
    /// The access is at base plus offset, which the base becomes.
    Pre,
}

/// The width of an access, by the encoding from 0 on: 1, 2, 4 or 8 bytes.
#[derive(Clone, Copy, Debug, PartialEq, Eq)]
pub enum Size {
    Byte,
    Half,
    Word,
    Double,
}

/// What a single load or store does, by opc from 0 on. A signed load of [`Size::Double`] to 64 bits is a prefetch,
/// which does nothing.
#[derive(Clone, Copy, Debug, PartialEq, Eq)]
pub enum Transfer {
    Store,
    /// A load with zeros above.
    Load,
    /// A load that is sign-extended to 64 bits.
    LoadSigned,
    /// A load that is sign-extended to 32 bits, with zeros above.
    LoadSignedWord,
}
