//! The codes of operands, as they stand in a word.
#![tactic(auto, unfolding(a64_decode::specs::Codes::bit, a64_decode::specs::Codes::condition_number, a64_decode::specs::Codes::shift_number, a64_decode::specs::Codes::extend_number, a64_decode::specs::Codes::logical_number, a64_decode::specs::Codes::move_number, a64_decode::specs::Codes::bitfield_number, a64_decode::specs::Codes::branch_number, a64_decode::specs::Codes::barrier_number, a64_decode::specs::Codes::two_source_number, a64_decode::specs::Codes::one_source_number, a64_decode::specs::Codes::literal_number, a64_decode::specs::Codes::pair_number, a64_decode::specs::Codes::mode_number, a64_decode::specs::Codes::index_number, a64_decode::specs::Codes::transfer_number, a64_decode::specs::Codes::select_op, a64_decode::specs::Codes::select_o2, a64_decode::specs::Codes::product_op31, a64_decode::specs::Codes::product_o0, a64_decode::specs::Codes::exception_brk, a64_decode::specs::Codes::exception_ll, a64_decode::specs::Codes::pstate_op1, a64_decode::specs::Codes::pstate_op2, a64_decode::specs::Codes::operand_i, a64_decode::specs::Codes::operand_bits))]

ghost use Rattle.std.specs.Prelude.{◌≡◌, ◌<◌};
ghost use Rattle.a64_decode.specs.Codes.{bit as bit_of, condition_number, shift_number, extend_number, logical_number, move_number, bitfield_number, branch_number, barrier_number, two_source_number, one_source_number, literal_number, pair_number, mode_number, index_number, transfer_number, select_op as select_op_of, select_o2 as select_o2_of, product_op31 as product_op31_of, product_o0 as product_o0_of, exception_brk as exception_brk_of, exception_ll as exception_ll_of, pstate_op1 as pstate_op1_of, pstate_op2 as pstate_op2_of, operand_i as operand_i_of, operand_bits as operand_bits_of};

use a64_decode::{
    BarrierKind, BitfieldKind, BranchKind, Condition, ExceptionKind, Extend, IndexMode,
    LiteralKind, LogicalKind, MoveKind, OneSourceKind, Operand, PairKind, ProductKind, PstateField,
    SelectKind, Shift, Transfer, TwoSourceKind,
};

/// A flag.
pub(crate) fn bit(flag: bool) -> u64
    ensures code { result ≡ bit_of flag }
    ensures bound { result < 2 }
{
    if flag { 1 } else { 0 }
}

pub(crate) fn condition_code(condition: Condition) -> u64
    ensures code { result ≡ condition_number condition }
    ensures bound { result < 16 }
{
    match condition {
        Condition::Eq => 0,
        Condition::Ne => 1,
        Condition::Cs => 2,
        Condition::Cc => 3,
        Condition::Mi => 4,
        Condition::Pl => 5,
        Condition::Vs => 6,
        Condition::Vc => 7,
        Condition::Hi => 8,
        Condition::Ls => 9,
        Condition::Ge => 10,
        Condition::Lt => 11,
        Condition::Gt => 12,
        Condition::Le => 13,
        Condition::Al => 14,
        Condition::Nv => 15,
    }
}

pub(crate) fn shift_code(shift: Shift) -> u64
    ensures code { result ≡ shift_number shift }
    ensures bound { result < 4 }
{
    match shift {
        Shift::Lsl => 0,
        Shift::Lsr => 1,
        Shift::Asr => 2,
        Shift::Ror => 3,
    }
}

pub(crate) fn extend_code(extend: Extend) -> u64
    ensures code { result ≡ extend_number extend }
    ensures bound { result < 8 }
{
    match extend {
        Extend::Uxtb => 0,
        Extend::Uxth => 1,
        Extend::Uxtw => 2,
        Extend::Uxtx => 3,
        Extend::Sxtb => 4,
        Extend::Sxth => 5,
        Extend::Sxtw => 6,
        Extend::Sxtx => 7,
    }
}

pub(crate) fn logical_code(kind: LogicalKind) -> u64
    ensures code { result ≡ logical_number kind }
    ensures bound { result < 4 }
{
    match kind {
        LogicalKind::And => 0,
        LogicalKind::Orr => 1,
        LogicalKind::Eor => 2,
        LogicalKind::Ands => 3,
    }
}

pub(crate) fn wide_move_code(kind: MoveKind) -> u64
    ensures code { result ≡ move_number kind }
    ensures bound { result < 4 }
{
    match kind {
        MoveKind::Movn => 0,
        MoveKind::Movz => 2,
        MoveKind::Movk => 3,
    }
}

pub(crate) fn bitfield_code(kind: BitfieldKind) -> u64
    ensures code { result ≡ bitfield_number kind }
    ensures bound { result < 4 }
{
    match kind {
        BitfieldKind::Sbfm => 0,
        BitfieldKind::Bfm => 1,
        BitfieldKind::Ubfm => 2,
    }
}

pub(crate) fn branch_code(kind: BranchKind) -> u64
    ensures code { result ≡ branch_number kind }
    ensures bound { result < 4 }
{
    match kind {
        BranchKind::Br => 0,
        BranchKind::Blr => 1,
        BranchKind::Ret => 2,
    }
}

pub(crate) fn barrier_code(kind: BarrierKind) -> u64
    ensures code { result ≡ barrier_number kind }
    ensures bound { result < 8 }
{
    match kind {
        BarrierKind::Clrex => 2,
        BarrierKind::Dsb => 4,
        BarrierKind::Dmb => 5,
        BarrierKind::Isb => 6,
    }
}

pub(crate) fn two_source_code(kind: TwoSourceKind) -> u64
    ensures code { result ≡ two_source_number kind }
    ensures bound { result < 64 }
{
    match kind {
        TwoSourceKind::Udiv => 2,
        TwoSourceKind::Sdiv => 3,
        TwoSourceKind::Lslv => 8,
        TwoSourceKind::Lsrv => 9,
        TwoSourceKind::Asrv => 10,
        TwoSourceKind::Rorv => 11,
    }
}

pub(crate) fn one_source_code(kind: OneSourceKind) -> u64
    ensures code { result ≡ one_source_number kind }
    ensures bound { result < 64 }
{
    match kind {
        OneSourceKind::Rbit => 0,
        OneSourceKind::Rev16 => 1,
        OneSourceKind::Rev32 => 2,
        OneSourceKind::Rev64 => 3,
        OneSourceKind::Clz => 4,
        OneSourceKind::Cls => 5,
    }
}

pub(crate) fn literal_code(kind: LiteralKind) -> u64
    ensures code { result ≡ literal_number kind }
    ensures bound { result < 4 }
{
    match kind {
        LiteralKind::Word => 0,
        LiteralKind::Double => 1,
        LiteralKind::SignedWord => 2,
        LiteralKind::Prefetch => 3,
    }
}

pub(crate) fn pair_code(kind: PairKind) -> u64
    ensures code { result ≡ pair_number kind }
    ensures bound { result < 4 }
{
    match kind {
        PairKind::Word => 0,
        PairKind::SignedWord => 1,
        PairKind::Double => 2,
    }
}

/// A pair's mode.
pub(crate) fn mode_code(mode: IndexMode) -> u64
    ensures code { result ≡ mode_number mode }
    ensures bound { result < 8 }
{
    match mode {
        IndexMode::Post => 1,
        IndexMode::Offset => 2,
        IndexMode::Pre => 3,
    }
}

/// Bits 11 and 10 of a load or store at a 9-bit offset.
pub(crate) fn index_code(mode: IndexMode) -> u64
    ensures code { result ≡ index_number mode }
    ensures bound { result < 4 }
{
    match mode {
        IndexMode::Offset => 0,
        IndexMode::Post => 1,
        IndexMode::Pre => 3,
    }
}

pub(crate) fn transfer_code(transfer: Transfer) -> u64
    ensures code { result ≡ transfer_number transfer }
    ensures bound { result < 4 }
{
    match transfer {
        Transfer::Store => 0,
        Transfer::Load => 1,
        Transfer::LoadSigned => 2,
        Transfer::LoadSignedWord => 3,
    }
}

/// Bit op of a conditional select.
pub(crate) fn select_op(kind: SelectKind) -> u64
    ensures code { result ≡ select_op_of kind }
    ensures bound { result < 2 }
{
    match kind {
        SelectKind::Csel | SelectKind::Csinc => 0,
        SelectKind::Csinv | SelectKind::Csneg => 1,
    }
}

/// Bit o2 of a conditional select.
pub(crate) fn select_o2(kind: SelectKind) -> u64
    ensures code { result ≡ select_o2_of kind }
    ensures bound { result < 2 }
{
    match kind {
        SelectKind::Csel | SelectKind::Csinv => 0,
        SelectKind::Csinc | SelectKind::Csneg => 1,
    }
}

/// The bits op31 of a product.
pub(crate) fn product_op31(kind: ProductKind) -> u64
    ensures code { result ≡ product_op31_of kind }
    ensures bound { result < 8 }
{
    match kind {
        ProductKind::Madd | ProductKind::Msub => 0,
        ProductKind::Smaddl | ProductKind::Smsubl => 1,
        ProductKind::Smulh => 2,
        ProductKind::Umaddl | ProductKind::Umsubl => 5,
        ProductKind::Umulh => 6,
    }
}

/// Bit o0 of a product.
pub(crate) fn product_o0(kind: ProductKind) -> u64
    ensures code { result ≡ product_o0_of kind }
    ensures bound { result < 2 }
{
    match kind {
        ProductKind::Madd
        | ProductKind::Smaddl
        | ProductKind::Smulh
        | ProductKind::Umaddl
        | ProductKind::Umulh => 0,
        ProductKind::Msub | ProductKind::Smsubl | ProductKind::Umsubl => 1,
    }
}

/// The bit that BRK alone has.
pub(crate) fn exception_brk(kind: ExceptionKind) -> u64
    ensures code { result ≡ exception_brk_of kind }
    ensures bound { result < 2 }
{
    match kind {
        ExceptionKind::Svc | ExceptionKind::Hvc | ExceptionKind::Smc => 0,
        ExceptionKind::Brk => 1,
    }
}

/// The last two bits of a call.
pub(crate) fn exception_ll(kind: ExceptionKind) -> u64
    ensures code { result ≡ exception_ll_of kind }
    ensures bound { result < 4 }
{
    match kind {
        ExceptionKind::Svc => 1,
        ExceptionKind::Hvc => 2,
        ExceptionKind::Smc => 3,
        ExceptionKind::Brk => 0,
    }
}

/// The bits op1 of a field of PSTATE.
pub(crate) fn pstate_op1(part: PstateField) -> u64
    ensures code { result ≡ pstate_op1_of part }
    ensures bound { result < 8 }
{
    match part {
        PstateField::SpSel => 0,
        PstateField::DaifSet | PstateField::DaifClr => 3,
    }
}

/// The bits op2 of a field of PSTATE.
pub(crate) fn pstate_op2(part: PstateField) -> u64
    ensures code { result ≡ pstate_op2_of part }
    ensures bound { result < 8 }
{
    match part {
        PstateField::SpSel => 5,
        PstateField::DaifSet => 6,
        PstateField::DaifClr => 7,
    }
}

/// Whether the second operand of a conditional compare is a number.
pub(crate) fn operand_i(operand: Operand) -> u64
    ensures code { result ≡ operand_i_of operand }
    ensures bound { result < 2 }
{
    match operand {
        Operand::Register(_) => 0,
        Operand::Immediate(_) => 1,
    }
}

/// The number of the register, or the number itself.
pub(crate) fn operand_bits(operand: Operand) -> u64
    ensures code { result ≡ operand_bits_of operand }
    ensures bound { result < 256 }
{
    match operand {
        Operand::Register(register) => u64::from(register.0),
        Operand::Immediate(number) => u64::from(number),
    }
}
