//! The word of an instruction, by its row of the table.
#![tactic(auto)]

ghost use Rattle.std.specs.Prelude.{◌≡◌, ◌≢◌, ◌+◌, ◌*◌, ◌^◌, ◌<◌, ◌≤◌, IsTrue};
ghost use Rattle.a64_decode.specs.declared.instr.Instr.TheVariants.{Undefined};
ghost use Rattle.a64_decode.specs.Codes.{bit as bit_of};
ghost use Rattle.a64_decode.specs.Word.{word_of as word_of_instr};
ghost use Rattle.a64_encode.specs.Groups.{is_immediate, is_logical, is_bitfield, is_branch, is_exception, is_system, is_logical_shifted, is_add, is_extended, is_compare, is_select, is_source, is_pair, is_load_store, is_at_register};

use crate::code::{
    barrier_code, bit, bitfield_code, branch_code, condition_code, exception_brk, exception_ll,
    extend_code, index_code, literal_code, logical_code, mode_code, one_source_code, operand_bits,
    operand_i, pair_code, product_o0, product_op31, pstate_op1, pstate_op2, select_o2, select_op,
    shift_code, transfer_code, two_source_code, wide_move_code,
};
use a64_decode::{Instr, Reg, low};

/// A field whose lowest bit stands at bit `place`.
#[inline]
fn at(place: u32, field: u64) -> u64
    requires place { place ≤ 31 }
    requires field { field < 2 ^ 32 }
    ensures { result ≡ field * 2 ^ place }
{
    field << place
}

/// A number of a byte.
#[inline]
fn small(number: u8) -> u64
    ensures number { result ≡ number }
    ensures bound { result < 256 }
{
    u64::from(number)
}

/// A register's number.
#[inline]
fn reg(register: Reg) -> u64
    ensures number { result ≡ register.0 }
    ensures bound { result < 256 }
{
    small(register.0)
}

/// Rn and Rd, or Rt, in the last ten bits.
#[inline]
fn registers(rn: Reg, rd: Reg) -> u64
    ensures value { result ≡ rn.0 * 2 ^ 5 + rd.0 }
    ensures bound { result < 2 ^ 14 }
{
    at(5, reg(rn)) + reg(rd)
}

/// The bits sf, op and S of an addition.
#[inline]
fn operation(wide: bool, subtract: bool, flags: bool) -> u64
    ensures value { result ≡ bit_of wide * 2 ^ 31 + bit_of subtract * 2 ^ 30 + bit_of flags * 2 ^ 29 }
    ensures bound { result < 2 ^ 32 }
{
    at(31, bit(wide)) + at(30, bit(subtract)) + at(29, bit(flags))
}

/// The sum of the fields of an instruction and of the fixed bits of its row, in their places; 2 to the 32 or more only
/// where a field doesn't fit its bits. `Undefined` has none.
pub(crate) fn word_of(instr: &Instr) -> u64
    ensures { instr.now ≢ Undefined → result ≡ word_of_instr instr.now }
{
    match instr {
        Instr::Address { .. } | Instr::AddSubImmediate { .. } => immediate(instr),
        Instr::LogicalImmediate { .. } | Instr::MoveWide { .. } => logical(instr),
        Instr::Bitfield { .. } | Instr::Extract { .. } => bitfield(instr),
        Instr::Branch { .. }
        | Instr::BranchConditional { .. }
        | Instr::CompareBranch { .. }
        | Instr::TestBranch { .. }
        | Instr::BranchRegister { .. } => branch(instr),
        Instr::ExceptionReturn
        | Instr::Exception { .. }
        | Instr::Hint { .. }
        | Instr::Barrier { .. }
        | Instr::MsrImmediate { .. } => exception(instr),
        Instr::System { .. } | Instr::SystemRegister { .. } => system(instr),
        Instr::LogicalShifted { .. } => logical_shifted(instr),
        Instr::AddSubShifted { .. } | Instr::AddSubCarry { .. } => add(instr),
        Instr::AddSubExtended { .. } => extended(instr),
        Instr::ConditionalCompare { .. } => compare(instr),
        Instr::ConditionalSelect { .. } | Instr::OneSource { .. } => select(instr),
        Instr::ThreeSources { .. } | Instr::TwoSources { .. } => source(instr),
        Instr::LoadLiteral { .. } | Instr::Pair { .. } => pair(instr),
        Instr::LoadStoreUnsigned { .. } | Instr::LoadStoreIndexed { .. } => load_store(instr),
        Instr::LoadStoreRegister { .. } => at_register(instr),
        Instr::Undefined => 0,
    }
}

/// The addresses, and the additions of a number.
#[tactic(auto, unfolding(a64_decode::specs::Word::word_of, a64_decode::specs::Word::fields_of, a64_decode::specs::Word::row_of, a64_decode::specs::Table::address_row, a64_decode::specs::Table::add_sub_immediate_row, a64_decode::specs::Codes::size_bit, a64_decode::specs::Codes::unsigned_of))]
fn immediate(instr: &Instr) -> u64
    ensures { IsTrue (is_immediate instr.now) → result ≡ word_of_instr instr.now }
{
    match *instr {
        Instr::Address { page, offset, rd } => {
            let offset = low(offset, 21);
            at(31, bit(page)) + at(29, offset % 4) + at(24, 0b10000) + at(5, offset / 4) + reg(rd)
        }
        Instr::AddSubImmediate {
            wide,
            subtract,
            flags,
            shifted,
            imm12,
            rn,
            rd,
        } => {
            operation(wide, subtract, flags)
                + at(23, 0b100010)
                + at(22, bit(shifted))
                + at(10, u64::from(imm12))
                + registers(rn, rd)
        }
        _ => 0,
    }
}

/// The logical operations with a bitmask, and the wide moves.
#[tactic(auto, unfolding(a64_decode::specs::Word::word_of, a64_decode::specs::Word::fields_of, a64_decode::specs::Word::row_of, a64_decode::specs::Table::logical_immediate_row, a64_decode::specs::Table::move_wide_row, a64_decode::specs::Codes::size_bit, a64_decode::specs::Codes::unsigned_of))]
fn logical(instr: &Instr) -> u64
    ensures { IsTrue (is_logical instr.now) → result ≡ word_of_instr instr.now }
{
    match *instr {
        Instr::LogicalImmediate {
            wide,
            kind,
            n,
            immr,
            imms,
            rn,
            rd,
        } => {
            at(31, bit(wide))
                + at(29, logical_code(kind))
                + at(23, 0b100100)
                + at(22, small(n))
                + at(16, small(immr))
                + at(10, small(imms))
                + registers(rn, rd)
        }
        Instr::MoveWide {
            wide,
            kind,
            hw,
            imm16,
            rd,
        } => {
            at(31, bit(wide))
                + at(29, wide_move_code(kind))
                + at(23, 0b100101)
                + at(21, small(hw))
                + at(5, u64::from(imm16))
                + reg(rd)
        }
        _ => 0,
    }
}

/// The bitfield moves and extractions.
#[tactic(auto, unfolding(a64_decode::specs::Word::word_of, a64_decode::specs::Word::fields_of, a64_decode::specs::Word::row_of, a64_decode::specs::Table::bitfield_row, a64_decode::specs::Table::extract_row, a64_decode::specs::Codes::size_bit, a64_decode::specs::Codes::unsigned_of))]
fn bitfield(instr: &Instr) -> u64
    ensures { IsTrue (is_bitfield instr.now) → result ≡ word_of_instr instr.now }
{
    match *instr {
        Instr::Bitfield {
            wide,
            kind,
            immr,
            imms,
            rn,
            rd,
        } => {
            at(31, bit(wide))
                + at(29, bitfield_code(kind))
                + at(23, 0b100110)
                + at(22, bit(wide))
                + at(16, small(immr))
                + at(10, small(imms))
                + registers(rn, rd)
        }
        Instr::Extract {
            wide,
            rm,
            imms,
            rn,
            rd,
        } => {
            at(31, bit(wide))
                + at(23, 0b00100111)
                + at(22, bit(wide))
                + at(16, reg(rm))
                + at(10, small(imms))
                + registers(rn, rd)
        }
        _ => 0,
    }
}

/// The branches.
#[tactic(auto, unfolding(a64_decode::specs::Word::word_of, a64_decode::specs::Word::fields_of, a64_decode::specs::Word::row_of, a64_decode::specs::Table::branch_row, a64_decode::specs::Table::branch_conditional_row, a64_decode::specs::Table::compare_branch_row, a64_decode::specs::Table::test_branch_row, a64_decode::specs::Table::branch_register_row, a64_decode::specs::Codes::size_bit, a64_decode::specs::Codes::unsigned_of))]
fn branch(instr: &Instr) -> u64
    ensures { IsTrue (is_branch instr.now) → result ≡ word_of_instr instr.now }
{
    match *instr {
        Instr::Branch { link, offset } => { at(31, bit(link)) + at(26, 0b00101) + low(offset, 26) }
        Instr::BranchConditional { offset, condition } => {
            at(24, 0b01010100) + at(5, low(offset, 19)) + condition_code(condition)
        }
        Instr::CompareBranch {
            wide,
            nonzero,
            offset,
            rt,
        } => {
            at(31, bit(wide))
                + at(25, 0b011010)
                + at(24, bit(nonzero))
                + at(5, low(offset, 19))
                + reg(rt)
        }
        Instr::TestBranch {
            bit: place,
            nonzero,
            offset,
            rt,
        } => {
            at(31, small(place / 32))
                + at(25, 0b011011)
                + at(24, bit(nonzero))
                + at(19, small(place % 32))
                + at(5, low(offset, 14))
                + reg(rt)
        }
        Instr::BranchRegister { kind, rn } => {
            at(23, 0b110101100) + at(21, branch_code(kind)) + at(10, 0b11111000000) + at(5, reg(rn))
        }
        _ => 0,
    }
}

/// Exceptions, hints, barriers, and writes of a field of PSTATE.
#[tactic(auto, unfolding(a64_decode::specs::Word::word_of, a64_decode::specs::Word::fields_of, a64_decode::specs::Word::row_of, a64_decode::specs::Table::exception_return_row, a64_decode::specs::Table::exception_row, a64_decode::specs::Table::hint_row, a64_decode::specs::Table::barrier_row, a64_decode::specs::Table::msr_immediate_row, a64_decode::specs::Codes::size_bit, a64_decode::specs::Codes::unsigned_of))]
fn exception(instr: &Instr) -> u64
    ensures { IsTrue (is_exception instr.now) → result ≡ word_of_instr instr.now }
{
    match *instr {
        Instr::ExceptionReturn => { 0xD69F_03E0 }
        Instr::Exception { kind, imm16 } => {
            at(22, 0b1101010000)
                + at(21, exception_brk(kind))
                + at(5, u64::from(imm16))
                + exception_ll(kind)
        }
        Instr::Hint { crm, op2 } => {
            at(12, 0b11010101000000110010) + at(8, small(crm)) + at(5, small(op2)) + 0b11111
        }
        Instr::Barrier { crm, kind } => {
            at(12, 0b11010101000000110011) + at(8, small(crm)) + at(5, barrier_code(kind)) + 0b11111
        }
        Instr::MsrImmediate { field, crm } => {
            at(19, 0b1101010100000)
                + at(16, pstate_op1(field))
                + at(12, 0b0100)
                + at(8, small(crm))
                + at(5, pstate_op2(field))
                + 0b11111
        }
        _ => 0,
    }
}

/// The words of the system, and of its registers.
#[tactic(auto, unfolding(a64_decode::specs::Word::word_of, a64_decode::specs::Word::fields_of, a64_decode::specs::Word::row_of, a64_decode::specs::Table::system_row, a64_decode::specs::Table::system_register_row, a64_decode::specs::Codes::size_bit, a64_decode::specs::Codes::unsigned_of))]
fn system(instr: &Instr) -> u64
    ensures { IsTrue (is_system instr.now) → result ≡ word_of_instr instr.now }
{
    match *instr {
        Instr::System {
            op1,
            crn,
            crm,
            op2,
            rt,
        } => {
            at(19, 0b1101010100001)
                + at(16, small(op1))
                + at(12, small(crn))
                + at(8, small(crm))
                + at(5, small(op2))
                + reg(rt)
        }
        Instr::SystemRegister { read, id, rt } => {
            at(22, 0b1101010100)
                + at(21, bit(read))
                + at(20, 1)
                + at(19, small(id.op0.saturating_sub(2)))
                + at(16, small(id.op1))
                + at(12, small(id.crn))
                + at(8, small(id.crm))
                + at(5, small(id.op2))
                + reg(rt)
        }
        _ => 0,
    }
}

/// The logical operations on a shifted register.
#[tactic(auto, unfolding(a64_decode::specs::Word::word_of, a64_decode::specs::Word::fields_of, a64_decode::specs::Word::row_of, a64_decode::specs::Table::logical_shifted_row, a64_decode::specs::Codes::size_bit, a64_decode::specs::Codes::unsigned_of))]
fn logical_shifted(instr: &Instr) -> u64
    ensures { IsTrue (is_logical_shifted instr.now) → result ≡ word_of_instr instr.now }
{
    match *instr {
        Instr::LogicalShifted {
            wide,
            kind,
            shift,
            invert,
            rm,
            amount,
            rn,
            rd,
        } => {
            at(31, bit(wide))
                + at(29, logical_code(kind))
                + at(24, 0b01010)
                + at(22, shift_code(shift))
                + at(21, bit(invert))
                + at(16, reg(rm))
                + at(10, small(amount))
                + registers(rn, rd)
        }
        _ => 0,
    }
}

/// The additions of a shifted register, and with carry.
#[tactic(auto, unfolding(a64_decode::specs::Word::word_of, a64_decode::specs::Word::fields_of, a64_decode::specs::Word::row_of, a64_decode::specs::Table::add_sub_shifted_row, a64_decode::specs::Table::add_sub_carry_row, a64_decode::specs::Codes::size_bit, a64_decode::specs::Codes::unsigned_of))]
fn add(instr: &Instr) -> u64
    ensures { IsTrue (is_add instr.now) → result ≡ word_of_instr instr.now }
{
    match *instr {
        Instr::AddSubShifted {
            wide,
            subtract,
            flags,
            shift,
            rm,
            amount,
            rn,
            rd,
        } => {
            operation(wide, subtract, flags)
                + at(24, 0b01011)
                + at(22, shift_code(shift))
                + at(16, reg(rm))
                + at(10, small(amount))
                + registers(rn, rd)
        }
        Instr::AddSubCarry {
            wide,
            subtract,
            flags,
            rm,
            rn,
            rd,
        } => {
            operation(wide, subtract, flags)
                + at(21, 0b11010000)
                + at(16, reg(rm))
                + registers(rn, rd)
        }
        _ => 0,
    }
}

/// The additions of an extended register.
#[tactic(auto, unfolding(a64_decode::specs::Word::word_of, a64_decode::specs::Word::fields_of, a64_decode::specs::Word::row_of, a64_decode::specs::Table::add_sub_extended_row, a64_decode::specs::Codes::size_bit, a64_decode::specs::Codes::unsigned_of))]
fn extended(instr: &Instr) -> u64
    ensures { IsTrue (is_extended instr.now) → result ≡ word_of_instr instr.now }
{
    match *instr {
        Instr::AddSubExtended {
            wide,
            subtract,
            flags,
            rm,
            extend,
            amount,
            rn,
            rd,
        } => {
            operation(wide, subtract, flags)
                + at(21, 0b01011001)
                + at(16, reg(rm))
                + at(13, extend_code(extend))
                + at(10, small(amount))
                + registers(rn, rd)
        }
        _ => 0,
    }
}

/// The conditional compares.
#[tactic(auto, unfolding(a64_decode::specs::Word::word_of, a64_decode::specs::Word::fields_of, a64_decode::specs::Word::row_of, a64_decode::specs::Table::conditional_compare_row, a64_decode::specs::Codes::size_bit, a64_decode::specs::Codes::unsigned_of))]
fn compare(instr: &Instr) -> u64
    ensures { IsTrue (is_compare instr.now) → result ≡ word_of_instr instr.now }
{
    match *instr {
        Instr::ConditionalCompare {
            wide,
            subtract,
            operand,
            condition,
            rn,
            nzcv,
        } => {
            at(31, bit(wide))
                + at(30, bit(subtract))
                + at(21, 0b111010010)
                + at(16, operand_bits(operand))
                + at(12, condition_code(condition))
                + at(11, operand_i(operand))
                + at(5, reg(rn))
                + small(nzcv)
        }
        _ => 0,
    }
}

/// The conditional selects, and the operations on one register.
#[tactic(auto, unfolding(a64_decode::specs::Word::word_of, a64_decode::specs::Word::fields_of, a64_decode::specs::Word::row_of, a64_decode::specs::Table::conditional_select_row, a64_decode::specs::Table::one_source_row, a64_decode::specs::Codes::size_bit, a64_decode::specs::Codes::unsigned_of))]
fn select(instr: &Instr) -> u64
    ensures { IsTrue (is_select instr.now) → result ≡ word_of_instr instr.now }
{
    match *instr {
        Instr::ConditionalSelect {
            wide,
            kind,
            rm,
            condition,
            rn,
            rd,
        } => {
            at(31, bit(wide))
                + at(30, select_op(kind))
                + at(21, 0b011010100)
                + at(16, reg(rm))
                + at(12, condition_code(condition))
                + at(10, select_o2(kind))
                + registers(rn, rd)
        }
        Instr::OneSource { wide, kind, rn, rd } => {
            at(31, bit(wide))
                + at(16, 0b101101011000000)
                + at(10, one_source_code(kind))
                + registers(rn, rd)
        }
        _ => 0,
    }
}

/// The products, and the operations on two registers.
#[tactic(auto, unfolding(a64_decode::specs::Word::word_of, a64_decode::specs::Word::fields_of, a64_decode::specs::Word::row_of, a64_decode::specs::Table::three_sources_row, a64_decode::specs::Table::two_sources_row, a64_decode::specs::Codes::size_bit, a64_decode::specs::Codes::unsigned_of))]
fn source(instr: &Instr) -> u64
    ensures { IsTrue (is_source instr.now) → result ≡ word_of_instr instr.now }
{
    match *instr {
        Instr::ThreeSources {
            wide,
            kind,
            rm,
            ra,
            rn,
            rd,
        } => {
            at(31, bit(wide))
                + at(24, 0b0011011)
                + at(21, product_op31(kind))
                + at(16, reg(rm))
                + at(15, product_o0(kind))
                + at(10, reg(ra))
                + registers(rn, rd)
        }
        Instr::TwoSources {
            wide,
            kind,
            rm,
            rn,
            rd,
        } => {
            at(31, bit(wide))
                + at(21, 0b0011010110)
                + at(16, reg(rm))
                + at(10, two_source_code(kind))
                + registers(rn, rd)
        }
        _ => 0,
    }
}

/// The loads of literals, and pairs.
#[tactic(auto, unfolding(a64_decode::specs::Word::word_of, a64_decode::specs::Word::fields_of, a64_decode::specs::Word::row_of, a64_decode::specs::Table::load_literal_row, a64_decode::specs::Table::pair_row, a64_decode::specs::Codes::size_bit, a64_decode::specs::Codes::unsigned_of))]
fn pair(instr: &Instr) -> u64
    ensures { IsTrue (is_pair instr.now) → result ≡ word_of_instr instr.now }
{
    match *instr {
        Instr::LoadLiteral { kind, offset, rt } => {
            at(30, literal_code(kind)) + at(24, 0b011000) + at(5, low(offset, 19)) + reg(rt)
        }
        Instr::Pair {
            kind,
            mode,
            load,
            offset,
            rt2,
            rn,
            rt,
        } => {
            at(30, pair_code(kind))
                + at(26, 0b1010)
                + at(23, mode_code(mode))
                + at(22, bit(load))
                + at(15, low(offset, 7))
                + at(10, reg(rt2))
                + registers(rn, rt)
        }
        _ => 0,
    }
}

/// The loads and stores at an offset.
#[tactic(auto, unfolding(a64_decode::specs::Word::word_of, a64_decode::specs::Word::fields_of, a64_decode::specs::Word::row_of, a64_decode::specs::Table::load_store_unsigned_row, a64_decode::specs::Table::load_store_indexed_row, a64_decode::specs::Codes::size_bit, a64_decode::specs::Codes::unsigned_of))]
fn load_store(instr: &Instr) -> u64
    ensures { IsTrue (is_load_store instr.now) → result ≡ word_of_instr instr.now }
{
    match *instr {
        Instr::LoadStoreUnsigned {
            size,
            transfer,
            imm12,
            rn,
            rt,
        } => {
            at(30, u64::from(size.scale()))
                + at(24, 0b111001)
                + at(22, transfer_code(transfer))
                + at(10, u64::from(imm12))
                + registers(rn, rt)
        }
        Instr::LoadStoreIndexed {
            size,
            transfer,
            offset,
            mode,
            rn,
            rt,
        } => {
            at(30, u64::from(size.scale()))
                + at(24, 0b111000)
                + at(22, transfer_code(transfer))
                + at(12, low(offset, 9))
                + at(10, index_code(mode))
                + registers(rn, rt)
        }
        _ => 0,
    }
}

/// The loads and stores at an offset in a register.
#[tactic(auto, unfolding(a64_decode::specs::Word::word_of, a64_decode::specs::Word::fields_of, a64_decode::specs::Word::row_of, a64_decode::specs::Table::load_store_register_row, a64_decode::specs::Codes::size_bit, a64_decode::specs::Codes::unsigned_of))]
fn at_register(instr: &Instr) -> u64
    ensures { IsTrue (is_at_register instr.now) → result ≡ word_of_instr instr.now }
{
    match *instr {
        Instr::LoadStoreRegister {
            size,
            transfer,
            rm,
            extend,
            scaled,
            rn,
            rt,
        } => {
            at(30, u64::from(size.scale()))
                + at(24, 0b111000)
                + at(22, transfer_code(transfer))
                + at(21, 1)
                + at(16, reg(rm))
                + at(13, extend_code(extend))
                + at(12, bit(scaled))
                + at(10, 0b10)
                + registers(rn, rt)
        }
        _ => 0,
    }
}
