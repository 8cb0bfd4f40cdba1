//! From an instruction of data processing to its row.

ghost use Rattle.std.specs.Prelude.{◌≡◌, IsTrue};
ghost use Rattle.a64_decode.specs.Lawful.{IsLawful};
ghost use Rattle.a64_alu.specs.Results.{ChangesOnlyResults};
ghost use Rattle.a64_alu.specs.Computed.{is_data_processing, computed};

use crate::add::Form;
use crate::immediate::{
    Mask, add_sub_immediate, bitfield, extract, logical_immediate, move_wide, pc_relative,
};
use crate::register::{
    ShiftedReg, add_sub_carry, add_sub_extended, add_sub_shifted, conditional_compare,
    conditional_select, logical_shifted, one_source, three_sources, two_sources,
};
use a64_decode::Instr;
use a64_state::Core;

/// Whether an instruction is one of data processing: arithmetic, logic and moves of immediates and registers, with
/// ADR and ADRP.
#[rattlefmt::skip]
pub fn is_alu(instr: &Instr) -> bool
    ensures { result ≡ is_data_processing instr.now }
{
    match instr {
        Instr::Address { .. } | Instr::AddSubImmediate { .. } | Instr::LogicalImmediate { .. }
        | Instr::MoveWide { .. } | Instr::Bitfield { .. } | Instr::Extract { .. } | Instr::LogicalShifted { .. }
        | Instr::AddSubShifted { .. } | Instr::AddSubExtended { .. } | Instr::AddSubCarry { .. }
        | Instr::ConditionalCompare { .. } | Instr::ConditionalSelect { .. } | Instr::ThreeSources { .. }
        | Instr::TwoSources { .. } | Instr::OneSource { .. } => true,
        Instr::Branch { .. } | Instr::BranchConditional { .. } | Instr::CompareBranch { .. }
        | Instr::TestBranch { .. } | Instr::BranchRegister { .. } | Instr::ExceptionReturn | Instr::Exception { .. }
        | Instr::Hint { .. } | Instr::Barrier { .. } | Instr::MsrImmediate { .. } | Instr::System { .. }
        | Instr::SystemRegister { .. } | Instr::LoadLiteral { .. } | Instr::Pair { .. }
        | Instr::LoadStoreUnsigned { .. } | Instr::LoadStoreIndexed { .. } | Instr::LoadStoreRegister { .. }
        | Instr::Undefined => false,
    }
}

/// Does a data processing instruction: its result goes to a register or a stack pointer, and where it sets them to
/// the flags. PC stays (ARM DDI 0487, "A64 Base Instructions").
#[rattlefmt::skip]
pub fn alu(core: &mut Core, instr: &Instr)
    requires kind { IsTrue (is_data_processing instr.now) }
    requires lawful { IsLawful instr.now }
    ensures meaning { core.new ≡ computed instr.now core.old }
    ensures frame { ChangesOnlyResults core.old core.new }
{
    match *instr {
        Instr::Address { page, offset, rd } => pc_relative(core, page, offset, rd),
        Instr::AddSubImmediate { wide, subtract, flags, shifted, imm12, rn, rd } =>
            add_sub_immediate(core, Form { wide, subtract, flags }, shifted, imm12, rn, rd),
        Instr::LogicalImmediate { wide, kind, n, immr, imms, rn, rd } =>
            logical_immediate(core, wide, kind, Mask { n, immr, imms }, rn, rd),
        Instr::MoveWide { wide, kind, hw, imm16, rd } => move_wide(core, wide, kind, hw, imm16, rd),
        Instr::Bitfield { wide, kind, immr, imms, rn, rd } => bitfield(core, wide, kind, immr, imms, rn, rd),
        Instr::Extract { wide, rm, imms, rn, rd } => extract(core, wide, rm, imms, rn, rd),
        Instr::LogicalShifted { wide, kind, shift, invert, rm, amount, rn, rd } =>
            logical_shifted(core, wide, kind, invert, ShiftedReg { rm, shift, amount }, rn, rd),
        Instr::AddSubShifted { wide, subtract, flags, shift, rm, amount, rn, rd } =>
            add_sub_shifted(core, Form { wide, subtract, flags }, ShiftedReg { rm, shift, amount }, rn, rd),
        Instr::AddSubExtended { wide, subtract, flags, rm, extend, amount, rn, rd } =>
            add_sub_extended(core, Form { wide, subtract, flags }, rm, extend, amount, rn, rd),
        Instr::AddSubCarry { wide, subtract, flags, rm, rn, rd } =>
            add_sub_carry(core, Form { wide, subtract, flags }, rm, rn, rd),
        Instr::ConditionalCompare { wide, subtract, operand, condition, rn, nzcv } =>
            conditional_compare(core, wide, subtract, operand, condition, rn, nzcv),
        Instr::ConditionalSelect { wide, kind, rm, condition, rn, rd } =>
            conditional_select(core, wide, kind, rm, condition, rn, rd),
        Instr::ThreeSources { wide, kind, rm, ra, rn, rd } => three_sources(core, wide, kind, rm, ra, rn, rd),
        Instr::TwoSources { wide, kind, rm, rn, rd } => two_sources(core, wide, kind, rm, rn, rd),
        Instr::OneSource { wide, kind, rn, rd } => one_source(core, wide, kind, rn, rd),
        _ => unreachable!(),
    }
}
