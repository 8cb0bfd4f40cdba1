//! The branches.
#![tactic(auto, unfolding(crate::specs::Table::branch_rows, crate::specs::Table::branch_row, crate::specs::Table::branch_conditional_row, crate::specs::Table::compare_branch_row, crate::specs::Table::test_branch_row, crate::specs::Table::branch_register_row))]

ghost use Rattle.std.specs.Prelude.{◌≡◌};
ghost use Rattle.a64_decode.specs.Pattern.{reading_of, first_reading};
ghost use Rattle.a64_decode.specs.Table.{branch_row, branch_conditional_row, compare_branch_row, test_branch_row, branch_register_row, branch_rows};
ghost use Rattle.a64_decode.specs.Lawful.{IsLawful};

use crate::field::{condition, flag, reg, small};
use crate::number::sign_extend;
use crate::{BranchKind, Instr, system};
use bao_types::field;

/// The table from the branches on.
#[inline(always)]
pub(crate) fn decode_branch(word: u32) -> Instr
    ensures row { result ≡ first_reading branch_rows word }
    ensures lawful { IsLawful result }
{
    if field(word, 30, 26) == 0b00101 {
        branch(word)
    } else if field(word, 31, 24) == 0b01010100 && field(word, 4, 4) == 0 {
        branch_conditional(word)
    } else if field(word, 30, 25) == 0b011010 {
        compare_branch(word)
    } else if field(word, 30, 25) == 0b011011 {
        test_branch(word)
    } else if field(word, 31, 23) == 0b110101100
        && field(word, 20, 10) == 0b11111000000
        && field(word, 4, 0) == 0
    {
        branch_register(word)
    } else {
        system::decode_system(word)
    }
}

#[inline(always)]
fn branch(word: u32) -> Instr
    ensures row { result ≡ reading_of branch_row word }
    ensures lawful { IsLawful result }
{
    Instr::Branch {
        link: flag(word, 31),
        offset: sign_extend(26, u64::from(field(word, 25, 0))),
    }
}

#[inline(always)]
fn branch_conditional(word: u32) -> Instr
    ensures row { result ≡ reading_of branch_conditional_row word }
    ensures lawful { IsLawful result }
{
    Instr::BranchConditional {
        offset: sign_extend(19, u64::from(field(word, 23, 5))),
        condition: condition(field(word, 3, 0)),
    }
}

#[inline(always)]
fn compare_branch(word: u32) -> Instr
    ensures row { result ≡ reading_of compare_branch_row word }
    ensures lawful { IsLawful result }
{
    Instr::CompareBranch {
        wide: flag(word, 31),
        nonzero: flag(word, 24),
        offset: sign_extend(19, u64::from(field(word, 23, 5))),
        rt: reg(word, 0),
    }
}

#[inline(always)]
fn test_branch(word: u32) -> Instr
    ensures row { result ≡ reading_of test_branch_row word }
    ensures lawful { IsLawful result }
{
    Instr::TestBranch {
        bit: small(word, 31, 31) * 32 + small(word, 23, 19),
        nonzero: flag(word, 24),
        offset: sign_extend(14, u64::from(field(word, 18, 5))),
        rt: reg(word, 0),
    }
}

#[inline(always)]
fn branch_register(word: u32) -> Instr
    ensures row { result ≡ reading_of branch_register_row word }
    ensures lawful { IsLawful result }
{
    let kind = match field(word, 22, 21) {
        0 => BranchKind::Br,
        1 => BranchKind::Blr,
        2 => BranchKind::Ret,
        _ => return Instr::Undefined,
    };
    Instr::BranchRegister {
        kind,
        rn: reg(word, 5),
    }
}
