//! The system words: exceptions, hints, barriers, maintenance and system registers.
#![tactic(auto, unfolding(crate::specs::Table::system_rows, crate::specs::Table::exception_return_row, crate::specs::Table::exception_row, crate::specs::Table::hint_row, crate::specs::Table::barrier_row, crate::specs::Table::msr_immediate_row, crate::specs::Table::system_row, crate::specs::Table::system_register_row))]

ghost use Rattle.std.specs.Prelude.{◌≡◌};
ghost use Rattle.a64_decode.specs.Pattern.{reading_of, first_reading};
ghost use Rattle.a64_decode.specs.Table.{exception_return_row, exception_row, hint_row, barrier_row, msr_immediate_row, system_row, system_register_row, system_rows};
ghost use Rattle.a64_decode.specs.Lawful.{IsLawful};

use crate::field::{flag, reg, small};
use crate::{BarrierKind, ExceptionKind, Instr, PstateField, register};
use bao_types::{SysId, field};

/// The table from the system words on.
pub(crate) fn decode_system(word: u32) -> Instr
    ensures row { result ≡ first_reading system_rows word }
    ensures lawful { IsLawful result }
{
    if word == 0xD69F_03E0 {
        exception_return(word)
    } else if field(word, 31, 22) == 0b1101010000 && field(word, 4, 2) == 0 {
        exception(word)
    } else if field(word, 31, 12) == 0b11010101000000110010 && field(word, 4, 0) == 31 {
        hint(word)
    } else if field(word, 31, 12) == 0b11010101000000110011 && field(word, 4, 0) == 31 {
        barrier(word)
    } else if field(word, 31, 19) == 0b1101010100000
        && field(word, 15, 12) == 0b0100
        && field(word, 4, 0) == 31
    {
        msr_immediate(word)
    } else if field(word, 31, 19) == 0b1101010100001 {
        system(word)
    } else if field(word, 31, 22) == 0b1101010100 && field(word, 20, 20) == 1 {
        system_register(word)
    } else {
        register::decode_register(word)
    }
}

fn exception_return(word: u32) -> Instr
    ensures row { result ≡ reading_of exception_return_row word }
    ensures lawful { IsLawful result }
{
    let _ = word;
    Instr::ExceptionReturn
}

fn exception(word: u32) -> Instr
    ensures row { result ≡ reading_of exception_row word }
    ensures lawful { IsLawful result }
{
    let kind = match (flag(word, 21), field(word, 1, 0)) {
        (false, 1) => ExceptionKind::Svc,
        (false, 2) => ExceptionKind::Hvc,
        (false, 3) => ExceptionKind::Smc,
        (true, 0) => ExceptionKind::Brk,
        _ => return Instr::Undefined,
    };
    Instr::Exception {
        kind,
        imm16: field(word, 20, 5) as u16,
    }
}

fn hint(word: u32) -> Instr
    ensures row { result ≡ reading_of hint_row word }
    ensures lawful { IsLawful result }
{
    Instr::Hint {
        crm: small(word, 11, 8),
        op2: small(word, 7, 5),
    }
}

fn barrier(word: u32) -> Instr
    ensures row { result ≡ reading_of barrier_row word }
    ensures lawful { IsLawful result }
{
    let kind = match field(word, 7, 5) {
        2 => BarrierKind::Clrex,
        4 => BarrierKind::Dsb,
        5 => BarrierKind::Dmb,
        6 => BarrierKind::Isb,
        _ => return Instr::Undefined,
    };
    Instr::Barrier {
        crm: small(word, 11, 8),
        kind,
    }
}

fn msr_immediate(word: u32) -> Instr
    ensures row { result ≡ reading_of msr_immediate_row word }
    ensures lawful { IsLawful result }
{
    let field = match (field(word, 18, 16), field(word, 7, 5)) {
        (0, 5) => PstateField::SpSel,
        (3, 6) => PstateField::DaifSet,
        (3, 7) => PstateField::DaifClr,
        _ => return Instr::Undefined,
    };
    Instr::MsrImmediate {
        field,
        crm: small(word, 11, 8),
    }
}

fn system(word: u32) -> Instr
    ensures row { result ≡ reading_of system_row word }
    ensures lawful { IsLawful result }
{
    let op1 = small(word, 18, 16);
    let crn = small(word, 15, 12);
    let crm = small(word, 11, 8);
    let op2 = small(word, 7, 5);
    let is_cache = crn == 7 && crm != 8 && (op1 != 3 || crm != 4 || op2 != 1);
    if !is_cache && crn != 8 {
        return Instr::Undefined;
    }
    Instr::System {
        op1,
        crn,
        crm,
        op2,
        rt: reg(word, 0),
    }
}

fn system_register(word: u32) -> Instr
    ensures row { result ≡ reading_of system_register_row word }
    ensures lawful { IsLawful result }
{
    Instr::SystemRegister {
        read: flag(word, 21),
        id: SysId {
            op0: 2 + small(word, 19, 19),
            op1: small(word, 18, 16),
            crn: small(word, 15, 12),
            crm: small(word, 11, 8),
            op2: small(word, 7, 5),
        },
        rt: reg(word, 0),
    }
}
