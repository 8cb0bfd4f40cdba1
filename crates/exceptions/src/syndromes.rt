//! The syndromes, as ESR_EL1 and ESR_EL2 have them (ARM DDI 0487, "ESR_EL1").

ghost use Rattle.std.specs.Prelude.{◌≡◌, ◌<◌, ◌^◌, ◌+◌};
ghost use Rattle.a64_decode.specs.Lawful.{IsReg, IsSysId};
ghost use Rattle.exceptions.specs.Syndrome.{class_number, class_of, syndrome_of, register_write, bit as bit_at, description_of, access_part as access_part_of, IsAbort, abort_syndrome_of};

use crate::Class;
use a64_decode::{ExceptionKind, Instr, MemAccess, Reg, access_of};
use bao_types::SysId;

/// The syndrome of a class, with what the class says more in bits 24 to 0. For an undefined word, PSTATE.IL, and a
/// misaligned PC or SP that is 0.
pub fn syndrome(class: Class, iss: u32) -> u64
    requires { iss < 2 ^ 25 }
    ensures { result ≡ syndrome_of (class_number class) iss }
{
    assembled(class.number(), iss)
}

/// The syndrome of SVC, HVC, SMC and BRK, which says the immediate.
pub fn exception_syndrome(kind: ExceptionKind, imm16: u16) -> u64
    ensures { result ≡ syndrome_of (class_number (class_of kind)) imm16 }
{
    syndrome(Class::of(kind), u32::from(imm16))
}

/// The syndrome of a write of a system register that EL2 takes, by MSR from a register.
pub fn register_write_syndrome(id: SysId, rt: Reg) -> u64
    requires id { IsSysId id }
    requires rt { IsReg rt }
    ensures { result ≡ syndrome_of (class_number Class.SystemRegister) (register_write id rt) }
{
    let number = u32::from(id.op0) * (1 << 20)
        + u32::from(id.op2) * (1 << 17)
        + u32::from(id.op1) * (1 << 14)
        + u32::from(id.crn) * (1 << 10)
        + u32::from(id.crm) * (1 << 1);
    syndrome(Class::SystemRegister, number + u32::from(rt.0) * (1 << 5))
}

/// The syndrome of an abort of one of the four classes. `code` is the fault's status code; `stage2` says that stage 2
/// refused, and not stage 1 or the alignment check.
///
/// Of a fetch it says the code alone, whatever the instruction.
pub fn abort_syndrome(class: u32, stage2: bool, instr: &Instr, code: u32) -> u64
    requires class { IsAbort class }
    requires code { code < 64 }
    ensures { result ≡ abort_syndrome_of class stage2 instr.now code }
{
    let is_data = class == Class::DataAbortLower.number() || class == Class::DataAbortSame.number();
    if is_data {
        assembled(class, access_part(stage2, access_of(instr)) + code)
    } else {
        assembled(class, code)
    }
}

/// A class, the bit for an instruction of 32 bits, and what the class says more.
fn assembled(class: u32, iss: u32) -> u64
    ensures { result ≡ syndrome_of class iss }
{
    u64::from(class) * (1 << 26) + (1 << 25) + u64::from(iss)
}

/// What a data abort says of an access.
fn access_part(stage2: bool, access: Option<MemAccess>) -> u32
    ensures value { result ≡ access_part_of stage2 access }
    ensures bound { result < 2 ^ 26 }
{
    match access {
        None => 0,
        Some(access) if stage2 && access.described => description(access) + bit(6, access.store),
        Some(access) => bit(6, access.store),
    }
}

/// The size, the sign, the register and the register's width of an access, and that they are told.
fn description(access: MemAccess) -> u32
    ensures value { result ≡ description_of access }
    ensures bound { result + 64 < 2 ^ 26 }
{
    (1 << 24)
        + access.size.scale() * (1 << 22)
        + bit(21, access.signed)
        + u32::from(access.rt.0) * (1 << 16)
        + bit(15, access.wide)
}

/// A bit at a place.
fn bit(place: u32, set: bool) -> u32
    requires { place < 32 }
    ensures { result ≡ bit_at place set }
{
    if set { 1 << place } else { 0 }
}
