ghost use Rattle.std.specs.Prelude.{◌≡◌, ◌+◌, ◌*◌, ◌<◌, ◌^◌};
ghost use Rattle.bao_types.specs.Bytes.{IsWidth};
ghost use Rattle.a64_decode.specs.Lawful.{IsLawful, IsReg, IsSysId};
ghost use Rattle.a64_state.specs.Registers.{x_of};
ghost use Rattle.a64_sysreg.specs.Access.{write_answer};
ghost use Rattle.a64_alu.specs.Results.{low_x as low_x_of};
ghost use Rattle.a64_execute.specs.Want.{wanted, asked as asked_by, undefined_at, at_el1 as at_el1_of, exception_need, read_need, write_need, register_need, stored_value as stored_value_of, IsNeed};

use a64_address::{MemShape, shape_of};
use a64_alu::low_x;
use a64_decode::{ExceptionKind, Instr, Reg};
use a64_state::Core;
use a64_sysreg::{SysWrite, acknowledges, may_read, write_answer};
use bao_types::{SysId, weight_after};
use exceptions::{Class, exception_syndrome, register_write_syndrome, syndrome};

/// What an instruction asks before it can be completed.
#[derive(Clone, Copy, Debug, PartialEq, Eq)]
pub enum Need {
    /// Nothing.
    Done,
    /// That the interrupt interface takes the interrupt that it shows, if it shows one: the read of ICC_IAR1_EL1.
    Acknowledge,
    /// That the interrupt interface ends the interrupt with this number, below 96: the write of ICC_EOIR1_EL1.
    End { id: u16 },
    /// The bytes of an access.
    Load { shape: MemShape },
    /// That the bytes of an access are written: `value` is these bytes in address order as one little-endian number.
    Store { shape: MemShape, value: u128 },
    /// That EL1 takes an exception of this syndrome, which returns to the address `back`.
    Raise { esr: u64, back: u64 },
    /// That EL2 takes an exception of this syndrome. PC goes past the instruction where `past` says so, else it stays.
    Leave { esr: u64, past: bool },
}

/// What an instruction asks before it can be completed. Nothing changes.
#[tactic(auto, unfolding(crate::specs::Want::wanted))]
pub fn want(core: &Core, instr: &Instr) -> Need
    requires { IsLawful instr.now }
    ensures need { result ≡ wanted core.now instr.now }
    ensures bounds { IsNeed result }
{
    match shape_of(core, instr) {
        Some(shape) if shape.store => Need::Store {
            shape,
            value: stored_value(core, instr, shape.width),
        },
        Some(shape) => Need::Load { shape },
        None => asked(core, instr),
    }
}

/// What a row asks that has no access.
#[rattlefmt::skip]
#[tactic(auto, unfolding(crate::specs::Want::asked))]
fn asked(core: &Core, instr: &Instr) -> Need
    requires { IsLawful instr.now }
    ensures need { result ≡ asked_by core.now instr.now }
    ensures bounds { IsNeed result }
{
    match *instr {
        Instr::ExceptionReturn | Instr::MsrImmediate { .. } | Instr::System { .. } => at_el1(core, Need::Done),
        Instr::Exception { kind, imm16 } => exception(core, kind, imm16),
        Instr::SystemRegister { read, id, rt } => register(core, read, id, rt),
        Instr::Undefined => undefined(core),
        Instr::Address { .. } | Instr::AddSubImmediate { .. } | Instr::LogicalImmediate { .. } | Instr::MoveWide { .. }
        | Instr::Bitfield { .. } | Instr::Extract { .. } | Instr::Branch { .. } | Instr::BranchConditional { .. }
        | Instr::CompareBranch { .. } | Instr::TestBranch { .. } | Instr::BranchRegister { .. } | Instr::Hint { .. }
        | Instr::Barrier { .. } | Instr::LogicalShifted { .. } | Instr::AddSubShifted { .. }
        | Instr::AddSubExtended { .. } | Instr::AddSubCarry { .. } | Instr::ConditionalCompare { .. }
        | Instr::ConditionalSelect { .. } | Instr::ThreeSources { .. } | Instr::TwoSources { .. }
        | Instr::OneSource { .. } | Instr::LoadLiteral { .. } | Instr::Pair { .. } | Instr::LoadStoreUnsigned { .. }
        | Instr::LoadStoreIndexed { .. } | Instr::LoadStoreRegister { .. } => Need::Done,
    }
}

/// What asks for the exception of an undefined instruction, which returns to itself.
fn undefined(core: &Core) -> Need
    ensures { result ≡ undefined_at core.now }
{
    Need::Raise {
        esr: syndrome(Class::Unknown, 0),
        back: core.pc,
    }
}

/// What an instruction asks that EL1 alone may execute.
fn at_el1(core: &Core, asks: Need) -> Need
    ensures { result ≡ at_el1_of core.now asks }
{
    if core.level() == 1 {
        asks
    } else {
        undefined(core)
    }
}

/// What an instruction asks that makes an exception.
fn exception(core: &Core, kind: ExceptionKind, imm16: u16) -> Need
    ensures need { result ≡ exception_need core.now kind imm16 }
    ensures bounds { IsNeed result }
{
    let esr = exception_syndrome(kind, imm16);
    match kind {
        ExceptionKind::Svc => Need::Raise {
            esr,
            back: core.pc.wrapping_add(4),
        },
        ExceptionKind::Hvc => at_el1(core, Need::Leave { esr, past: true }),
        ExceptionKind::Smc => at_el1(core, Need::Leave { esr, past: false }),
        ExceptionKind::Brk => Need::Raise { esr, back: core.pc },
    }
}

/// What MRS and MSR of a register ask.
fn register(core: &Core, read: bool, id: SysId, rt: Reg) -> Need
    requires id { IsSysId id }
    requires rt { IsReg rt }
    ensures need { result ≡ register_need core.now read id rt }
    ensures bounds { IsNeed result }
{
    if read {
        read_register(core, id)
    } else {
        write_register(core, id, rt)
    }
}

/// What MRS of a register asks.
fn read_register(core: &Core, id: SysId) -> Need
    ensures need { result ≡ read_need core.now id }
    ensures bounds { IsNeed result }
{
    if !may_read(core, id) {
        return undefined(core);
    }
    if acknowledges(id) {
        Need::Acknowledge
    } else {
        Need::Done
    }
}

/// What MSR of a register asks.
fn write_register(core: &Core, id: SysId, rt: Reg) -> Need
    requires id { IsSysId id }
    requires rt { IsReg rt }
    ensures need { result ≡ write_need core.now id rt (write_answer core.now id (x_of core.now rt.0)) }
    ensures bounds { IsNeed result }
{
    match write_answer(core, id, core.read_x(rt.0)) {
        SysWrite::Done => Need::Done,
        SysWrite::End(id) => Need::End { id },
        SysWrite::Undefined => undefined(core),
        SysWrite::TrapEl2 => Need::Leave {
            esr: register_write_syndrome(id, rt),
            past: false,
        },
    }
}

/// What a store writes, as elements of `width` bytes.
#[rattlefmt::skip]
#[inline(always)]
fn stored_value(core: &Core, instr: &Instr, width: u32) -> u128
    requires lawful { IsLawful instr.now }
    requires width { IsWidth width }
    ensures { result ≡ stored_value_of core.now instr.now (8 * width) }
{
    match *instr {
        Instr::Pair { rt2, rt, .. } => low(core, width, rt) + weight_after(width) * low(core, width, rt2),
        Instr::LoadStoreUnsigned { rt, .. } | Instr::LoadStoreIndexed { rt, .. } | Instr::LoadStoreRegister { rt, .. } =>
            low(core, width, rt),
        Instr::Address { .. } | Instr::AddSubImmediate { .. } | Instr::LogicalImmediate { .. } | Instr::MoveWide { .. }
        | Instr::Bitfield { .. } | Instr::Extract { .. } | Instr::Branch { .. } | Instr::BranchConditional { .. }
        | Instr::CompareBranch { .. } | Instr::TestBranch { .. } | Instr::BranchRegister { .. }
        | Instr::ExceptionReturn | Instr::Exception { .. } | Instr::Hint { .. } | Instr::Barrier { .. }
        | Instr::MsrImmediate { .. } | Instr::System { .. } | Instr::SystemRegister { .. } | Instr::LogicalShifted { .. }
        | Instr::AddSubShifted { .. } | Instr::AddSubExtended { .. } | Instr::AddSubCarry { .. }
        | Instr::ConditionalCompare { .. } | Instr::ConditionalSelect { .. } | Instr::ThreeSources { .. }
        | Instr::TwoSources { .. } | Instr::OneSource { .. } | Instr::LoadLiteral { .. } | Instr::Undefined => 0,
    }
}

/// The lowest bytes of a register; register 31 reads as zero.
#[inline(always)]
fn low(core: &Core, width: u32, r: Reg) -> u128
    requires reg { IsReg r }
    requires width { IsWidth width }
    ensures value { result ≡ low_x_of core.now (8 * width) r }
    ensures bound { result < 2 ^ (8 * width) }
{
    u128::from(low_x(core, 8 * width, r))
}
