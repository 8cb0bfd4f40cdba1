//! MRS, and MSR of a register and of a field of PSTATE, but for the step of PC.

ghost use Rattle.std.specs.Prelude.{◌≡◌, ◌<◌, IsTrue, true, false, bit_or, bit_and};
ghost use Rattle.a64_decode.specs.Lawful.{IsReg};
ghost use Rattle.a64_alu.specs.Numbers.{inverted};
ghost use Rattle.a64_execute.specs.Want.{is_of_core_alone, read_need, register_need};
ghost use Rattle.a64_execute.specs.System.{with_field, with_access};

use a64_decode::{PstateField, Reg};
use a64_state::{Core, pstate};
use a64_sysreg::{Moment, SysRead, SysWrite, read_sys, write_sys};
use bao_types::SysId;

/// Writes an immediate of four bits to a field of PSTATE; the core is at EL1.
pub(crate) fn write_field(core: &mut Core, field: PstateField, crm: u8)
    requires { crm < 16 }
    ensures { core.new ≡ with_field field crm core.old }
{
    match field {
        PstateField::SpSel => core.select_sp(crm % 2 == 1),
        PstateField::DaifSet => core.set_daif(with_set(pstate::daif(core.pstate), u32::from(crm))),
        PstateField::DaifClr => core.set_daif(with_clear(
            pstate::daif(core.pstate),
            u32::from(crm),
        )),
    }
}

/// A number of four bits with more of them set.
fn with_set(bits: u32, more: u32) -> u32
    requires bits { bits < 16 }
    requires more { more < 16 }
    ensures value { result ≡ bit_or bits more }
    ensures bound { result < 16 }
{
    bits | more
}

/// A number of four bits with some of them clear.
fn with_clear(bits: u32, less: u32) -> u32
    requires bits { bits < 16 }
    requires less { less < 16 }
    ensures value { result ≡ bit_and bits (inverted 4 less) }
    ensures bound { result < 16 }
{
    bits & (15 - less)
}

/// Reads a system register into Rt, or writes it from Rt, at a moment; the level may do so.
pub(crate) fn access_register(core: &mut Core, moment: Moment, read: bool, id: SysId, rt: Reg)
    requires rt { IsReg rt }
    requires need { IsTrue (is_of_core_alone (register_need core.old read id rt)) }
    ensures { core.new ≡ with_access read id rt moment core.old }
{
    if read {
        read_register(core, moment, id, rt);
    } else {
        write_register(core, moment, id, rt);
    }
}

/// MRS, but for the step of PC.
#[tactic(auto, using(crate::proofs::Shapes::may_be_read))]
fn read_register(core: &mut Core, moment: Moment, id: SysId, rt: Reg)
    requires rt { IsReg rt }
    requires need { IsTrue (is_of_core_alone (read_need core.old id)) }
    ensures { core.new ≡ with_access true id rt moment core.old }
{
    match read_sys(core, moment, id) {
        SysRead::Value(value) => core.write_x(rt.0, value),
        SysRead::Undefined => unreachable!(),
    }
}

/// MSR of a register, but for the step of PC.
fn write_register(core: &mut Core, moment: Moment, id: SysId, rt: Reg)
    requires rt { IsReg rt }
    requires need { IsTrue (is_of_core_alone (register_need core.old false id rt)) }
    ensures { core.new ≡ with_access false id rt moment core.old }
{
    let value = core.read_x(rt.0);
    match write_sys(core, moment, id, value) {
        SysWrite::Done | SysWrite::End(_) => {}
        SysWrite::Undefined | SysWrite::TrapEl2 => unreachable!(),
    }
}
