//! What MRS and MSR do with the register that they name.

ghost use Rattle.std.specs.Prelude.{◌≡◌, ◌≢◌, ◌↔◌, IsFalse};
ghost use Rattle.a64_sysreg.specs.Access.{may_read as may_read_in, may_write, read_answer, write_answer as write_answer_in, written, EndsAnId};
ghost use Rattle.a64_sysreg.specs.Table.{acknowledges as acknowledges_number};

use crate::reading::read;
use crate::register::register_of;
use crate::writing::{answer, write};
use crate::{Moment, Register};
use a64_state::Core;
use bao_types::SysId;

/// What a read of a system register gives.
#[derive(Clone, Copy, Debug, PartialEq, Eq)]
pub enum SysRead {
    Value(u64),
    /// There is no such register, or the level may not read it.
    Undefined,
}

/// What a write of a system register comes to.
#[derive(Clone, Copy, Debug, PartialEq, Eq)]
pub enum SysWrite {
    Done,
    /// The interrupt with this number, below 96, ends: the write of ICC_EOIR1_EL1. What that changes is the interrupt
    /// interface's.
    End(u16),
    /// There is no such register, or the level may not write it.
    Undefined,
    /// EL2 takes it: the write of ICC_SGI1R_EL1 at EL1.
    TrapEl2,
}

/// Reads a system register by MRS at a moment, by the table of this crate. Where [`acknowledges`] says so, the interrupt
/// that is read is then to be taken.
#[tactic(auto, using(crate::proofs::Undefined::undefined_read), unfolding(crate::specs::Access::read_answer))]
pub fn read_sys(core: &Core, moment: Moment, id: SysId) -> SysRead
    ensures answer { result ≡ read_answer core.now moment id }
    ensures undefined { (result ≡ SysRead.Undefined) ↔ IsFalse (may_read_in core.now id) }
{
    read_register(core, moment, id)
}

/// Writes a system register by MSR at a moment, by the table of this crate. A write that isn't Done leaves the core.
#[tactic(auto, using(crate::proofs::Undefined::undefined_write, crate::proofs::Kept::kept_write, crate::proofs::Ended::ends_an_id))]
pub fn write_sys(core: &mut Core, moment: Moment, id: SysId, value: u64) -> SysWrite
    ensures answer { result ≡ write_answer_in core.old id value }
    ensures undefined { (result ≡ SysWrite.Undefined) ↔ IsFalse (may_write core.old id) }
    ensures end { EndsAnId result }
    ensures core { core.new ≡ written core.old moment id value }
    ensures kept { result ≢ SysWrite.Done → core.new ≡ core.old }
{
    write_register(core, moment, id, value)
}

/// What a write of a system register comes to, which isn't made.
#[tactic(auto, using(crate::proofs::Ended::ends_an_id))]
pub fn write_answer(core: &Core, id: SysId, value: u64) -> SysWrite
    ensures answer { result ≡ write_answer_in core.now id value }
    ensures end { EndsAnId result }
{
    answer_register(core, id, value)
}

/// Reads the register with a number, where there is one and the level may read it.
#[tactic(auto, unfolding(crate::specs::Access::read_answer))]
fn read_register(core: &Core, moment: Moment, id: SysId) -> SysRead
    ensures { result ≡ read_answer core.now moment id }
{
    match register_of(id) {
        Some(register) if register.rights(core.mode()).allows_read() => read(
            core, moment, register,
        ),
        Some(_) | None => SysRead::Undefined,
    }
}

/// Writes the register with a number, where there is one and the level may write it.
#[tactic(auto, unfolding(crate::specs::Access::written, crate::specs::Access::write_answer))]
fn write_register(core: &mut Core, moment: Moment, id: SysId, value: u64) -> SysWrite
    ensures answer { result ≡ write_answer_in core.old id value }
    ensures core { core.new ≡ written core.old moment id value }
{
    match register_of(id) {
        Some(register) if register.rights(core.mode()).allows_write() => {
            write(core, moment, register, value);
            answer(register, value)
        }
        Some(_) | None => SysWrite::Undefined,
    }
}

/// What a write of the register with a number comes to.
#[tactic(auto, unfolding(crate::specs::Access::write_answer))]
fn answer_register(core: &Core, id: SysId, value: u64) -> SysWrite
    ensures { result ≡ write_answer_in core.now id value }
{
    match register_of(id) {
        Some(register) if register.rights(core.mode()).allows_write() => answer(register, value),
        Some(_) | None => SysWrite::Undefined,
    }
}

/// Whether there is a system register with this number and the level may read it: the read isn't Undefined.
#[tactic(auto, unfolding(crate::specs::Access::may_read))]
pub fn may_read(core: &Core, id: SysId) -> bool
    ensures { result ≡ may_read_in core.now id }
{
    match register_of(id) {
        Some(register) => register.rights(core.mode()).allows_read(),
        None => false,
    }
}

/// Whether the register is ICC_IAR1_EL1, whose read takes the interrupt that it gives.
#[tactic(auto, unfolding(crate::specs::Table::row))]
pub fn acknowledges(id: SysId) -> bool
    ensures { result ≡ acknowledges_number id }
{
    Register::IccIar1.has_number(id)
}
