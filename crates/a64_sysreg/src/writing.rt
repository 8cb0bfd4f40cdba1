ghost use Rattle.std.specs.Prelude.{◌≡◌};
ghost use Rattle.a64_sysreg.specs.Value.{compare_value as compare_value_of};
ghost use Rattle.a64_sysreg.specs.Table.{row};

use crate::{Moment, Register, SysWrite};
use a64_state::Core;
use bao_types::ID_END;
use pmsa_regs::{write_base, write_limit, write_select};

/// Writes a register, as far as it may be written.
#[rattlefmt::skip]
#[tactic(auto, unfolding(crate::specs::Table::row))]
pub(crate) fn write(core: &mut Core, moment: Moment, register: Register, value: u64)
    ensures { core.new ≡ (row register).after core.old moment value }
{
    match register {
        Register::Sctlr => core.sys.sctlr = value,
        Register::Cpacr => core.sys.cpacr = value,
        Register::Spsr => core.sys.spsr = value % (1 << 32),
        Register::Elr => core.sys.elr = value,
        Register::SpEl0 => core.sp0 = value,
        Register::SpSel => core.select_sp(value % 2 == 1),
        Register::Esr => core.sys.esr = value,
        Register::Far => core.sys.far = value,
        Register::Prselr => write_select(&mut core.regions, value),
        Register::Prbar => write_base(&mut core.regions, value),
        Register::Prlar => write_limit(&mut core.regions, value),
        Register::Mair => core.sys.mair = value,
        Register::Vbar => core.sys.vbar = value / (1 << 11) * (1 << 11),
        Register::IccPmr => core.iface.pmr = (value / 8 % 32 * 8) as u8,
        Register::IccIgrpen1 => core.iface.group = value % 2 == 1,
        Register::Contextidr => core.sys.contextidr = value,
        Register::Tpidr => core.sys.tpidr = value,
        Register::Cntkctl => core.sys.cntkctl = value,
        Register::Nzcv => core.set_flags((value / (1 << 28) % 16) as u32),
        Register::Daif => core.set_daif((value / (1 << 6) % 16) as u32),
        Register::TpidrEl0 => core.sys.tpidr_el0 = value,
        Register::TpidrroEl0 => core.sys.tpidrro_el0 = value,
        Register::CntvTval => core.timer.cval = compare_value(moment.count, value),
        Register::CntvCtl => core.timer.ctl = value % 4,
        Register::CntvCval => core.timer.cval = value,
        // These ignore a write.
        Register::IccBpr1 | Register::IccCtlr | Register::IccSre => {}
        // These aren't written: the first two answer otherwise, and all others are only read.
        Register::IccSgi1r | Register::IccEoir1 | Register::Midr | Register::Mpuir | Register::Mpidr
        | Register::Identification | Register::CurrentEl | Register::IccRpr | Register::IccIar1
        | Register::IccHppir1 | Register::Ctr | Register::Cntfrq | Register::Cntvct => {}
    }
}

/// What a write of a value to a register answers, as far as it may be written.
#[tactic(auto, unfolding(crate::specs::Table::row))]
#[rattlefmt::skip]
pub(crate) fn answer(register: Register, value: u64) -> SysWrite
    ensures { result ≡ (row register).answer value }
{
    use crate::Register::*;
    match register {
        IccSgi1r => SysWrite::TrapEl2,
        IccEoir1 => end(value),
        Midr | Mpuir | Mpidr | Identification | CurrentEl | IccRpr | IccIar1 | IccHppir1 | Ctr | Cntfrq | Cntvct =>
            SysWrite::Undefined,
        Sctlr | Cpacr | Spsr | Elr | SpEl0 | SpSel | IccPmr | Esr | Far | Prselr | Prbar | Prlar | Mair | Vbar | IccBpr1
        | IccCtlr | IccSre | IccIgrpen1 | Contextidr | Tpidr | Cntkctl | Nzcv | Daif | TpidrEl0 | TpidrroEl0 | CntvTval
        | CntvCtl | CntvCval => SysWrite::Done,
    }
}

/// What a write of ICC_EOIR1_EL1 answers: no interrupt has a number of 96 or more.
#[tactic(auto, unfolding(crate::specs::Table::row))]
fn end(value: u64) -> SysWrite
    ensures { result ≡ (row Register.IccEoir1).answer value }
{
    if value < u64::from(ID_END) {
        SysWrite::End(value as u16)
    } else {
        SysWrite::Done
    }
}

/// The compare value of the timer after a write of its timer value: the count and the signed word, in 64 bits.
fn compare_value(now: u64, value: u64) -> u64
    ensures { result ≡ compare_value_of now value }
{
    let word = value % (1 << 32);
    let high = if word >= 1 << 31 {
        u64::MAX - ((1 << 32) - 1)
    } else {
        0
    };
    now.wrapping_add(word + high)
}
