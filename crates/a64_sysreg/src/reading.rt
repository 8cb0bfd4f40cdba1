ghost use Rattle.std.specs.Prelude.{◌≡◌};
ghost use Rattle.a64_sysreg.specs.Table.{row};
ghost use Rattle.a64_sysreg.specs.Value.{shown as shown_at};

use crate::{Moment, Register, SysRead};
use a64_state::{Core, pstate};
use generic_timer::status;
use pmsa_regs::{read_base, read_limit, select};
use vgic_iface::{NO_INTERRUPT, running};

/// What a read of a register gives, as far as it may be read.
#[tactic(auto, unfolding(crate::specs::Table::row))]
pub(crate) fn read(core: &Core, moment: Moment, register: Register) -> SysRead
    ensures { result ≡ (row register).read core.now moment }
{
    SysRead::Value(match register {
        Register::Midr | Register::Identification | Register::Ctr => 0,
        Register::Mpuir => 16,
        Register::Mpidr => 0x8000_0000 + u64::from(core.affinity),
        Register::Sctlr => core.sys.sctlr,
        Register::Cpacr => core.sys.cpacr,
        Register::Spsr => core.sys.spsr,
        Register::Elr => core.sys.elr,
        Register::SpEl0 => core.sp0,
        Register::SpSel => u64::from(core.pstate % 2),
        Register::CurrentEl => u64::from(core.level()) * 4,
        Register::Esr => core.sys.esr,
        Register::Far => core.sys.far,
        Register::Prselr => select(&core.regions),
        Register::Prbar => read_base(&core.regions),
        Register::Prlar => read_limit(&core.regions),
        Register::Mair => core.sys.mair,
        Register::Vbar => core.sys.vbar,
        Register::IccPmr => u64::from(core.iface.pmr),
        Register::IccBpr1 | Register::IccCtlr => 0,
        Register::IccSre => 7,
        Register::IccIgrpen1 => u64::from(core.iface.group),
        Register::Contextidr => core.sys.contextidr,
        Register::Tpidr => core.sys.tpidr,
        Register::Cntkctl => core.sys.cntkctl,
        Register::Nzcv => u64::from(pstate::flags(core.pstate)) * (1 << 28),
        Register::Daif => u64::from(pstate::daif(core.pstate)) * (1 << 6),
        Register::TpidrEl0 => core.sys.tpidr_el0,
        Register::TpidrroEl0 => core.sys.tpidrro_el0,
        Register::Cntfrq => 100_000_000,
        Register::Cntvct => moment.count,
        Register::CntvTval => core.timer.cval.wrapping_sub(moment.count) % (1 << 32),
        Register::CntvCtl => core.timer.ctl + 4 * u64::from(status(&core.timer, moment.count)),
        Register::CntvCval => core.timer.cval,
        Register::IccRpr => u64::from(running(&core.iface)),
        Register::IccIar1 | Register::IccHppir1 => shown(moment),
        Register::IccSgi1r | Register::IccEoir1 => return SysRead::Undefined,
    })
}

/// The number of the interrupt that the core may take, as the interface shows it.
fn shown(moment: Moment) -> u64
    ensures { result ≡ shown_at moment }
{
    u64::from(moment.signal.unwrap_or(NO_INTERRUPT))
}
