//! The system registers by their numbers.

ghost use Rattle.std.specs.Prelude.{◌≡◌};
ghost use Rattle.a64_sysreg.specs.Groups.{group_of, Control, Protection, Interrupts, Timer};
ghost use Rattle.a64_sysreg.specs.Row.{is_identification as is_identification_number, sys_id};
ghost use Rattle.a64_sysreg.specs.Table.{row, register_of as register_in, NumbersAreDistinct};

use bao_types::SysId;

/// The system registers of the machine, in the order of their numbers.
#[derive(Clone, Copy, Debug, PartialEq, Eq)]
pub enum Register {
    /// MIDR_EL1.
    Midr,
    /// MPUIR_EL1.
    Mpuir,
    /// MPIDR_EL1.
    Mpidr,
    /// The identification registers, whose CRm is 1 to 7.
    Identification,
    /// SCTLR_EL1.
    Sctlr,
    /// CPACR_EL1.
    Cpacr,
    /// SPSR_EL1.
    Spsr,
    /// ELR_EL1.
    Elr,
    /// SP_EL0.
    SpEl0,
    /// SPSel.
    SpSel,
    /// CurrentEL.
    CurrentEl,
    /// ICC_PMR_EL1.
    IccPmr,
    /// ESR_EL1.
    Esr,
    /// FAR_EL1.
    Far,
    /// PRSELR_EL1.
    Prselr,
    /// PRBAR_EL1.
    Prbar,
    /// PRLAR_EL1.
    Prlar,
    /// MAIR_EL1.
    Mair,
    /// VBAR_EL1.
    Vbar,
    /// ICC_RPR_EL1.
    IccRpr,
    /// ICC_SGI1R_EL1.
    IccSgi1r,
    /// ICC_IAR1_EL1.
    IccIar1,
    /// ICC_EOIR1_EL1.
    IccEoir1,
    /// ICC_HPPIR1_EL1.
    IccHppir1,
    /// ICC_BPR1_EL1.
    IccBpr1,
    /// ICC_CTLR_EL1.
    IccCtlr,
    /// ICC_SRE_EL1.
    IccSre,
    /// ICC_IGRPEN1_EL1.
    IccIgrpen1,
    /// CONTEXTIDR_EL1.
    Contextidr,
    /// TPIDR_EL1.
    Tpidr,
    /// CNTKCTL_EL1.
    Cntkctl,
    /// CTR_EL0.
    Ctr,
    /// NZCV.
    Nzcv,
    /// DAIF.
    Daif,
    /// TPIDR_EL0.
    TpidrEl0,
    /// TPIDRRO_EL0.
    TpidrroEl0,
    /// CNTFRQ_EL0.
    Cntfrq,
    /// CNTVCT_EL0.
    Cntvct,
    /// CNTV_TVAL_EL0.
    CntvTval,
    /// CNTV_CTL_EL0.
    CntvCtl,
    /// CNTV_CVAL_EL0.
    CntvCval,
}

/// All of them.
static REGISTERS: [Register; 41] = [
    Register::Midr,
    Register::Mpuir,
    Register::Mpidr,
    Register::Identification,
    Register::Sctlr,
    Register::Cpacr,
    Register::Spsr,
    Register::Elr,
    Register::SpEl0,
    Register::SpSel,
    Register::CurrentEl,
    Register::IccPmr,
    Register::Esr,
    Register::Far,
    Register::Prselr,
    Register::Prbar,
    Register::Prlar,
    Register::Mair,
    Register::Vbar,
    Register::IccRpr,
    Register::IccSgi1r,
    Register::IccIar1,
    Register::IccEoir1,
    Register::IccHppir1,
    Register::IccBpr1,
    Register::IccCtlr,
    Register::IccSre,
    Register::IccIgrpen1,
    Register::Contextidr,
    Register::Tpidr,
    Register::Cntkctl,
    Register::Ctr,
    Register::Nzcv,
    Register::Daif,
    Register::TpidrEl0,
    Register::TpidrroEl0,
    Register::Cntfrq,
    Register::Cntvct,
    Register::CntvTval,
    Register::CntvCtl,
    Register::CntvCval,
];

/// The register with this number; None where there is none.
pub(crate) fn register_of(id: SysId) -> Option<Register>
    ensures { result ≡ register_in id }
{
    for register in REGISTERS.as_slice() {
        if register.has_number(id) {
            return Some(*register);
        }
    }
    None
}

/// A number names one register at most, and each register is named by its numbers. The function does nothing; its contract
/// is the law.
pub fn numbers_are_distinct()
    ensures { NumbersAreDistinct }
{}

impl Register {
    /// Whether this is its number, or one of its numbers.
    #[rattlefmt::skip]
    #[tactic(auto, unfolding(crate::specs::Table::row, crate::specs::Groups::group_of))]
    pub fn has_number(self, id: SysId) -> bool
        ensures { result ≡ (row self).number id }
    {
        match self {
            Register::Midr | Register::Mpuir | Register::Mpidr | Register::Identification | Register::Sctlr
            | Register::Cpacr | Register::Spsr | Register::Elr | Register::SpEl0 | Register::SpSel
            | Register::CurrentEl | Register::Esr | Register::Far | Register::Vbar | Register::Contextidr
            | Register::Tpidr | Register::Ctr | Register::Nzcv | Register::Daif | Register::TpidrEl0
            | Register::TpidrroEl0 => has_control_number(self, id),
            Register::Prselr | Register::Prbar | Register::Prlar | Register::Mair => has_protection_number(self, id),
            Register::IccPmr | Register::IccRpr | Register::IccSgi1r | Register::IccIar1 | Register::IccEoir1
            | Register::IccHppir1 | Register::IccBpr1 | Register::IccCtlr | Register::IccSre | Register::IccIgrpen1 =>
                has_interrupt_number(self, id),
            Register::Cntkctl | Register::Cntfrq | Register::Cntvct | Register::CntvTval | Register::CntvCtl
            | Register::CntvCval => has_timer_number(self, id),
        }
    }
}

/// Whether this is the number of a register that identifies the core, or controls it and its exceptions.
#[tactic(auto, unfolding(crate::specs::Table::row, crate::specs::Groups::group_of))]
fn has_control_number(register: Register, id: SysId) -> bool
    ensures { group_of register ≡ Control → result ≡ (row register).number id }
{
    match register {
        Register::Midr => id == number(3, 0, 0, 0, 0),
        Register::Mpuir => id == number(3, 0, 0, 0, 4),
        Register::Mpidr => id == number(3, 0, 0, 0, 5),
        Register::Identification => is_identification(id),
        Register::Sctlr => id == number(3, 0, 1, 0, 0),
        Register::Cpacr => id == number(3, 0, 1, 0, 2),
        Register::Spsr => id == number(3, 0, 4, 0, 0),
        Register::Elr => id == number(3, 0, 4, 0, 1),
        Register::SpEl0 => id == number(3, 0, 4, 1, 0),
        Register::SpSel => id == number(3, 0, 4, 2, 0),
        Register::CurrentEl => id == number(3, 0, 4, 2, 2),
        Register::Esr => id == number(3, 0, 5, 2, 0),
        Register::Far => id == number(3, 0, 6, 0, 0),
        Register::Vbar => id == number(3, 0, 12, 0, 0),
        Register::Contextidr => id == number(3, 0, 13, 0, 1),
        Register::Tpidr => id == number(3, 0, 13, 0, 4),
        Register::Ctr => id == number(3, 3, 0, 0, 1),
        Register::Nzcv => id == number(3, 3, 4, 2, 0),
        Register::Daif => id == number(3, 3, 4, 2, 1),
        Register::TpidrEl0 => id == number(3, 3, 13, 0, 2),
        Register::TpidrroEl0 => id == number(3, 3, 13, 0, 3),
        _ => false,
    }
}

/// Whether this is the number of a register of memory protection.
#[tactic(auto, unfolding(crate::specs::Table::row, crate::specs::Groups::group_of))]
fn has_protection_number(register: Register, id: SysId) -> bool
    ensures { group_of register ≡ Protection → result ≡ (row register).number id }
{
    match register {
        Register::Prselr => id == number(3, 0, 6, 2, 1),
        Register::Prbar => id == number(3, 0, 6, 8, 0),
        Register::Prlar => id == number(3, 0, 6, 8, 1),
        Register::Mair => id == number(3, 0, 10, 2, 0),
        _ => false,
    }
}

/// Whether this is the number of a register of the interrupt interface.
#[tactic(auto, unfolding(crate::specs::Table::row, crate::specs::Groups::group_of))]
fn has_interrupt_number(register: Register, id: SysId) -> bool
    ensures { group_of register ≡ Interrupts → result ≡ (row register).number id }
{
    match register {
        Register::IccPmr => id == number(3, 0, 4, 6, 0),
        Register::IccRpr => id == number(3, 0, 12, 11, 3),
        Register::IccSgi1r => id == number(3, 0, 12, 11, 5),
        Register::IccIar1 => id == number(3, 0, 12, 12, 0),
        Register::IccEoir1 => id == number(3, 0, 12, 12, 1),
        Register::IccHppir1 => id == number(3, 0, 12, 12, 2),
        Register::IccBpr1 => id == number(3, 0, 12, 12, 3),
        Register::IccCtlr => id == number(3, 0, 12, 12, 4),
        Register::IccSre => id == number(3, 0, 12, 12, 5),
        Register::IccIgrpen1 => id == number(3, 0, 12, 12, 7),
        _ => false,
    }
}

/// Whether this is the number of a register of the timer.
#[tactic(auto, unfolding(crate::specs::Table::row, crate::specs::Groups::group_of))]
fn has_timer_number(register: Register, id: SysId) -> bool
    ensures { group_of register ≡ Timer → result ≡ (row register).number id }
{
    match register {
        Register::Cntkctl => id == number(3, 0, 14, 1, 0),
        Register::Cntfrq => id == number(3, 3, 14, 0, 0),
        Register::Cntvct => id == number(3, 3, 14, 0, 2),
        Register::CntvTval => id == number(3, 3, 14, 3, 0),
        Register::CntvCtl => id == number(3, 3, 14, 3, 1),
        Register::CntvCval => id == number(3, 3, 14, 3, 2),
        _ => false,
    }
}

/// The number of a register by its five parts.
fn number(op0: u8, op1: u8, crn: u8, crm: u8, op2: u8) -> SysId
    ensures { result ≡ sys_id op0 op1 crn crm op2 }
{
    SysId {
        op0,
        op1,
        crn,
        crm,
        op2,
    }
}

/// Whether this is the number of an identification register.
fn is_identification(id: SysId) -> bool
    ensures { result ≡ is_identification_number id }
{
    id.op0 == 3 && id.op1 == 0 && id.crn == 0 && id.crm >= 1 && id.crm <= 7
}
