//! Who may do what with a register.

ghost use Rattle.std.specs.Prelude.{◌≡◌};
ghost use Rattle.a64_state.specs.Mode.{number_of};
ghost use Rattle.a64_sysreg.specs.Row.{allows_read, allows_write, at_el1};
ghost use Rattle.a64_sysreg.specs.Table.{row};

use crate::Register;
use a64_state::Mode;

/// What may be done with a register.
#[derive(Clone, Copy, Debug, PartialEq, Eq)]
pub enum Rights {
    Nothing,
    Read,
    Write,
    ReadWrite,
}

impl Rights {
    /// Whether the register may be read.
    pub fn allows_read(self) -> bool
        ensures { result ≡ allows_read self }
    {
        match self {
            Rights::Nothing | Rights::Write => false,
            Rights::Read | Rights::ReadWrite => true,
        }
    }

    /// Whether the register may be written.
    pub fn allows_write(self) -> bool
        ensures { result ≡ allows_write self }
    {
        match self {
            Rights::Nothing | Rights::Read => false,
            Rights::Write | Rights::ReadWrite => true,
        }
    }
}

impl Register {
    /// What may be done with the register in a mode.
    #[tactic(auto, unfolding(crate::specs::Table::row))]
    #[rattlefmt::skip]
    pub(crate) fn rights(self, mode: Mode) -> Rights
        ensures { result ≡ (row self).rights (number_of mode) }
    {
        use crate::Register::*;
        match self {
            Midr | Mpuir | Mpidr | Identification | CurrentEl | IccRpr | IccIar1 | IccHppir1 => el1(mode, Rights::Read),
            IccSgi1r | IccEoir1 => el1(mode, Rights::Write),
            Sctlr | Cpacr | Spsr | Elr | SpSel | IccPmr | Esr | Far | Prselr | Prbar | Prlar | Mair | Vbar | IccBpr1
            | IccCtlr | IccSre | IccIgrpen1 | Contextidr | Tpidr | Cntkctl | Daif | CntvTval | CntvCtl | CntvCval =>
                el1(mode, Rights::ReadWrite),
            SpEl0 => match mode {
                Mode::El1h => Rights::ReadWrite,
                Mode::El0t | Mode::El1t => Rights::Nothing,
            },
            Ctr | Cntfrq | Cntvct => Rights::Read,
            Nzcv | TpidrEl0 => Rights::ReadWrite,
            TpidrroEl0 => match mode {
                Mode::El0t => Rights::Read,
                Mode::El1t | Mode::El1h => Rights::ReadWrite,
            },
        }
    }
}

/// These rights at EL1, and none at EL0.
fn el1(mode: Mode, rights: Rights) -> Rights
    ensures { result ≡ at_el1 rights (number_of mode) }
{
    match mode {
        Mode::El0t => Rights::Nothing,
        Mode::El1t | Mode::El1h => rights,
    }
}
