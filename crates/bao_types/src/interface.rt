use std::marker::Model;

/// The virtual timer of a core: CNTV_CTL_EL0, CNTV_CVAL_EL0, and the level that its line had last.
#[derive(Clone, Copy, Debug, PartialEq, Eq)]
pub struct TimerRegs {
    pub ctl: u64,
    pub cval: u64,
    pub level: bool,
}

/// A list register of the virtual interrupt interface (GICv3, ICH_LR<n>_EL2). It is free where the interrupt is neither
/// pending nor active. A core has four, which EL2 alone reaches, so they aren't among the registers of a guest.
#[derive(Clone, Copy, Debug, PartialEq, Eq)]
pub struct ListReg {
    /// The interrupt's number, below `ID_END`.
    pub id: u16,
    /// Bits 7 to 3 alone; a lower number comes first.
    pub priority: u8,
    pub pending: bool,
    pub active: bool,
}

impl ListReg {
    ghost use Rattle.std.specs.Prelude.{◌≡◌};
    ghost use Rattle.bao_types.specs.ListReg.{free_register, is_free};

    /// A register in which no interrupt stands, as all are after a reset.
    pub fn free() -> ListReg
        ensures { result ≡ free_register }
    {
        ListReg {
            id: 0,
            priority: 0,
            pending: false,
            active: false,
        }
    }

    /// Whether the interrupt is neither pending nor active, so that the register can take another.
    pub fn is_free(&self) -> bool
        ensures { result ≡ is_free self.now }
    {
        !self.pending && !self.active
    }
}

impl Model for ListReg {
    ghost use Rattle.std.specs.Prelude.{◌≡◌, ◌<◌, ◌%◌};
    ghost use Rattle.bao_types.specs.Controller.{id_end};
    ghost use Rattle.bao_types.specs.ListReg.{ListRegData};

    ghost Value = { ListRegData };

    ghost view = { λ r. record { id = r.id; priority = r.priority; pending = r.pending; active = r.active } };

    ghost invariant = { λ r. (r.id < id_end) × (r.priority % 8 ≡ 0) };

    ghost inverse = { λ d. record { id = d.id; priority = d.priority; pending = d.pending; active = d.active } };
}

/// The virtual interrupt interface of a core as its guest reaches it: ICC_PMR_EL1, ICC_IGRPEN1_EL1 and the active
/// priorities.
#[derive(Clone, Copy, Debug, PartialEq, Eq)]
pub struct IfaceRegs {
    /// The priority mask: bits 7 to 3 alone.
    pub pmr: u8,
    /// Whether Group 1 interrupts are enabled.
    pub group: bool,
    /// Bit p / 8 stands for the active priority p.
    pub active: u32,
}

impl Model for IfaceRegs {
    ghost use Rattle.std.specs.Prelude.{◌≡◌, ◌%◌};
    ghost use Rattle.bao_types.specs.IfaceRegs.{IfaceData};

    ghost Value = { IfaceData };

    ghost view = { λ r. record { pmr = r.pmr; group = r.group; active = r.active } };

    ghost invariant = { λ r. r.pmr % 8 ≡ 0 };

    ghost inverse = { λ d. record { pmr = d.pmr; group = d.group; active = d.active } };
}
