ghost use Rattle.std.specs.Prelude.{◌≡◌};

use a64_state::Core;

/// The registers of a core that a report shows.
#[derive(Clone, Copy, Debug, PartialEq, Eq)]
pub struct CoreView {
    pub pc: u64,
    pub pstate: u32,
    /// SP_EL0.
    pub sp0: u64,
    /// SP_EL1.
    pub sp1: u64,
    /// X0 to X30.
    pub x: [u64; 31],
    pub elr: u64,
    pub spsr: u64,
    pub esr: u64,
    pub far: u64,
    pub vbar: u64,
    pub sctlr: u64,
}

impl CoreView {
    ghost use Rattle.board.specs.View.{view_of};

    /// What a report shows of a core.
    pub fn of(core: &Core) -> CoreView
        ensures { result ≡ view_of core.now }
    {
        CoreView {
            pc: core.pc,
            pstate: core.pstate,
            sp0: core.sp0,
            sp1: core.sp1,
            x: core.x,
            elr: core.sys.elr,
            spsr: core.sys.spsr,
            esr: core.sys.esr,
            far: core.sys.far,
            vbar: core.sys.vbar,
            sctlr: core.sys.sctlr,
        }
    }
}
