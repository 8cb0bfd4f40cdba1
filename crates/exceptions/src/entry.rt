ghost use Rattle.std.specs.Prelude.{◌≡◌, ◌+◌, ◌≤◌};
ghost use Rattle.a64_state.specs.Pstate.{mode};
ghost use Rattle.exceptions.specs.Entry.{vectors_of, vector_of, return_address, syndrome_after, fault_address_after, entered};

use crate::assembled::assemble;
use a64_state::{Core, Mode, SysRegs, pstate};

/// Why EL1 is entered.
#[derive(Clone, Copy, Debug, PartialEq, Eq)]
pub enum Cause {
    /// By an instruction or its fetch.
    Sync {
        /// The syndrome, for ESR_EL1.
        esr: u64,
        /// The fault address for FAR_EL1, of an abort or of a misaligned PC.
        far: Option<u64>,
        /// Where the exception returns to: the next instruction for SVC, else the instruction itself.
        back: u64,
    },
    /// By an interrupt, before the instruction at PC.
    Irq,
}

/// Takes an exception to EL1 (ARM DDI 0487, "Exception entry"): saves PSTATE and the return address, writes the syndrome
/// and the fault address that the cause has, masks interrupts, clears IL, and goes on at EL1 with its own stack pointer,
/// at the vector of the cause.
pub fn enter_el1(core: &mut Core, cause: Cause)
    ensures { core.new ≡ entered core.old cause }
{
    let vector = core.sys.vbar + offset(core, &cause);
    let pstate = assemble(pstate::flags(core.pstate), false, 0b1111, Mode::El1h);
    core.sys = saved(core, &cause);
    core.pc = vector;
    core.pstate = pstate;
}

/// The vector of a cause as an offset from VBAR_EL1.
fn offset(core: &Core, cause: &Cause) -> u64
    ensures value { result ≡ vectors_of (mode core.now.pstate) + vector_of cause.now }
    ensures bound { result ≤ 0x480 }
{
    let vectors = match core.mode() {
        Mode::El1t => 0x000,
        Mode::El1h => 0x200,
        Mode::El0t => 0x400,
    };
    match cause {
        Cause::Sync { .. } => vectors,
        Cause::Irq => vectors + 0x080,
    }
}

/// The system registers once they tell what happened.
fn saved(core: &Core, cause: &Cause) -> SysRegs
    ensures { result ≡ record core.now.sys {
      spsr = core.now.pstate;
      elr = return_address core.now cause.now;
      esr = syndrome_after core.now cause.now;
      far = fault_address_after core.now cause.now;
    } }
{
    let mut sys = core.sys;
    sys.spsr = u64::from(core.pstate);
    match *cause {
        Cause::Sync { esr, far, back } => {
            sys.elr = back;
            sys.esr = esr;
            if let Some(far) = far {
                sys.far = far;
            }
        }
        Cause::Irq => sys.elr = core.pc,
    }
    sys
}
