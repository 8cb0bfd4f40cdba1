ghost use Rattle.std.specs.Prelude.{◌≡◌};
ghost use Rattle.a64_state.specs.Registers.{level};
ghost use Rattle.a64_state.specs.Mode.{number_of, mode_of};
ghost use Rattle.a64_state.specs.Pstate.{IsPstate};
ghost use Rattle.exceptions.specs.Assembled.{pstate_of};
ghost use Rattle.exceptions.specs.Return.{parts_after, returned, UndoesEntry};

use crate::assembled::assemble;
use a64_state::{Core, Mode, pstate};

/// Returns from an exception by ERET at EL1 (ARM DDI 0487, "Exception return"): PC comes from ELR_EL1, and PSTATE from
/// SPSR_EL1. Where SPSR_EL1 has no mode of EL0 or EL1 the return is illegal: IL is set, and the level and the stack
/// pointer stay.
pub fn eret(core: &mut Core)
    requires { level core.old ≡ 1 }
    ensures { core.new ≡ returned core.old }
{
    let spsr = core.sys.spsr as u32;
    core.pstate = pstate_after(spsr, core.mode());
    core.pc = core.sys.elr;
}

/// A return undoes an entry. The function does nothing; its contract is the law.
pub fn returns_undo_entries()
    ensures { UndoesEntry }
{}

/// PSTATE after a return by an SPSR from a mode.
fn pstate_after(spsr: u32, from: Mode) -> u32
    ensures value { result ≡ pstate_of (parts_after spsr (number_of from) (mode_of spsr)) }
    ensures bits { IsPstate result }
{
    let flags = pstate::flags(spsr);
    let daif = pstate::daif(spsr);
    match Mode::of(spsr) {
        Some(to) => assemble(flags, pstate::illegal_state(spsr), daif, to),
        None => assemble(flags, true, daif, from),
    }
}
