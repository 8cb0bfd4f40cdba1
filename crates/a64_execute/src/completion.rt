ghost use Rattle.std.specs.Prelude.{◌≡◌, IsTrue, Some};
ghost use Rattle.a64_decode.specs.Lawful.{IsLawful};
ghost use Rattle.a64_execute.specs.Want.{wanted, access_asked, is_of_core_alone};
ghost use Rattle.a64_execute.specs.Finish.{finished};

use crate::branch::advance;
use crate::execute::execute;
use crate::transfer::transfer;
use a64_address::MemShape;
use a64_decode::Instr;
use a64_state::Core;
use a64_sysreg::Moment;

/// Completes an instruction for which [`want`](crate::want) gave Done, Acknowledge or End: writes its registers, and goes
/// on to the next instruction, to a branch's target, or to where an exception returns.
///
/// The system registers of the timer and of the interrupt interface show the moment. The interrupt that the instruction
/// takes or ends is the interrupt interface's.
#[tactic(auto, using(crate::proofs::Shapes::alone_row, crate::proofs::Shapes::alone_finished))]
pub fn complete(core: &mut Core, moment: Moment, instr: &Instr)
    requires lawful { IsLawful instr.now }
    requires need { IsTrue (is_of_core_alone (wanted core.old instr.now)) }
    ensures { core.new ≡ finished core.old moment instr.now 0 }
{
    execute(core, moment, instr);
}

/// Completes an instruction for which [`want`](crate::want) gave a Load or a Store of this shape, once the world has
/// carried it out: writes its registers, and the base back, and goes on to the next instruction.
///
/// `got` is what was loaded: the bytes of the access in address order as one little-endian number, for a pair the second
/// element from bit 8 times the width on. It means nothing where nothing was loaded. The moment makes no difference to it.
#[inline(always)]
pub fn complete_access(core: &mut Core, instr: &Instr, shape: &MemShape, got: u128)
    requires lawful { IsLawful instr.now }
    requires need { access_asked (wanted core.old instr.now) ≡ Some shape.now }
    ensures { (moment : Moment) → core.new ≡ finished core.old moment instr.now got }
{
    transfer(core, instr, shape, got);
    advance(core);
}
