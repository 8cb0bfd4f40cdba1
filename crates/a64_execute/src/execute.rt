//! The instructions that have no access and take no exception.

ghost use Rattle.std.specs.Prelude.{◌≡◌, IsTrue, IsFalse};
ghost use Rattle.a64_decode.specs.Lawful.{IsLawful};
ghost use Rattle.a64_alu.specs.Computed.{is_data_processing};
ghost use Rattle.a64_execute.specs.Want.{asked, is_of_core_alone};
ghost use Rattle.a64_execute.specs.Execute.{executed};

use crate::branch::{advance, branch_if, jump, target};
use crate::system::{access_register, write_field};
use a64_alu::{alu, holds, is_alu, low_x};
use a64_decode::{BranchKind, Instr, width};
use a64_state::Core;
use a64_sysreg::Moment;
use exceptions::eret;

/// Carries out an instruction whose need is the core's alone, at a moment.
#[tactic(auto, using(crate::proofs::Shapes::computes))]
pub(crate) fn execute(core: &mut Core, moment: Moment, instr: &Instr)
    requires lawful { IsLawful instr.now }
    requires need { IsTrue (is_of_core_alone (asked core.old instr.now)) }
    ensures { core.new ≡ executed instr.now moment core.old }
{
    if is_alu(instr) {
        alu(core, instr);
        advance(core);
    } else {
        execute_other(core, moment, instr);
    }
}

/// Carries it out where it isn't data processing.
#[rattlefmt::skip]
#[tactic(auto, unfolding(crate::specs::Execute::executed, crate::specs::Want::asked))]
fn execute_other(core: &mut Core, moment: Moment, instr: &Instr)
    requires lawful { IsLawful instr.now }
    requires need { IsTrue (is_of_core_alone (asked core.old instr.now)) }
    requires other { IsFalse (is_data_processing instr.now) }
    ensures { core.new ≡ executed instr.now moment core.old }
{
    match *instr {
        Instr::Branch { link, offset } => {
            let target = target(core, offset);
            jump(core, link, target);
        }
        Instr::BranchConditional { offset, condition } => branch_if(core, holds(condition, core.pstate), offset),
        Instr::CompareBranch { wide, nonzero, offset, rt } => {
            let is_zero = low_x(core, width(wide), rt) == 0;
            branch_if(core, is_zero != nonzero, offset);
        }
        Instr::TestBranch { bit, nonzero, offset, rt } => {
            let bit = core.read_x(rt.0) >> bit & 1;
            branch_if(core, (bit == 1) == nonzero, offset);
        }
        Instr::BranchRegister { kind, rn } => {
            let target = core.read_x(rn.0);
            jump(core, kind == BranchKind::Blr, target);
        }
        Instr::ExceptionReturn => eret(core),
        Instr::MsrImmediate { field, crm } => {
            write_field(core, field, crm);
            advance(core);
        }
        Instr::SystemRegister { read, id, rt } => {
            access_register(core, moment, read, id, rt);
            advance(core);
        }
        Instr::System { .. } | Instr::Hint { .. } | Instr::Barrier { .. } | Instr::LoadLiteral { .. }
        | Instr::LoadStoreUnsigned { .. } | Instr::LoadStoreIndexed { .. } | Instr::LoadStoreRegister { .. } => advance(core),
        // These don't come here: a pair has an access, the next two ask for an exception, and the others compute.
        Instr::Pair { .. } | Instr::Exception { .. } | Instr::Undefined
        | Instr::Address { .. } | Instr::AddSubImmediate { .. } | Instr::LogicalImmediate { .. } | Instr::MoveWide { .. }
        | Instr::Bitfield { .. } | Instr::Extract { .. } | Instr::LogicalShifted { .. } | Instr::AddSubShifted { .. }
        | Instr::AddSubExtended { .. } | Instr::AddSubCarry { .. } | Instr::ConditionalCompare { .. }
        | Instr::ConditionalSelect { .. } | Instr::ThreeSources { .. } | Instr::TwoSources { .. }
        | Instr::OneSource { .. } => {}
    }
}
