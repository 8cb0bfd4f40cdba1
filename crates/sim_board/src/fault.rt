//! What stops a fetch, a load or a store: the checks before it is judged, and the exceptions of an abort.
ghost use Rattle.std.specs.Prelude.{◌≡◌, ◌<◌, ◌||◌, ◌&&◌, true};
ghost use Rattle.a64_execute.specs.Want.{IsAccess};
ghost use Rattle.exceptions.specs.Entry.{entered};
ghost use Rattle.exceptions.specs.Syndrome.{class_number, IsAbort};
ghost use Rattle.board.specs.Attempt.{Effect, abort_class, aborted, checked, checks_alignment, checks_sp, code_of, data_aborted, fetch_aborted, is_misaligned, is_sp_misaligned, misaligned};
ghost use Rattle.sim_board.specs.Step.{Ends, is_stopped};

use a64_address::MemShape;
use a64_decode::Instr;
use a64_state::Core;
use bao_types::Verdict;
use board::{Exit, Fault};
use exceptions::{Cause, Class, abort_syndrome, enter_el1, syndrome};

/// The fault status code of a misaligned access.
const ALIGNMENT: u32 = 0x21;

/// Whether an access isn't judged: SP is its base, is checked and isn't a multiple of 16, or its start is checked and isn't
/// a multiple of an element's width.
#[inline(always)]
pub(crate) fn is_stopped(core: &Core, shape: &MemShape) -> bool
    requires { IsAccess shape.now }
    ensures { result ≡ is_stopped core.now shape.now }
{
    if is_sp_misaligned(core, shape) {
        return true;
    }
    if core.sys.sctlr / (1 << 1) % 2 == 0 {
        return false;
    }
    is_misaligned(shape)
}

/// Whether SP is the base of an access, is checked, and isn't a multiple of 16.
#[inline(always)]
fn is_sp_misaligned(core: &Core, shape: &MemShape) -> bool
    ensures { result ≡ is_sp_misaligned core.now shape.now }
{
    if !shape.base_sp {
        return false;
    }
    if !checks_sp(core) {
        return false;
    }
    core.read_sp() % 16 != 0
}

/// Whether SP is checked where it is a base: SCTLR_EL1.SA at EL1, and SA0 at EL0.
fn checks_sp(core: &Core) -> bool
    ensures { result ≡ checks_sp core.now }
{
    if core.level() == 1 {
        core.sys.sctlr / (1 << 3) % 2 == 1
    } else {
        core.sys.sctlr / (1 << 4) % 2 == 1
    }
}

/// Whether the start of an access isn't a multiple of an element's width.
pub(crate) fn is_misaligned(shape: &MemShape) -> bool
    requires { IsAccess shape.now }
    ensures { result ≡ is_misaligned shape.now }
{
    shape.at % u64::from(shape.width) != 0
}

/// Takes the exception of an access that is stopped. The check of SP comes first.
#[inline(never)]
pub(crate) fn stop(core: &mut Core, instr: &Instr, shape: &MemShape) -> Exit
    requires access { IsAccess shape.now }
    requires stopped { is_stopped core.old shape.now ≡ true }
    ensures { (judged : Effect) → Ends (checked core.old instr.now shape.now judged) core.new result }
{
    if is_sp_misaligned(core, shape) {
        let back = core.pc;
        return raise(core, syndrome(Class::SpAlignment, 0), None, back);
    }
    misalign(core, instr, shape)
}

/// Takes the alignment fault of an access whose start isn't a multiple of an element's width.
#[inline(never)]
pub(crate) fn misalign(core: &mut Core, instr: &Instr, shape: &MemShape) -> Exit
    ensures { Ends (misaligned core.old instr.now shape.now) core.new result }
{
    data_abort(core, instr, false, ALIGNMENT, shape.at)
}

/// Takes the abort of a load or a store that is refused.
#[inline(never)]
pub(crate) fn refuse_data(core: &mut Core, instr: &Instr, fault: Fault) -> Exit
    ensures { Ends (data_aborted core.old instr.now fault.stage2 (code_of fault.verdict) fault.at) core.new result }
{
    data_abort(core, instr, fault.stage2, code(fault.verdict), fault.at)
}

/// Takes the abort of a fetch that is refused.
#[inline(never)]
pub(crate) fn refuse_fetch(core: &mut Core, fault: Fault) -> Exit
    ensures { Ends (fetch_aborted core.old fault) core.new result }
{
    let class = class_of(
        core,
        fault.stage2,
        Class::InstructionAbortLower,
        Class::InstructionAbortSame,
    );
    let esr = syndrome(class, code(fault.verdict));
    abort(core, fault.stage2, esr, fault.at)
}

/// Takes an abort of a load or a store, with this code.
fn data_abort(core: &mut Core, instr: &Instr, stage2: bool, code: u32, at: u64) -> Exit
    requires { code < 64 }
    ensures { Ends (data_aborted core.old instr.now stage2 code at) core.new result }
{
    let class = data_class(core, stage2);
    let esr = abort_syndrome(class, stage2, instr, code);
    abort(core, stage2, esr, at)
}

/// The number of the class of a data abort.
fn data_class(core: &Core, stage2: bool) -> u32
    ensures value { result ≡ class_number (abort_class Class.DataAbortLower Class.DataAbortSame core.now stage2) }
    ensures abort { IsAbort result }
{
    if stage2 {
        return Class::DataAbortLower.number();
    }
    if core.level() == 0 {
        Class::DataAbortLower.number()
    } else {
        Class::DataAbortSame.number()
    }
}

/// The class of an abort, of those from a lower level than takes it and from the same.
fn class_of(core: &Core, stage2: bool, lower: Class, same: Class) -> Class
    ensures { result ≡ abort_class lower same core.now stage2 }
{
    if stage2 {
        return lower;
    }
    if core.level() == 0 { lower } else { same }
}

/// Takes an abort of this syndrome: EL2 takes it from the second stage, and else EL1.
fn abort(core: &mut Core, stage2: bool, esr: u64, at: u64) -> Exit
    ensures { Ends (aborted core.old stage2 esr at) core.new result }
{
    if stage2 {
        return Exit::Sync { esr, far: at };
    }
    let back = core.pc;
    raise(core, esr, Some(at), back)
}

/// Takes an exception at EL1, where the core goes on.
pub(crate) fn raise(core: &mut Core, esr: u64, far: Option<u64>, back: u64) -> Exit
    ensures core { core.new ≡ entered core.old (Cause.Sync esr far back) }
    ensures exit { result ≡ Exit.Ran }
{
    enter_el1(core, Cause::Sync { esr, far, back });
    Exit::Ran
}

/// The fault status code of a verdict.
fn code(verdict: Verdict) -> u32
    ensures value { result ≡ code_of verdict }
    ensures bound { result < 64 }
{
    match verdict {
        Verdict::Allow => 0,
        Verdict::Translation => 0x04,
        Verdict::Permission => 0x0C,
    }
}
