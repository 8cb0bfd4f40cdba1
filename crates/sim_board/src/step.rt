//! One step of a core.
ghost use Rattle.std.specs.Prelude.{◌≡◌, ◌+◌, ◌≤◌, ◌<◌, ℕ, if◌then◌else◌, IsTrue, List, Some};
ghost use Rattle.bao_types.specs.ListReg.{ListRegData};
ghost use Rattle.a64_decode.specs.Lawful.{IsLawful};
ghost use Rattle.a64_execute.specs.Branch.{advanced};
ghost use Rattle.a64_execute.specs.Want.{wanted, bytes_of};
ghost use Rattle.a64_execute.specs.Finish.{finished};
ghost use Rattle.exceptions.specs.Entry.{entered};
ghost use Rattle.board.specs.Attempt.{Acknowledged, Ended, takes_irq, attempt, ran};
ghost use Rattle.board.specs.Interrupts.{lines_timed, timed};
ghost use Rattle.board.specs.Judge.{all_from};
ghost use Rattle.phys_bank.specs.Banks.{BanksData, is_kept};
ghost use Rattle.sim_board.specs.Devices.{DevicesData, is_backed};
ghost use Rattle.sim_board.specs.Reached.{IsContained};
ghost use Rattle.sim_board.specs.Step.{attempt_in, checked_in, Ends, executed_in, IsBegun, IsRequested, Leads, load_in, port_load_in, port_store_in, step_in, step_state, store_in};

use crate::access::{Way, byte_count, is_plain, judge, read_elements, write_elements};
use crate::devices::Devices;
use crate::fault::{is_misaligned, is_stopped, misalign, raise, refuse_data, refuse_fetch, stop};
use crate::judge::{first_fault, passes_at_once};
use crate::memory::{number_at, store};
use a64_address::MemShape;
use a64_decode::{Instr, decode};
use a64_execute::{Need, complete, complete_access, want};
use a64_state::{Core, pstate};
use a64_sysreg::Moment;
use bao_types::{Access, ListReg};
use board::Exit;
use exceptions::{Cause, Class, enter_el1, syndrome};
use generic_timer::edge;
use gic_core::Lines;
use phys_bank::Banks;
use pmsa_table::Table;
use vgic_iface::{acknowledge, end, signal};

/// An instruction that was fetched.
#[derive(Clone, Copy)]
struct Fetched {
    instr: Instr,
    /// What the step is handed besides its core.
    moment: Moment,
}

/// A load or a store that an instruction asks for.
#[derive(Clone, Copy)]
struct Request<'a> {
    fetched: &'a Fetched,
    shape: &'a MemShape,
    /// What a store stores; 0 for a load.
    value: u128,
}

/// Looks at the timer of the core with this number at the system count `now`, and raises its line where its level rises.
#[inline(always)]
pub(crate) fn look_at_timer(core: &mut Core, lines: &mut Lines, number: u8, now: u64)
    requires { number < 8 }
    ensures core { core.new ≡ timed core.old now }
    ensures lines { lines.new ≡ lines_timed lines.old number core.old now }
{
    if edge(&mut core.timer, now) {
        lines.raise_ppi(number);
    }
}

/// Lets a core take a step at the system count `now`, where no line is raised for it: an interrupt that its list registers
/// signal comes before all else.
pub(crate) fn step_core<D: Devices>(
    core: &mut Core,
    lists: &mut [ListReg; 4],
    memory: &mut Banks,
    devices: &mut D,
    table: &mut Table,
    now: u64,
) -> Exit
    requires contained { IsContained (is_kept memory.old) table.old (D.view devices.old).spots }
    requires room { 2 ≤ D.room devices.old }
    ensures kept { is_kept memory.new ≡ is_kept memory.old }
    ensures entries { table.new ≡ table.old }
    ensures spots { (D.view devices.new).spots ≡ (D.view devices.old).spots }
    ensures room { D.room devices.old ≤ D.room devices.new + 2 }
    ensures end { Leads (step_in table.old now) (step_state core.old lists.old memory.old (D.view devices.old))
        (step_state core.new lists.new memory.new (D.view devices.new)) result }
{
    let moment = Moment {
        count: now,
        signal: signal(&core.iface, lists),
    };
    if takes_irq(core, &moment) {
        return take_irq(core);
    }
    attempt(core, lists, memory, devices, table, &moment)
}

/// Whether the core takes the interrupt that its interface shows.
#[inline(always)]
fn takes_irq(core: &Core, moment: &Moment) -> bool
    ensures { result ≡ takes_irq core.now moment.now }
{
    moment.signal.is_some() && !core.masks_irq()
}

/// Takes an interrupt at EL1. It stays signalled until the guest acknowledges it.
#[inline(never)]
fn take_irq(core: &mut Core) -> Exit
    ensures { Ends (ran (entered core.old Cause.Irq)) core.new result }
{
    enter_el1(core, Cause::Irq);
    Exit::Ran
}

/// Attempts the instruction at PC.
#[inline(always)]
fn attempt<D: Devices>(
    core: &mut Core,
    lists: &mut [ListReg; 4],
    memory: &mut Banks,
    devices: &mut D,
    table: &mut Table,
    moment: &Moment,
) -> Exit
    requires contained { IsContained (is_kept memory.old) table.old (D.view devices.old).spots }
    requires room { 2 ≤ D.room devices.old }
    ensures kept { is_kept memory.new ≡ is_kept memory.old }
    ensures entries { table.new ≡ table.old }
    ensures spots { (D.view devices.new).spots ≡ (D.view devices.old).spots }
    ensures room { D.room devices.old ≤ D.room devices.new + 2 }
    ensures end { Leads (attempt_in table.old moment.now) (step_state core.old lists.old memory.old (D.view devices.old))
        (step_state core.new lists.new memory.new (D.view devices.new)) result }
{
    match begin(core, table) {
        Some(exit) => exit,
        None => {
            let fetched = Fetched {
                instr: decode(number_at(memory, core.pc, 4) as u32),
                moment: *moment,
            };
            execute(core, lists, memory, devices, table, &fetched)
        }
    }
}

/// Does what comes before the word at PC, and tells how the step ends if it comes to no word.
#[tactic(auto, unfolding(board::specs::Attempt::attempt))]
#[inline(always)]
fn begin(core: &mut Core, table: &mut Table) -> Option<Exit>
    ensures begun { IsBegun core.old table.old core.new result }
    ensures entries { table.new ≡ table.old }
{
    let pc = core.pc;
    if pc % 4 == 0
        && passes_at_once(core, table, Access::Exec, pc, 4)
        && !pstate::illegal_state(core.pstate)
    {
        return None;
    }
    judge_fetch(core, table)
}

/// Looks at PC first, then judges the fetch, and then looks at PSTATE.IL, before the word.
#[tactic(auto, unfolding(board::specs::Attempt::attempt))]
#[inline(never)]
fn judge_fetch(core: &mut Core, table: &mut Table) -> Option<Exit>
    ensures begun { IsBegun core.old table.old core.new result }
    ensures entries { table.new ≡ table.old }
{
    let pc = core.pc;
    if pc % 4 != 0 {
        return Some(raise(core, syndrome(Class::PcAlignment, 0), Some(pc), pc));
    }
    if let Some(fault) = first_fault(core, table, Access::Exec, pc, 4) {
        return Some(refuse_fetch(core, fault));
    }
    if pstate::illegal_state(core.pstate) {
        return Some(raise(core, syndrome(Class::IllegalState, 0), None, pc));
    }
    None
}

/// Executes an instruction that was fetched.
#[inline(always)]
fn execute<D: Devices>(
    core: &mut Core,
    lists: &mut [ListReg; 4],
    memory: &mut Banks,
    devices: &mut D,
    table: &mut Table,
    fetched: &Fetched,
) -> Exit
    requires lawful { IsLawful fetched.now.instr }
    requires contained { IsContained (is_kept memory.old) table.old (D.view devices.old).spots }
    requires room { 2 ≤ D.room devices.old }
    ensures kept { is_kept memory.new ≡ is_kept memory.old }
    ensures entries { table.new ≡ table.old }
    ensures spots { (D.view devices.new).spots ≡ (D.view devices.old).spots }
    ensures room { D.room devices.old ≤ D.room devices.new + 2 }
    ensures end { Leads (executed_in table.old fetched.now) (step_state core.old lists.old memory.old (D.view devices.old))
        (step_state core.new lists.new memory.new (D.view devices.new)) result }
{
    match want(core, &fetched.instr) {
        Need::Done => finish(core, fetched),
        Need::Acknowledge => finish_acknowledge(core, lists, fetched),
        Need::End { id } => finish_end(core, lists, fetched, id),
        Need::Load { shape } => {
            let request = Request {
                fetched,
                shape: &shape,
                value: 0,
            };
            execute_load(core, memory, devices, table, &request)
        }
        Need::Store { shape, value } => {
            let request = Request {
                fetched,
                shape: &shape,
                value,
            };
            execute_store(core, memory, devices, table, &request)
        }
        Need::Raise { esr, back } => raise(core, esr, None, back),
        Need::Leave { esr, past } => leave(core, esr, past),
    }
}

/// Executes a load.
#[inline(always)]
fn execute_load<D: Devices>(
    core: &mut Core,
    memory: &Banks,
    devices: &mut D,
    table: &mut Table,
    request: &Request<'_>,
) -> Exit
    requires asked { IsRequested core.old request.now }
    ensures entries { table.new ≡ table.old }
    ensures spots { (D.view devices.new).spots ≡ (D.view devices.old).spots }
    ensures room { D.room devices.old ≤ D.room devices.new + 2 }
    ensures end { (lists : List ListRegData)
        → Leads (checked_in (load_in table.old request.now) request.now) (step_state core.old lists memory.now (D.view devices.old))
        (step_state core.new lists memory.now (D.view devices.new)) result }
{
    if is_stopped(core, request.shape) {
        // A copy is lent out, so that the request itself needs no place in memory.
        let (instr, shape) = (request.fetched.instr, *request.shape);
        return stop(core, &instr, &shape);
    }
    take_load(core, memory, devices, table, request)
}

/// Takes a load whose SP and start were checked.
#[inline(always)]
fn take_load<D: Devices>(
    core: &mut Core,
    memory: &Banks,
    devices: &mut D,
    table: &mut Table,
    request: &Request<'_>,
) -> Exit
    requires asked { IsRequested core.old request.now }
    ensures entries { table.new ≡ table.old }
    ensures spots { (D.view devices.new).spots ≡ (D.view devices.old).spots }
    ensures room { D.room devices.old ≤ D.room devices.new + 2 }
    ensures end { (lists : List ListRegData)
        → Leads (load_in table.old request.now) (step_state core.old lists memory.now (D.view devices.old))
        (step_state core.new lists memory.now (D.view devices.new)) result }
{
    if is_plain(core, table, devices, Access::Read, request.shape) {
        let got = number_at(memory, request.shape.at, byte_count(request.shape));
        return finish_access(core, request, got);
    }
    // A copy is lent out, so that the request itself needs no place in memory.
    let (fetched, shape) = (*request.fetched, *request.shape);
    let request = Request {
        fetched: &fetched,
        shape: &shape,
        value: request.value,
    };
    judge_load(core, memory, devices, table, &request)
}

/// Takes a load of which one look at the last hit doesn't tell that it is carried out in memory.
#[inline(never)]
fn judge_load<D: Devices>(
    core: &mut Core,
    memory: &Banks,
    devices: &mut D,
    table: &mut Table,
    request: &Request<'_>,
) -> Exit
    requires asked { IsRequested core.old request.now }
    ensures entries { table.new ≡ table.old }
    ensures spots { (D.view devices.new).spots ≡ (D.view devices.old).spots }
    ensures room { D.room devices.old ≤ D.room devices.new + 2 }
    ensures end { (lists : List ListRegData)
        → Leads (load_in table.old request.now) (step_state core.old lists memory.now (D.view devices.old))
        (step_state core.new lists memory.now (D.view devices.new)) result }
{
    match judge(core, table, devices, Access::Read, request.shape) {
        Way::Memory => {
            let got = number_at(memory, request.shape.at, byte_count(request.shape));
            finish_access(core, request, got)
        }
        Way::Port => load_port(core, memory, devices, request),
        Way::Refused(fault) => refuse_data(core, &request.fetched.instr, fault),
    }
}

/// Takes a load of which a byte is a port's.
#[inline(never)]
fn load_port<D: Devices>(
    core: &mut Core,
    memory: &Banks,
    devices: &mut D,
    request: &Request<'_>,
) -> Exit
    requires asked { IsRequested core.old request.now }
    ensures spots { (D.view devices.new).spots ≡ (D.view devices.old).spots }
    ensures room { D.room devices.old ≤ D.room devices.new + 2 }
    ensures end { (lists : List ListRegData)
        → Leads (port_load_in request.now) (step_state core.old lists memory.now (D.view devices.old))
        (step_state core.new lists memory.now (D.view devices.new)) result }
{
    if is_misaligned(request.shape) {
        return misalign(core, &request.fetched.instr, request.shape);
    }
    let got = read_elements(memory, devices, request.shape);
    finish_access(core, request, got)
}

/// Executes a store.
#[inline(always)]
fn execute_store<D: Devices>(
    core: &mut Core,
    memory: &mut Banks,
    devices: &mut D,
    table: &mut Table,
    request: &Request<'_>,
) -> Exit
    requires asked { IsRequested core.old request.now }
    requires contained { IsContained (is_kept memory.old) table.old (D.view devices.old).spots }
    requires room { 2 ≤ D.room devices.old }
    ensures kept { is_kept memory.new ≡ is_kept memory.old }
    ensures entries { table.new ≡ table.old }
    ensures spots { (D.view devices.new).spots ≡ (D.view devices.old).spots }
    ensures room { D.room devices.old ≤ D.room devices.new + 2 }
    ensures end { (lists : List ListRegData)
        → Leads (checked_in (store_in table.old request.now) request.now) (step_state core.old lists memory.old (D.view devices.old))
        (step_state core.new lists memory.new (D.view devices.new)) result }
{
    if is_stopped(core, request.shape) {
        // A copy is lent out, so that the request itself needs no place in memory.
        let (instr, shape) = (request.fetched.instr, *request.shape);
        return stop(core, &instr, &shape);
    }
    take_store(core, memory, devices, table, request)
}

/// Takes a store whose SP and start were checked.
#[inline(always)]
fn take_store<D: Devices>(
    core: &mut Core,
    memory: &mut Banks,
    devices: &mut D,
    table: &mut Table,
    request: &Request<'_>,
) -> Exit
    requires asked { IsRequested core.old request.now }
    requires contained { IsContained (is_kept memory.old) table.old (D.view devices.old).spots }
    requires room { 2 ≤ D.room devices.old }
    ensures kept { is_kept memory.new ≡ is_kept memory.old }
    ensures entries { table.new ≡ table.old }
    ensures spots { (D.view devices.new).spots ≡ (D.view devices.old).spots }
    ensures room { D.room devices.old ≤ D.room devices.new + 2 }
    ensures end { (lists : List ListRegData)
        → Leads (store_in table.old request.now) (step_state core.old lists memory.old (D.view devices.old))
        (step_state core.new lists memory.new (D.view devices.new)) result }
{
    if is_plain(core, table, devices, Access::Write, request.shape) {
        store(
            memory,
            request.shape.at,
            byte_count(request.shape),
            request.value,
        );
        return finish_access(core, request, 0);
    }
    // A copy is lent out, so that the request itself needs no place in memory.
    let (fetched, shape) = (*request.fetched, *request.shape);
    let request = Request {
        fetched: &fetched,
        shape: &shape,
        value: request.value,
    };
    judge_store(core, memory, devices, table, &request)
}

/// Takes a store of which one look at the last hit doesn't tell that it is carried out in memory.
#[inline(never)]
fn judge_store<D: Devices>(
    core: &mut Core,
    memory: &mut Banks,
    devices: &mut D,
    table: &mut Table,
    request: &Request<'_>,
) -> Exit
    requires asked { IsRequested core.old request.now }
    requires contained { IsContained (is_kept memory.old) table.old (D.view devices.old).spots }
    requires room { 2 ≤ D.room devices.old }
    ensures kept { is_kept memory.new ≡ is_kept memory.old }
    ensures entries { table.new ≡ table.old }
    ensures spots { (D.view devices.new).spots ≡ (D.view devices.old).spots }
    ensures room { D.room devices.old ≤ D.room devices.new + 2 }
    ensures end { (lists : List ListRegData)
        → Leads (store_in table.old request.now) (step_state core.old lists memory.old (D.view devices.old))
        (step_state core.new lists memory.new (D.view devices.new)) result }
{
    match judge(core, table, devices, Access::Write, request.shape) {
        Way::Memory => {
            store(
                memory,
                request.shape.at,
                byte_count(request.shape),
                request.value,
            );
            finish_access(core, request, 0)
        }
        Way::Port => store_port(core, memory, devices, request),
        Way::Refused(fault) => refuse_data(core, &request.fetched.instr, fault),
    }
}

/// Takes a store of which a byte is a port's.
#[inline(never)]
fn store_port<D: Devices>(
    core: &mut Core,
    memory: &mut Banks,
    devices: &mut D,
    request: &Request<'_>,
) -> Exit
    requires asked { IsRequested core.old request.now }
    requires backed { IsTrue (all_from (is_backed (D.view devices.old).spots (is_kept memory.old))
        request.now.shape.now.at (bytes_of request.now.shape.now)) }
    requires room { 2 ≤ D.room devices.old }
    ensures kept { is_kept memory.new ≡ is_kept memory.old }
    ensures spots { (D.view devices.new).spots ≡ (D.view devices.old).spots }
    ensures room { D.room devices.old ≤ D.room devices.new + 2 }
    ensures end { (lists : List ListRegData)
        → Leads (port_store_in request.now) (step_state core.old lists memory.old (D.view devices.old))
        (step_state core.new lists memory.new (D.view devices.new)) result }
{
    if is_misaligned(request.shape) {
        return misalign(core, &request.fetched.instr, request.shape);
    }
    write_elements(memory, devices, request.shape, request.value);
    finish_access(core, request, 0)
}

/// Leaves an exception to EL2 that is no abort, with PC after the instruction or at it.
fn leave(core: &mut Core, esr: u64, past: bool) -> Exit
    ensures core { core.new ≡ (if past then advanced core.old else core.old) }
    ensures exit { result ≡ Exit.Sync esr 0 }
{
    if past {
        core.pc = core.pc.wrapping_add(4);
    }
    Exit::Sync { esr, far: 0 }
}

/// Completes an instruction that asked for nothing.
fn finish(core: &mut Core, fetched: &Fetched) -> Exit
    requires lawful { IsLawful fetched.now.instr }
    requires need { wanted core.old fetched.now.instr ≡ Need.Done }
    ensures core { core.new ≡ finished core.old fetched.now.moment fetched.now.instr 0 }
    ensures exit { result ≡ Exit.Ran }
{
    complete(core, fetched.moment, &fetched.instr);
    Exit::Ran
}

/// Completes a read that takes the interrupt that its moment shows, if it shows one.
#[inline(never)]
fn finish_acknowledge(core: &mut Core, lists: &mut [ListReg; 4], fetched: &Fetched) -> Exit
    requires lawful { IsLawful fetched.now.instr }
    requires need { wanted core.old fetched.now.instr ≡ Need.Acknowledge }
    ensures { (memory : BanksData) (devices : DevicesData)
        → Leads (λ state. record (ran (finished state.core fetched.now.moment fetched.now.instr 0)) { outcome = Acknowledged })
        (step_state core.old lists.old memory devices) (step_state core.new lists.new memory devices) result }
{
    complete(core, fetched.moment, &fetched.instr);
    acknowledge(&mut core.iface, lists);
    Exit::Ran
}

/// Completes a write that ends an interrupt. Where no list register has it, the rest of its end is left to EL2.
#[inline(never)]
fn finish_end(core: &mut Core, lists: &mut [ListReg; 4], fetched: &Fetched, id: u16) -> Exit
    requires lawful { IsLawful fetched.now.instr }
    requires need { wanted core.old fetched.now.instr ≡ Need.End id }
    ensures { (memory : BanksData) (devices : DevicesData)
        → Leads (λ state. record (ran (finished state.core fetched.now.moment fetched.now.instr 0)) { outcome = Ended id })
        (step_state core.old lists.old memory devices) (step_state core.new lists.new memory devices) result }
{
    complete(core, fetched.moment, &fetched.instr);
    if end(&mut core.iface, lists, id) {
        Exit::Ran
    } else {
        Exit::End { id }
    }
}

/// Completes an instruction whose access was carried out.
#[inline(always)]
fn finish_access(core: &mut Core, request: &Request<'_>, got: u128) -> Exit
    requires asked { IsRequested core.old request.now }
    ensures core { core.new ≡ finished core.old request.now.fetched.now.moment request.now.fetched.now.instr got }
    ensures exit { result ≡ Exit.Ran }
{
    complete_access(core, &request.fetched.instr, request.shape, got);
    Exit::Ran
}
