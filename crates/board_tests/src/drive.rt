//! What the tests do with a board and with the interrupts of its first VM.
ghost use Rattle.std.specs.Prelude.{◌≡◌, ◌+◌, ◌≤◌, ◌<◌};
ghost use Rattle.board_tests.specs.Bench.{IsReady};

use bao_types::ListReg;
use board::{Board, Exit};
use vgic_table::{IdState, IrqTable};

/// What is so of an id; a list register has the last two alone.
pub const ENABLED: u8 = 1;

pub const PENDING: u8 = 2;

pub const ACTIVE: u8 = 4;

/// An id, its priority, and what the register has of it; 0 for a free register.
pub type Listed = (u16, u8, u8);

pub const FREE: Listed = (0, 0, 0);

/// A register of a core that a report shows.
#[derive(Clone, Copy)]
pub enum Seen {
    /// A general register: X0 to X30 by their numbers.
    X(u8),
    Pc,
    Pstate,
    Elr,
    Spsr,
    Esr,
    Far,
}

/// A call at a core, with what it is to answer.
#[derive(Clone, Copy)]
pub enum Call {
    /// This many steps at count 0, at most 16, none of which EL2 hears of.
    Run(u8),
    /// A step at a count, and how it ends.
    Step(u64, Exit),
    /// The same as a hypervisor lets the core take it: its best interrupt stands in a register, the lines that are raised are
    /// forwarded first, and an end that no register holds is made in the table.
    Turn(u64, Exit),
    /// The register of the core, and its value.
    Shows(Seen, u64),
    /// The line that is raised for the core, and taken.
    Ack(Option<u16>),
    /// The port, and the byte that it is given.
    Input(u8, u8),
    /// The core's list registers are these from now on.
    Set(&'static [Listed; 4]),
    /// The core's list registers are these.
    Holds(&'static [Listed; 4]),
    /// The core's list registers go back to the table.
    Back,
    /// The core is turned on at an address: its list registers go back to the table.
    Start(u64),
    /// The VM's distributor is turned on or off.
    On(bool),
    /// An id of the core in the table, its priority, and what is so of it from now on.
    Put(u16, u8, u8),
    /// An id of the core in the table, its priority, and what is so of it.
    Has(u16, u8, u8),
    /// An id becomes pending, as a line makes it.
    Pend(u16),
}

/// What a row shows, the core, and the call.
pub type Row = (&'static str, u8, Call);

/// The first row whose call doesn't answer as it is to, by what it shows.
pub(crate) fn first_unmet<B: Board>(
    board: &mut B,
    table: &mut IrqTable,
    rows: &[Row],
) -> Option<&'static str>
    requires ready { IsReady (B.state board.old) }
    requires spent { (B.state board.old).spent ≡ 0 }
{
    if rows.len() > 400 {
        return Some("too many rows");
    }
    for (shows, core, call) in rows {
        if !is_met(board, table, *core, call) {
            return Some(*shows);
        }
    }
    None
}

/// Whether a call answers as it is to.
fn is_met<B: Board>(board: &mut B, table: &mut IrqTable, core: u8, call: &Call) -> bool
    requires ready { IsReady (B.state board.old) }
    requires spent { (B.state board.old).spent + 16 ≤ 100000 }
    ensures ready { IsReady (B.state board.new) }
    ensures spent { (B.state board.new).spent ≤ (B.state board.old).spent + 16 }
{
    if core >= 3 {
        return false;
    }
    match *call {
        Call::Run(steps) => run(board, core, steps.min(16)),
        Call::Step(count, exit) => step(board, core, count) == exit,
        Call::Turn(count, exit) => turn(board, table, core, count) == exit,
        Call::Shows(register, value) => shown(board, core, register) == value,
        Call::Ack(intid) => ack(board, core) == intid,
        Call::Input(port, byte) => input(board, port, byte),
        Call::Set(lists) => set(board, core, lists),
        Call::Holds(lists) => holds(board, core, lists),
        Call::Back => take_back(board, table, core),
        Call::Start(at) => take_back(board, table, core) && start(board, core, at),
        Call::On(on) => turn_on(table, on),
        Call::Put(id, priority, parts) => put(table, core, id, id_state(priority, parts)),
        Call::Has(id, priority, parts) => has(table, core, id, id_state(priority, parts)),
        Call::Pend(id) => pend(board, table, core, id),
    }
}

/// This many steps of a core, of which EL2 hears of none.
fn run<B: Board>(board: &mut B, core: u8, steps: u8) -> bool
    requires ready { IsReady (B.state board.old) }
    requires core { core < 3 }
    requires spent { (B.state board.old).spent + steps ≤ 100000 }
    ensures ready { IsReady (B.state board.new) }
    ensures spent { (B.state board.new).spent ≤ (B.state board.old).spent + steps }
{
    for _ in 0..steps {
        if step(board, core, 0) != Exit::Ran {
            return false;
        }
    }
    true
}

/// A step of a core.
fn step<B: Board>(board: &mut B, core: u8, count: u64) -> Exit
    requires ready { IsReady (B.state board.old) }
    requires core { core < 3 }
    requires spent { (B.state board.old).spent < 100000 }
    ensures ready { IsReady (B.state board.new) }
    ensures spent { (B.state board.new).spent ≤ (B.state board.old).spent + 1 }
{
    board.step(core, count)
}

/// A step of a core as a hypervisor lets it take it.
fn turn<B: Board>(board: &mut B, table: &mut IrqTable, core: u8, count: u64) -> Exit
    requires ready { IsReady (B.state board.old) }
    requires core { core < 3 }
    requires spent { (B.state board.old).spent + 2 ≤ 100000 }
    ensures ready { IsReady (B.state board.new) }
    ensures spent { (B.state board.new).spent ≤ (B.state board.old).spent + 2 }
{
    refill(board, table, core);
    let first = step(board, core, count);
    let exit = if first == Exit::Irq {
        forward(board, table, core);
        refill(board, table, core);
        step(board, core, count)
    } else {
        first
    };
    settle(board, table, core, exit);
    exit
}

/// Makes the end of an interrupt that no register holds in the table.
fn settle<B: Board>(board: &mut B, table: &mut IrqTable, core: u8, exit: Exit)
    requires ready { IsReady (B.state board.old) }
    requires core { core < 3 }
    ensures ready { IsReady (B.state board.new) }
    ensures spent { (B.state board.new).spent ≡ (B.state board.old).spent }
{
    if let Exit::End { id } = exit {
        let holder = holder(core, id);
        if take_back(board, table, holder) && id < 96 && holder < table.cores() {
            table.drop_active(holder, id);
        }
    }
}

/// Forwards the lines that are raised for a core, of which there are at most five.
fn forward<B: Board>(board: &mut B, table: &mut IrqTable, core: u8)
    requires ready { IsReady (B.state board.old) }
    requires core { core < 3 }
    ensures ready { IsReady (B.state board.new) }
    ensures spent { (B.state board.new).spent ≡ (B.state board.old).spent }
{
    for _ in 0..5u8 {
        if let Some(intid) = ack(board, core) {
            let _ = pend(board, table, core, irq_of_line(intid));
        }
    }
}

/// The id that a line has in the VM: 40 for its console and 41 for its ticker.
fn irq_of_line(intid: u16) -> u16 {
    match intid {
        32 => 40,
        33 => 41,
        _ => intid,
    }
}

/// The core that has an id of a core: those from 32 on are the first one's.
fn holder(core: u8, id: u16) -> u8
    requires { core < 3 }
    ensures { result < 3 }
{
    if id < 32 { core } else { 0 }
}

fn ack<B: Board>(board: &mut B, core: u8) -> Option<u16>
    requires ready { IsReady (B.state board.old) }
    requires core { core < 3 }
    ensures ready { IsReady (B.state board.new) }
    ensures spent { (B.state board.new).spent ≡ (B.state board.old).spent }
{
    board.ack(core)
}

/// Makes an id pending in the table, once the registers of the core that has it are back there.
fn pend<B: Board>(board: &mut B, table: &mut IrqTable, core: u8, id: u16) -> bool
    requires ready { IsReady (B.state board.old) }
    requires core { core < 3 }
    ensures ready { IsReady (B.state board.new) }
    ensures spent { (B.state board.new).spent ≡ (B.state board.old).spent }
{
    let holder = holder(core, id);
    if !take_back(board, table, holder) || id >= 96 || holder >= table.cores() {
        return false;
    }
    table.pend(holder, id);
    true
}

/// Takes the list registers of a core of the VM back to the table.
fn take_back<B: Board>(board: &mut B, table: &mut IrqTable, core: u8) -> bool
    requires ready { IsReady (B.state board.old) }
    requires core { core < 3 }
    ensures ready { IsReady (B.state board.new) }
    ensures spent { (B.state board.new).spent ≡ (B.state board.old).spent }
{
    if core >= table.cores() {
        return false;
    }
    table.collect(core, &board.lists(core));
    board.set_lists(core, &[ListReg::free(); 4]);
    true
}

/// Fills the list registers of a core of the VM again, where that is due.
fn refill<B: Board>(board: &mut B, table: &mut IrqTable, core: u8)
    requires ready { IsReady (B.state board.old) }
    requires core { core < 3 }
    ensures ready { IsReady (B.state board.new) }
    ensures spent { (B.state board.new).spent ≡ (B.state board.old).spent }
{
    if core >= table.cores() {
        return;
    }
    if let Some(lists) = table.refill(core, &board.lists(core)) {
        board.set_lists(core, &lists);
    }
}

/// Lets a core begin at an address.
fn start<B: Board>(board: &mut B, core: u8, at: u64) -> bool
    requires ready { IsReady (B.state board.old) }
    requires core { core < 3 }
    ensures ready { IsReady (B.state board.new) }
    ensures spent { (B.state board.new).spent ≡ (B.state board.old).spent }
{
    board.reset_core(core, at, 0);
    true
}

/// Gives a port of the bench a byte.
fn input<B: Board>(board: &mut B, port: u8, byte: u8) -> bool
    requires ready { IsReady (B.state board.old) }
    requires spent { (B.state board.old).spent < 100000 }
    ensures ready { IsReady (B.state board.new) }
    ensures spent { (B.state board.new).spent ≤ (B.state board.old).spent + 1 }
{
    match port {
        0 => board.port_input(0, byte),
        1 => board.port_input(1, byte),
        2 => board.port_input(2, byte),
        12 => board.port_input(12, byte),
        _ => return false,
    }
    true
}

/// A register of a core.
fn shown<B: Board>(board: &B, core: u8, register: Seen) -> u64
    requires ready { IsReady (B.state board.now) }
    requires core { core < 3 }
{
    let view = board.core_view(core);
    match register {
        Seen::X(n) if n < 31 => board.gpr(core, n),
        Seen::X(_) => 0,
        Seen::Pc => view.pc,
        Seen::Pstate => u64::from(view.pstate),
        Seen::Elr => view.elr,
        Seen::Spsr => view.spsr,
        Seen::Esr => view.esr,
        Seen::Far => view.far,
    }
}

fn set<B: Board>(board: &mut B, core: u8, lists: &[Listed; 4]) -> bool
    requires ready { IsReady (B.state board.old) }
    requires core { core < 3 }
    ensures ready { IsReady (B.state board.new) }
    ensures spent { (B.state board.new).spent ≡ (B.state board.old).spent }
{
    board.set_lists(core, &registers(lists));
    true
}

fn holds<B: Board>(board: &B, core: u8, lists: &[Listed; 4]) -> bool
    requires ready { IsReady (B.state board.now) }
    requires core { core < 3 }
{
    let [first, second, third, fourth] = board.lists(core);
    let [one, two, three, four] = registers(lists);
    are_alike(first, one)
        && are_alike(second, two)
        && are_alike(third, three)
        && are_alike(fourth, four)
}

/// Whether two registers hold the same; what is left in a free one is nothing.
fn are_alike(one: ListReg, other: ListReg) -> bool {
    one == other || one.is_free() && other.is_free()
}

fn registers(lists: &[Listed; 4]) -> [ListReg; 4] {
    let [first, second, third, fourth] = lists;
    [
        list_register(first),
        list_register(second),
        list_register(third),
        list_register(fourth),
    ]
}

fn list_register(listed: &Listed) -> ListReg {
    let (id, priority, parts) = *listed;
    ListReg {
        id: id % 96,
        priority: priority / 8 * 8,
        pending: parts / PENDING % 2 == 1,
        active: parts / ACTIVE % 2 == 1,
    }
}

fn turn_on(table: &mut IrqTable, on: bool) -> bool {
    table.set_on(on);
    true
}

fn put(table: &mut IrqTable, core: u8, id: u16, state: IdState) -> bool {
    if core >= 8 || id >= 96 {
        return false;
    }
    table.put(core, id, state);
    true
}

fn has(table: &IrqTable, core: u8, id: u16, state: IdState) -> bool {
    core < 8 && id < 96 && table.look(core, id) == state
}

fn id_state(priority: u8, parts: u8) -> IdState {
    IdState {
        enabled: parts % 2 == 1,
        priority,
        pending: parts / PENDING % 2 == 1,
        active: parts / ACTIVE % 2 == 1,
    }
}
