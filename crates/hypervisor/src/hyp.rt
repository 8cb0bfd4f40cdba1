//! What the hypervisor keeps, and what it does at an event.
ghost use Rattle.std.specs.Prelude.{◌≡◌, ◌+◌, ◌<◌, ◌≤◌, true, length, slice_get, slice_index, slice_set, if◌then◌else◌, ℕ, Some};
ghost use Rattle.bao_config.specs.Config.{config_data};
ghost use Rattle.bao_config.specs.Data.{vm_data};
ghost use Rattle.bao_wellformed.specs.Checked.{checked_data};
ghost use Rattle.bao_wellformed.specs.Map.{owner};
ghost use Rattle.bao_wellformed.specs.WellFormed.{IsWellFormed};
ghost use Rattle.board.specs.Machine.{core_at, restarted, with_core};
ghost use Rattle.hypercalls.specs.Laws.{IsLawful};
ghost use Rattle.shared_windows.specs.Windows.{irq_of, is_member};
ghost use Rattle.vgic_table.specs.Interrupts.{tables_of};
ghost use Rattle.vm_model.specs.Boot.{boot_power, boot_powers};
ghost use Rattle.vm_model.specs.Duty.{abort_duty, all_off, answered, arguments, call_duty, call_outcome, caller_of, carried, cores_of, done, duty_of, pended, powers_of, rung};
ghost use Rattle.vm_model.specs.Interrupts.{with_table};
ghost use Rattle.vm_model.specs.Flat.{flat_step, is_entered, is_on};
ghost use Rattle.hypervisor.specs.Change.{IsBestKept, IsLeftToBoard, change_of};
ghost use Rattle.hypervisor.specs.Event.{flat_event, IsPlaced};
ghost use Rattle.hypervisor.specs.Hyp.{boot_tables, power_of, stands_for};
ghost use Rattle.hypervisor.specs.Tidy.{Tidy};
ghost use Rattle.hypervisor.specs.Seat.{IsSeat, IsSeatOf, taken_back};
ghost use Rattle.hypervisor.specs.Taken.{guests_of, IsAfter, IsEndOfId, IsEntered, IsLeft, IsSettled, IsStepped};
ghost use Rattle.vm_model.specs.Cores.{place_of};
ghost use Rattle.vm_model.specs.Frames.{frame_access};
ghost use Rattle.board.specs.Attempt.{Leave};

use crate::event::Event;
use crate::owners::{owner, virtual_core, vm_at};
use crate::seat::{Seat, seat_at, seat_of};
use crate::syndrome::{frame_access, immediate, is_call, is_send, is_smc};
use arrayvec::ArrayVec;
use bao_config::{Config, Vm};
use bao_wellformed::{Checked, has_core};
use board::{Board, Exit};
use hypercalls::{NOT_SUPPORTED, Outcome, Power, call};
use shared_windows::{irq_of, is_member};
use std::marker::Model;
use vgic_table::IrqTable;

/// What the hypervisor keeps besides the board: the power of each virtual core and the interrupts of each VM.
#[derive(Debug, Drop)]
pub struct Hyp {
    /// By the physical core that the virtual one runs on.
    powers: ArrayVec<Power, 8>,
    /// By the VM's place. Interrupts that stand in list registers aren't in them.
    pub(crate) tables: ArrayVec<IrqTable, 8>,
}

impl Model for Hyp {
    ghost use Rattle.hypervisor.specs.Hyp.{HypData};

    ghost Value = { HypData };

    ghost view = { λ hyp. record { powers = hyp.powers.items; tables = hyp.tables.items } };
}

impl Hyp {
    /// As at boot: the first core of each VM is on, and no other; no interrupt is enabled or pending.
    pub fn new(checked: &Checked) -> Hyp
        ensures { result ≡ record {
          powers = boot_powers (checked_data checked.now);
          tables = boot_tables (checked_data checked.now);
        } }
    {
        Hyp {
            powers: boot_powers(checked),
            tables: boot_tables(checked.config()),
        }
    }

    /// The interrupts of the VM at a place, but for those that stand in list registers.
    pub fn table(&self, vm: u8) -> &IrqTable
        requires { vm < length self.now.tables }
        ensures { Some result.now ≡ slice_get self.now.tables vm }
    {
        &self.tables.as_slice()[usize::from(vm)]
    }

    /// The power of a virtual core of a VM, which the platform has.
    pub fn power(&self, vm: &Vm, core: u8) -> Power
        requires core { core < length vm.now.cores.items }
        requires platform { slice_index vm.now.cores.items core < length self.now.powers }
        ensures { Some result ≡ power_of self.now (vm_data vm.now) core }
    {
        let core = vm.cores.as_slice()[usize::from(core)];
        self.powers.as_slice()[usize::from(core)]
    }

    /// The power of a physical core, where the platform has it.
    pub fn power_of_core(&self, core: u8) -> Option<Power>
        ensures { result ≡ slice_get self.now.powers core }
    {
        self.powers.as_slice().get(usize::from(core)).copied()
    }

    /// Takes an event, which is a step of the model on the machine for which hypervisor and board stand.
    pub fn event<B: Board>(&mut self, checked: &Checked, board: &mut B, event: &Event)
        requires tidy { Tidy (checked_data checked.now) self.old (B.state board.old) }
        requires placed { IsPlaced (checked_data checked.now) event.now }
        requires spent { (B.state board.old).spent < (B.state board.old).shape.events }
        ensures tidy { Tidy (checked_data checked.now) self.new (B.state board.new) }
        ensures state { let f = stands_for (checked_data checked.now) self.old (B.state board.old) in
            stands_for (checked_data checked.now) self.new (B.state board.new)
            ≡ flat_step (checked_data checked.now) f (flat_event event.now) }
        ensures entered { let f = stands_for (checked_data checked.now) self.old (B.state board.old) in
            (B.state board.new).entered
            ≡ (B.state board.old).entered
            + (if is_entered (checked_data checked.now) f (flat_event event.now) then 1 else 0) }
        ensures spent { (B.state board.new).spent ≤ (B.state board.old).spent + 1 }
        ensures shape { (B.state board.new).shape ≡ (B.state board.old).shape }
        ensures entries { (B.state board.new).entries ≡ (B.state board.old).entries }
        ensures quiet { IsLeftToBoard (checked_data checked.now)
            (change_of self.old self.new (B.state board.old) (B.state board.new)) event.now }
        ensures best { IsBestKept (checked_data checked.now)
            (change_of self.old self.new (B.state board.old) (B.state board.new)) event.now }
    {
        self.take(checked.config(), board, event);
    }

    /// What an event does on the machine, and to what the hypervisor keeps.
    fn take<B: Board>(&mut self, config: &Config, board: &mut B, event: &Event)
        requires well_formed { IsWellFormed (config_data config.now) }
        requires tidy { Tidy (config_data config.now) self.old (B.state board.old) }
        requires placed { IsPlaced (config_data config.now) event.now }
        requires spent { (B.state board.old).spent < (B.state board.old).shape.events }
        ensures { IsAfter (config_data config.now)
            (change_of self.old self.new (B.state board.old) (B.state board.new)) event.now }
    {
        match *event {
            Event::Step { core, count } => self.step(config, board, core, count),
            Event::Input { port, byte } => board.port_input(port, byte),
        }
    }

    /// Lets a core take a step at a count, if it runs. Any other core does nothing.
    fn step<B: Board>(&mut self, config: &Config, board: &mut B, core: u8, count: u64)
        requires well_formed { IsWellFormed (config_data config.now) }
        requires tidy { Tidy (config_data config.now) self.old (B.state board.old) }
        requires core { core < length (config_data config.now).platform.cores }
        requires spent { (B.state board.old).spent < (B.state board.old).shape.events }
        ensures after { IsStepped (config_data config.now)
            (change_of self.old self.new (B.state board.old) (B.state board.new)) core count }
    {
        let Some(seat) = seat_of(config, core) else {
            return;
        };
        if !self.is_on(core) {
            return;
        }
        let exit = self.enter(config, board, seat, count);
        self.settle(config, board, seat, exit);
    }

    /// Lets a core that runs take a step at a count. The lines that are raised for it are forwarded first, and its best
    /// interrupt stands in a list register before it enters.
    fn enter<B: Board>(&mut self, config: &Config, board: &mut B, seat: Seat, count: u64) -> Exit
        requires well_formed { IsWellFormed (config_data config.now) }
        requires tidy { Tidy (config_data config.now) self.old (B.state board.old) }
        requires seat { IsSeatOf (config_data config.now) seat.core seat }
        requires spent { (B.state board.old).spent < (B.state board.old).shape.events }
        ensures { IsEntered (config_data config.now)
            (change_of self.old self.new (B.state board.old) (B.state board.new)) seat.core count result }
    {
        self.refill(board, seat);
        match board.step(seat.core, count) {
            Exit::Irq => {}
            exit @ (Exit::Ran | Exit::Sync { .. } | Exit::End { .. }) => return exit,
        }
        self.forward(config, board, seat);
        self.refill(board, seat);
        board.step(seat.core, count)
    }

    /// Does what follows how a core's step ended.
    fn settle<B: Board>(&mut self, config: &Config, board: &mut B, seat: Seat, exit: Exit)
        requires well_formed { IsWellFormed (config_data config.now) }
        requires tidy { Tidy (config_data config.now) self.old (B.state board.old) }
        requires seat { IsSeatOf (config_data config.now) seat.core seat }
        requires id { IsEndOfId exit }
        ensures { IsSettled (config_data config.now) seat.core exit
            (change_of self.old self.new (B.state board.old) (B.state board.new)) }
    {
        match exit {
            // A step ends by a line only where one is raised, and none is left.
            Exit::Ran | Exit::Irq => {}
            Exit::End { id } => self.end(config, board, seat, id),
            Exit::Sync { esr, far } => self.leave(config, board, seat, esr, far),
        }
    }

    /// Does what an exception asks for that went to EL2.
    fn leave<B: Board>(&mut self, config: &Config, board: &mut B, seat: Seat, esr: u64, far: u64)
        requires well_formed { IsWellFormed (config_data config.now) }
        requires tidy { Tidy (config_data config.now) self.old (B.state board.old) }
        requires seat { IsSeatOf (config_data config.now) seat.core seat }
        ensures { let guests = guests_of (config_data config.now) self.old (B.state board.old) in
            IsLeft (config_data config.now) (change_of self.old self.new (B.state board.old) (B.state board.new))
            (done (config_data config.now) seat.core (duty_of (config_data config.now) seat.core (Leave esr far) guests) guests) }
    {
        if is_call(esr) {
            self.call(config, board, seat, esr);
            return;
        }
        if is_send(esr) {
            self.send(config, board, seat, esr);
            return;
        }
        self.abort(config, board, seat, esr, far);
    }

    /// Answers an access to the VM's interrupt controller, by the abort that it made. All else parks the core.
    fn abort<B: Board>(&mut self, config: &Config, board: &mut B, seat: Seat, esr: u64, far: u64)
        requires well_formed { IsWellFormed (config_data config.now) }
        requires tidy { Tidy (config_data config.now) self.old (B.state board.old) }
        requires seat { IsSeatOf (config_data config.now) seat.core seat }
        ensures { let guests = guests_of (config_data config.now) self.old (B.state board.old) in
            IsLeft (config_data config.now) (change_of self.old self.new (B.state board.old) (B.state board.new))
            (done (config_data config.now) seat.core (abort_duty (place_of (config_data config.now) seat.core)
            (frame_access (config_data config.now) (owner (config_data config.now) seat.core) esr far) esr far) guests) }
    {
        match frame_access(config, vm_at(config, seat.vm), esr, far) {
            Some(access) => self.answer_access(config, board, seat, access),
            None => self.set_power(seat.core, Power::Parked { esr, far }),
        }
    }

    /// Answers a call of a core, and carries out what comes of it.
    fn call<B: Board>(&mut self, config: &Config, board: &mut B, seat: Seat, esr: u64)
        requires well_formed { IsWellFormed (config_data config.now) }
        requires tidy { Tidy (config_data config.now) self.old (B.state board.old) }
        requires seat { IsSeatOf (config_data config.now) seat.core seat }
        ensures { let guests = guests_of (config_data config.now) self.old (B.state board.old) in
            IsLeft (config_data config.now) (change_of self.old self.new (B.state board.old) (B.state board.new))
            (done (config_data config.now) seat.core (call_duty (config_data config.now) (Some seat.vm) seat.core esr guests) guests) }
    {
        let outcome = self.outcome(config, board, seat.vm, seat.core, esr);
        answer(board, seat.core, is_smc(esr), outcome.answer());
        self.carry_out(config, board, seat, outcome);
    }

    /// What comes of a call of a core of the VM at a place.
    fn outcome<B: Board>(&self, config: &Config, board: &B, vm: u8, core: u8, esr: u64) -> Outcome
        requires fitted { (B.state board.now).fitted ≡ true }
        requires vm { vm < length (config_data config.now).vms }
        requires core { core < length (B.state board.now).shape.cores }
        ensures { result ≡ call_outcome (config_data config.now) vm core esr
            (guests_of (config_data config.now) self.now (B.state board.now)) }
    {
        if immediate(esr) != 0 {
            return Outcome::Answer(NOT_SUPPORTED);
        }
        let own = self.powers_of(vm_at(config, vm));
        call(config, vm, &own, arguments(board, core))
    }

    /// The power of each of a VM's virtual cores, by its number.
    fn powers_of(&self, vm: &Vm) -> [Power; 8]
        ensures { (core : ℕ) → core < length (vm_data vm.now).cores
            → slice_get result core ≡ slice_get (powers_of (vm_data vm.now).cores self.now.powers) core }
    {
        let mut own = [Power::Off; 8];
        for (number, core) in vm.cores.as_slice().iter().enumerate() {
            own[number] = self.power_of_core(*core).unwrap_or(Power::Off);
        }
        own
    }

    /// Carries out what comes of a call of a core.
    fn carry_out<B: Board>(&mut self, config: &Config, board: &mut B, seat: Seat, outcome: Outcome)
        requires well_formed { IsWellFormed (config_data config.now) }
        requires tidy { Tidy (config_data config.now) self.old (B.state board.old) }
        requires seat { IsSeat (config_data config.now) seat }
        requires lawful { IsLawful (config_data config.now) seat.vm
            (powers_of (cores_of (slice_get (config_data config.now).vms seat.vm)) self.old.powers) outcome }
        ensures { IsLeft (config_data config.now) (change_of self.old self.new (B.state board.old) (B.state board.new))
            (carried (config_data config.now) (caller_of (config_data config.now) seat.vm seat.core) outcome
            (guests_of (config_data config.now) self.old (B.state board.old))) }
    {
        match outcome {
            Outcome::Answer(_) => {}
            Outcome::Ring { shmem, event } => self.ring(config, board, seat.vm, shmem, event),
            Outcome::Off => self.set_power(seat.core, Power::Off),
            Outcome::On {
                core: own,
                start,
                arg,
            } => self.turn_on(board, seat_at(config, seat.vm, own), start, arg),
            Outcome::SystemOff => self.turn_all_off(vm_at(config, seat.vm)),
        }
    }

    /// Turns on a virtual core, which begins at `start` with `arg` in X0. Its list registers go back to the table.
    fn turn_on<B: Board>(&mut self, board: &mut B, seat: Seat, start: u64, arg: u64)
        requires fitted { (B.state board.old).fitted ≡ true }
        requires core { seat.core < length (B.state board.old).shape.cores }
        requires vm { seat.vm < length self.old.tables }
        requires own { seat.own < (tables_of self.old.tables seat.vm).cores }
        ensures state { B.state board.new ≡ restarted (B.state board.old) seat.core start arg }
        ensures powers { self.new.powers ≡ slice_set self.old.powers seat.core Power.On }
        ensures tables { self.new.tables
            ≡ slice_set self.old.tables seat.vm (taken_back self.old.tables (B.state board.old).lists seat) }
    {
        self.take_back(board, seat);
        board.reset_core(seat.core, start, arg);
        self.set_power(seat.core, Power::On);
    }

    /// Gives a physical core a power, if the platform has it.
    fn set_power(&mut self, core: u8, power: Power)
        ensures powers { self.new.powers ≡ slice_set self.old.powers core power }
        ensures tables { self.new.tables ≡ self.old.tables }
    {
        if usize::from(core) < self.powers.len() {
            self.powers[usize::from(core)] = power;
        }
    }

    /// Turns off all cores of a VM.
    fn turn_all_off(&mut self, vm: &Vm)
        ensures powers { self.new.powers ≡ all_off (vm_data vm.now).cores self.old.powers }
        ensures tables { self.new.tables ≡ self.old.tables }
    {
        for core in vm.cores.as_slice() {
            self.set_power(*core, Power::Off);
        }
    }

    /// Makes an event of a shared memory pending in each VM that hears of a ring of the caller's.
    fn ring<B: Board>(&mut self, config: &Config, board: &mut B, caller: u8, shmem: u8, event: u8)
        requires well_formed { IsWellFormed (config_data config.now) }
        requires tidy { Tidy (config_data config.now) self.old (B.state board.old) }
        requires memory { shmem < length (config_data config.now).shmems }
        ensures { let guests = guests_of (config_data config.now) self.old (B.state board.old) in
            IsLeft (config_data config.now) (change_of self.old self.new (B.state board.old) (B.state board.new))
            (record guests {
              tables = rung (config_data config.now) (is_member (config_data config.now) shmem caller) shmem event guests.tables;
            }) }
    {
        for vm in 0..config.vms.len() as u8 {
            if is_member(config, shmem, caller, vm) {
                self.hear(config, board, vm, shmem, event);
            }
        }
    }

    /// Makes an event of a shared memory pending in the VM at a place, among the ids of its first core.
    fn hear<B: Board>(&mut self, config: &Config, board: &mut B, vm: u8, shmem: u8, event: u8)
        requires well_formed { IsWellFormed (config_data config.now) }
        requires tidy { Tidy (config_data config.now) self.old (B.state board.old) }
        requires vm { vm < length (config_data config.now).vms }
        requires memory { shmem < length (config_data config.now).shmems }
        ensures { let guests = guests_of (config_data config.now) self.old (B.state board.old) in
            IsLeft (config_data config.now) (change_of self.old self.new (B.state board.old) (B.state board.new))
            (record guests {
              tables = with_table (Some vm) (pended (irq_of (config_data config.now) vm shmem event)) guests.tables;
            }) }
    {
        if let Some(irq) = irq_of(config, vm, shmem, event) {
            self.pend(board, seat_at(config, vm, 0), irq);
        }
    }

    /// Whether a physical core is on.
    fn is_on(&self, core: u8) -> bool
        ensures { result ≡ is_on (slice_get self.now.powers core) }
    {
        match self.power_of_core(core) {
            Some(Power::On) => true,
            Some(Power::Off | Power::Parked { .. }) | None => false,
        }
    }
}

/// The power of each physical core at boot: the first core of each VM is on, and no other.
fn boot_powers(checked: &Checked) -> ArrayVec<Power, 8>
    ensures { result.items ≡ boot_powers (checked_data checked.now) }
{
    let config = checked.config();
    let mut powers = ArrayVec::new();
    for (core, _) in config.platform.cores.as_slice().iter().enumerate() {
        powers.push(boot_power(config, core as u8));
    }
    powers
}

/// The power of a core at boot.
fn boot_power(config: &Config, core: u8) -> Power
    ensures { result ≡ boot_power (owner (config_data config.now) core) core }
{
    let first = owner(config, core).is_some_and(|vm| virtual_core(vm, core) == Some(0));
    if first { Power::On } else { Power::Off }
}

/// The interrupts of each VM at boot.
fn boot_tables(config: &Config) -> ArrayVec<IrqTable, 8>
    ensures { result.items ≡ boot_tables (config_data config.now) }
{
    let mut tables = ArrayVec::new();
    for vm in config.vms.as_slice() {
        tables.push(IrqTable::new(vm.cores.len() as u8));
    }
    tables
}

/// X0 to X3 of a core.
fn arguments<B: Board>(board: &B, core: u8) -> [u64; 4]
    requires fitted { (B.state board.now).fitted ≡ true }
    requires core { core < length (B.state board.now).shape.cores }
    ensures { result ≡ arguments (core_at (B.state board.now).cores core) }
{
    [
        board.gpr(core, 0),
        board.gpr(core, 1),
        board.gpr(core, 2),
        board.gpr(core, 3),
    ]
}

/// Gives a core that called its answer in X0, and lets it go on after an SMC. One that the call turned off stays as it is.
fn answer<B: Board>(board: &mut B, core: u8, smc: bool, answer: Option<u64>)
    requires fitted { (B.state board.old).fitted ≡ true }
    requires core { core < length (B.state board.old).shape.cores }
    ensures { B.state board.new
        ≡ with_core (B.state board.old) core (answered smc answer (core_at (B.state board.old).cores core)) }
{
    if let Some(value) = answer {
        board.set_gpr(core, 0, value);
        if smc {
            board.skip(core);
        }
    }
}
