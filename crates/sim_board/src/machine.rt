ghost use Rattle.std.specs.Prelude.{◌≡◌, ℕ, ◌≤◌, ◌<◌, true, false, length, slice_set, map, replicate, All, IfOk};
ghost use Rattle.bao_types.specs.ListReg.{free_registers, lists_at};
ghost use Rattle.bao_types.specs.Shape.{shape_data};
ghost use Rattle.a64_state.specs.Registers.{reset_core};
ghost use Rattle.bao_types.specs.Region.{no_region};
ghost use Rattle.board.specs.Interrupts.{exit_of};
ghost use Rattle.board.specs.Machine.{carried_out, entries_at, machine_effect, ticked};
ghost use Rattle.board.specs.Ports.{port_count, standard_ports};
ghost use Rattle.sim_board.specs.Devices.{states_of};
ghost use Rattle.sim_board.specs.Sound.{IsSound};

use crate::devices::{BoxedPorts, Devices};
use crate::memory::copy_in;
use crate::step::{look_at_timer, step_core};
use a64_state::Core;
use arrayvec::ArrayVec;
use bao_types::{CorePlace, ListReg, NO_REGION, OutOfMemory, PortSpot, Region, Shape};
use board::{Board, CoreView, Exit};
use phys_bank::Banks;
use pmsa_table::Table;
use ports::Port;
use std::alloc::{AllocError, Global};

/// The simulated machine.
#[derive(Drop)]
pub struct SimBoard {
    shape: Shape,
    /// None before the board is fitted.
    memory: Option<Banks>,
    cores: Vec<Core>,
    /// The list registers of each core.
    lists: Vec<[ListReg; 4]>,
    /// The EL2 entries of each core, compiled.
    tables: Vec<Table>,
    devices: BoxedPorts,
    entered: u64,
    spent: u64,
    ghost sound: { IsSound shape memory (length cores.items) (length lists.items) tables.items devices.spots.items entered spent },
}

impl SimBoard {
    /// A board with these ports that isn't fitted. It takes no memory.
    pub fn new(alloc: Global, ports: Vec<Box<dyn Port>>) -> SimBoard
        requires count { length ports.items ≡ port_count }
        requires new { (port : ℕ) → port < port_count
            → states_of (map (λ port. state port) ports.items) port ≡ standard_ports port }
        ensures unfitted { (⟦<SimBoard as Board>⟧.state result).fitted ≡ false }
        ensures entered { (⟦<SimBoard as Board>⟧.state result).entered ≡ 0 }
        ensures ports { (⟦<SimBoard as Board>⟧.state result).ports ≡ standard_ports }
    {
        SimBoard {
            shape: Shape::default(),
            memory: None,
            cores: Vec::new(alloc),
            lists: Vec::new(alloc),
            tables: Vec::new(alloc),
            devices: BoxedPorts::new(ports),
            entered: 0,
            spent: 0,
        }
    }

    /// Looks at a core's timer at the system count `now`.
    #[inline(always)]
    fn tick(&mut self, core: u8, now: u64)
        requires core { core < length (⟦<SimBoard as Board>⟧.state self.old).shape.cores }
        ensures { ⟦<SimBoard as Board>⟧.state self.new ≡ ticked (⟦<SimBoard as Board>⟧.state self.old) core now }
    {
        look_at_timer(
            &mut self.cores[usize::from(core)],
            &mut self.devices.lines,
            core,
            now,
        );
    }

    /// Lets a core take a step for which no line is raised, once its timer is looked at.
    #[inline(always)]
    fn proceed(&mut self, core: u8, now: u64) -> Exit
        requires fitted { (⟦<SimBoard as Board>⟧.state self.old).fitted ≡ true }
        requires core { core < length (⟦<SimBoard as Board>⟧.state self.old).shape.cores }
        requires spent { (⟦<SimBoard as Board>⟧.state self.old).spent < (⟦<SimBoard as Board>⟧.state self.old).shape.events }
        ensures state { ⟦<SimBoard as Board>⟧.state self.new ≡ carried_out (⟦<SimBoard as Board>⟧.state self.old) core
            (machine_effect (⟦<SimBoard as Board>⟧.state self.old) core now) }
        ensures exit { result ≡ exit_of (machine_effect (⟦<SimBoard as Board>⟧.state self.old) core now).outcome
            (lists_at (⟦<SimBoard as Board>⟧.state self.old).lists core) }
    {
        let Some(memory) = &mut self.memory else {
            unreachable!()
        };
        let at = usize::from(core);
        let exit = step_core(
            &mut self.cores[at],
            &mut self.lists[at],
            memory,
            &mut self.devices,
            &mut self.tables[at],
            now,
        );
        self.entered += 1;
        self.spent += 1;
        exit
    }
}

/// The same shape again.
fn copy_shape(shape: &Shape) -> Result<Shape, AllocError>
    ensures { IfOk result (λ copy. shape_data copy ≡ shape_data shape.now) }
{
    shape.clone()
}

/// The cores of a shape, as they are after a reset.
fn reset_cores(alloc: Global, places: &[CorePlace]) -> Result<Vec<Core>, AllocError>
    ensures { IfOk result (λ cores. cores.items ≡ map (λ place. reset_core place.affinity) places.now) }
{
    places
        .iter()
        .map(|place| Core::reset(place.affinity))
        .collect(alloc)
}

/// The list registers of the cores of a shape, all of them free.
fn free_lists(alloc: Global, places: &[CorePlace]) -> Result<Vec<[ListReg; 4]>, AllocError>
    ensures { IfOk result (λ lists. lists.items ≡ map (λ place. free_registers) places.now) }
{
    let mut lists = Vec::with_capacity(alloc, places.len())?;
    for i in 0..places.len() {
        lists.push(free_registers())?;
    }
    Ok(lists)
}

fn free_registers() -> [ListReg; 4]
    ensures { result ≡ free_registers }
{
    [ListReg::free(); 4]
}

/// Each core's EL2 entries, all of them zero.
fn zero_tables(alloc: Global, places: &[CorePlace]) -> Result<Vec<Table>, AllocError>
    requires { All (λ place. place.entries ≤ 32) places.now }
    ensures { IfOk result (λ tables. tables.items ≡ map (λ place. replicate place.entries no_region) places.now) }
{
    places
        .iter()
        .map(|place| zero_table(place.entries))
        .collect(alloc)
}

/// The table of this many zero entries.
fn zero_table(count: u8) -> Table
    requires { count ≤ 32 }
    ensures { result ≡ replicate count no_region }
{
    Table::of(&zeros(count))
}

/// This many zero entries.
fn zeros(count: u8) -> ArrayVec<Region, 32>
    requires { count ≤ 32 }
    ensures { result ≡ record { items = replicate count no_region } }
{
    let mut entries = ArrayVec::new();
    for i in 0..count {
        entries.push(NO_REGION);
    }
    entries
}

/// The places of the ports again.
fn copy_spots(spots: &ArrayVec<PortSpot, 16>) -> Result<ArrayVec<PortSpot, 16>, AllocError>
    ensures { IfOk result (λ copy. copy.items ≡ spots.now.items) }
{
    spots.clone()
}

/// The first address of memory in use.
fn first_used(shape: &Shape) -> u64 {
    match shape.used.first() {
        Some(range) => range.base,
        None => 0,
    }
}

/// Sets one entry of one core.
fn set_one(tables: &mut Vec<Table>, core: usize, index: usize, entry: Region)
    requires core { core < length tables.old.items }
    requires index { index < length (entries_at tables.old.items core) }
    ensures len { length tables.new.items ≡ length tables.old.items }
    ensures items { tables.new.items ≡ slice_set tables.old.items core
        (slice_set (entries_at tables.old.items core) index entry) }
{
    tables[core].set(index, entry);
}

impl Board for SimBoard {
    ghost use Rattle.std.specs.Prelude.{map};
    ghost use Rattle.sim_board.specs.Devices.{least_room, states_of};
    ghost use Rattle.sim_board.specs.SimBoard.{state_of};

    ghost state = { λ board. state_of
        (states_of (map (λ port. (Port-box port).state port.value) board.devices.ports.items))
        (least_room (map (λ port. (Port-box port).spare port.value) board.devices.ports.items))
        board };

    fn fit(&mut self, alloc: Global, shape: &Shape) -> Result<(), OutOfMemory> {
        // A board that is refused isn't fitted, whatever room its ports have by then.
        self.memory = None;
        self.devices.reserve(alloc, shape.events)?;
        let copy = copy_shape(shape)?;
        let spots = copy_spots(&shape.ports)?;
        let memory = Banks::new(alloc, &shape.banks, &shape.used)?;
        let cores = reset_cores(alloc, &shape.cores)?;
        let lists = free_lists(alloc, &shape.cores)?;
        let tables = zero_tables(alloc, &shape.cores)?;
        self.devices.stand(spots, first_used(shape));
        self.shape = copy;
        self.memory = Some(memory);
        self.cores = cores;
        self.lists = lists;
        self.tables = tables;
        self.entered = 0;
        self.spent = 0;
        Ok(())
    }

    fn load(&mut self, at: u64, bytes: &[u8]) {
        let Some(memory) = &mut self.memory else {
            unreachable!()
        };
        copy_in(memory, at, bytes);
    }

    fn set_entry(&mut self, core: u8, index: u8, entry: Region) {
        set_one(
            &mut self.tables,
            usize::from(core),
            usize::from(index),
            entry,
        );
    }

    fn entry(&self, core: u8, index: u8) -> Region {
        self.tables[usize::from(core)].entries()[usize::from(index)]
    }

    fn reset_core(&mut self, core: u8, pc: u64, arg: u64) {
        let place = self.shape.cores[usize::from(core)];
        let mut fresh = Core::reset(place.affinity);
        fresh.write_x(0, arg);
        fresh.pc = pc;
        self.cores[usize::from(core)] = fresh;
        self.lists[usize::from(core)] = free_registers();
    }

    fn gpr(&self, core: u8, n: u8) -> u64 {
        self.cores[usize::from(core)].read_x(n)
    }

    fn set_gpr(&mut self, core: u8, n: u8, value: u64) {
        self.cores[usize::from(core)].write_x(n, value);
    }

    fn skip(&mut self, core: u8) {
        let core = &mut self.cores[usize::from(core)];
        core.pc = core.pc.wrapping_add(4);
    }

    fn lists(&self, core: u8) -> [ListReg; 4] {
        self.lists[usize::from(core)]
    }

    fn set_lists(&mut self, core: u8, lists: &[ListReg; 4]) {
        self.lists[usize::from(core)] = *lists;
    }

    fn ack(&mut self, core: u8) -> Option<u16> {
        self.devices.lines.ack(core)
    }

    fn step(&mut self, core: u8, now: u64) -> Exit {
        self.tick(core, now);
        if self.devices.lines.raised(core) {
            return Exit::Irq;
        }
        self.proceed(core, now)
    }

    fn byte_at(&self, at: u64) -> u8 {
        let Some(memory) = &self.memory else {
            unreachable!()
        };
        memory.get(at)
    }

    fn core_view(&self, core: u8) -> CoreView {
        CoreView::of(&self.cores[usize::from(core)])
    }

    fn port_input(&mut self, port: u8, byte: u8) {
        self.devices.input(port, byte);
        self.spent += 1;
    }

    fn port_len(&self, port: u8) -> u32 {
        self.devices.out_len(port)
    }

    fn port_byte(&self, port: u8, i: u32) -> u8 {
        self.devices.out_at(port, i)
    }

    fn entered(&self) -> u64 {
        self.entered
    }
}
