//! Accesses of guests to the emulated interrupt controller of their VM, and interrupts that they send.
ghost use Rattle.std.specs.Prelude.{◌≡◌, ◌<◌, ◌*◌, ◌^◌, true, length, replicate, slice_get, slice_set, Some};
ghost use Rattle.bao_types.specs.ListReg.{free_registers};
ghost use Rattle.a64_state.specs.Registers.{with_x, x_of};
ghost use Rattle.bao_config.specs.Config.{config_data};
ghost use Rattle.bao_wellformed.specs.WellFormed.{IsWellFormed};
ghost use Rattle.board.specs.Machine.{core_at, with_core};
ghost use Rattle.vgic_table.specs.Interrupts.{tables_of};
ghost use Rattle.vgic_emul.specs.Registers.{after, answer};
ghost use Rattle.vm_model.specs.Duty.{cores_of, done, Emulate, Send};
ghost use Rattle.vm_model.specs.Frames.{after_access, stored_value};
ghost use Rattle.vm_model.specs.Project.{lists_of};
ghost use Rattle.vm_model.specs.Interrupts.{with_table};
ghost use Rattle.vm_model.specs.Sent.{sent, sent_value};
ghost use Rattle.hypervisor.specs.Change.{change_of};
ghost use Rattle.hypervisor.specs.Access.{access_of, IsAccess};
ghost use Rattle.hypervisor.specs.Seat.{IsSeat};
ghost use Rattle.hypervisor.specs.Taken.{guests_of, IsLeft};
ghost use Rattle.hypervisor.specs.Tidy.{Tidy};

use crate::hyp::Hyp;
use crate::owners::vm_at;
use crate::seat::{Seat, seat_at};
use crate::syndrome::{FrameAccess, is_target, sent_id, sent_register};
use a64_decode::{loaded, low};
use arrayvec::ArrayVec;
use bao_config::Config;
use board::Board;
use vgic_emul::emulate;
use vgic_table::IrqTable;

impl Hyp {
    /// Answers an access of a core from the interrupts of its VM, once the list registers of all the VM's cores are back in
    /// the table. The core has what it loads, and goes on after the access.
    pub(crate) fn answer_access<B: Board>(
        &mut self,
        config: &Config,
        board: &mut B,
        seat: Seat,
        access: FrameAccess,
    )
        requires well_formed { IsWellFormed (config_data config.now) }
        requires tidy { Tidy (config_data config.now) self.old (B.state board.old) }
        requires seat { IsSeat (config_data config.now) seat }
        requires access { IsAccess (access_of access) }
        ensures { let guests = guests_of (config_data config.now) self.old (B.state board.old) in
            IsLeft (config_data config.now) (change_of self.old self.new (B.state board.old) (B.state board.new))
            (done (config_data config.now) seat.core (Emulate seat.vm (access_of access)) guests) }
    {
        self.take_all_back(config, board, seat.vm);
        let write = stored_value(board, seat.core, access);
        let value = emulate_at(&mut self.tables, seat.vm, access, write);
        finish(board, seat.core, access, value);
    }

    /// Takes the list registers of all cores of a VM back to its table. They are free then.
    fn take_all_back<B: Board>(&mut self, config: &Config, board: &mut B, vm: u8)
        requires well_formed { IsWellFormed (config_data config.now) }
        requires tidy { Tidy (config_data config.now) self.old (B.state board.old) }
        requires vm { vm < length (config_data config.now).vms }
        ensures left { IsLeft (config_data config.now) (change_of self.old self.new (B.state board.old) (B.state board.new))
            (guests_of (config_data config.now) self.old (B.state board.old)) }
        ensures free { lists_of (config_data config.now) (B.state board.new).lists vm
            ≡ replicate (length (cores_of (slice_get (config_data config.now).vms vm))) free_registers }
    {
        for own in 0..vm_at(config, vm).cores.as_slice().len() as u8 {
            self.take_back(board, seat_at(config, vm, own));
        }
    }

    /// Makes the id that a core sends pending at each core of its VM that is a target. The core goes on after the write that
    /// sent it.
    pub(crate) fn send<B: Board>(&mut self, config: &Config, board: &mut B, seat: Seat, esr: u64)
        requires well_formed { IsWellFormed (config_data config.now) }
        requires tidy { Tidy (config_data config.now) self.old (B.state board.old) }
        requires seat { IsSeat (config_data config.now) seat }
        ensures { let guests = guests_of (config_data config.now) self.old (B.state board.old) in
            IsLeft (config_data config.now) (change_of self.old self.new (B.state board.old) (B.state board.new))
            (done (config_data config.now) seat.core
            (Send seat.vm seat.own (sent_value (core_at (B.state board.old).cores seat.core) esr)) guests) }
    {
        let value = register(board, seat.core, sent_register(esr));
        self.pend_targets(config, board, seat, value);
        board.skip(seat.core);
    }

    /// Makes the id that a value sends pending at each core of the VM that is a target of it.
    fn pend_targets<B: Board>(&mut self, config: &Config, board: &mut B, seat: Seat, value: u64)
        requires well_formed { IsWellFormed (config_data config.now) }
        requires tidy { Tidy (config_data config.now) self.old (B.state board.old) }
        requires seat { IsSeat (config_data config.now) seat }
        ensures { let guests = guests_of (config_data config.now) self.old (B.state board.old) in
            IsLeft (config_data config.now) (change_of self.old self.new (B.state board.old) (B.state board.new))
            (record guests { tables = with_table (Some seat.vm) (sent seat.own value) guests.tables }) }
    {
        let id = sent_id(value);
        for core in 0..vm_at(config, seat.vm).cores.as_slice().len() as u8 {
            if is_target(seat.own, value, core) {
                self.pend(board, seat_at(config, seat.vm, core), id);
            }
        }
    }
}

/// Answers an access from the table of a VM: what it reads, 0 for a write.
fn emulate_at(
    tables: &mut ArrayVec<IrqTable, 8>,
    vm: u8,
    access: FrameAccess,
    write: Option<u64>,
) -> u64
    requires vm { vm < length tables.old.items }
    requires access { IsAccess (access_of access) }
    ensures value { result ≡ answer (tables_of tables.old.items vm) access.place access.width write }
    ensures bound { result < 2 ^ (8 * access.width) }
    ensures tables { tables.new.items
        ≡ slice_set tables.old.items vm (after (tables_of tables.old.items vm) access.place access.width write) }
{
    emulate(
        &mut tables.as_mut_slice()[usize::from(vm)],
        access.place,
        access.width,
        write,
    )
}

/// The value that an access of a core writes, if it stores.
fn stored_value<B: Board>(board: &B, core: u8, access: FrameAccess) -> Option<u64>
    requires fitted { (B.state board.now).fitted ≡ true }
    requires core { core < length (B.state board.now).shape.cores }
    requires access { IsAccess (access_of access) }
    ensures { result ≡ stored_value (access_of access) (core_at (B.state board.now).cores core) }
{
    if !access.stores {
        return None;
    }
    Some(low(register(board, core, access.register), 8 * access.width))
}

/// Gives a core what its access loads, if it is a load, and lets it go on after the access.
fn finish<B: Board>(board: &mut B, core: u8, access: FrameAccess, value: u64)
    requires fitted { (B.state board.old).fitted ≡ true }
    requires core { core < length (B.state board.old).shape.cores }
    requires access { IsAccess (access_of access) }
    requires value { value < 2 ^ (8 * access.width) }
    ensures { B.state board.new
        ≡ with_core (B.state board.old) core (after_access (access_of access) value (core_at (B.state board.old).cores core)) }
{
    if access.stores {
        board.skip(core);
        return;
    }
    let whole = loaded(access.signed, access.wide, 8 * access.width, value);
    set_register(board, core, access.register, whole);
    board.skip(core);
}

/// A register of a core, by its number in an instruction: 31 is zero.
fn register<B: Board>(board: &B, core: u8, n: u8) -> u64
    requires fitted { (B.state board.now).fitted ≡ true }
    requires core { core < length (B.state board.now).shape.cores }
    requires register { n < 32 }
    ensures { result ≡ x_of (core_at (B.state board.now).cores core) n }
{
    if n == 31 { 0 } else { board.gpr(core, n) }
}

/// Sets a register of a core, by its number in an instruction: 31 stays zero.
fn set_register<B: Board>(board: &mut B, core: u8, n: u8, value: u64)
    requires fitted { (B.state board.old).fitted ≡ true }
    requires core { core < length (B.state board.old).shape.cores }
    requires register { n < 32 }
    ensures { B.state board.new ≡ with_core (B.state board.old) core (with_x (core_at (B.state board.old).cores core) n value) }
{
    if n != 31 {
        board.set_gpr(core, n, value);
    }
}
