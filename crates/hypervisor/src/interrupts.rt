//! Interrupts of the VMs, between their tables and the list registers of their cores.
ghost use Rattle.std.specs.Prelude.{◌≡◌, ◌<◌, true, length, slice_set, Some, unwrap_or};
ghost use Rattle.bao_types.specs.Controller.{id_end};
ghost use Rattle.bao_types.specs.ListReg.{free_registers, lists_at};
ghost use Rattle.bao_config.specs.Config.{config_data};
ghost use Rattle.bao_wellformed.specs.WellFormed.{IsWellFormed};
ghost use Rattle.board.specs.Machine.{with_lists};
ghost use Rattle.vgic_table.specs.Changes.{made_inactive, made_pending};
ghost use Rattle.vgic_table.specs.Registers.{joined, refilled};
ghost use Rattle.vgic_table.specs.Interrupts.{tables_of};
ghost use Rattle.hypervisor.specs.Change.{change_of};
ghost use Rattle.hypervisor.specs.Taken.{ended_guests, guests_of, line_guests, IsForwarded, IsLeft};
ghost use Rattle.hypervisor.specs.Again.{filled_again};
ghost use Rattle.hypervisor.specs.Seat.{IsSeat, IsSeatOf, taken_back};
ghost use Rattle.hypervisor.specs.Tidy.{Tidy};

use crate::hyp::Hyp;
use crate::owners::vm_at;
use crate::seat::{Seat, holder, irq_of_line};
use arrayvec::ArrayVec;
use bao_config::Config;
use bao_types::ListReg;
use board::Board;
use vgic_table::IrqTable;

impl Hyp {
    /// Takes the list registers of a virtual core back to its VM's table. They are free then.
    pub(crate) fn take_back<B: Board>(&mut self, board: &mut B, seat: Seat)
        requires fitted { (B.state board.old).fitted ≡ true }
        requires core { seat.core < length (B.state board.old).shape.cores }
        requires vm { seat.vm < length self.old.tables }
        requires own { seat.own < (tables_of self.old.tables seat.vm).cores }
        ensures tables { self.new.tables
            ≡ slice_set self.old.tables seat.vm (taken_back self.old.tables (B.state board.old).lists seat) }
        ensures powers { self.new.powers ≡ self.old.powers }
        ensures state { B.state board.new ≡ with_lists (B.state board.old) seat.core free_registers }
    {
        collect(&mut self.tables, seat, &board.lists(seat.core));
        board.set_lists(seat.core, &[ListReg::free(); 4]);
    }

    /// Makes an id of a virtual core pending, once the registers of the core are back in the table.
    pub(crate) fn pend<B: Board>(&mut self, board: &mut B, seat: Seat, id: u16)
        requires fitted { (B.state board.old).fitted ≡ true }
        requires core { seat.core < length (B.state board.old).shape.cores }
        requires vm { seat.vm < length self.old.tables }
        requires own { seat.own < (tables_of self.old.tables seat.vm).cores }
        requires id { id < id_end }
        ensures tables { self.new.tables ≡ slice_set self.old.tables seat.vm
            (made_pending (taken_back self.old.tables (B.state board.old).lists seat) seat.own id) }
        ensures powers { self.new.powers ≡ self.old.powers }
        ensures state { B.state board.new ≡ with_lists (B.state board.old) seat.core free_registers }
    {
        self.take_back(board, seat);
        pend(&mut self.tables, seat, id);
    }

    /// Makes an id of a virtual core inactive, once the registers of the core are back in the table.
    pub(crate) fn drop_active<B: Board>(&mut self, board: &mut B, seat: Seat, id: u16)
        requires fitted { (B.state board.old).fitted ≡ true }
        requires core { seat.core < length (B.state board.old).shape.cores }
        requires vm { seat.vm < length self.old.tables }
        requires own { seat.own < (tables_of self.old.tables seat.vm).cores }
        requires id { id < id_end }
        ensures tables { self.new.tables ≡ slice_set self.old.tables seat.vm
            (made_inactive (taken_back self.old.tables (B.state board.old).lists seat) seat.own id) }
        ensures powers { self.new.powers ≡ self.old.powers }
        ensures state { B.state board.new ≡ with_lists (B.state board.old) seat.core free_registers }
    {
        self.take_back(board, seat);
        drop_active(&mut self.tables, seat, id);
    }

    /// Fills the list registers of a virtual core again, where an id that stands in none of them comes before all that do.
    pub(crate) fn refill<B: Board>(&mut self, board: &mut B, seat: Seat)
        requires fitted { (B.state board.old).fitted ≡ true }
        requires core { seat.core < length (B.state board.old).shape.cores }
        requires vm { seat.vm < length self.old.tables }
        requires own { seat.own < (tables_of self.old.tables seat.vm).cores }
        ensures tables { self.new.tables ≡ slice_set self.old.tables seat.vm
            (filled_again (tables_of self.old.tables seat.vm) seat.own (lists_at (B.state board.old).lists seat.core)) }
        ensures powers { self.new.powers ≡ self.old.powers }
        ensures state { let lists = lists_at (B.state board.old).lists seat.core in
            B.state board.new ≡ with_lists (B.state board.old) seat.core
            (unwrap_or (refilled (tables_of self.old.tables seat.vm) seat.own lists) lists) }
    {
        let lists = refill(&mut self.tables, seat, &board.lists(seat.core));
        set_filled(board, seat.core, lists);
    }

    /// Forwards each line that is raised for a virtual core to its VM, until none is left.
    pub(crate) fn forward<B: Board>(&mut self, config: &Config, board: &mut B, seat: Seat)
        requires well_formed { IsWellFormed (config_data config.now) }
        requires tidy { Tidy (config_data config.now) self.old (B.state board.old) }
        requires seat { IsSeatOf (config_data config.now) seat.core seat }
        ensures { IsForwarded (config_data config.now) seat.core
            (change_of self.old self.new (B.state board.old) (B.state board.new)) }
    {
        while let Some(intid) = board.ack(seat.core) {
            self.forward_line(config, board, seat, intid);
        }
    }

    /// Makes the id of a line pending in a VM that has one for it.
    fn forward_line<B: Board>(&mut self, config: &Config, board: &mut B, seat: Seat, intid: u16)
        requires well_formed { IsWellFormed (config_data config.now) }
        requires tidy { Tidy (config_data config.now) self.old (B.state board.old) }
        requires seat { IsSeat (config_data config.now) seat }
        ensures { let guests = guests_of (config_data config.now) self.old (B.state board.old) in
            IsLeft (config_data config.now) (change_of self.old self.new (B.state board.old) (B.state board.new))
            (line_guests (config_data config.now) seat.vm seat.own intid guests) }
    {
        if let Some(irq) = irq_of_line(config, vm_at(config, seat.vm), intid) {
            let holder = holder(config, seat, irq);
            self.pend(board, holder, irq);
        }
    }

    /// Ends an interrupt of a virtual core that stands in none of its list registers.
    pub(crate) fn end<B: Board>(&mut self, config: &Config, board: &mut B, seat: Seat, id: u16)
        requires well_formed { IsWellFormed (config_data config.now) }
        requires tidy { Tidy (config_data config.now) self.old (B.state board.old) }
        requires seat { IsSeat (config_data config.now) seat }
        requires id { id < id_end }
        ensures { let guests = guests_of (config_data config.now) self.old (B.state board.old) in
            IsLeft (config_data config.now) (change_of self.old self.new (B.state board.old) (B.state board.new))
            (ended_guests seat.vm seat.own id guests) }
    {
        let holder = holder(config, seat, id);
        self.drop_active(board, holder, id);
    }
}

/// Takes list registers of a virtual core back to its VM's table.
fn collect(tables: &mut ArrayVec<IrqTable, 8>, seat: Seat, lists: &[ListReg; 4])
    requires vm { seat.vm < length tables.old.items }
    requires own { seat.own < (tables_of tables.old.items seat.vm).cores }
    ensures { tables.new.items ≡ slice_set tables.old.items seat.vm (joined (tables_of tables.old.items seat.vm) seat.own lists.now) }
{
    tables.as_mut_slice()[usize::from(seat.vm)].collect(seat.own, lists);
}

/// Makes an id of a virtual core pending in its VM's table.
fn pend(tables: &mut ArrayVec<IrqTable, 8>, seat: Seat, id: u16)
    requires vm { seat.vm < length tables.old.items }
    requires own { seat.own < (tables_of tables.old.items seat.vm).cores }
    requires id { id < id_end }
    ensures { tables.new.items ≡ slice_set tables.old.items seat.vm (made_pending (tables_of tables.old.items seat.vm) seat.own id) }
{
    tables.as_mut_slice()[usize::from(seat.vm)].pend(seat.own, id);
}

/// Makes an id of a virtual core inactive in its VM's table.
fn drop_active(tables: &mut ArrayVec<IrqTable, 8>, seat: Seat, id: u16)
    requires vm { seat.vm < length tables.old.items }
    requires own { seat.own < (tables_of tables.old.items seat.vm).cores }
    requires id { id < id_end }
    ensures { tables.new.items ≡ slice_set tables.old.items seat.vm (made_inactive (tables_of tables.old.items seat.vm) seat.own id) }
{
    tables.as_mut_slice()[usize::from(seat.vm)].drop_active(seat.own, id);
}

/// Sets the list registers of a core, where they were filled again.
fn set_filled<B: Board>(board: &mut B, core: u8, filled: Option<[ListReg; 4]>)
    requires fitted { (B.state board.old).fitted ≡ true }
    requires core { core < length (B.state board.old).shape.cores }
    ensures { B.state board.new ≡ with_lists (B.state board.old) core (unwrap_or filled (lists_at (B.state board.old).lists core)) }
{
    if let Some(lists) = filled {
        board.set_lists(core, &lists);
    }
}

/// Fills list registers of a virtual core again from its VM's table, where that is due.
fn refill(
    tables: &mut ArrayVec<IrqTable, 8>,
    seat: Seat,
    lists: &[ListReg; 4],
) -> Option<[ListReg; 4]>
    requires vm { seat.vm < length tables.old.items }
    requires own { seat.own < (tables_of tables.old.items seat.vm).cores }
    ensures lists { result ≡ refilled (tables_of tables.old.items seat.vm) seat.own lists.now }
    ensures tables { tables.new.items
        ≡ slice_set tables.old.items seat.vm (filled_again (tables_of tables.old.items seat.vm) seat.own lists.now) }
{
    refill_table(
        &mut tables.as_mut_slice()[usize::from(seat.vm)],
        seat.own,
        lists,
    )
}

/// Fills list registers of a virtual core again from the table of its VM, where that is due.
#[tactic(auto, unfolding(crate::specs::Again::filled_again))]
fn refill_table(table: &mut IrqTable, own: u8, lists: &[ListReg; 4]) -> Option<[ListReg; 4]>
    requires { own < table.old.cores }
    ensures lists { result ≡ refilled table.old own lists.now }
    ensures table { table.new ≡ filled_again table.old own lists.now }
{
    table.refill(own, lists)
}
