ghost use Rattle.std.specs.Prelude.{◌≡◌, ◌<◌};
ghost use Rattle.bao_types.specs.Controller.{id_end};
ghost use Rattle.vgic_table.specs.Interrupts.{place};

use crate::IdState;
use bao_types::{ID_END, ListReg};
use std::marker::Model;
use vgic_iface::best_listed;

/// The ids of a core alone lie below this.
const OWN_END: u16 = 32;

/// The rank where there is no interrupt to take. A rank is a priority times 128, plus an id.
const NO_RANK: u16 = 32768;

/// Stands for a best rank that isn't known. No rank is as high.
const UNKNOWN: u16 = u16::MAX;

/// An id as the table keeps it.
#[derive(Clone, Copy, Debug, PartialEq, Eq)]
struct Kept {
    enabled: bool,
    /// Bits 7 to 3 alone.
    priority: u8,
    pending: bool,
    active: bool,
}

impl Model for Kept {
    ghost use Rattle.std.specs.Prelude.{◌≡◌, ◌%◌};
    ghost use Rattle.vgic_table.specs.declared.id_state.IdState.{IdState};

    ghost Value = { IdState };

    ghost view = { λ k. record { enabled = k.enabled; priority = k.priority; pending = k.pending; active = k.active } };

    ghost invariant = { λ k. k.priority % 8 ≡ 0 };

    ghost inverse = { λ d. record { enabled = d.enabled; priority = d.priority; pending = d.pending; active = d.active } };
}

/// The interrupts of one VM, but for those that stand in list registers.
#[derive(Debug, Drop)]
pub struct IrqTable {
    /// Whether the VM's distributor is on.
    on: bool,
    /// How many virtual cores the VM has, at most 8.
    cores: u8,
    /// The ids 0 to 31 of 8 cores, one core after another, then the ids 32 to 95 of the VM.
    ids: [Kept; 320],
    /// The best rank of each core, where it was asked for since the last change; else `UNKNOWN`. A core asks before each of
    /// its steps, and most steps change nothing.
    known: [u16; 8],
}

impl Model for IrqTable {
    ghost use Rattle.std.specs.Prelude.{◌≡◌, ◌≤◌, length};
    ghost use Rattle.vgic_table.specs.Interrupts.{Interrupts};
    ghost use Rattle.vgic_table.specs.Known.{AreKnown};

    ghost Value = { Interrupts };

    ghost view = { λ t. record { on = t.on; cores = t.cores; ids = t.ids } };

    ghost invariant = { λ t. (t.cores ≤ 8) × (length t.ids ≡ 320)
        × (length t.known ≡ 8) × AreKnown (record { on = t.on; cores = t.cores; ids = t.ids }) t.known };
}

/// Where the table keeps an id of a core.
fn place(core: u8, id: u16) -> usize
    requires core { core < 8 }
    requires id { id < id_end }
    ensures value { result ≡ place core id }
    ensures bound { result < 320 }
{
    if id < OWN_END {
        32 * usize::from(core) + usize::from(id)
    } else {
        224 + usize::from(id)
    }
}

impl Default for IrqTable {
    /// The interrupts of a VM without a core.
    fn default() -> Self {
        IrqTable::new(0)
    }
}

impl IrqTable {
    ghost use Rattle.std.specs.Prelude.{◌≡◌, ◌<◌, ◌≤◌, ◌%◌};
    ghost use Rattle.vgic_table.specs.Interrupts.{belongs, best, quiet_interrupts, rank_at, state_of};
    ghost use Rattle.vgic_table.specs.Changes.{made_inactive, made_pending, masked, with_state};
    ghost use Rattle.vgic_table.specs.Shape.{IsShaped};
    ghost use Rattle.vgic_table.specs.Registers.{joined, left_by_registers, put_back, refilled, refilled_table, register_for, registers, without_best};

    /// The table of a VM with this many virtual cores, as it is at boot: the distributor is off, and each id is off,
    /// inactive and not pending, with priority 0.
    pub fn new(cores: u8) -> Self
        requires { cores ≤ 8 }
        ensures { result ≡ quiet_interrupts cores }
    {
        let quiet = Kept {
            enabled: false,
            priority: 0,
            pending: false,
            active: false,
        };
        IrqTable {
            on: false,
            cores,
            ids: [quiet; 320],
            known: [UNKNOWN; 8],
        }
    }

    /// How many virtual cores the VM has.
    pub fn cores(&self) -> u8
        ensures value { result ≡ self.now.cores }
        ensures bound { result ≤ 8 }
        ensures shaped { IsShaped self.now }
    {
        self.cores
    }

    /// Whether the VM's distributor is on.
    pub fn on(&self) -> bool
        ensures { result ≡ self.now.on }
    {
        self.on
    }

    /// Turns the VM's distributor on or off. All else stays.
    pub fn set_on(&mut self, on: bool)
        ensures { self.new ≡ record self.old { on = on } }
    {
        self.on = on;
        self.known = [UNKNOWN; 8];
    }

    /// What an id of a core is by the table, list registers aside. Ids of a core that the VM doesn't have are as they
    /// were put.
    pub fn look(&self, core: u8, id: u16) -> IdState
        requires core { core < 8 }
        requires id { id < id_end }
        ensures { result ≡ state_of self.now core id }
    {
        let ids = &self.ids;
        let kept = ids[place(core, id)];
        IdState {
            enabled: kept.enabled,
            priority: kept.priority,
            pending: kept.pending,
            active: kept.active,
        }
    }

    /// Sets what an id of a core is. Of the priority the bits 7 to 3 are kept; all other ids stay.
    pub fn put(&mut self, core: u8, id: u16, value: IdState)
        requires core { core < 8 }
        requires id { id < id_end }
        ensures { self.new ≡ with_state self.old core id (masked value) }
    {
        let ids = &mut self.ids;
        ids[place(core, id)] = Kept {
            enabled: value.enabled,
            priority: value.priority - value.priority % 8,
            pending: value.pending,
            active: value.active,
        };
        self.known = [UNKNOWN; 8];
    }

    /// Makes an id pending.
    pub fn pend(&mut self, core: u8, id: u16)
        requires core { core < self.old.cores }
        requires id { id < id_end }
        ensures { self.new ≡ made_pending self.old core id }
    {
        let ids = &mut self.ids;
        let kept = &mut ids[place(core, id)];
        kept.pending = true;
        self.known = [UNKNOWN; 8];
    }

    /// Whether the table itself has an id as pending, list registers aside.
    pub fn is_pending(&self, core: u8, id: u16) -> bool
        requires core { core < self.now.cores }
        requires id { id < id_end }
        ensures { result ≡ (state_of self.now core id).pending }
    {
        let ids = &self.ids;
        let kept = &ids[place(core, id)];
        kept.pending
    }

    /// Makes an id inactive in the table, as the end of an id that stands in no list register does.
    pub fn drop_active(&mut self, core: u8, id: u16)
        requires core { core < self.old.cores }
        requires id { id < id_end }
        ensures { self.new ≡ made_inactive self.old core id }
    {
        let ids = &mut self.ids;
        let kept = &mut ids[place(core, id)];
        kept.active = false;
        self.known = [UNKNOWN; 8];
    }

    /// Takes a core's list registers back to the table: each id that stands in one has its pending and active from
    /// then on, and all else stays. The registers then count as free.
    pub fn collect(&mut self, core: u8, lists: &[ListReg; 4])
        requires { core < self.old.cores }
        ensures { self.new ≡ joined self.old core lists.now }
    {
        let [first, second, third, fourth] = lists;
        // An id that stands in two registers counts in the first, which therefore comes last.
        self.put_back(core, fourth);
        self.put_back(core, third);
        self.put_back(core, second);
        self.put_back(core, first);
    }

    /// Takes one list register back to the table.
    fn put_back(&mut self, core: u8, list: &ListReg)
        requires { core < self.old.cores }
        ensures { self.new ≡ put_back self.old core list.now }
    {
        if !list.is_free() {
            let ids = &mut self.ids;
            let kept = &mut ids[place(core, list.id)];
            kept.pending = list.pending;
            kept.active = list.active;
            self.known = [UNKNOWN; 8];
        }
    }

    /// Moves the best ids of a core into list registers, of which none is occupied: at most four, in their order. What
    /// table and registers are together stays the same, and what the registers signal is what the core may take.
    pub fn fill(&mut self, core: u8) -> [ListReg; 4]
        requires { core < self.old.cores }
        ensures lists { result ≡ registers 4 self.old core }
        ensures left { self.new ≡ left_by_registers 4 self.old core }
    {
        let best = self.take_best(core);
        let second = self.take_best(core);
        let third = self.take_best(core);
        let fourth = self.take_best(core);
        [best, second, third, fourth]
    }

    /// Collects a core's list registers and fills them again, where an id of the table comes before the best one in them.
    /// None where it doesn't; all then stays. What table and registers are together stays the same.
    pub fn refill(&mut self, core: u8, lists: &[ListReg; 4]) -> Option<[ListReg; 4]>
        requires { core < self.old.cores }
        ensures lists { result ≡ refilled self.old core lists.now }
        ensures left { self.new ≡ refilled_table self.old core lists.now }
    {
        let best = self.known_best(core);
        // Asked before every step of a core, of which most have nothing pending.
        if best == NO_RANK {
            return None;
        }
        if best >= best_listed(lists) {
            return None;
        }
        self.collect(core, lists);
        Some(self.fill(core))
    }

    /// The best rank of a core, which is known from then on until the next change.
    fn known_best(&mut self, core: u8) -> u16
        requires { core < self.old.cores }
        ensures value { result ≡ best self.old core }
        ensures same { self.new ≡ self.old }
    {
        let known = self.known[usize::from(core)];
        if known != UNKNOWN {
            return known;
        }
        let best = self.best(core);
        self.known[usize::from(core)] = best;
        best
    }

    /// Moves the best id of a core into a list register; free where there is none.
    fn take_best(&mut self, core: u8) -> ListReg
        requires { core < self.old.cores }
        ensures list { result ≡ register_for (best self.old core) }
        ensures left { self.new ≡ without_best self.old core (best self.old core) }
    {
        let best = self.best(core);
        if best >= NO_RANK {
            return ListReg::free();
        }
        let id = best % 128;
        let priority = self.priority(core, id);
        let ids = &mut self.ids;
        let kept = &mut ids[place(core, id)];
        kept.pending = false;
        self.known = [UNKNOWN; 8];
        ListReg {
            id,
            priority,
            pending: true,
            active: false,
        }
    }

    /// The priority of an id of a core.
    fn priority(&self, core: u8, id: u16) -> u8
        requires core { core < self.now.cores }
        requires id { id < id_end }
        ensures value { result ≡ (state_of self.now core id).priority }
        ensures masked { result % 8 ≡ 0 }
    {
        let ids = &self.ids;
        let kept = &ids[place(core, id)];
        kept.priority
    }

    /// The best rank of a core by the table, list registers aside: a priority times 128, plus an id; 32768 where there is
    /// nothing to take.
    pub fn best(&self, core: u8) -> u16
        requires { core < self.now.cores }
        ensures value { result ≡ best self.now core }
        ensures bound { result ≤ 32768 }
    {
        if !self.on {
            return NO_RANK;
        }
        let mut best = NO_RANK;
        for id in 0..ID_END {
            best = best.min(self.rank_at(core, id));
        }
        best
    }

    /// The rank of an id of a core.
    fn rank_at(&self, core: u8, id: u16) -> u16
        requires core { core < self.now.cores }
        requires id { id < id_end }
        ensures value { result ≡ rank_at self.now core id }
        ensures bound { result ≤ 32768 }
    {
        let ids = &self.ids;
        let kept = ids[place(core, id)];
        if self.on && self.belongs(core, id) && kept.enabled && kept.pending && !kept.active {
            u16::from(kept.priority) * 128 + id
        } else {
            NO_RANK
        }
    }

    /// Whether an id belongs to a core: its own, or one of the VM's, which belong to core 0.
    fn belongs(&self, core: u8, id: u16) -> bool
        ensures { result ≡ belongs self.now core id }
    {
        id < OWN_END || core == 0
    }
}
