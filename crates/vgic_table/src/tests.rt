use crate::{IdState, IrqTable};
use bao_types::{IfaceRegs, ListReg};
use std::process::Abort;
use vgic_iface::{NO_INTERRUPT, acknowledge, end, running, signal};

const ENABLED: u8 = 1;

const PENDING: u8 = 2;

const ACTIVE: u8 = 4;

/// An id that is both enabled and pending.
const READY: u8 = 3;

fn id_state(priority: u8, parts: u8) -> IdState {
    IdState {
        enabled: parts % 2 == 1,
        priority,
        pending: parts / 2 % 2 == 1,
        active: parts / 4 % 2 == 1,
    }
}

/// An interface with all masks open.
fn interface() -> IfaceRegs {
    IfaceRegs {
        pmr: 0xf8,
        group: true,
        active: 0,
    }
}

/// A call at a core and an id, with what it is to answer.
enum Call {
    On(bool),
    /// The priority, and what is so of the id.
    Put(u8, u8),
    Look(u8, u8),
    Pend,
    IsPending(bool),
    Inactive,
    /// Fills the core's registers, takes the interrupt that they signal and ends it: this id, or 1023.
    Take,
    /// The same without an end.
    Acknowledge,
}

use Call::{Acknowledge, Inactive, IsPending, Look, On, Pend, Put, Take};

/// The number that an acknowledgement answers, with the registers taken back to the table afterwards.
fn acknowledged(table: &mut IrqTable, core: u8, ends: bool) -> u16 {
    if core >= table.cores() {
        return 0;
    }
    let mut iface = interface();
    let mut lists = table.fill(core);
    let id = acknowledge(&mut iface, &mut lists).unwrap_or(NO_INTERRUPT);
    if ends {
        let _ = end(&mut iface, &mut lists, id);
    }
    table.collect(core, &lists);
    id
}

/// Whether the call answers as it is to.
fn is_met(table: &mut IrqTable, core: u8, id: u16, call: &Call) -> bool {
    if core >= table.cores() {
        return false;
    }
    match *call {
        Take => return acknowledged(table, core, true) == id,
        Acknowledge => return acknowledged(table, core, false) == id,
        On(on) => {
            table.set_on(on);
            return table.on() == on;
        }
        Put(..) | Look(..) | Pend | IsPending(_) | Inactive => {}
    }
    if id >= 96 {
        return false;
    }
    match *call {
        Put(priority, parts) => table.put(core, id, id_state(priority, parts)),
        Look(priority, parts) => return table.look(core, id) == id_state(priority, parts),
        Pend => table.pend(core, id),
        IsPending(wanted) => return table.is_pending(core, id) == wanted,
        Inactive => table.drop_active(core, id),
        Take | Acknowledge | On(_) => {}
    }
    true
}

fn check(rt: &impl Abort, table: &mut IrqTable, row: &(&str, u8, u16, Call)) {
    let (shows, core, id, call) = row;
    assert!(rt; is_met(table, *core, *id, call), "{shows}");
}

#[rattlefmt::skip]
static IN_ORDER: [(&str, u8, u16, Call); 16] = [
    // shows                                core  id    call
    ("five ids, more than registers",       0,    40,   Put(0x20, READY)),
    ("of the same priority",                0,    42,   Put(0x20, READY)),
    ("as is the timer's",                   0,    27,   Put(0x20, READY)),
    ("a more urgent one",                   0,    41,   Put(0x10, READY)),
    ("the most urgent one",                 0,    43,   Put(0x08, READY)),
    ("none while the distributor is off",   0,    1023, Take),
    ("it is turned on",                     0,    0,    On(true)),
    ("the least priority",                  0,    43,   Take),
    ("then the next",                       0,    41,   Take),
    ("the least id on a tie",               0,    27,   Take),
    ("then the next",                       0,    40,   Take),
    ("and the last",                        0,    42,   Take),
    ("no more",                             0,    1023, Take),
    ("an ended id is enabled still",        0,    42,   Look(0x20, ENABLED)),
    ("it is made pending again",            0,    42,   Pend),
    ("and taken again",                     0,    42,   Take),
];

#[test]
fn taken_in_order(rt: HostRuntime) {
    let mut table = IrqTable::new(1);
    for row in IN_ORDER.as_slice() {
        check(&rt, &mut table, row);
    }
}

#[rattlefmt::skip]
static BY_CORE: [(&str, u8, u16, Call); 32] = [
    // shows                                core  id    call
    ("at boot nothing is on",               1,    31,   Look(0, 0)),
    ("the distributor is turned on",        0,    0,    On(true)),
    ("an id of core 1",                     1,    31,   Put(0x47, READY)),
    ("keeps bits 7 to 3 of the priority",   1,    31,   Look(0x40, READY)),
    ("that of core 0 is another",           0,    31,   Look(0, 0)),
    ("an id of the VM",                     1,    32,   Put(0xff, READY)),
    ("is the same for all cores",           0,    32,   Look(0xf8, READY)),
    ("its neighbour isn't it",              0,    33,   Look(0, 0)),
    ("nor is the last id",                  0,    95,   Look(0, 0)),
    ("core 1 takes its own",                1,    31,   Take),
    ("but not the VM's",                    1,    1023, Take),
    ("whose priority is too low for all",   0,    1023, Take),
    ("with a higher one",                   0,    32,   Put(0xf0, READY)),
    ("core 0 takes it",                     0,    32,   Take),
    ("an id that isn't enabled",            0,    63,   Put(0x08, PENDING)),
    ("stays",                               0,    1023, Take),
    ("in the table",                        0,    63,   IsPending(true)),
    ("an id pending and active at once",    0,    64,   Put(0x08, 7)),
    ("stays too",                           0,    1023, Take),
    ("as both",                             0,    64,   Look(0x08, 7)),
    ("until it is made inactive",           0,    64,   Inactive),
    ("then it is taken",                    0,    64,   Acknowledge),
    ("and active alone",                    0,    64,   Look(0x08, 5)),
    ("so it isn't pending",                 0,    64,   IsPending(false)),
    ("the greatest id",                     1,    95,   Pend),
    ("is pending for the VM",               0,    95,   IsPending(true)),
    ("but not enabled",                     0,    95,   Look(0, PENDING)),
    ("an active id that is made inactive",  0,    64,   Inactive),
    ("is enabled only",                     0,    64,   Look(0x08, ENABLED)),
    ("the last core's last own id",         7,    31,   Pend),
    ("isn't the VM's first",                0,    32,   IsPending(false)),
    ("nor core 6's",                        6,    31,   IsPending(false)),
];

#[test]
fn ids_of_cores_and_of_the_vm(rt: HostRuntime) {
    let mut table = IrqTable::new(8);
    for row in BY_CORE.as_slice() {
        check(&rt, &mut table, row);
    }
}

/// The nested ids with their priorities, from the first that was taken on.
static NESTED: [(u16, u8); 5] = [(50, 0x28), (51, 0x20), (52, 0x18), (53, 0x10), (54, 0x08)];

/// Puts an id of core 0 into the table.
fn put(table: &mut IrqTable, id: u16, priority: u8, parts: u8) {
    if id < 96 {
        table.put(0, id, id_state(priority, parts));
    }
}

/// Ends an id of core 0, in the table where it stands in no register.
fn end_at(table: &mut IrqTable, iface: &mut IfaceRegs, lists: &mut [ListReg; 4], id: u16) {
    if !end(iface, lists, id) && id < 96 && table.cores() > 0 {
        table.drop_active(0, id);
    }
}

/// Whether an id of core 0 is enabled, with this priority, and neither pending nor active.
fn is_at_rest(table: &IrqTable, id: u16, priority: u8) -> bool {
    id < 96 && table.look(0, id) == id_state(priority, ENABLED)
}

/// The register of an id that is active alone.
fn active(id: u16, priority: u8) -> ListReg {
    ListReg {
        id: id % 96,
        priority: priority / 8 * 8,
        pending: false,
        active: true,
    }
}

fn collect(table: &mut IrqTable, lists: &[ListReg; 4]) {
    if table.cores() > 0 {
        table.collect(0, lists);
    }
}

/// Whether none of the nested ids is active and no priority runs, after they were ended from the last to the first, of
/// which the ids with a bit in `listed` stand in registers, four at most, and the others in the table.
fn is_unwound(listed: usize) -> bool {
    let mut table = IrqTable::new(1);
    let mut iface = interface();
    let mut lists = [ListReg::free(); 4];
    let mut next = 0;
    for (place, (id, priority)) in NESTED.as_slice().iter().enumerate() {
        if place < 5 {
            iface.active |= 1 << (*priority / 8);
            if listed >> place & 1 == 1 && next < 4 {
                lists[next] = active(*id, *priority);
                next += 1;
                put(&mut table, *id, *priority, ENABLED);
            } else {
                put(&mut table, *id, *priority, ENABLED + ACTIVE);
            }
        }
    }
    for id in [54u16, 53, 52, 51, 50] {
        end_at(&mut table, &mut iface, &mut lists, id);
    }
    collect(&mut table, &lists);
    let mut rests = running(&iface) == 0xff;
    for (id, priority) in NESTED.as_slice() {
        rests = rests && is_at_rest(&table, *id, *priority);
    }
    rests
}

#[test]
fn nested_ids_end_wherever_they_stand(rt: HostRuntime) {
    for listed in 0..32 {
        assert!(rt; is_unwound(listed), "{listed}");
    }
}

/// What a core's registers signal after they were filled again where that was due, and whether it was.
fn refilled(table: &mut IrqTable, core: u8, lists: &mut [ListReg; 4]) -> (bool, Option<u16>) {
    if core >= table.cores() {
        return (false, None);
    }
    let mut due = false;
    if let Some(filled) = table.refill(core, lists) {
        *lists = filled;
        due = true;
    }
    (due, signal(&interface(), lists))
}

#[rattlefmt::skip]
static REFILLS: [(&str, u16, u8, bool, Option<u16>); 6] = [
    // shows                                id  priority  due    signalled
    ("the first id goes into a register",   40, 0x20,     true,  Some(40)),
    ("a less urgent one waits",             41, 0x28,     false, Some(40)),
    ("so does one of a greater id",         42, 0x20,     false, Some(40)),
    ("one of a lesser id doesn't",          39, 0x20,     true,  Some(39)),
    ("nor a more urgent one",               43, 0x18,     true,  Some(43)),
    ("but one that no core may take",       44, 0xff,     false, Some(43)),
];

#[test]
fn refilled_where_that_is_due(rt: HostRuntime) {
    let mut table = IrqTable::new(1);
    table.set_on(true);
    let mut lists = [ListReg::free(); 4];
    for (shows, id, priority, due, signalled) in REFILLS.as_slice() {
        put(&mut table, *id, *priority, READY);
        let met = refilled(&mut table, 0, &mut lists) == (*due, *signalled);
        assert!(rt; met, "{shows}");
    }
}
