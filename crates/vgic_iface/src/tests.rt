use crate::{NO_INTERRUPT, acknowledge, end, running, signal};
use bao_types::{IfaceRegs, ListReg};
use std::process::Abort;

/// What a list register has of its id.
const PENDING: u8 = 1;

const ACTIVE: u8 = 2;

const BOTH: u8 = 3;

/// An id, its priority, and what the register has of it; 0 for a free register.
type Listed = (u16, u8, u8);

const FREE: Listed = (0, 0, 0);

fn register(listed: &Listed) -> ListReg {
    let (id, priority, state) = *listed;
    ListReg {
        id: id % 96,
        priority: priority / 8 * 8,
        pending: state % 2 == 1,
        active: state / 2 % 2 == 1,
    }
}

/// The interface of a core, and its list registers.
#[derive(Drop)]
struct Core {
    iface: IfaceRegs,
    lists: [ListReg; 4],
}

fn core_with(pmr: u8, lists: &[Listed; 4]) -> Core {
    let [first, second, third, fourth] = lists;
    Core {
        iface: IfaceRegs {
            pmr: pmr / 8 * 8,
            group: true,
            active: 0,
        },
        lists: [
            register(first),
            register(second),
            register(third),
            register(fourth),
        ],
    }
}

/// A call, with what it is to answer.
enum Call {
    /// The new priority mask.
    Mask(u8),
    /// Whether Group 1 interrupts are enabled.
    Group(bool),
    Signal(Option<u16>),
    /// The id, or 1023 where there is none.
    Acknowledge(u16),
    /// The id, and whether nothing is left to do for it.
    End(u16, bool),
    Running(u8),
}

use Call::{Acknowledge, End, Group, Mask, Running, Signal};

/// Whether the call answers as it is to.
fn is_met(core: &mut Core, call: &Call) -> bool {
    let Core { iface, lists } = core;
    match *call {
        Mask(pmr) => iface.pmr = pmr / 8 * 8,
        Group(on) => iface.group = on,
        Signal(wanted) => return signal(iface, lists) == wanted,
        Acknowledge(wanted) => {
            return acknowledge(iface, lists).unwrap_or(NO_INTERRUPT) == wanted;
        }
        End(id, wanted) => return end(iface, lists, id) == wanted,
        Running(wanted) => return running(iface) == wanted,
    }
    true
}

fn check(rt: &impl Abort, core: &mut Core, row: &(&str, Call)) {
    let (shows, call) = row;
    assert!(rt; is_met(core, call), "{shows}");
}

#[rattlefmt::skip]
static IN_ORDER: [(&str, Call); 12] = [
    // shows                                        call
    ("the least priority comes first",              Acknowledge(41)),
    ("nothing comes before what runs",              Signal(None)),
    ("its priority runs",                           Running(0x10)),
    ("it is ended",                                 End(41, true)),
    ("the least id on a tie",                       Acknowledge(40)),
    ("not again while it is active",                Acknowledge(1023)),
    ("it is ended too",                             End(40, true)),
    ("the last one",                                Acknowledge(42)),
    ("it is ended as well",                         End(42, true)),
    ("none is left",                                Acknowledge(1023)),
    ("and none runs",                               Running(0xff)),
    ("an id that no register has any more",         End(40, false)),
];

#[test]
fn by_priority_and_id(rt: HostRuntime) {
    let mut core = core_with(
        0xf8,
        &[
            (42, 0x20, PENDING),
            (40, 0x20, PENDING),
            (41, 0x10, PENDING),
            FREE,
        ],
    );
    for row in IN_ORDER.as_slice() {
        check(&rt, &mut core, row);
    }
}

#[rattlefmt::skip]
static MASKED: [(&str, Call); 14] = [
    // shows                                        call
    ("an active id isn't taken again",              Mask(0x10)),
    ("nor one whose priority is the mask",          Signal(None)),
    ("a mask above the priority",                   Mask(0x18)),
    ("lets it through",                             Signal(Some(95))),
    ("a mask below the priority",                   Mask(0x08)),
    ("doesn't",                                     Signal(None)),
    ("with the mask open",                          Mask(0xf8)),
    ("but the group off",                           Group(false)),
    ("nothing is signalled",                        Signal(None)),
    ("or taken",                                    Acknowledge(1023)),
    ("with the group on",                           Group(true)),
    ("the greatest id",                             Acknowledge(95)),
    ("a less urgent one waits",                     Signal(None)),
    ("for the end of what runs",                    End(95, true)),
];

#[test]
fn the_mask_and_the_group(rt: HostRuntime) {
    let mut core = core_with(
        0,
        &[
            (33, 0x08, BOTH),
            (95, 0x10, PENDING),
            (31, 0x20, PENDING),
            (40, 0, ACTIVE),
        ],
    );
    for row in MASKED.as_slice() {
        check(&rt, &mut core, row);
    }
}

#[rattlefmt::skip]
static ENDS: [(&str, Call); 14] = [
    // shows                                        call
    ("the first",                                   Acknowledge(64)),
    ("its priority runs",                           Running(0x40)),
    ("an id of 96 ends nothing",                    End(96, true)),
    ("nor does the greatest number",                End(1023, true)),
    ("what runs still does",                        Running(0x40)),
    ("an id in no register takes the priority",     End(63, false)),
    ("so that none runs",                           Running(0xff)),
    ("its end in the table is left",                End(32, false)),
    ("while the first is active still",             Signal(None)),
    ("its own end makes it inactive",               End(64, true)),
    ("then it is in no register",                   End(64, false)),
    ("an id that was active only",                  End(31, true)),
    ("is gone",                                     End(31, false)),
    ("id 95 in no register",                        End(95, false)),
];

#[test]
fn ends_of_all_kinds(rt: HostRuntime) {
    let mut core = core_with(0xf8, &[FREE, (64, 0x40, PENDING), (31, 0x08, ACTIVE), FREE]);
    for row in ENDS.as_slice() {
        check(&rt, &mut core, row);
    }
}

#[rattlefmt::skip]
static NESTED: [(&str, Call); 11] = [
    // shows                                        call
    ("an id that stands twice: the first counts",   Signal(Some(63))),
    ("a priority of the second isn't seen",         Acknowledge(63)),
    ("it is the first's that runs",                 Running(0x80)),
    ("the second is after it",                     Signal(Some(32))),
    ("a more urgent one comes on top",              Acknowledge(32)),
    ("and runs",                                    Running(0x18)),
    ("the end takes the least priority",            End(63, true)),
    ("so that the other runs",                      Running(0x80)),
    ("now the second register counts",              Acknowledge(63)),
    ("with its own priority",                       Running(0x10)),
    ("which ends first",                            End(32, true)),
];

#[test]
fn nested_and_twice(rt: HostRuntime) {
    let mut core = core_with(
        0xf8,
        &[(63, 0x80, PENDING), (63, 0x10, PENDING), FREE, FREE],
    );
    for (place, row) in NESTED.as_slice().iter().enumerate() {
        if place == 3 {
            // one more becomes pending once the first runs
            core.lists[2] = register(&(32, 0x18, PENDING));
        }
        check(&rt, &mut core, row);
    }
}
