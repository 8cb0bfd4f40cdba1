use crate::{Core, Mode, pstate};
use std::process::Abort;

#[test]
fn reset_state(rt: HostRuntime) {
    let core = Core::reset(3);
    let seen = (
        core.pstate,
        core.level(),
        core.affinity,
        core.read_x(0),
        core.read_sp(),
    );
    assert_eq!(rt; seen, (0x3c5, 1, 3, 0, 0));
}

#[test]
fn cores_compare(rt: HostRuntime) {
    assert!(rt; Core::reset(3) == Core::reset(3) && Core::reset(3) != Core::reset(2));
}

#[test]
fn general_registers(rt: HostRuntime) {
    let mut core = Core::reset(0);
    core.write_x(30, 7);
    let before = core;
    core.write_x(31, 9);
    let seen = (core.read_x(30), core.read_x(31), core == before);
    assert_eq!(rt; seen, (7, 0, true));
}

#[test]
fn register_31_as_sp(rt: HostRuntime) {
    let mut core = Core::reset(0);
    core.write_x_or_sp(31, 9);
    core.write_x_or_sp(30, 7);
    let seen = (
        core.sp1,
        core.read_x_or_sp(31),
        core.read_x_or_sp(30),
        core.read_x(31),
    );
    assert_eq!(rt; seen, (9, 9, 7, 0));
}

/// What it shows, the mode, IL, and after a write of 1 to SP the level, SP_EL0 and SP_EL1.
type Stack = (&'static str, Mode, bool, u8, u64, u64);

#[rattlefmt::skip]
static STACKS: [Stack; 4] = [
    ("EL0",                     Mode::El0t, false, 0, 1, 0),
    ("EL1 with SP_EL0",         Mode::El1t, false, 1, 1, 0),
    ("EL1 with its own",        Mode::El1h, false, 1, 0, 1),
    ("other bits don't matter", Mode::El0t, true,  0, 1, 0),
];

#[test]
fn stack_pointers(rt: HostRuntime) {
    for row in STACKS.as_slice() {
        check_stack(&rt, row);
    }
}

fn check_stack(rt: &impl Abort, row: &Stack) {
    let (shows, mode, illegal, level, sp0, sp1) = *row;
    let mut core = Core::reset(0);
    core.set_mode(mode);
    core.set_illegal_state(illegal);
    core.write_sp(1);
    let seen = (core.level(), core.sp0, core.sp1, core.read_sp());
    assert_eq!(rt; seen, (level, sp0, sp1, 1), "{shows}");
}

/// Each part of PSTATE by itself, by the layout of SPSR_EL1.
#[test]
fn parts_of_pstate(rt: HostRuntime) {
    let mut core = Core::reset(0);
    core.set_flags(0b1010);
    let flags = core.pstate;
    core.set_daif(0b0101);
    let masks = core.pstate;
    core.set_illegal_state(true);
    let illegal = core.pstate;
    core.set_mode(Mode::El0t);
    let seen = [flags, masks, illegal, core.pstate];
    assert_eq!(rt; seen, [0xa000_03c5, 0xa000_0145, 0xa010_0145, 0xa010_0140]);
}

#[test]
fn reading_pstate(rt: HostRuntime) {
    let bits = 0xa010_0145;
    let flags = [
        pstate::negative(bits),
        pstate::zero(bits),
        pstate::carry(bits),
        pstate::overflow(bits),
        pstate::illegal_state(bits),
    ];
    let seen = (
        flags,
        pstate::flags(bits),
        pstate::daif(bits),
        Mode::of(bits),
    );
    assert_eq!(rt;
        seen,
        ([true, false, true, false, true], 10, 5, Some(Mode::El1h))
    );
}

/// EL2's modes and those of AArch32 are no modes here.
#[test]
fn modes(rt: HostRuntime) {
    let seen = [
        Mode::of(0x3c0),
        Mode::of(0x3c4),
        Mode::of(9),
        Mode::of(0x10),
    ];
    assert_eq!(rt; seen, [Some(Mode::El0t), Some(Mode::El1t), None, None]);
}
