//! The virtual timer: when its line is raised, and a guest that takes its interrupt. The expected values were worked out by
//! hand, from the Arm manual's rule of the timer condition.

use crate::drive::Call::{Ack, Back, Has, Holds, On, Put, Run, Shows, Step, Turn};
use crate::drive::Seen::{Elr, Pc, Pstate, Spsr, X};
use crate::drive::{ACTIVE, ENABLED, FREE, PENDING, Row};
use crate::trial::check;
use board::Exit::{Irq, Ran};
use std::test::Fail;

/// `movz x0, #100`, `msr cntv_cval_el0, x0`, `movz x0, #1` and `msr cntv_ctl_el0, x0`; then `mrs x3, cntv_ctl_el0` for ever.
const AT_100: [u32; 6] = [
    0xd280_0c80,
    0xd51b_e340,
    0xd280_0020,
    0xd51b_e320,
    0xd53b_e323,
    0x17ff_ffff,
];

#[rattlefmt::skip]
static EDGES: [Row; 20] = [
    // shows                                              core call
    ("the timer is set",                                  0,   Run(8)),
    ("no line before its count",                          0,   Step(99, Ran)),
    ("none to take",                                      0,   Ack(None)),
    ("it is on, and its condition doesn't hold",          0,   Shows(X(3), 1)),
    ("the line at its count, and nothing else",           0,   Step(100, Irq)),
    ("the core stays where it is",                        0,   Shows(Pc, 0x10_0024)),
    ("it stays raised until it is taken",                 0,   Step(100, Irq)),
    ("another core doesn't see it",                       1,   Step(100, Ran)),
    ("nor takes it",                                      1,   Ack(None)),
    ("it is taken",                                       0,   Ack(Some(27))),
    ("once",                                              0,   Ack(None)),
    ("no line at the same count again",                   0,   Step(100, Ran)),
    ("nor while the condition holds",                     0,   Step(101, Ran)),
    ("none to take",                                      0,   Ack(None)),
    ("it tells that its condition holds",                 0,   Shows(X(3), 5)),
    ("the other core's timer is set",                     1,   Run(7)),
    ("it has a line of its own",                          1,   Step(100, Irq)),
    ("which the first core doesn't see",                  0,   Step(102, Ran)),
    ("it is taken there",                                 1,   Ack(Some(27))),
    ("once",                                              1,   Ack(None)),
];

#[test]
fn the_line_is_raised_by_an_edge(rt: HostRuntime) -> Result<(), Fail> {
    check(&rt, rt.alloc(), &AT_100, &[], EDGES.as_slice())
}

/// `movn x0, #0`, `msr cntv_cval_el0, x0`, `movz x0, #1`, `msr cntv_ctl_el0, x0` and `b .`
const AT_THE_LAST: [u32; 5] = [
    0x9280_0000,
    0xd51b_e340,
    0xd280_0020,
    0xd51b_e320,
    0x1400_0000,
];

#[rattlefmt::skip]
static THE_LAST: [Row; 6] = [
    // shows                                              core call
    ("the timer is set",                                  0,   Run(8)),
    ("the last count but one",                            0,   Step(0xffff_ffff_ffff_fffe, Ran)),
    ("no line",                                           0,   Ack(None)),
    ("the last count",                                    0,   Step(0xffff_ffff_ffff_ffff, Irq)),
    ("the line",                                          0,   Ack(Some(27))),
    ("and no other",                                      0,   Step(0xffff_ffff_ffff_ffff, Ran)),
];

#[test]
fn the_greatest_compare_value(rt: HostRuntime) -> Result<(), Fail> {
    check(&rt, rt.alloc(), &AT_THE_LAST, &[], THE_LAST.as_slice())
}

/// `movz x0, #100`, `msr cntv_cval_el0, x0`, `movz x0, #3`, `msr cntv_ctl_el0, x0`, `movz x0, #1`, `msr cntv_ctl_el0, x0` and
/// `msr cntv_ctl_el0, xzr`
const MASKED_FIRST: [u32; 8] = [
    0xd280_0c80,
    0xd51b_e340,
    0xd280_0060,
    0xd51b_e320,
    0xd280_0020,
    0xd51b_e320,
    0xd51b_e33f,
    0x1400_0000,
];

#[rattlefmt::skip]
static UNMASKED: [Row; 9] = [
    // shows                                              core call
    ("the timer is set and masked",                       0,   Run(8)),
    ("no line while it is masked",                        0,   Step(200, Ran)),
    ("nor at the step that takes the mask off",           0,   Step(201, Ran)),
    ("the line once the mask is off",                     0,   Step(202, Irq)),
    ("it is taken",                                       0,   Ack(Some(27))),
    ("the timer is turned off",                           0,   Step(203, Ran)),
    ("no line while it is off",                           0,   Step(204, Ran)),
    ("nor later",                                         0,   Step(205, Ran)),
    ("none to take",                                      0,   Ack(None)),
];

#[test]
fn the_mask_of_the_timer(rt: HostRuntime) -> Result<(), Fail> {
    check(&rt, rt.alloc(), &MASKED_FIRST, &[], UNMASKED.as_slice())
}

#[rattlefmt::skip]
static IN_THE_TABLE: [Row; 6] = [
    // shows                                              core call
    ("the timer is set",                                  0,   Run(8)),
    ("nothing is pending before its count",               0,   Turn(99, Ran)),
    ("in the table either",                               0,   Has(27, 0, 0)),
    ("the step at its count is taken",                    0,   Turn(100, Ran)),
    ("it is at the next instruction",                     0,   Shows(Pc, 0x10_0020)),
    ("and the id is pending in the same step",            0,   Has(27, 0, PENDING)),
];

#[test]
fn the_line_is_pending_in_the_same_step(rt: HostRuntime) -> Result<(), Fail> {
    check(&rt, rt.alloc(), &AT_100, &[], IN_THE_TABLE.as_slice())
}

/// `adr x2, 0x100000`, `msr vbar_el1, x2`, `movz x0, #100`, `msr cntv_cval_el0, x0`, `movz x0, #1`, `msr cntv_ctl_el0, x0` and
/// `msr daifclr, #2`; then `add x3, x3, #1` for ever.
const COUNTING: [u32; 9] = [
    0x10ff_ff82,
    0xd518_c002,
    0xd280_0c80,
    0xd51b_e340,
    0xd280_0020,
    0xd51b_e320,
    0xd503_42ff,
    0x9100_0463,
    0x17ff_ffff,
];

/// `mrs x1, icc_iar1_el1`, `movz x0, #3`, `msr cntv_ctl_el0, x0`, `msr icc_eoir1_el1, x1` and `eret`
const HANDLER: [u32; 5] = [
    0xd538_cc01,
    0xd280_0060,
    0xd51b_e320,
    0xd518_cc21,
    0xd69f_03e0,
];

#[rattlefmt::skip]
static HANDLED: [Row; 25] = [
    // shows                                              core call
    ("the distributor is on",                             0,   On(true)),
    ("the timer's id is enabled",                         0,   Put(27, 0x20, ENABLED)),
    ("the guest is set up",                               0,   Run(11)),
    ("it counts",                                         0,   Turn(0, Ran)),
    ("and goes round",                                    0,   Turn(98, Ran)),
    ("and counts",                                        0,   Turn(99, Ran)),
    ("the interrupt comes in the place of a branch",      0,   Turn(100, Ran)),
    ("at the vector",                                     0,   Shows(Pc, 0x10_0280)),
    ("it returns to the branch",                          0,   Shows(Elr, 0x10_0030)),
    ("with interrupts open",                              0,   Shows(Spsr, 0x345)),
    ("and runs with all of them masked",                  0,   Shows(Pstate, 0x3c5)),
    ("it is pending in a register",                       0,   Holds(&[(27, 0x20, PENDING), FREE, FREE, FREE])),
    ("it is acknowledged",                                0,   Turn(100, Ran)),
    ("by its id",                                         0,   Shows(X(1), 27)),
    ("it is active in the register",                      0,   Holds(&[(27, 0x20, ACTIVE), FREE, FREE, FREE])),
    ("and isn't in the table",                            0,   Has(27, 0x20, ENABLED)),
    ("the handler",                                       0,   Turn(100, Ran)),
    ("masks the timer",                                   0,   Turn(100, Ran)),
    ("ends it in the register",                           0,   Turn(101, Ran)),
    ("which is free",                                     0,   Holds(&[FREE, FREE, FREE, FREE])),
    ("and returns",                                       0,   Turn(102, Ran)),
    ("to the branch",                                     0,   Shows(Pc, 0x10_0030)),
    ("with interrupts open",                              0,   Shows(Pstate, 0x345)),
    ("the guest goes round",                              0,   Turn(103, Ran)),
    ("and has counted to 2",                              0,   Shows(X(3), 2)),
];

#[test]
fn a_guest_takes_the_timers_interrupt(rt: HostRuntime) -> Result<(), Fail> {
    check(&rt, rt.alloc(), &COUNTING, &HANDLER, HANDLED.as_slice())
}

#[rattlefmt::skip]
static GIVEN_BACK: [Row; 6] = [
    // shows                                              core call
    ("the distributor is on",                             0,   On(true)),
    ("the timer's id is enabled",                         0,   Put(27, 0x20, ENABLED)),
    ("the guest is set up",                               0,   Run(11)),
    ("the interrupt comes",                               0,   Turn(100, Ran)),
    ("its register is given back",                        0,   Back),
    ("it is pending in the table",                        0,   Has(27, 0x20, ENABLED + PENDING)),
];

#[test]
fn a_register_given_back(rt: HostRuntime) -> Result<(), Fail> {
    check(&rt, rt.alloc(), &COUNTING, &HANDLER, GIVEN_BACK.as_slice())
}
