//! The order in which a guest takes and ends interrupts, of which more are pending than there are registers. The expected
//! values were worked out by hand, from the rule that the least priority comes first, and the least id on a tie.

use crate::drive::Call::{Back, Has, Holds, On, Put, Run, Set, Shows, Start, Step, Turn};
use crate::drive::Seen::{Pc, X};
use crate::drive::{ACTIVE, ENABLED, FREE, PENDING, Row};
use crate::trial::check;
use board::Exit::{End, Ran};
use std::test::Fail;

/// An id that is both enabled and pending.
const READY: u8 = ENABLED + PENDING;

/// `mrs x1, icc_iar1_el1` and `msr icc_eoir1_el1, x1`; the same by X2 to X5; then `mrs x6, icc_iar1_el1` and
/// `mrs x7, icc_rpr_el1`
const ONE_BY_ONE: [u32; 12] = [
    0xd538_cc01,
    0xd518_cc21,
    0xd538_cc02,
    0xd518_cc22,
    0xd538_cc03,
    0xd518_cc23,
    0xd538_cc04,
    0xd518_cc24,
    0xd538_cc05,
    0xd518_cc25,
    0xd538_cc06,
    0xd538_cb67,
];

#[rattlefmt::skip]
static IN_ORDER: [Row; 35] = [
    // shows                                              core call
    ("the distributor is on",                             0,   On(true)),
    ("five ids, more than registers",                     0,   Put(40, 0x20, READY)),
    ("of the same priority",                              0,   Put(42, 0x20, READY)),
    ("as is the timer's",                                 0,   Put(27, 0x20, READY)),
    ("a more urgent one",                                 0,   Put(41, 0x10, READY)),
    ("the most urgent one",                               0,   Put(43, 0x08, READY)),
    ("the guest opens its interface",                     0,   Run(4)),
    ("the first is acknowledged",                         0,   Turn(0, Ran)),
    ("and ended",                                         0,   Turn(0, Ran)),
    ("the second",                                        0,   Turn(0, Ran)),
    ("and ended",                                         0,   Turn(0, Ran)),
    ("the third",                                         0,   Turn(0, Ran)),
    ("and ended",                                         0,   Turn(0, Ran)),
    ("the fourth",                                        0,   Turn(0, Ran)),
    ("whose end is EL2's: the fifth has the register",    0,   Turn(0, End { id: 40 })),
    ("the fifth, that had no register at first",          0,   Turn(0, Ran)),
    ("and ended",                                         0,   Turn(0, Ran)),
    ("a sixth read",                                      0,   Turn(0, Ran)),
    ("the running priority is read",                      0,   Turn(0, Ran)),
    ("the least priority",                                0,   Shows(X(1), 43)),
    ("the next",                                          0,   Shows(X(2), 41)),
    ("the least id on a tie",                             0,   Shows(X(3), 27)),
    ("the next",                                          0,   Shows(X(4), 40)),
    ("the last",                                          0,   Shows(X(5), 42)),
    ("none is left",                                      0,   Shows(X(6), 1023)),
    ("none runs",                                         0,   Shows(X(7), 0xff)),
    ("the guest has come to its end",                     0,   Shows(Pc, 0x10_0040)),
    ("what is left in registers",                         0,   Back),
    ("of each id",                                        0,   Has(27, 0x20, ENABLED)),
    ("is nothing",                                        0,   Has(40, 0x20, ENABLED)),
    ("so that",                                           0,   Has(41, 0x10, ENABLED)),
    ("all five are",                                      0,   Has(42, 0x20, ENABLED)),
    ("enabled alone",                                     0,   Has(43, 0x08, ENABLED)),
    ("and others",                                        0,   Has(44, 0, 0)),
    ("as they were",                                      1,   Has(27, 0, 0)),
];

#[test]
fn each_is_taken_and_ended(rt: HostRuntime) -> Result<(), Fail> {
    check(&rt, rt.alloc(), &ONE_BY_ONE, &[], IN_ORDER.as_slice())
}

#[rattlefmt::skip]
static NOT_SHOWN: [Row; 13] = [
    // shows                                              core call
    ("an id of a VM whose distributor is off",            0,   Put(40, 0x20, READY)),
    ("the guest opens its interface",                     0,   Run(4)),
    ("a read",                                            0,   Turn(0, Ran)),
    ("gives no id",                                       0,   Shows(X(1), 1023)),
    ("and its end is none",                               0,   Turn(0, Ran)),
    ("the distributor is on",                             0,   On(true)),
    ("an id that isn't enabled",                          0,   Put(40, 0x20, PENDING)),
    ("a read",                                            0,   Turn(0, Ran)),
    ("gives no id",                                       0,   Shows(X(2), 1023)),
    ("and its end is none",                               0,   Turn(0, Ran)),
    ("an id that is active already",                      0,   Put(40, 0x20, READY + ACTIVE)),
    ("a read",                                            0,   Turn(0, Ran)),
    ("gives no id",                                       0,   Shows(X(3), 1023)),
];

#[test]
fn what_no_register_shows(rt: HostRuntime) -> Result<(), Fail> {
    check(&rt, rt.alloc(), &ONE_BY_ONE, &[], NOT_SHOWN.as_slice())
}

/// `mrs xzr, icc_iar1_el1`, `mrs x7, icc_rpr_el1`, `mrs x9, icc_hppir1_el1`, `movz x0, #40` and `msr icc_eoir1_el1, x0`
const TO_XZR: [u32; 5] = [
    0xd538_cc1f,
    0xd538_cb67,
    0xd538_cc49,
    0xd280_0500,
    0xd518_cc20,
];

#[rattlefmt::skip]
static READ_TO_XZR: [Row; 10] = [
    // shows                                              core call
    ("the guest opens its interface",                     0,   Run(4)),
    ("two ids are pending",                               0,   Set(&[(40, 0x20, PENDING), (42, 0x20, PENDING), FREE, FREE])),
    ("the id is read to XZR",                             0,   Step(0, Ran)),
    ("it is active all the same",                         0,   Holds(&[(40, 0x20, ACTIVE), (42, 0x20, PENDING), FREE, FREE])),
    ("the running priority and the next id are read",     0,   Run(2)),
    ("its priority runs",                                 0,   Shows(X(7), 0x20)),
    ("the next comes only after it",                      0,   Shows(X(9), 1023)),
    ("it is ended",                                       0,   Run(2)),
    ("its register is free",                              0,   Holds(&[FREE, (42, 0x20, PENDING), FREE, FREE])),
    ("at the guest's end",                                0,   Shows(Pc, 0x10_0024)),
];

#[test]
fn a_read_to_xzr_takes_the_interrupt(rt: HostRuntime) -> Result<(), Fail> {
    check(&rt, rt.alloc(), &TO_XZR, &[], READ_TO_XZR.as_slice())
}

/// `mrs x1, icc_iar1_el1`; `movz x0, #96`, `msr icc_eoir1_el1, x0` and `mrs x8, icc_rpr_el1`; `movz x0, #41`,
/// `msr icc_eoir1_el1, x0` and `mrs x7, icc_rpr_el1`; `b .`
const ENDS: [u32; 8] = [
    0xd538_cc01,
    0xd280_0c00,
    0xd518_cc20,
    0xd538_cb68,
    0xd280_0520,
    0xd518_cc20,
    0xd538_cb67,
    0x1400_0000,
];

#[rattlefmt::skip]
static UNLISTED: [Row; 12] = [
    // shows                                              core call
    ("the guest opens its interface",                     0,   Run(4)),
    ("an id is pending",                                  0,   Set(&[(40, 0x20, PENDING), FREE, FREE, FREE])),
    ("it is taken",                                       0,   Run(2)),
    ("an id of no interrupt is ended",                    0,   Step(0, Ran)),
    ("what runs is read",                                 0,   Run(2)),
    ("it is what ran before",                             0,   Shows(X(8), 0x20)),
    ("an id that stands in no register is ended",         0,   Step(0, End { id: 41 })),
    ("the instruction is carried out",                    0,   Shows(Pc, 0x10_0028)),
    ("no register changes",                               0,   Holds(&[(40, 0x20, ACTIVE), FREE, FREE, FREE])),
    ("what runs is read",                                 0,   Step(0, Ran)),
    ("the running priority is dropped",                   0,   Shows(X(7), 0xff)),
    ("the id taken is the one that was pending",          0,   Shows(X(1), 40)),
];

#[test]
fn ends_of_ids_in_no_register(rt: HostRuntime) -> Result<(), Fail> {
    check(&rt, rt.alloc(), &ENDS, &[], UNLISTED.as_slice())
}

#[rattlefmt::skip]
static TURNED_ON: [Row; 15] = [
    // shows                                              core call
    ("the distributor is on",                             1,   On(true)),
    ("an id of core 1 is ready",                          1,   Put(5, 0x20, READY)),
    ("and a less urgent one",                             1,   Put(6, 0x28, READY)),
    ("it opens its interface",                            1,   Run(4)),
    ("a step takes the first",                            1,   Turn(0, Ran)),
    ("by its id",                                         1,   Shows(X(1), 5)),
    ("both stand in registers",                           1,   Holds(&[(5, 0x20, ACTIVE), (6, 0x28, PENDING), FREE, FREE])),
    ("the core is turned on again",                       1,   Start(0x10_0000)),
    ("its registers are free",                            1,   Holds(&[FREE, FREE, FREE, FREE])),
    ("the first id is active in the table",               1,   Has(5, 0x20, ENABLED + ACTIVE)),
    ("the other is pending there",                        1,   Has(6, 0x28, READY)),
    ("the first core doesn't have it",                    0,   Has(6, 0, 0)),
    ("the core begins anew",                              1,   Shows(X(1), 0)),
    ("at its next step",                                  1,   Turn(0, Ran)),
    ("the pending one is listed again",                   1,   Holds(&[(6, 0x28, PENDING), FREE, FREE, FREE])),
];

#[test]
fn a_core_that_is_turned_on_keeps_its_ids(rt: HostRuntime) -> Result<(), Fail> {
    check(&rt, rt.alloc(), &ONE_BY_ONE, &[], TURNED_ON.as_slice())
}
