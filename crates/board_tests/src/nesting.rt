//! Interrupts on top of others. The expected values were worked out by hand, from the rule that only a lesser priority number
//! comes on top of what runs, and that an end drops the least of those that run.

use crate::drive::Call::{Back, Has, Holds, On, Pend, Put, Run, Set, Shows, Turn};
use crate::drive::Seen::{Elr, Pc, Pstate, Spsr, X};
use crate::drive::{ACTIVE, ENABLED, FREE, Row};
use crate::trial::check;
use board::Exit::{End, Ran};
use std::test::Fail;

/// `mrs` of icc_iar1_el1 to X1 to X5 and of icc_rpr_el1 to X7, `msr` of icc_eoir1_el1 from X5 to X1, and `mrs x8, icc_rpr_el1`
const FIVE_DEEP: [u32; 12] = [
    0xd538_cc01,
    0xd538_cc02,
    0xd538_cc03,
    0xd538_cc04,
    0xd538_cc05,
    0xd538_cb67,
    0xd518_cc25,
    0xd518_cc24,
    0xd518_cc23,
    0xd518_cc22,
    0xd518_cc21,
    0xd538_cb68,
];

#[rattlefmt::skip]
static UNWOUND: [Row; 39] = [
    // shows                                              core call
    ("the distributor is on",                             0,   On(true)),
    ("five ids",                                          0,   Put(50, 0x28, ENABLED)),
    ("each more urgent",                                  0,   Put(51, 0x20, ENABLED)),
    ("than the one",                                      0,   Put(52, 0x18, ENABLED)),
    ("before",                                            0,   Put(53, 0x10, ENABLED)),
    ("it",                                                0,   Put(54, 0x08, ENABLED)),
    ("the guest opens its interface",                     0,   Run(4)),
    ("the first becomes pending",                         0,   Pend(50)),
    ("and is acknowledged",                               0,   Turn(0, Ran)),
    ("the second comes on top",                           0,   Pend(51)),
    ("and is acknowledged",                               0,   Turn(0, Ran)),
    ("the third comes on top",                            0,   Pend(52)),
    ("and is acknowledged",                               0,   Turn(0, Ran)),
    ("the fourth comes on top",                           0,   Pend(53)),
    ("and is acknowledged",                               0,   Turn(0, Ran)),
    ("the fifth comes on top",                            0,   Pend(54)),
    ("and is acknowledged",                               0,   Turn(0, Ran)),
    ("the running priority is read",                      0,   Turn(0, Ran)),
    ("it is the fifth's",                                 0,   Shows(X(7), 0x08)),
    ("the last one alone stands in a register",           0,   Holds(&[(54, 0x08, ACTIVE), FREE, FREE, FREE])),
    ("so its end is the core's",                          0,   Turn(0, Ran)),
    ("and each other's is EL2's",                         0,   Turn(0, End { id: 53 })),
    ("the third",                                         0,   Turn(0, End { id: 52 })),
    ("the second",                                        0,   Turn(0, End { id: 51 })),
    ("the first",                                         0,   Turn(0, End { id: 50 })),
    ("the running priority is read",                      0,   Turn(0, Ran)),
    ("none runs",                                         0,   Shows(X(8), 0xff)),
    ("they were taken",                                   0,   Shows(X(1), 50)),
    ("in the order",                                      0,   Shows(X(2), 51)),
    ("in which",                                          0,   Shows(X(3), 52)),
    ("they",                                              0,   Shows(X(4), 53)),
    ("came",                                              0,   Shows(X(5), 54)),
    ("what is left in registers",                         0,   Back),
    ("none is active",                                    0,   Has(50, 0x28, ENABLED)),
    ("the second",                                        0,   Has(51, 0x20, ENABLED)),
    ("the third",                                         0,   Has(52, 0x18, ENABLED)),
    ("the fourth",                                        0,   Has(53, 0x10, ENABLED)),
    ("the fifth",                                         0,   Has(54, 0x08, ENABLED)),
    ("none of another core",                              1,   Has(27, 0, 0)),
];

#[test]
fn each_end_of_an_id_in_no_register_is_el2s(rt: HostRuntime) -> Result<(), Fail> {
    check(&rt, rt.alloc(), &FIVE_DEEP, &[], UNWOUND.as_slice())
}

#[rattlefmt::skip]
static FOUR_LISTED: [Row; 34] = [
    // shows                                              core call
    ("the distributor is on",                             0,   On(true)),
    ("five ids",                                          0,   Put(50, 0x28, ENABLED)),
    ("each more urgent",                                  0,   Put(51, 0x20, ENABLED)),
    ("than the one",                                      0,   Put(52, 0x18, ENABLED)),
    ("before",                                            0,   Put(53, 0x10, ENABLED)),
    ("it",                                                0,   Put(54, 0x08, ENABLED)),
    ("the guest opens its interface",                     0,   Run(4)),
    ("the first becomes pending",                         0,   Pend(50)),
    ("and is acknowledged",                               0,   Turn(0, Ran)),
    ("the second comes on top",                           0,   Pend(51)),
    ("and is acknowledged",                               0,   Turn(0, Ran)),
    ("the third comes on top",                            0,   Pend(52)),
    ("and is acknowledged",                               0,   Turn(0, Ran)),
    ("the fourth comes on top",                           0,   Pend(53)),
    ("and is acknowledged",                               0,   Turn(0, Ran)),
    ("the fifth comes on top",                            0,   Pend(54)),
    ("and is acknowledged",                               0,   Turn(0, Ran)),
    ("the running priority is read",                      0,   Turn(0, Ran)),
    ("all of them go back to the table",                  0,   Back),
    ("where the first is active",                         0,   Has(50, 0x28, ENABLED + ACTIVE)),
    ("and moves",                                         0,   Put(50, 0x28, ENABLED)),
    ("as do the third",                                   0,   Put(52, 0x18, ENABLED)),
    ("the fourth",                                        0,   Put(53, 0x10, ENABLED)),
    ("and the fifth",                                     0,   Put(54, 0x08, ENABLED)),
    ("to the registers",                                  0,   Set(&[(53, 0x10, ACTIVE), (50, 0x28, ACTIVE), (54, 0x08, ACTIVE), (52, 0x18, ACTIVE)])),
    ("the end of the fifth is the core's",                0,   Turn(0, Ran)),
    ("that of the fourth",                                0,   Turn(0, Ran)),
    ("and of the third too",                              0,   Turn(0, Ran)),
    ("that of the second is EL2's",                       0,   Turn(0, End { id: 51 })),
    ("and so is that of the first, which went back",      0,   Turn(0, End { id: 50 })),
    ("the running priority is read",                      0,   Turn(0, Ran)),
    ("none runs",                                         0,   Shows(X(8), 0xff)),
    ("none is active",                                    0,   Has(50, 0x28, ENABLED)),
    ("in the table",                                      0,   Has(51, 0x20, ENABLED)),
];

#[test]
fn four_of_five_stand_in_registers(rt: HostRuntime) -> Result<(), Fail> {
    check(&rt, rt.alloc(), &FIVE_DEEP, &[], FOUR_LISTED.as_slice())
}

/// `adr x2, 0x100000`, `msr vbar_el1, x2` and `msr daifclr, #2`; then `nop` and `b .`
const OPENED: [u32; 5] = [
    0x10ff_ff82,
    0xd518_c002,
    0xd503_42ff,
    0xd503_201f,
    0x1400_0000,
];

/// `mrs x1, icc_iar1_el1`, `mrs x7, icc_rpr_el1`, `msr daifclr, #2`, `nop`, `nop`, `nop` and `b .`
const OPENS_AGAIN: [u32; 7] = [
    0xd538_cc01,
    0xd538_cb67,
    0xd503_42ff,
    0xd503_201f,
    0xd503_201f,
    0xd503_201f,
    0x1400_0000,
];

#[rattlefmt::skip]
static ON_TOP: [Row; 32] = [
    // shows                                              core call
    ("the distributor is on",                             0,   On(true)),
    ("an id",                                             0,   Put(40, 0x20, ENABLED)),
    ("one of the same priority",                          0,   Put(41, 0x20, ENABLED)),
    ("a less urgent one",                                 0,   Put(39, 0x28, ENABLED)),
    ("and a more urgent one",                             0,   Put(43, 0x10, ENABLED)),
    ("the guest is set up",                               0,   Run(7)),
    ("the first is pending",                              0,   Pend(40)),
    ("it is taken",                                       0,   Turn(0, Ran)),
    ("at the vector",                                     0,   Shows(Pc, 0x10_0280)),
    ("from the guest",                                    0,   Shows(Elr, 0x10_001c)),
    ("the handler acknowledges it",                       0,   Turn(0, Ran)),
    ("reads what runs",                                   0,   Turn(0, Ran)),
    ("and opens interrupts",                              0,   Turn(0, Ran)),
    ("its priority runs",                                 0,   Shows(X(7), 0x20)),
    ("one of the same priority is pending",               0,   Pend(41)),
    ("it waits",                                          0,   Turn(0, Ran)),
    ("for the end of the first",                          0,   Shows(Pc, 0x10_0290)),
    ("a less urgent one is pending",                      0,   Pend(39)),
    ("it waits too",                                      0,   Turn(0, Ran)),
    ("the handler goes on",                               0,   Shows(Pc, 0x10_0294)),
    ("a more urgent one is pending",                      0,   Pend(43)),
    ("it is taken",                                       0,   Turn(0, Ran)),
    ("at the vector",                                     0,   Shows(Pc, 0x10_0280)),
    ("from the handler",                                  0,   Shows(Elr, 0x10_0294)),
    ("which had interrupts open",                         0,   Shows(Spsr, 0x345)),
    ("and they are masked",                               0,   Shows(Pstate, 0x3c5)),
    ("it is acknowledged",                                0,   Turn(0, Ran)),
    ("by its id",                                         0,   Shows(X(1), 43)),
    ("what runs is read",                                 0,   Turn(0, Ran)),
    ("it is its priority",                                0,   Shows(X(7), 0x10)),
    ("interrupts are opened, and no other comes",         0,   Run(2)),
    ("the handler goes on",                               0,   Shows(Pc, 0x10_0290)),
];

#[test]
fn a_more_urgent_one_comes_on_top(rt: HostRuntime) -> Result<(), Fail> {
    check(&rt, rt.alloc(), &OPENED, &OPENS_AGAIN, ON_TOP.as_slice())
}
