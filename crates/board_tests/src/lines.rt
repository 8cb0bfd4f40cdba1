//! Lines of ports: which inputs raise them, and which cores see them. The expected values were worked out by hand, from what
//! docs/machine.md says of ports.

use crate::drive::Call::{Ack, Has, Holds, Input, On, Put, Run, Shows, Step, Turn};
use crate::drive::Seen::Pc;
use crate::drive::{ENABLED, FREE, PENDING, Row};
use crate::trial::check;
use board::Exit::{Irq, Ran};
use std::test::Fail;

/// `movz x0, #0x9c09, lsl #16` and `movz w1, #1`; a store of that to the controls of the VM's console, of another VM's and of
/// that of no VM; `movz w1, #2` and a store of that to the ticker's period; `b .`
const CONTROLS: [u32; 8] = [
    0xd2b3_8120,
    0x5280_0021,
    0xb900_0801,
    0xb900_8801,
    0xb900_c801,
    0x5280_0041,
    0xb900_4401,
    0x1400_0000,
];

#[rattlefmt::skip]
static CONSOLES: [Row; 22] = [
    // shows                                              core call
    ("a byte for a console that isn't to tell of it",     0,   Input(0, 65)),
    ("raises no line",                                    0,   Step(0, Ran)),
    ("to take",                                           0,   Ack(None)),
    ("the consoles are to tell, and the ticker counts",   0,   Run(10)),
    ("which raises no line",                              0,   Ack(None)),
    ("a byte for the console",                            0,   Input(0, 66)),
    ("raises its line",                                   0,   Step(0, Irq)),
    ("before an instruction",                             0,   Shows(Pc, 0x10_002c)),
    ("the VM's other core sees it",                       1,   Step(0, Irq)),
    ("another VM's doesn't",                              2,   Step(0, Ran)),
    ("nor takes it",                                      2,   Ack(None)),
    ("the other core takes it",                           1,   Ack(Some(32))),
    ("once for both",                                     0,   Ack(None)),
    ("two more bytes",                                    0,   Input(0, 67)),
    ("make one line",                                     0,   Input(0, 68)),
    ("of one number",                                     0,   Ack(Some(32))),
    ("taken once",                                        0,   Ack(None)),
    ("with nothing else for the core",                    0,   Step(0, Ran)),
    ("it has gone on",                                    0,   Shows(Pc, 0x10_002c)),
    ("the other core has begun",                          1,   Step(0, Ran)),
    ("since no line is left",                             1,   Shows(Pc, 0x10_0004)),
    ("anywhere",                                          1,   Ack(None)),
];

#[test]
fn a_consoles_line(rt: HostRuntime) -> Result<(), Fail> {
    check(&rt, rt.alloc(), &CONTROLS, &[], CONSOLES.as_slice())
}

#[rattlefmt::skip]
static TICKS: [Row; 14] = [
    // shows                                              core call
    ("an input before the ticker has a period",           0,   Input(12, 0)),
    ("raises no line",                                    0,   Step(0, Ran)),
    ("it is given a period of 2",                         0,   Run(10)),
    ("the second input",                                  0,   Input(12, 0)),
    ("raises its line",                                   0,   Step(0, Irq)),
    ("of its number",                                     0,   Ack(Some(33))),
    ("the third input",                                   0,   Input(12, 7)),
    ("raises none",                                       0,   Step(0, Ran)),
    ("the fourth",                                        0,   Input(12, 0)),
    ("and a byte of the console",                         0,   Input(0, 65)),
    ("raise two lines",                                   0,   Step(0, Irq)),
    ("the console's first",                               0,   Ack(Some(32))),
    ("then the ticker's",                                 0,   Ack(Some(33))),
    ("and no more",                                       0,   Step(0, Ran)),
];

#[test]
fn a_tickers_line(rt: HostRuntime) -> Result<(), Fail> {
    check(&rt, rt.alloc(), &CONTROLS, &[], TICKS.as_slice())
}

#[rattlefmt::skip]
static STRANGERS: [Row; 16] = [
    // shows                                              core call
    ("the consoles are to tell",                          0,   Run(11)),
    ("a byte for another VM's console",                   0,   Input(1, 65)),
    ("is nothing to a core of this one",                  0,   Step(0, Ran)),
    ("which has no line",                                 0,   Ack(None)),
    ("nor to its other core",                             1,   Step(0, Ran)),
    ("but to the other VM's",                             2,   Step(0, Irq)),
    ("a byte for the console of no VM",                   0,   Input(2, 65)),
    ("is nothing to it",                                  2,   Step(0, Irq)),
    ("it takes its own line",                             2,   Ack(Some(34))),
    ("and no other",                                      2,   Ack(None)),
    ("the first core",                                    0,   Step(0, Ran)),
    ("has no line",                                       0,   Ack(None)),
    ("the second",                                        1,   Step(0, Ran)),
    ("has none",                                          1,   Ack(None)),
    ("the other VM's core",                               2,   Step(0, Ran)),
    ("has none left",                                     2,   Ack(None)),
];

#[test]
fn lines_of_another_vm_and_of_none(rt: HostRuntime) -> Result<(), Fail> {
    check(&rt, rt.alloc(), &CONTROLS, &[], STRANGERS.as_slice())
}

#[rattlefmt::skip]
static FORWARDED: [Row; 13] = [
    // shows                                              core call
    ("the distributor is on",                             0,   On(true)),
    ("the console's id",                                  0,   Put(40, 0x20, ENABLED)),
    ("and the ticker's are enabled",                      0,   Put(41, 0x10, ENABLED)),
    ("the ports are to tell",                             0,   Run(11)),
    ("a byte for the console",                            0,   Input(0, 65)),
    ("and two",                                           0,   Input(12, 0)),
    ("for the ticker",                                    0,   Input(12, 0)),
    ("the next step of the VM's second core",             1,   Turn(0, Ran)),
    ("takes both lines to the first core's ids",          0,   Has(40, 0x20, ENABLED + PENDING)),
    ("since these are the VM's",                          0,   Has(41, 0x10, ENABLED + PENDING)),
    ("the second core's registers stay free",             1,   Holds(&[FREE, FREE, FREE, FREE])),
    ("the first core's next step",                        0,   Turn(0, Ran)),
    ("lists them, the more urgent one first",             0,   Holds(&[(41, 0x10, PENDING), (40, 0x20, PENDING), FREE, FREE])),
];

#[test]
fn lines_become_ids_of_the_vm(rt: HostRuntime) -> Result<(), Fail> {
    check(&rt, rt.alloc(), &CONTROLS, &[], FORWARDED.as_slice())
}
