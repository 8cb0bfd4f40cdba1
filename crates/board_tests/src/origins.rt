//! Interrupts that come from each mode, with interrupts masked and open, at the same step as what else could happen there.
//! The expected values were worked out by hand.

use crate::drive::Call::{Ack, Run, Set, Shows, Step};
use crate::drive::Seen::{Elr, Esr, Far, Pc, Pstate, Spsr};
use crate::drive::{Call, FREE, PENDING, Row};
use crate::trial::{first_unmet, image_of};
use board::Exit;
use board::Exit::Ran;
use std::alloc::Global;
use std::process::Abort;
use std::test::Fail;

/// Where an interrupt comes from: `movz x0` of the saved state with interrupts open, the same with them masked, the state with
/// interrupts open, and the vectors of exceptions and of interrupts.
type Origin = (&'static str, u32, u32, u64, u64, u64);

#[rattlefmt::skip]
static ORIGINS: [Origin; 3] = [
    // shows                open         masked       state  exceptions interrupts
    ("EL0",                 0xd280_2800, 0xd280_3800, 0x140, 0x10_0c00, 0x10_0c80),
    ("EL1 with SP_EL0",     0xd280_2880, 0xd280_3880, 0x144, 0x10_0800, 0x10_0880),
    ("EL1 with its own SP", 0xd280_28a0, 0xd280_38a0, 0x145, 0x10_0a00, 0x10_0a80),
];

/// What PSTATE.I and all masks add to a state.
const MASK: u64 = 0x80;

/// All masks, at EL1 with its own SP.
const ALL_MASKED: u64 = 0x3c5;

/// What would happen without an interrupt: the word that sets the address in X1, that address, the word there, how the step
/// ends, and its syndrome and fault address at EL1, or else the address at which the core goes on.
type Happening = (&'static str, u32, u64, u32, Exit, [u64; 3]);

#[rattlefmt::skip]
static HAPPENINGS: [Happening; 5] = [
    // shows              address to X1  address     word         exit                                              ESR          FAR        PC
    ("an instruction",    0x1000_0081,   0x10_0030,  0xd503_201f, Ran,                                              [0,           0,         0x10_0034]),
    ("an undefined word", 0x1000_0081,   0x10_0030,  0x0000_0000, Ran,                                              [0x0200_0000, 0,         0]),
    ("a misaligned PC",   0x5000_0081,   0x10_0032,  0xd503_201f, Ran,                                              [0x8a00_0000, 0x10_0032, 0]),
    ("a refused fetch",   0xd2a0_0401,   0x20_0000,  0xd503_201f, Exit::Sync { esr: 0x8200_0004, far: 0x20_0000 },  [0,           0,         0x20_0000]),
    ("a call of EL1",     0x1000_0081,   0x10_0030,  0xd400_0001, Ran,                                              [0x5600_0000, 0,         0]),
];

/// A guest that sets its vectors to 0x100800 and returns to an address in a state, where this word is.
fn guest(alloc: Global, state: u32, happening: &Happening) -> Result<Vec<u8>, Fail> {
    let (_, address, _, word, _, _) = *happening;
    let words = [
        // adr x2, 0x100800; msr vbar_el1, x2; the state; msr spsr_el1, x0
        0x1000_3f82,
        0xd518_c002,
        state,
        0xd518_4000,
        // the address; msr elr_el1, x1; eret; nop
        address,
        0xd518_4021,
        0xd69f_03e0,
        0xd503_201f,
        word,
    ];
    image_of(alloc, &words, &[])
}

/// The interrupt that is pending once the guest has returned.
const WAITING: Call = Set(&[(40, 0x20, PENDING), FREE, FREE, FREE]);

fn check_open(
    rt: &impl Abort,
    alloc: Global,
    origin: &Origin,
    happening: &Happening,
) -> Result<(), Fail> {
    let (from, open, _, state, _, interrupts) = *origin;
    let (shows, _, address, _, _, _) = *happening;
    let rows: [Row; 9] = [
        ("the guest is set up", 0, Run(11)),
        ("an interrupt is pending", 0, WAITING),
        ("it is taken", 0, Step(0, Ran)),
        ("at the vector", 0, Shows(Pc, interrupts)),
        ("it returns to where the core was", 0, Shows(Elr, address)),
        ("in its state", 0, Shows(Spsr, state)),
        ("all is masked", 0, Shows(Pstate, ALL_MASKED)),
        ("it has no syndrome", 0, Shows(Esr, 0)),
        ("nor a fault address", 0, Shows(Far, 0)),
    ];
    let image = guest(alloc, open, happening)?;
    let first = first_unmet(alloc, &image, rows.as_slice())?;
    assert_eq!(rt; first, None, "{shows} from {from}");
    Ok(())
}

fn check_masked(
    rt: &impl Abort,
    alloc: Global,
    origin: &Origin,
    happening: &Happening,
) -> Result<(), Fail> {
    let (from, _, masked, state, exceptions, _) = *origin;
    let (shows, _, _, _, exit, [esr, far, on]) = *happening;
    let (pc, after) = if on == 0 {
        (exceptions, ALL_MASKED)
    } else {
        (on, state | MASK)
    };
    let rows: [Row; 8] = [
        ("the guest is set up", 0, Run(11)),
        ("an interrupt is pending", 0, WAITING),
        ("it isn't taken", 0, Step(0, exit)),
        ("the core goes on", 0, Shows(Pc, pc)),
        ("in its state", 0, Shows(Pstate, after)),
        ("with this syndrome", 0, Shows(Esr, esr)),
        ("and fault address", 0, Shows(Far, far)),
        ("no line is raised", 0, Ack(None)),
    ];
    let image = guest(alloc, masked, happening)?;
    let first = first_unmet(alloc, &image, rows.as_slice())?;
    assert_eq!(rt; first, None, "{shows} from {from}, masked");
    Ok(())
}

#[test]
fn an_interrupt_comes_before_all_else(rt: HostRuntime) -> Result<(), Fail> {
    for origin in ORIGINS.as_slice() {
        for happening in HAPPENINGS.as_slice() {
            check_open(&rt, rt.alloc(), origin, happening)?;
        }
    }
    Ok(())
}

#[test]
fn a_masked_interrupt_waits(rt: HostRuntime) -> Result<(), Fail> {
    for origin in ORIGINS.as_slice() {
        for happening in HAPPENINGS.as_slice() {
            check_masked(&rt, rt.alloc(), origin, happening)?;
        }
    }
    Ok(())
}
