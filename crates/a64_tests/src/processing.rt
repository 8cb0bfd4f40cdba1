use crate::cases::{
    ADDED, ADDITIONS, CONDITIONS, LOGIC, MOVES, OLD, PRODUCTS, REVERSALS, Row, SPECIAL, STACK,
};
use a64_alu::{alu, holds, is_alu, low_x};
use a64_decode::{Condition, Reg, decode};
use a64_state::{Core, pstate};
use std::process::Abort;

/// The instruction does what the row says to x0, SP and the flags, and nothing else.
fn agrees(rt: &impl Abort, row: &Row) {
    let (word, x1, x2, flags, x0, sp, flags_after) = *row;
    assert!(rt; flags < 16 && flags_after < 16, "{word:08X}");
    let mut core = Core::reset(0);
    core.write_x(0, OLD);
    core.write_x(1, x1);
    core.write_x(2, x2);
    core.write_x(3, ADDED);
    core.write_sp(STACK);
    core.set_flags(flags);
    let mut expected = core;
    expected.write_x(0, x0);
    expected.write_sp(sp);
    expected.set_flags(flags_after);
    does(rt, word, &mut core, &expected);
}

/// The word is an instruction of data processing, which makes the expected core of this one.
fn does(rt: &impl Abort, word: u32, core: &mut Core, expected: &Core) {
    let instr = decode(word);
    assert!(rt; is_alu(&instr), "{word:08X}");
    alu(core, &instr);
    assert_eq!(rt; *core, *expected, "{word:08X}");
}

fn rows_agree(rt: &impl Abort, rows: &[Row]) {
    for row in rows {
        agrees(rt, row);
    }
}

#[test]
fn additions(rt: HostRuntime) {
    rows_agree(&rt, ADDITIONS.as_slice());
}

#[test]
fn logic(rt: HostRuntime) {
    rows_agree(&rt, LOGIC.as_slice());
}

#[test]
fn moves(rt: HostRuntime) {
    rows_agree(&rt, MOVES.as_slice());
}

#[test]
fn conditions(rt: HostRuntime) {
    rows_agree(&rt, CONDITIONS.as_slice());
}

#[test]
fn products_and_quotients(rt: HostRuntime) {
    rows_agree(&rt, PRODUCTS.as_slice());
}

#[test]
fn shifts_and_reversals(rt: HostRuntime) {
    rows_agree(&rt, REVERSALS.as_slice());
}

#[test]
fn register_31(rt: HostRuntime) {
    rows_agree(&rt, SPECIAL.as_slice());
}

/// What it shows, a condition, and a number whose bit n says whether the condition holds with n as the flags N, Z, C and V.
type Holding = (&'static str, Condition, u32);

#[rattlefmt::skip]
static HOLDING: [Holding; 16] = [
    // shows                       condition      holds
    ("EQ: Z",                      Condition::Eq, 0xF0F0),
    ("NE: not Z",                  Condition::Ne, 0x0F0F),
    ("CS: C",                      Condition::Cs, 0xCCCC),
    ("CC: not C",                  Condition::Cc, 0x3333),
    ("MI: N",                      Condition::Mi, 0xFF00),
    ("PL: not N",                  Condition::Pl, 0x00FF),
    ("VS: V",                      Condition::Vs, 0xAAAA),
    ("VC: not V",                  Condition::Vc, 0x5555),
    ("HI: C and not Z",            Condition::Hi, 0x0C0C),
    ("LS: not C, or Z",            Condition::Ls, 0xF3F3),
    ("GE: N equals V",             Condition::Ge, 0xAA55),
    ("LT: N differs from V",       Condition::Lt, 0x55AA),
    ("GT: not Z, N equals V",      Condition::Gt, 0x0A05),
    ("LE: Z, or N differs from V", Condition::Le, 0xF5FA),
    ("AL: always",                 Condition::Al, 0xFFFF),
    ("NV: always too",             Condition::Nv, 0xFFFF),
];

/// All other bits of PSTATE are tried as 0 and as 1.
#[test]
fn conditions_of_flags(rt: HostRuntime) {
    for row in HOLDING.as_slice() {
        for flags in 0..16u32 {
            check_condition(&rt, row, flags);
        }
    }
}

fn check_condition(rt: &impl Abort, row: &Holding, flags: u32) {
    let (shows, condition, expected) = *row;
    assert!(rt; flags < 16);
    let high = flags * pstate::V;
    let then = expected >> flags & 1 == 1;
    let seen = (
        holds(condition, high),
        holds(condition, high + (pstate::V - 1)),
    );
    assert_eq!(rt; seen, (then, then), "{shows} at {flags}");
}

/// What it shows, a word, PC, and x1 after it. Worked out by hand from the manual's pseudocode.
type AddressRow = (&'static str, u32, u64, u64);

#[rattlefmt::skip]
static ADDRESSES: [AddressRow; 8] = [
    // shows                             word         PC                     x1
    ("adr x1, #5",                      0x3000_0021, 0x1000,                0x1005),
    ("adr x1, #-1",                     0x70FF_FFE1, 0x1000,                0xFFF),
    ("adr x1, #-1 at 0",                0x70FF_FFE1, 0,                     u64::MAX),
    ("adr x1, #1048575",                0x707F_FFE1, 0xFFFF_FFFF_FFFF_FFFC, 0xF_FFFB),
    ("adrp x1, #0x7000",                0xF000_0021, 0x1FFC,                0x8000),
    ("adrp x1, #-0x1000",               0xF0FF_FFE1, 0x1FFC,                0),
    ("adrp x1, #-0x1000 in page 0",     0xF0FF_FFE1, 0x10,                  0xFFFF_FFFF_FFFF_F000),
    ("adrp x1, #-0x100000000",          0x9080_0001, 0x1_0000_0FFC,         0),
];

#[test]
fn addresses(rt: HostRuntime) {
    for row in ADDRESSES.as_slice() {
        check_address(&rt, row);
    }
}

fn check_address(rt: &impl Abort, row: &AddressRow) {
    let (_, word, pc, x1) = *row;
    let mut core = Core::reset(0);
    core.pc = pc;
    let mut expected = core;
    expected.write_x(1, x1);
    does(rt, word, &mut core, &expected);
}

/// What it shows, a word, x0 and x1, and the register that it writes, its value and PSTATE after it. Worked out by hand
/// from the manual's pseudocode.
type PstateRow = (&'static str, u32, u64, u64, u8, u64, u32);

#[rattlefmt::skip]
static WHOLE_PSTATE: [PstateRow; 4] = [
    // shows                             word         x0       x1        Rd  result   PSTATE
    ("and x4, x0, #0x3f8",              0x927D_2004, 0x12345, 0,        4,  0x340,   0x3C5),
    ("the least number by -1",          0x9AC1_0C02, 1 << 63, u64::MAX, 2,  1 << 63, 0x3C5),
    ("a divisor of 0",                  0x9AC1_0C02, 1 << 63, 0,        2,  0,       0x3C5),
    ("adds x0, x0, x1",                 0xAB01_0000, 1 << 63, 1 << 63,  0,  0,       0x7000_03C5),
];

#[test]
fn whole_pstate(rt: HostRuntime) {
    for row in WHOLE_PSTATE.as_slice() {
        check_pstate(&rt, row);
    }
}

fn check_pstate(rt: &impl Abort, row: &PstateRow) {
    let (shows, word, x0, x1, rd, result, after) = *row;
    let mut core = Core::reset(0);
    core.write_x(0, x0);
    core.write_x(1, x1);
    let instr = decode(word);
    assert!(rt; is_alu(&instr), "{shows}");
    assert!(rt; rd <= 31, "{shows}");
    alu(&mut core, &instr);
    assert_eq!(rt; (core.read_x(rd), core.pstate), (result, after), "{shows}");
}

#[rattlefmt::skip]
static OTHER_ROWS: [(&str, u32); 10] = [
    // shows                word
    ("b #0",               0x1400_0000),
    ("cbz x0, #0",         0xB400_0000),
    ("svc #0",             0xD400_0001),
    ("nop",                0xD503_201F),
    ("mrs x0, sctlr_el1",  0xD538_1000),
    ("ldr x0, [x1]",       0xF940_0020),
    ("ldp x0, x1, [x2]",   0xA940_0440),
    ("ldr x0, #0",         0x5800_0000),
    ("eret",               0xD69F_03E0),
    ("no instruction",     0),
];

#[test]
fn other_rows(rt: HostRuntime) {
    for row in OTHER_ROWS.as_slice() {
        check_other(&rt, row);
    }
}

fn check_other(rt: &impl Abort, row: &(&'static str, u32)) {
    let (shows, word) = *row;
    assert!(rt; !is_alu(&decode(word)), "{shows}");
}

#[test]
fn lowest_bits(rt: HostRuntime) {
    let mut core = Core::reset(0);
    core.write_x(1, OLD);
    let seen = [
        low_x(&core, 64, Reg(1)),
        low_x(&core, 32, Reg(1)),
        low_x(&core, 8, Reg(31)),
    ];
    assert_eq!(rt; seen, [OLD, 0x7654_3210, 0]);
}
