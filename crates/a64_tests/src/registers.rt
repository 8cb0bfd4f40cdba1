use a64_state::{Core, Mode};
use a64_sysreg::{
    Moment, SysRead, SysWrite, acknowledges, may_read, read_sys, write_answer, write_sys,
};
use bao_types::SysId;
use std::process::Abort;

/// The count at each access, and the interrupt that the core may take.
const NOW: Moment = Moment {
    count: 150,
    signal: Some(41),
};

const ONES: u64 = 0xFFFF_FFFF_FFFF_FFFF;

const NO_READ: SysRead = SysRead::Undefined;

const NO_WRITE: SysWrite = SysWrite::Undefined;

const DONE: SysWrite = SysWrite::Done;

/// What a read gives, what a write of all ones then answers, and what the next read gives.
type Answers = (SysRead, SysWrite, SysRead);

/// No access.
const NONE: Answers = (NO_READ, NO_WRITE, NO_READ);

/// A name and a number, the answers at EL1, and those at EL0.
type Row = (&'static str, [u8; 5], Answers, Answers);

use SysRead::Value;

#[rattlefmt::skip]
static REGISTERS: [Row; 43] = [
    ("MIDR_EL1",         [3, 0,  0,  0, 0], (Value(0),           NO_WRITE, Value(0)),                     NONE),
    ("MPUIR_EL1",        [3, 0,  0,  0, 4], (Value(16),          NO_WRITE, Value(16)),                    NONE),
    ("MPIDR_EL1",        [3, 0,  0,  0, 5], (Value(0x8000_0003), NO_WRITE, Value(0x8000_0003)),           NONE),
    ("ID_PFR0_EL1",      [3, 0,  0,  1, 0], (Value(0),           NO_WRITE, Value(0)),                     NONE),
    ("ID_AA64PFR0_EL1",  [3, 0,  0,  4, 0], (Value(0),           NO_WRITE, Value(0)),                     NONE),
    ("the last of them", [3, 0,  0,  7, 7], (Value(0),           NO_WRITE, Value(0)),                     NONE),
    ("SCTLR_EL1",        [3, 0,  1,  0, 0], (Value(0),           DONE,     Value(ONES)),                  NONE),
    ("CPACR_EL1",        [3, 0,  1,  0, 2], (Value(0),           DONE,     Value(ONES)),                  NONE),
    ("SPSR_EL1",         [3, 0,  4,  0, 0], (Value(0),           DONE,     Value(0xFFFF_FFFF)),           NONE),
    ("ELR_EL1",          [3, 0,  4,  0, 1], (Value(0),           DONE,     Value(ONES)),                  NONE),
    ("SP_EL0",           [3, 0,  4,  1, 0], (Value(0x22),        DONE,     Value(ONES)),                  NONE),
    ("SPSel",            [3, 0,  4,  2, 0], (Value(1),           DONE,     Value(1)),                     NONE),
    ("CurrentEL",        [3, 0,  4,  2, 2], (Value(4),           NO_WRITE, Value(4)),                     NONE),
    ("ICC_PMR_EL1",      [3, 0,  4,  6, 0], (Value(0),           DONE,     Value(0xF8)),                  NONE),
    ("ESR_EL1",          [3, 0,  5,  2, 0], (Value(0),           DONE,     Value(ONES)),                  NONE),
    ("FAR_EL1",          [3, 0,  6,  0, 0], (Value(0),           DONE,     Value(ONES)),                  NONE),
    ("PRSELR_EL1",       [3, 0,  6,  2, 1], (Value(0),           DONE,     Value(0xF)),                   NONE),
    ("PRBAR_EL1",        [3, 0,  6,  8, 0], (Value(0),           DONE,     Value(0xFFFF_FFFF_FFFE)),      NONE),
    ("PRLAR_EL1",        [3, 0,  6,  8, 1], (Value(0),           DONE,     Value(0xFFFF_FFFF_FFDF)),      NONE),
    ("MAIR_EL1",         [3, 0, 10,  2, 0], (Value(0),           DONE,     Value(ONES)),                  NONE),
    ("VBAR_EL1",         [3, 0, 12,  0, 0], (Value(0),           DONE,     Value(0xFFFF_FFFF_FFFF_F800)), NONE),
    ("ICC_RPR_EL1",      [3, 0, 12, 11, 3], (Value(0x18),        NO_WRITE, Value(0x18)),                  NONE),
    ("ICC_SGI1R_EL1",    [3, 0, 12, 11, 5], (NO_READ, SysWrite::TrapEl2,   NO_READ),                      NONE),
    ("ICC_IAR1_EL1",     [3, 0, 12, 12, 0], (Value(41),          NO_WRITE, Value(41)),                    NONE),
    ("ICC_EOIR1_EL1",    [3, 0, 12, 12, 1], (NO_READ,            DONE,     NO_READ),                      NONE),
    ("ICC_HPPIR1_EL1",   [3, 0, 12, 12, 2], (Value(41),          NO_WRITE, Value(41)),                    NONE),
    ("ICC_BPR1_EL1",     [3, 0, 12, 12, 3], (Value(0),           DONE,     Value(0)),                     NONE),
    ("ICC_CTLR_EL1",     [3, 0, 12, 12, 4], (Value(0),           DONE,     Value(0)),                     NONE),
    ("ICC_SRE_EL1",      [3, 0, 12, 12, 5], (Value(7),           DONE,     Value(7)),                     NONE),
    ("ICC_IGRPEN1_EL1",  [3, 0, 12, 12, 7], (Value(0),           DONE,     Value(1)),                     NONE),
    ("CONTEXTIDR_EL1",   [3, 0, 13,  0, 1], (Value(0),           DONE,     Value(ONES)),                  NONE),
    ("TPIDR_EL1",        [3, 0, 13,  0, 4], (Value(0),           DONE,     Value(ONES)),                  NONE),
    ("CNTKCTL_EL1",      [3, 0, 14,  1, 0], (Value(0),           DONE,     Value(ONES)),                  NONE),
    ("CTR_EL0",          [3, 3,  0,  0, 1], (Value(0),           NO_WRITE, Value(0)),                     (Value(0),           NO_WRITE, Value(0))),
    ("NZCV",             [3, 3,  4,  2, 0], (Value(0xA000_0000), DONE,     Value(0xF000_0000)),           (Value(0xA000_0000), DONE,     Value(0xF000_0000))),
    ("DAIF",             [3, 3,  4,  2, 1], (Value(0x140),       DONE,     Value(0x3C0)),                 NONE),
    ("TPIDR_EL0",        [3, 3, 13,  0, 2], (Value(0),           DONE,     Value(ONES)),                  (Value(0),           DONE,     Value(ONES))),
    ("TPIDRRO_EL0",      [3, 3, 13,  0, 3], (Value(0),           DONE,     Value(ONES)),                  (Value(0),           NO_WRITE, Value(0))),
    ("CNTFRQ_EL0",       [3, 3, 14,  0, 0], (Value(100_000_000), NO_WRITE, Value(100_000_000)),           (Value(100_000_000), NO_WRITE, Value(100_000_000))),
    ("CNTVCT_EL0",       [3, 3, 14,  0, 2], (Value(150),         NO_WRITE, Value(150)),                   (Value(150),         NO_WRITE, Value(150))),
    ("CNTV_TVAL_EL0",    [3, 3, 14,  3, 0], (Value(0xFFFF_FF6A), DONE,     Value(0xFFFF_FFFF)),           NONE),
    ("CNTV_CTL_EL0",     [3, 3, 14,  3, 1], (Value(0),           DONE,     Value(7)),                     NONE),
    ("CNTV_CVAL_EL0",    [3, 3, 14,  3, 2], (Value(0),           DONE,     Value(ONES)),                  NONE),
];

#[test]
fn registers_at_both_levels(rt: HostRuntime) {
    for (shows, number, el1, el0) in REGISTERS.as_slice() {
        check_answers(&rt, shows, Mode::El1h, *number, *el1);
        check_answers(&rt, shows, Mode::El0t, *number, *el0);
    }
}

/// What differs at EL1 with SP_EL0.
#[rattlefmt::skip]
static WITH_SP_EL0: [(&str, [u8; 5], Answers); 4] = [
    ("SP_EL0 while it is selected",  [3, 0,  4, 1, 0], NONE),
    ("SPSel",                        [3, 0,  4, 2, 0], (Value(0),    DONE,     Value(1))),
    ("CurrentEL",                    [3, 0,  4, 2, 2], (Value(4),    NO_WRITE, Value(4))),
    ("SCTLR_EL1",                    [3, 0,  1, 0, 0], (Value(0),    DONE,     Value(ONES))),
];

#[test]
fn registers_with_sp_el0(rt: HostRuntime) {
    for (shows, number, el1) in WITH_SP_EL0.as_slice() {
        check_answers(&rt, shows, Mode::El1t, *number, *el1);
    }
}

#[rattlefmt::skip]
static UNLISTED: [(&str, [u8; 5]); 17] = [
    ("REVIDR_EL1",                  [3, 0,  0,  0, 6]),
    ("CRm 8 of identification",     [3, 0,  0,  8, 0]),
    ("ACTLR_EL1",                   [3, 0,  1,  0, 1]),
    ("TTBR0_EL1",                   [3, 0,  2,  0, 0]),
    ("PRENR_EL1",                   [3, 0,  6,  1, 1]),
    ("PRBAR1_EL1",                  [3, 0,  6,  8, 4]),
    ("ISR_EL1",                     [3, 0, 12,  1, 0]),
    ("ICC_DIR_EL1",                 [3, 0, 12, 11, 1]),
    ("ICC_ASGI1R_EL1",              [3, 0, 12, 11, 6]),
    ("ICC_IGRPEN0_EL1",             [3, 0, 12, 12, 6]),
    ("DCZID_EL0",                   [3, 3,  0,  0, 7]),
    ("FPCR",                        [3, 3,  4,  4, 0]),
    ("CNTP_CTL_EL0",                [3, 3, 14,  2, 1]),
    ("SCTLR_EL2",                   [3, 4,  1,  0, 0]),
    ("SCTLR_EL12",                  [3, 5,  1,  0, 0]),
    ("MDSCR_EL1",                   [2, 0,  0,  2, 2]),
    ("SCTLR_EL1's with op0 2",      [2, 0,  1,  0, 0]),
];

#[test]
fn unlisted_numbers(rt: HostRuntime) {
    for (shows, number) in UNLISTED.as_slice() {
        check_answers(&rt, shows, Mode::El1h, *number, NONE);
        check_answers(&rt, shows, Mode::El0t, *number, NONE);
    }
}

/// A core in a mode, with flags, masks and stack pointers.
fn core_in(mode: Mode) -> Core {
    let mut core = Core::reset(3);
    core.set_flags(0b1010);
    core.set_daif(0b0101);
    core.iface.active = 1 << 3 | 1 << 5;
    core.set_mode(mode);
    core.sp0 = 0x22;
    core.sp1 = 0x33;
    core
}

fn sys_id(number: [u8; 5]) -> SysId {
    let [op0, op1, crn, crm, op2] = number;
    SysId {
        op0,
        op1,
        crn,
        crm,
        op2,
    }
}

/// Reads a register, writes all ones, and reads it back; and asks before what that comes to.
fn check_answers(rt: &impl Abort, shows: &str, mode: Mode, number: [u8; 5], wanted: Answers) {
    let id = sys_id(number);
    let mut core = core_in(mode);
    let before = (may_read(&core, id), write_answer(&core, id, ONES));
    let first = read_sys(&core, NOW, id);
    let written = write_sys(&mut core, NOW, id, ONES);
    let back = read_sys(&core, NOW, id);
    assert_eq!(rt;
        ((first, written, back), before),
        (wanted, (wanted.0 != NO_READ, wanted.1)),
        "{shows}"
    );
}

/// ICC_IAR1_EL1 alone takes the interrupt that it gives.
#[test]
fn acknowledging_register(rt: HostRuntime) {
    for (name, number, _, _) in REGISTERS.as_slice() {
        check_acknowledges(&rt, name, *number);
    }
}

fn check_acknowledges(rt: &impl Abort, name: &str, number: [u8; 5]) {
    assert_eq!(rt;
        acknowledges(sys_id(number)),
        name == "ICC_IAR1_EL1",
        "{name}"
    );
}

/// What is written to ICC_EOIR1_EL1 at EL1, and what comes of it.
#[rattlefmt::skip]
static ENDS: [(&str, u64, SysWrite); 5] = [
    ("the first id",            0,        SysWrite::End(0)),
    ("the timer's",             27,       SysWrite::End(27)),
    ("the last id",             95,       SysWrite::End(95)),
    ("no id",                   96,       DONE),
    ("an id in the low bits",   1 << 32,  DONE),
];

#[test]
fn ends_of_interrupts(rt: HostRuntime) {
    for (shows, value, wanted) in ENDS.as_slice() {
        check_end(&rt, shows, *value, *wanted);
    }
}

/// The core stays, whatever ends.
fn check_end(rt: &impl Abort, shows: &str, value: u64, wanted: SysWrite) {
    let mut core = core_in(Mode::El1h);
    let before = core;
    let answer = write_sys(&mut core, NOW, sys_id([3, 0, 12, 12, 1]), value);
    assert_eq!(rt; (answer, core), (wanted, before), "{shows}");
}

/// Where no interrupt may be taken and none is active.
#[test]
fn no_interrupt_shown(rt: HostRuntime) {
    let quiet = Moment {
        signal: None,
        ..NOW
    };
    let core = Core::reset(0);
    let seen = [
        read_sys(&core, quiet, sys_id([3, 0, 12, 12, 0])),
        read_sys(&core, quiet, sys_id([3, 0, 12, 12, 2])),
        read_sys(&core, quiet, sys_id([3, 0, 12, 11, 3])),
    ];
    assert_eq!(rt; seen, [Value(1023), Value(1023), Value(0xFF)]);
}

/// What is written at EL1, and what is read back.
#[rattlefmt::skip]
static WRITTEN: [(&str, [u8; 5], u64, u64); 10] = [
    ("VBAR_EL1 without its low bits",   [3, 0, 12,  0, 0], 0x12_3456_7FFF,        0x12_3456_7800),
    ("SPSR_EL1 without its high bits",  [3, 0,  4,  0, 0], 0x1_8000_03C5,         0x8000_03C5),
    ("ICC_PMR_EL1, bits 7 to 3",        [3, 0,  4,  6, 0], 0x1A7,                 0xA0),
    ("NZCV, Z and V",                   [3, 3,  4,  2, 0], 0x5FFF_FFFF,           0x5000_0000),
    ("DAIF, A",                         [3, 3,  4,  2, 1], 0x0000_0500,           0x100),
    ("SPSel, bit 0 alone",              [3, 0,  4,  2, 0], 0xFFFF_FFFE,           0),
    ("ICC_IGRPEN1_EL1, bit 0 alone",    [3, 0, 12, 12, 7], 0xFFFF_FFFE,           0),
    ("PRSELR_EL1, bits 3 to 0",         [3, 0,  6,  2, 1], 0x3A,                  0xA),
    ("CNTV_CTL_EL0, masked",            [3, 3, 14,  3, 1], 0xFFFF_FFFE,           2),
    ("CNTV_TVAL_EL0",                   [3, 3, 14,  3, 0], 0x1_7FFF_FFFF,         0x7FFF_FFFF),
];

#[test]
fn values_read_back(rt: HostRuntime) {
    for (shows, number, value, back) in WRITTEN.as_slice() {
        check_written(&rt, shows, *number, *value, *back);
    }
}

fn check_written(rt: &impl Abort, shows: &str, number: [u8; 5], value: u64, back: u64) {
    let id = sys_id(number);
    let mut core = core_in(Mode::El1h);
    let seen = (
        write_sys(&mut core, NOW, id, value),
        read_sys(&core, NOW, id),
    );
    assert_eq!(rt; seen, (DONE, Value(back)), "{shows}");
}

/// A write of the timer value, the count, and the compare value that comes of it.
#[rattlefmt::skip]
static TIMER_VALUES: [(&str, u64, u64, u64); 5] = [
    ("ahead",                     100,                   50,                    150),
    ("the greatest",              0x7FFF_FFFF,           50,                    0x8000_0031),
    ("the least, after",          0x8000_0000,           0x1_0000_0000,         0x8000_0000),
    ("before the first count",    0xFFFF_FFFF,           0,                     0xFFFF_FFFF_FFFF_FFFF),
    ("after the last count",      2,                     0xFFFF_FFFF_FFFF_FFFF, 1),
];

#[test]
fn timer_values(rt: HostRuntime) {
    for (shows, value, now, compare) in TIMER_VALUES.as_slice() {
        check_timer_value(&rt, shows, *value, *now, *compare);
    }
}

fn check_timer_value(rt: &impl Abort, shows: &str, value: u64, count: u64, compare: u64) {
    let now = Moment { count, ..NOW };
    let mut core = core_in(Mode::El1h);
    let written = write_sys(&mut core, now, sys_id([3, 3, 14, 3, 0]), value);
    let seen = (
        written,
        read_sys(&core, now, sys_id([3, 3, 14, 3, 2])),
        read_sys(&core, now, sys_id([3, 3, 14, 3, 0])),
    );
    assert_eq!(rt; seen, (DONE, Value(compare), Value(value)), "{shows}");
}

/// The region that is selected is written, and no other.
#[test]
fn regions_by_selection(rt: HostRuntime) {
    let selection = sys_id([3, 0, 6, 2, 1]);
    let base = sys_id([3, 0, 6, 8, 0]);
    let mut core = core_in(Mode::El1h);
    let mut wanted = core;
    write_sys(&mut core, NOW, selection, 7);
    write_sys(&mut core, NOW, base, 0x10_0004);
    wanted.regions.select = 7;
    wanted.regions.regions[7].base = 0x10_0004;
    assert!(rt; core == wanted);
}
