ghost use Rattle.std.specs.Prelude.{◌≡◌};
ghost use Rattle.a64_state.specs.Registers.{level};
ghost use Rattle.exceptions.specs.Syndrome.{IsAbort};

use crate::{
    Cause, Class, abort_syndrome, enter_el1, eret, exception_syndrome, register_write_syndrome,
    syndrome,
};
use a64_decode::{ExceptionKind, Reg, decode};
use a64_state::{Core, Mode};
use bao_types::SysId;
use std::process::Abort;

const VBAR: u64 = 0xFFFF_0000_8000_0800;

const PC: u64 = 0x10_0008;

const OLD_ESR: u64 = 0x5A00_0001;

const OLD_FAR: u64 = 0x77;

/// Where an exception comes from, and PSTATE there with the flags N and C, IL, and A and F; its vectors, and the SP that
/// is selected afterwards.
type Origin = (&'static str, Mode, u32, u64);

#[rattlefmt::skip]
static ORIGINS: [Origin; 3] = [
    // shows                mode        PSTATE       vectors
    ("EL1 with SP_EL0",     Mode::El1t, 0xA010_0144, 0x000),
    ("EL1 with its own SP", Mode::El1h, 0xA010_0145, 0x200),
    ("EL0",                 Mode::El0t, 0xA010_0140, 0x400),
];

/// A class, what it says more, the fault address, and the syndrome.
type Row = (&'static str, Class, u16, Option<u64>, u64);

#[rattlefmt::skip]
static CLASSES: [Row; 13] = [
    // shows                              class                         ISS     FAR              ESR
    ("an undefined word",                 Class::Unknown,               0,      None,            0x0200_0000),
    ("PSTATE.IL",                         Class::IllegalState,          0,      None,            0x3A00_0000),
    ("SVC",                               Class::Svc,                   5,      None,            0x5600_0005),
    ("HVC",                               Class::Hvc,                   0xFFFF, None,            0x5A00_FFFF),
    ("SMC",                               Class::Smc,                   0,      None,            0x5E00_0000),
    ("a system register",                 Class::SystemRegister,        0,      None,            0x6200_0000),
    ("an instruction abort from below",   Class::InstructionAbortLower, 0x04,   Some(0x10_0008), 0x8200_0004),
    ("an instruction abort at the level", Class::InstructionAbortSame,  0x0C,   Some(0x10_0008), 0x8600_000C),
    ("a misaligned PC",                   Class::PcAlignment,           0,      Some(0x10_000A), 0x8A00_0000),
    ("a data abort from below",           Class::DataAbortLower,        0x44,   Some(0),         0x9200_0044),
    ("a data abort at the level",         Class::DataAbortSame,         0x21,   Some(0x9C09),    0x9600_0021),
    ("a misaligned SP",                   Class::SpAlignment,           0,      None,            0x9A00_0000),
    ("BRK",                               Class::Brk,                   1,      None,            0xF200_0001),
];

/// A core at PC in a state from which an exception comes, with registers that an entry doesn't touch.
fn core_at(mode: Mode) -> Core {
    let mut core = Core::reset(3);
    core.set_flags(0b1010);
    core.set_daif(0b0101);
    core.set_illegal_state(true);
    core.set_mode(mode);
    core.write_x(0, 0x11);
    core.sp0 = 0x22;
    core.sp1 = 0x33;
    core.pc = PC;
    core.sys.vbar = VBAR;
    core.sys.esr = OLD_ESR;
    core.sys.far = OLD_FAR;
    core
}

/// PC, PSTATE, SPSR_EL1, ELR_EL1, ESR_EL1 and FAR_EL1.
fn exception_state(core: &Core) -> [u64; 6] {
    [
        core.pc,
        u64::from(core.pstate),
        core.sys.spsr,
        core.sys.elr,
        core.sys.esr,
        core.sys.far,
    ]
}

#[test]
fn entries_by_class(rt: HostRuntime) {
    for origin in ORIGINS.as_slice() {
        check_origin(&rt, origin);
    }
}

fn check_origin(rt: &impl Abort, origin: &Origin) {
    for row in CLASSES.as_slice() {
        check_entry(rt, origin, row);
    }
}

fn check_entry(rt: &impl Abort, origin: &Origin, row: &Row) {
    let (from, mode, pstate, vectors) = *origin;
    let (shows, class, iss, far, esr) = *row;
    let mut core = core_at(mode);
    let cause = Cause::Sync {
        esr: syndrome(class, u32::from(iss)),
        far,
        back: PC + 4,
    };
    enter_el1(&mut core, cause);
    let far = far.unwrap_or(OLD_FAR);
    let wanted = [
        VBAR.wrapping_add(vectors),
        0xA000_03C5,
        u64::from(pstate),
        PC + 4,
        esr,
        far,
    ];
    assert_eq!(rt; exception_state(&core), wanted, "{shows} from {from}");
}

#[test]
fn interrupts(rt: HostRuntime) {
    for origin in ORIGINS.as_slice() {
        check_interrupt(&rt, origin);
    }
}

fn check_interrupt(rt: &impl Abort, origin: &Origin) {
    let (from, mode, pstate, vectors) = *origin;
    let mut core = core_at(mode);
    enter_el1(&mut core, Cause::Irq);
    let wanted = [
        VBAR.wrapping_add(vectors).wrapping_add(0x80),
        0xA000_03C5,
        u64::from(pstate),
        PC,
        OLD_ESR,
        OLD_FAR,
    ];
    assert_eq!(rt; exception_state(&core), wanted, "an IRQ from {from}");
}

/// All that an entry and a return don't name.
#[test]
fn other_registers_stay(rt: HostRuntime) {
    let mut core = core_at(Mode::El1h);
    let mut wanted = core;
    enter_el1(&mut core, Cause::Irq);
    eret(&mut core);
    wanted.sys.spsr = 0xA010_0145;
    wanted.sys.elr = PC;
    assert!(rt; core == wanted);
}

/// PSTATE after ERET with the flags Z and V, D and I, and each of the 32 modes in SPSR_EL1: from EL1 with its own SP, and
/// from EL1 with SP_EL0.
#[rattlefmt::skip]
static RETURNS: [(u32, u32); 32] = [
    (0x5000_0280, 0x5000_0280), // EL0
    (0x5010_0285, 0x5010_0284),
    (0x5010_0285, 0x5010_0284),
    (0x5010_0285, 0x5010_0284),
    (0x5000_0284, 0x5000_0284), // EL1 with SP_EL0
    (0x5000_0285, 0x5000_0285), // EL1 with its own SP
    (0x5010_0285, 0x5010_0284),
    (0x5010_0285, 0x5010_0284),
    (0x5010_0285, 0x5010_0284), // EL2 with SP_EL0
    (0x5010_0285, 0x5010_0284), // EL2 with its own SP
    (0x5010_0285, 0x5010_0284),
    (0x5010_0285, 0x5010_0284),
    (0x5010_0285, 0x5010_0284), // EL3 with SP_EL0
    (0x5010_0285, 0x5010_0284), // EL3 with its own SP
    (0x5010_0285, 0x5010_0284),
    (0x5010_0285, 0x5010_0284),
    (0x5010_0285, 0x5010_0284), // User, of AArch32
    (0x5010_0285, 0x5010_0284), // FIQ
    (0x5010_0285, 0x5010_0284), // IRQ
    (0x5010_0285, 0x5010_0284), // Supervisor
    (0x5010_0285, 0x5010_0284),
    (0x5010_0285, 0x5010_0284),
    (0x5010_0285, 0x5010_0284),
    (0x5010_0285, 0x5010_0284), // Abort
    (0x5010_0285, 0x5010_0284),
    (0x5010_0285, 0x5010_0284),
    (0x5010_0285, 0x5010_0284), // Hyp
    (0x5010_0285, 0x5010_0284), // Undefined
    (0x5010_0285, 0x5010_0284),
    (0x5010_0285, 0x5010_0284),
    (0x5010_0285, 0x5010_0284),
    (0x5010_0285, 0x5010_0284), // System
];

#[test]
fn returns_to_each_mode(rt: HostRuntime) {
    for (mode, (own, shared)) in RETURNS.as_slice().iter().enumerate() {
        let spsr = 0x5000_0280 + mode as u64 % 32;
        check_return(&rt, at_el1(true), spsr, *own);
        check_return(&rt, at_el1(false), spsr, *shared);
    }
}

/// A core at EL1 with other flags and masks, with its own SP or with SP_EL0.
fn at_el1(own: bool) -> Core
    ensures { level result ≡ 1 }
{
    let mut core = Core::reset(0);
    core.pstate = if own { 0xA000_0145 } else { 0xA000_0144 };
    core
}

fn check_return(rt: &impl Abort, mut core: Core, spsr: u64, pstate: u32)
    requires { level core ≡ 1 }
{
    core.sys.spsr = spsr % (1 << 32);
    core.sys.elr = PC;
    eret(&mut core);
    let seen = [core.pc, u64::from(core.pstate), core.sys.spsr, core.sys.elr];
    assert_eq!(rt; seen, [PC, u64::from(pstate), spsr, PC], "{spsr:x}");
}

/// IL of SPSR_EL1 comes back in a legal return too, and the bits that PSTATE doesn't have don't.
#[test]
fn returns_take_the_named_bits(rt: HostRuntime) {
    let mut core = at_el1(true);
    core.sys.spsr = 0xFFFF_FFE0;
    eret(&mut core);
    assert_eq!(rt; core.pstate, 0xF010_03C0);
}

/// ERET to an EL2 mode, and then the exception of the next instruction.
#[test]
fn illegal_return(rt: HostRuntime) {
    let mut core = Core::reset(0);
    core.sys.vbar = 0x8000;
    core.sys.spsr = 9;
    core.sys.elr = 0x10_0000;
    eret(&mut core);
    let returned = exception_state(&core);
    let cause = Cause::Sync {
        esr: syndrome(Class::IllegalState, 0),
        far: None,
        back: core.pc,
    };
    enter_el1(&mut core, cause);
    let wanted = [
        [0x10_0000, 0x0010_0005, 9, 0x10_0000, 0, 0],
        [0x8200, 0x3C5, 0x0010_0005, 0x10_0000, 0x3A00_0000, 0],
    ];
    assert_eq!(rt; [returned, exception_state(&core)], wanted);
}

/// SVC at EL0 with PSTATE 0.
#[test]
fn supervisor_call(rt: HostRuntime) {
    let mut core = Core::reset(0);
    core.pstate = 0;
    core.pc = PC;
    let cause = Cause::Sync {
        esr: exception_syndrome(ExceptionKind::Svc, 5),
        far: None,
        back: PC + 4,
    };
    enter_el1(&mut core, cause);
    assert_eq!(rt;
        exception_state(&core),
        [0x400, 0x3C5, 0, PC + 4, 0x5600_0005, 0]
    );
}

#[test]
fn syndromes_of_instructions(rt: HostRuntime) {
    let sgi1r = SysId {
        op0: 3,
        op1: 0,
        crn: 12,
        crm: 11,
        op2: 5,
    };
    let seen = [
        exception_syndrome(ExceptionKind::Svc, 0),
        exception_syndrome(ExceptionKind::Hvc, 0xFFFF),
        exception_syndrome(ExceptionKind::Smc, 1),
        exception_syndrome(ExceptionKind::Brk, 0x8000),
        register_write_syndrome(sgi1r, Reg(7)),
    ];
    let wanted = [
        0x5600_0000,
        0x5A00_FFFF,
        0x5E00_0001,
        0xF200_8000,
        0x623A_30F6,
    ];
    assert_eq!(rt; seen, wanted);
}

/// An abort of a fetch or of an access, from below or at the level, by stage 1 or 2, of a word, by a code; the syndrome.
type AbortRow = (&'static str, bool, bool, bool, u32, u32, u64);

const FETCH: bool = true;

const ACCESS: bool = false;

const SAME: bool = true;

const LOWER: bool = false;

#[rattlefmt::skip]
static ABORTS: [AbortRow; 25] = [
    // shows                               kind    level  stage 2  word         code  ESR
    ("ldr x0, [x1], translation",          ACCESS, LOWER, true,    0xF940_0020, 0x04, 0x93C0_8004),
    ("ldr x0, [x1], permission",           ACCESS, LOWER, true,    0xF940_0020, 0x0C, 0x93C0_800C),
    ("str x0, [x1]",                       ACCESS, LOWER, true,    0xF900_0020, 0x04, 0x93C0_8044),
    ("ldur x0, [x1, #8]",                  ACCESS, LOWER, true,    0xF840_8020, 0x04, 0x93C0_8004),
    ("ldr x0, [x1, x2]",                   ACCESS, LOWER, true,    0xF862_6820, 0x04, 0x93C0_8004),
    ("ldrsb w3, [x1]",                     ACCESS, LOWER, true,    0x39C0_0023, 0x04, 0x9323_0004),
    ("ldrsb x3, [x1]",                     ACCESS, LOWER, true,    0x3980_0023, 0x04, 0x9323_8004),
    ("ldrh w30, [x1]",                     ACCESS, LOWER, true,    0x7940_003E, 0x04, 0x935E_0004),
    ("ldrsw x0, [x1]",                     ACCESS, LOWER, true,    0xB980_0020, 0x04, 0x93A0_8004),
    ("strb wzr, [x1]",                     ACCESS, LOWER, true,    0x3900_003F, 0x0C, 0x931F_004C),
    ("ldr w0, literal",                    ACCESS, LOWER, true,    0x1800_0000, 0x04, 0x9380_0004),
    ("ldr x0, literal",                    ACCESS, LOWER, true,    0x5800_0000, 0x04, 0x93C0_8004),
    ("ldrsw x0, literal",                  ACCESS, LOWER, true,    0x9800_0000, 0x04, 0x93A0_8004),
    ("ldp x0, x1, [x2]: not described",    ACCESS, LOWER, true,    0xA940_0440, 0x04, 0x9200_0004),
    ("stp x0, x1, [x2]: not described",    ACCESS, LOWER, true,    0xA900_0440, 0x04, 0x9200_0044),
    ("ldr x0, [x1, #8]!: not described",   ACCESS, LOWER, true,    0xF840_8C20, 0x04, 0x9200_0004),
    ("str x0, [x1], #8: not described",    ACCESS, LOWER, true,    0xF800_8420, 0x04, 0x9200_0044),
    ("a prefetch: no access",              ACCESS, LOWER, true,    0xF980_0020, 0x04, 0x9200_0004),
    ("an undefined word: no access",       ACCESS, LOWER, true,    0x0000_0000, 0x04, 0x9200_0004),
    ("ldr x0, [x1] at stage 1",            ACCESS, SAME,  false,   0xF940_0020, 0x04, 0x9600_0004),
    ("ldr w0, [x2, #2], alignment",        ACCESS, SAME,  false,   0xB840_2040, 0x21, 0x9600_0021),
    ("str x0, [x1] at stage 1, from EL0",  ACCESS, LOWER, false,   0xF900_0020, 0x0C, 0x9200_004C),
    ("a fetch at stage 2",                 FETCH,  LOWER, true,    0xF900_0020, 0x0C, 0x8200_000C),
    ("a fetch at stage 1",                 FETCH,  SAME,  false,   0xF900_0020, 0x04, 0x8600_0004),
    ("a fetch at stage 1, from EL0",       FETCH,  LOWER, false,   0xF940_0020, 0x04, 0x8200_0004),
];

#[test]
fn aborts(rt: HostRuntime) {
    for row in ABORTS.as_slice() {
        check_abort(&rt, row);
    }
}

fn check_abort(rt: &impl Abort, row: &AbortRow) {
    let (shows, fetch, same, stage2, word, code, esr) = *row;
    let seen = abort_syndrome(abort_class(fetch, same), stage2, &decode(word), code % 64);
    assert_eq!(rt; seen, esr, "{shows}");
}

fn abort_class(fetch: bool, same: bool) -> u32
    ensures { IsAbort result }
{
    match (fetch, same) {
        (false, false) => Class::DataAbortLower.number(),
        (false, true) => Class::DataAbortSame.number(),
        (true, false) => Class::InstructionAbortLower.number(),
        (true, true) => Class::InstructionAbortSame.number(),
    }
}
