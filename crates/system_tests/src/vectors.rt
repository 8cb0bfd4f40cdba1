//! Guests that take exceptions, by the lines of their reports. The expected values were worked out by hand.

use crate::programs::has_line;
use crate::runs::{RUN, check, image_of, sample_shelf, steps, told};
use std::alloc::Global;
use std::process::Abort;
use std::test::Fail;

/// Runs a program for this many steps, and tells what it left.
fn run(alloc: Global, image: &[u8], count: usize) -> Result<String, Fail> {
    let schedule = steps(alloc, count)?;
    let mut shelf = sample_shelf(alloc, image, &schedule)?;
    told(alloc, &RUN, &mut shelf, &[])
}

/// A word of zeros is undefined, and its exception goes to the vectors at 0.
#[test]
fn undefined_word(rt: HostRuntime) -> Result<(), Fail> {
    static WANTED: &str = "status 0 entered 1 calls 3 faults 0
vm a
core 0 on
pc 0000000000000200
pstate 000003c5
elr_el1 0000000000100000
spsr_el1 00000000000003c5
esr_el1 0000000002000000
console 0=
end a
done
";
    let alloc = rt.alloc();
    let image = image_of(alloc, &[0])?;
    check(&rt, "a word of zeros", &run(alloc, &image, 1)?, WANTED);
    Ok(())
}

/// `adr x2` of the vectors at 0x100800, `msr vbar_el1, x2` and `msr spsr_el1, x0`.
static BEFORE: [u32; 3] = [0x1000_3FC2, 0xD518_C002, 0xD518_4000];

/// `adr x1` of the word after the return.
const TO_THE_WORD: u32 = 0x1000_0061;

/// The same, two bytes after it.
const AFTER_THE_WORD: u32 = 0x5000_0061;

/// `msr elr_el1, x1` and `eret`; the next word is at 0x100020.
static RETURN: [u32; 2] = [0xD518_4021, 0xD69F_03E0];

/// Where an exception comes from: `movz x0` of the masks A and F and of the mode, that number, and the vector.
type Origin = (&'static str, u32, u32, u64);

#[rattlefmt::skip]
static ORIGINS: [Origin; 3] = [
    // shows                word         low SPSR PC
    ("EL0",                 0xD280_2800, 0x140,   0x10_0C00),
    ("EL1 with SP_EL0",     0xD280_2880, 0x144,   0x10_0800),
    ("EL1 with its own SP", 0xD280_28A0, 0x145,   0x10_0A00),
];

/// A cause: `movk x0` of the flags Z and C and of IL, that number, the word of the address to return to, the word that is
/// there, and ELR_EL1, ESR_EL1 and FAR_EL1 after the exception.
type Cause = (&'static str, u32, u32, u32, u32, [u64; 3]);

const LEGAL: u32 = 0xF2AC_0000;

const ILLEGAL: u32 = 0xF2AC_0200;

#[rattlefmt::skip]
static CAUSES: [Cause; 7] = [
    // shows                     flags    high SPSR    address          word         ELR        ESR          FAR
    ("udf",                      LEGAL,   0x6000_0000, TO_THE_WORD,     0x0000_0000, [0x10_0020, 0x0200_0000, 0]),
    ("mrs of no register",       LEGAL,   0x6000_0000, TO_THE_WORD,     0xD538_00C0, [0x10_0020, 0x0200_0000, 0]),
    ("svc #5",                   LEGAL,   0x6000_0000, TO_THE_WORD,     0xD400_00A1, [0x10_0024, 0x5600_0005, 0]),
    ("brk #1",                   LEGAL,   0x6000_0000, TO_THE_WORD,     0xD420_0020, [0x10_0020, 0xF200_0001, 0]),
    ("svc in an illegal state",  ILLEGAL, 0x6010_0000, TO_THE_WORD,     0xD400_00A1, [0x10_0020, 0x3A00_0000, 0]),
    ("a misaligned pc",          LEGAL,   0x6000_0000, AFTER_THE_WORD, 0xD503_201F, [0x10_0022, 0x8A00_0000, 0x10_0022]),
    ("both of these",            ILLEGAL, 0x6010_0000, AFTER_THE_WORD, 0xD503_201F, [0x10_0022, 0x8A00_0000, 0x10_0022]),
];

/// What EL1 alone may execute; undefined at EL0.
#[rattlefmt::skip]
static PRIVILEGED: [Cause; 9] = [
    // shows                    flags  high SPSR    address      word         ELR        ESR          FAR
    ("hvc",                     LEGAL, 0x6000_0000, TO_THE_WORD, 0xD400_0022, [0x10_0020, 0x0200_0000, 0]),
    ("smc",                     LEGAL, 0x6000_0000, TO_THE_WORD, 0xD400_0043, [0x10_0020, 0x0200_0000, 0]),
    ("eret",                    LEGAL, 0x6000_0000, TO_THE_WORD, 0xD69F_03E0, [0x10_0020, 0x0200_0000, 0]),
    ("msr daifset, #2",         LEGAL, 0x6000_0000, TO_THE_WORD, 0xD503_42DF, [0x10_0020, 0x0200_0000, 0]),
    ("ic iallu",                LEGAL, 0x6000_0000, TO_THE_WORD, 0xD508_751F, [0x10_0020, 0x0200_0000, 0]),
    ("mrs x0, midr_el1",        LEGAL, 0x6000_0000, TO_THE_WORD, 0xD538_0000, [0x10_0020, 0x0200_0000, 0]),
    ("msr sctlr_el1, x0",       LEGAL, 0x6000_0000, TO_THE_WORD, 0xD518_1000, [0x10_0020, 0x0200_0000, 0]),
    ("mrs x0, cntv_ctl_el0",    LEGAL, 0x6000_0000, TO_THE_WORD, 0xD53B_E320, [0x10_0020, 0x0200_0000, 0]),
    ("mrs x0, icc_iar1_el1",    LEGAL, 0x6000_0000, TO_THE_WORD, 0xD538_CC00, [0x10_0020, 0x0200_0000, 0]),
];

/// Whether a report has a register's line; one that is zero has none.
fn has_register(alloc: Global, told: &str, name: &str, value: u64) -> Result<bool, Fail> {
    let line = format!(in alloc; "{name} {value:016x}")?;
    Ok(value == 0 || has_line(told, &line))
}

fn check_cause(rt: &impl Abort, alloc: Global, origin: &Origin, cause: &Cause) -> Result<(), Fail> {
    let (from, low, low_spsr, pc) = *origin;
    let (shows, high, high_spsr, address, word, [elr, esr, far]) = *cause;
    let [adr, vbar, spsr] = BEFORE;
    let [msr, eret] = RETURN;
    let image = image_of(
        alloc,
        &[low, high, adr, vbar, spsr, address, msr, eret, word],
    )?;
    let told = run(alloc, &image, 9)?;
    let spsr = u64::from(high_spsr | low_spsr);
    let holds = has_line(&told, "pstate 600003c5")
        && has_register(alloc, &told, "pc", pc)?
        && has_register(alloc, &told, "elr_el1", elr)?
        && has_register(alloc, &told, "spsr_el1", spsr)?
        && has_register(alloc, &told, "esr_el1", esr)?
        && has_register(alloc, &told, "far_el1", far)?
        && (far != 0 || !told.contains("far_el1"));
    assert!(rt; holds, "{shows} from {from}: {told}");
    Ok(())
}

fn check_causes(rt: &impl Abort, alloc: Global, origin: &Origin) -> Result<(), Fail> {
    for cause in CAUSES.as_slice() {
        check_cause(rt, alloc, origin, cause)?;
    }
    Ok(())
}

#[test]
fn causes_from_each_mode(rt: HostRuntime) -> Result<(), Fail> {
    for origin in ORIGINS.as_slice() {
        check_causes(&rt, rt.alloc(), origin)?;
    }
    Ok(())
}

#[test]
fn undefined_at_el0(rt: HostRuntime) -> Result<(), Fail> {
    let [el0, ..] = &ORIGINS;
    for cause in PRIVILEGED.as_slice() {
        check_cause(&rt, rt.alloc(), el0, cause)?;
    }
    Ok(())
}

/// `movz x0, #9`, `msr spsr_el1, x0`, `adr x1` of the beginning, and `RETURN`: a return to EL2.
#[rattlefmt::skip]
const TO_EL2: [u32; 5] = [0xD280_0120, 0xD518_4000, 0x10FF_FFC1, 0xD518_4021, 0xD69F_03E0];

/// `adr x2` of the vectors, `msr vbar_el1, x2`, `msr spsr_el1, xzr`, `adr x1` of the last word, `RETURN`, and `svc #5`.
#[rattlefmt::skip]
const CALL: [u32; 7] = [
    0x1000_4002, 0xD518_C002, 0xD518_401F, 0x1000_0061, 0xD518_4021, 0xD69F_03E0, 0xD400_00A1,
];

/// A program, this many steps of it, and lines of its report; an empty one is none.
type Returns = (&'static str, &'static [u32], usize, [&'static str; 5]);

/// An illegal return stays at EL1 with IL set, and the next step takes the exception.
#[rattlefmt::skip]
static RETURNS: [Returns; 3] = [
    ("an illegal return",    &TO_EL2, 5,
        ["pc 0000000000100000", "pstate 00100005", "elr_el1 0000000000100000", "spsr_el1 0000000000000009", ""]),
    ("the step after it",   &TO_EL2, 6,
        ["pc 0000000000000200", "pstate 000003c5", "elr_el1 0000000000100000", "spsr_el1 0000000000100005",
         "esr_el1 000000003a000000"]),
    ("svc with pstate zero", &CALL,   7,
        ["pc 0000000000100c00", "pstate 000003c5", "elr_el1 000000000010001c", "esr_el1 0000000056000005", ""]),
];

#[test]
fn returns_and_their_exceptions(rt: HostRuntime) -> Result<(), Fail> {
    for row in RETURNS.as_slice() {
        check_return(&rt, rt.alloc(), row)?;
    }
    Ok(())
}

fn check_return(rt: &impl Abort, alloc: Global, row: &Returns) -> Result<(), Fail> {
    let (shows, words, count, lines) = *row;
    let told = run(alloc, &image_of(alloc, words)?, count)?;
    let holds = lines.iter().all(|line| has_line(&told, line));
    assert!(rt; holds, "{shows}: {told}");
    Ok(())
}

/// At EL1 it makes its vectors, a stack for EL0 and a return to EL0, which asks for a product by SVC and stores it:
/// `adr x9, 0x100800`, `msr vbar_el1, x9`, `adr x9, 0x101000`, `msr sp_el0, x9`, `adr x9, 0x100020`, `msr elr_el1, x9`,
/// `msr spsr_el1, xzr` and `eret`; then `mov x0, #6`, `mov x1, #7`, `svc #1`, `str x0, [sp, #-16]!` and `b .`.
#[rattlefmt::skip]
static CALLER: [u32; 13] = [
    0x1000_4009, 0xD518_C009, 0x1000_7FC9, 0xD518_4109, 0x1000_0089, 0xD518_4029, 0xD518_401F, 0xD69F_03E0,
    0xD280_00C0, 0xD280_00E1, 0xD400_0021, 0xF81F_0FE0, 0x1400_0000,
];

/// `mul x0, x0, x1`, `mrs x3, esr_el1`, `mrs x4, currentel` and `eret`, at the vector of exceptions from EL0.
static HANDLER: [u32; 4] = [0x9B01_7C00, 0xD538_5203, 0xD538_4244, 0xD69F_03E0];

#[test]
fn call_from_el0(rt: HostRuntime) -> Result<(), Fail> {
    static WANTED: &str = "status 0 entered 20 calls 3 faults 0
vm a
core 0 on
pc 0000000000100030
pstate 00000000
sp_el0 0000000000100ff0
x0 000000000000002a
x1 0000000000000007
x3 0000000056000001
x4 0000000000000004
x9 0000000000100020
elr_el1 000000000010002c
esr_el1 0000000056000001
vbar_el1 0000000000100800
console 0=
m 0000000000100000 0940001009c018d5c97f0010094118d5
m 0000000000100010 89000010294018d51f4018d5e0039fd6
m 0000000000100020 c00080d2e10080d2210000d4e00f1ff8
m 0000000000100030 00000014000000000000000000000000
m 0000000000100c00 007c019b035238d5444238d5e0039fd6
m 0000000000100ff0 2a000000000000000000000000000000
end a
done
";
    let alloc = rt.alloc();
    let mut image = image_of(alloc, &CALLER)?;
    image.resize(0xC00, 0)?;
    image.extend_from_slice(&image_of(alloc, &HANDLER)?)?;
    check(&rt, "a call from EL0", &run(alloc, &image, 20)?, WANTED);
    Ok(())
}
