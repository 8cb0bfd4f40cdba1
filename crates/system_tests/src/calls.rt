//! Calls of guests by HVC and SMC: what they answer, what becomes of the cores, and whom they concern. The expected lines were
//! worked out by hand from the table of calls.

use crate::programs::{Program, check_program};
use crate::runs::{RUN, check, image_of, shelf_of, told};
use crate::samples::{Change, changed};
use crate::several::{SEVEN, told_of};
use sample_configs::{ONE_VM, TWO_VMS};
use std::alloc::Global;
use std::test::Fail;

/// A VM of one core calls: `movz` and `movk` make the id in X0, `movz` X1 and X2, then `hvc` or `smc`.
#[rattlefmt::skip]
static CALLS: [Program; 20] = [
    // shows                          words                                                 steps  lines of the report
    ("psci_version by hvc",           &[0xd280_0000, 0xf2b0_8000, 0xd400_0002],                 3, ["x0 0000000000010000", "pc 000000000010000c"]),
    ("psci_version by smc",           &[0xd280_0000, 0xf2b0_8000, 0xd400_0003],                 3, ["x0 0000000000010000", "pc 000000000010000c"]),
    ("bits of the id above 31",       &[0xd280_0000, 0xf2b0_8000, 0xf2c0_0020, 0xd400_0002],    4, ["x0 0000000000010000", ""]),
    ("hvc #1",                        &[0xd280_0000, 0xf2b0_8000, 0xd400_0022],                 3, ["x0 ffffffffffffffff", "pc 000000000010000c"]),
    ("smc #1",                        &[0xd280_0000, 0xf2b0_8000, 0xd400_0023],                 3, ["x0 ffffffffffffffff", "pc 000000000010000c"]),
    ("the largest immediate",         &[0xd280_0000, 0xf2b0_8000, 0xd41f_ffe2],                 3, ["x0 ffffffffffffffff", "core 0 on"]),
    ("an id of no call",              &[0xd280_0001, 0xd400_0002],                              2, ["x0 ffffffffffffffff", "pc 0000000000100008"]),
    ("cpu_off by hvc",                &[0xd280_0040, 0xf2b0_8000, 0xd400_0002],                 3, ["core 0 off", "pc 000000000010000c"]),
    ("cpu_off by smc",                &[0xd280_0040, 0xf2b0_8000, 0xd400_0003],                 3, ["core 0 off", "pc 0000000000100008"]),
    ("cpu_off leaves x0",             &[0xd280_0040, 0xf2b0_8000, 0xd400_0003],                 3, ["x0 0000000084000002", "pstate 000003c5"]),
    ("a step of a core that is off",  &[0xd280_0040, 0xf2b0_8000, 0xd400_0002, 0xd280_00a0],    4, ["x0 0000000084000002", "pc 000000000010000c"]),
    ("system_off by hvc",             &[0xd280_0100, 0xf2b0_8000, 0xd400_0002],                 3, ["core 0 off", "pc 000000000010000c"]),
    ("system_off by smc",             &[0xd280_0100, 0xf2b0_8000, 0xd400_0003],                 3, ["core 0 off", "pc 0000000000100008"]),
    ("affinity_info of itself",       &[0xd280_0080, 0xf2b8_8000, 0xd400_0002, 0x9100_1402],    4, ["x2 0000000000000005", "core 0 on"]),
    ("affinity_info past its cores",  &[0xd280_0080, 0xf2b8_8000, 0xd280_0021, 0xd400_0002],    4, ["x0 fffffffffffffffe", "x1 0000000000000001"]),
    ("affinity_info of a level",      &[0xd280_0080, 0xf2b8_8000, 0xd280_0022, 0xd400_0002],    4, ["x0 fffffffffffffffe", "x2 0000000000000001"]),
    ("cpu_on of itself",              &[0xd280_0060, 0xf2b8_8000, 0xd400_0003],                 3, ["x0 fffffffffffffffc", "pc 000000000010000c"]),
    ("cpu_on past its cores",         &[0xd280_0060, 0xf2b8_8000, 0xd280_0021, 0xd400_0003],    4, ["x0 fffffffffffffffe", "pc 0000000000100010"]),
    ("a ring without a window",       &[0xd280_0020, 0xf2b8_c000, 0xd400_0002],                 3, ["x0 fffffffffffffffe", "core 0 on"]),
    ("a call after another",          &[0xd280_0000, 0xf2b0_8000, 0xd400_0003, 0xd400_0002],    4, ["x0 ffffffffffffffff", "pc 0000000000100010"]),
];

#[test]
fn calls(rt: HostRuntime) -> Result<(), Fail> {
    for program in CALLS.as_slice() {
        check_program(&rt, rt.alloc(), &[], program)?;
    }
    Ok(())
}

/// The sample with a second core for its VM.
static TWO_CORES: [Change; 2] = [
    ("cores = [16]", "cores = [16, 16]"),
    ("cores = [0]", "cores = [0, 1]"),
];

/// The first core turns the second on, at 0x100040 with 7 in X0. That adds 1, and turns itself off by SMC. The first core then
/// asks for it and turns it on again, twice.
#[rattlefmt::skip]
static STARTING: [u32; 20] = [
    // movz and movk x0, #0xc4000003; movz x1, #1; movz and movk x2, #0x100040; movz x3, #7; smc #0
    0xd280_0060, 0xf2b8_8000, 0xd280_0021, 0xd2a0_0202, 0xf280_0802, 0xd280_00e3, 0xd400_0003,
    // movz and movk x0, #0xc4000003; smc #0; hvc #0; b .
    0xd280_0060, 0xf2b8_8000, 0xd400_0003, 0xd400_0002, 0x1400_0000,
    0, 0, 0, 0,
    // add x1, x0, #1; movz and movk x0, #0x84000002; smc #0
    0x9100_0401, 0xd280_0040, 0xf2b0_8000, 0xd400_0003,
];

/// What a row shows, the schedule, and what the run of `STARTING` leaves of the cores.
#[rattlefmt::skip]
static CORES: [(&str, &str, &str); 4] = [
    ("it is on", "s 0 0\ns 1 0\ns 0 0\ns 0 0\ns 0 0\ns 0 0\ns 0 0\ns 0 0\n",
        "status 0 entered 7 calls 3 faults 0
vm a
core 0 on
pc 000000000010001c
pstate 000003c5
x1 0000000000000001
x2 0000000000100040
x3 0000000000000007
core 1 on
pc 0000000000100040
pstate 000003c5
x0 0000000000000007
"),
    ("it works, and is off", "s 0 0\ns 0 0\ns 0 0\ns 0 0\ns 0 0\ns 0 0\ns 0 0\ns 1 0\ns 1 0\ns 1 0\ns 1 0\ns 1 0\n",
        "status 0 entered 11 calls 3 faults 0
vm a
core 0 on
pc 000000000010001c
pstate 000003c5
x1 0000000000000001
x2 0000000000100040
x3 0000000000000007
core 1 off
pc 000000000010004c
pstate 000003c5
x0 0000000084000002
x1 0000000000000008
"),
    ("it is on already", "s 0 0\ns 0 0\ns 0 0\ns 0 0\ns 0 0\ns 0 0\ns 0 0\ns 1 0\ns 0 0\ns 0 0\ns 0 0\n",
        "status 0 entered 11 calls 3 faults 0
vm a
core 0 on
pc 0000000000100028
pstate 000003c5
x0 fffffffffffffffc
x1 0000000000000001
x2 0000000000100040
x3 0000000000000007
core 1 on
pc 0000000000100044
pstate 000003c5
x0 0000000000000007
x1 0000000000000008
"),
    ("it is turned on again", "s 0 0\ns 0 0\ns 0 0\ns 0 0\ns 0 0\ns 0 0\ns 0 0\ns 1 0\ns 1 0\ns 1 0\ns 1 0\ns 0 0\ns 0 0\ns 0 0\n",
        "status 0 entered 14 calls 3 faults 0
vm a
core 0 on
pc 0000000000100028
pstate 000003c5
x1 0000000000000001
x2 0000000000100040
x3 0000000000000007
core 1 on
pc 0000000000100040
pstate 000003c5
x0 0000000000000007
"),
];

/// The part of what a run left that stands before the consoles.
fn before_consoles(told: &str) -> &str {
    let (cores, _rest) = told.split_once("console ").unwrap_or(("", ""));
    cores
}

#[test]
fn a_second_core(rt: HostRuntime) -> Result<(), Fail> {
    let alloc = rt.alloc();
    let config = changed(alloc, ONE_VM, TWO_CORES.as_slice())?;
    let image = image_of(alloc, &STARTING)?;
    for (shows, schedule, wanted) in CORES.as_slice() {
        let mut shelf = shelf_of(alloc, config.as_bytes(), &image, schedule.as_bytes(), &[])?;
        let told = told(alloc, &RUN, &mut shelf, &[])?;
        check(&rt, shows, before_consoles(&told), wanted);
    }
    Ok(())
}

/// What a row shows, the words of the first of two VMs, which have a window on one memory of two events, and what is left of its
/// core. The second runs on whatever the first asks for.
#[rattlefmt::skip]
static FIRST_OF_TWO: [(&str, &[u32], &str); 5] = [
    ("it rings an event", &[0xd280_0020, 0xf2b8_c000, 0xd280_0022, 0xd400_0002],
        "core 0 on\npc 0000000000100010\npstate 000003c5\nx2 0000000000000001\n"),
    ("past the events", &[0xd280_0020, 0xf2b8_c000, 0xd280_0042, 0xd400_0002],
        "core 0 on\npc 0000000000100010\npstate 000003c5\nx0 fffffffffffffffe\nx2 0000000000000002\n"),
    ("past its windows", &[0xd280_0020, 0xf2b8_c000, 0xd280_0021, 0xd400_0003],
        "core 0 on\npc 0000000000100010\npstate 000003c5\nx0 fffffffffffffffe\nx1 0000000000000001\n"),
    ("the other's core isn't its own", &[0xd280_0060, 0xf2b8_8000, 0xd280_0021, 0xd400_0003],
        "core 0 on\npc 0000000000100010\npstate 000003c5\nx0 fffffffffffffffe\nx1 0000000000000001\n"),
    ("it turns all its cores off", &[0xd503_201f, 0xd280_0100, 0xf2b0_8000, 0xd400_0002],
        "core 0 off\npc 0000000000100010\npstate 000003c5\nx0 0000000084000008\n"),
];

/// What the second VM shows of its core after a step of `SEVEN`.
static SECOND: &str =
    "vm b\ncore 0 on\npc 0000000000140004\npstate 000003c5\nx0 0000000000000007\n";

fn cores_of_two(alloc: Global, words: &[u32]) -> Result<String, Fail> {
    let told = told_of(
        alloc,
        TWO_VMS,
        [words, &SEVEN],
        "s 0 0\ns 0 0\ns 0 0\ns 0 0\ns 1 0\n",
    )?;
    let (_other, second) = told.split_once("end a\n").unwrap_or(("", ""));
    let (first, second) = (before_consoles(&told), before_consoles(second));
    Ok(format!(in alloc; "{first}{second}")?)
}

#[test]
fn a_call_concerns_its_vm(rt: HostRuntime) -> Result<(), Fail> {
    let alloc = rt.alloc();
    for (shows, words, first) in FIRST_OF_TWO.as_slice() {
        let wanted = format!(in alloc;
            "status 0 entered 5 calls 4 faults 0\nvm a\n{first}{SECOND}"
        )?;
        let cores = cores_of_two(alloc, words)?;
        check(&rt, shows, &cores, &wanted);
    }
    Ok(())
}
