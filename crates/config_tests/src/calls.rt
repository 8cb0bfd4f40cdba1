//! Calls of three VMs, of which all share one memory and the last two another.

use crate::samples::checked;
use crate::sharing::sharing;
use bao_wellformed::Checked;
use hypercalls::{Power, call};
use std::alloc::{AllocError, Global};
use std::process::Abort;

/// The powers of each VM's cores, as far as it has them.
static POWERS: [Power; 8] = [
    Power::On,
    Power::Off,
    Power::Parked {
        esr: 0x93c0_8004,
        far: 0x4_0000,
    },
    Power::Off,
    Power::Off,
    Power::Off,
    Power::Off,
    Power::Off,
];

/// What a row shows, the VM, x0 to x3, and the outcome with what x0 becomes.
type Row = (&'static str, u8, [u64; 4], &'static str);

/// SUCCESS is 0, NOT_SUPPORTED 18446744073709551615, INVALID_PARAMETERS 18446744073709551614, ALREADY_ON 18446744073709551612.
#[rattlefmt::skip]
static CALLS: [Row; 58] = [
    // The doorbell. VM a has a window on memory 0; b on 1 and 0, c on 0 and 1. Memory 0 has two events, memory 1 three.
    ("a, first event", 0, [0xc600_0001, 0, 0, 0], "Ring { shmem: 0, event: 0 } Some(0)"),
    ("a, last event", 0, [0xc600_0001, 0, 1, 0], "Ring { shmem: 0, event: 1 } Some(0)"),
    ("a, past the events", 0, [0xc600_0001, 0, 2, 0], "Answer(18446744073709551614) Some(18446744073709551614)"),
    ("a, an event of 33 bits", 0, [0xc600_0001, 0, 0x1_0000_0000, 0], "Answer(18446744073709551614) Some(18446744073709551614)"),
    ("a, the largest event", 0, [0xc600_0001, 0, u64::MAX, 0], "Answer(18446744073709551614) Some(18446744073709551614)"),
    ("a, past its windows", 0, [0xc600_0001, 1, 0, 0], "Answer(18446744073709551614) Some(18446744073709551614)"),
    ("a, a place of 33 bits", 0, [0xc600_0001, 0x1_0000_0000, 0, 0], "Answer(18446744073709551614) Some(18446744073709551614)"),
    ("a, the largest place", 0, [0xc600_0001, u64::MAX, 0, 0], "Answer(18446744073709551614) Some(18446744073709551614)"),
    ("b, first window, last event", 1, [0xc600_0001, 0, 2, 0], "Ring { shmem: 1, event: 2 } Some(0)"),
    ("b, first window, past the events", 1, [0xc600_0001, 0, 3, 0], "Answer(18446744073709551614) Some(18446744073709551614)"),
    ("b, last window, last event", 1, [0xc600_0001, 1, 1, 0], "Ring { shmem: 0, event: 1 } Some(0)"),
    ("b, last window, past the events", 1, [0xc600_0001, 1, 2, 0], "Answer(18446744073709551614) Some(18446744073709551614)"),
    ("b, past its windows", 1, [0xc600_0001, 2, 0, 0], "Answer(18446744073709551614) Some(18446744073709551614)"),
    ("c, first window, last event", 2, [0xc600_0001, 0, 1, 0], "Ring { shmem: 0, event: 1 } Some(0)"),
    ("c, first window, past the events", 2, [0xc600_0001, 0, 2, 0], "Answer(18446744073709551614) Some(18446744073709551614)"),
    ("c, last window, last event", 2, [0xc600_0001, 1, 2, 0], "Ring { shmem: 1, event: 2 } Some(0)"),
    ("c, last window, past the events", 2, [0xc600_0001, 1, 3, 0], "Answer(18446744073709551614) Some(18446744073709551614)"),
    ("c, past its windows", 2, [0xc600_0001, 2, 0, 0], "Answer(18446744073709551614) Some(18446744073709551614)"),
    ("an id with bits above 31", 2, [0xffff_ffff_c600_0001, 1, 2, 0], "Ring { shmem: 1, event: 2 } Some(0)"),
    // PSCI_VERSION
    ("version of a", 0, [0x8400_0000, 9, 9, 9], "Answer(65536) Some(65536)"),
    ("version of b", 1, [0x8400_0000, 0, 0, 0], "Answer(65536) Some(65536)"),
    ("version of c, bits above 31", 2, [0x1_8400_0000, 0, 0, 0], "Answer(65536) Some(65536)"),
    // CPU_OFF
    ("off of a", 0, [0x8400_0002, 9, 9, 9], "Off None"),
    ("off of b", 1, [0x8400_0002, 0, 0, 0], "Off None"),
    ("off of c", 2, [0x8400_0002, 0, 0, 0], "Off None"),
    // CPU_ON
    ("a's core that is on", 0, [0xc400_0003, 0, 0x10_0000, 7], "Answer(18446744073709551612) Some(18446744073709551612)"),
    ("past a's cores", 0, [0xc400_0003, 1, 0x10_0000, 7], "Answer(18446744073709551614) Some(18446744073709551614)"),
    ("b's core that is on", 1, [0xc400_0003, 0, 0x10_0000, 7], "Answer(18446744073709551612) Some(18446744073709551612)"),
    ("b's core that is off", 1, [0xc400_0003, 1, 0x10_0000, 7], "On { core: 1, start: 1048576, arg: 7 } Some(0)"),
    ("past b's cores", 1, [0xc400_0003, 2, 0x10_0000, 7], "Answer(18446744073709551614) Some(18446744073709551614)"),
    ("c's core that is off, largest arguments", 2, [0xc400_0003, 1, u64::MAX, u64::MAX],
        "On { core: 1, start: 18446744073709551615, arg: 18446744073709551615 } Some(0)"),
    ("c's core that is parked", 2, [0xc400_0003, 2, 0x10_0000, 7], "Answer(18446744073709551612) Some(18446744073709551612)"),
    ("past c's cores", 2, [0xc400_0003, 3, 0x10_0000, 7], "Answer(18446744073709551614) Some(18446744073709551614)"),
    ("a core of 33 bits", 2, [0xc400_0003, 0x1_0000_0001, 0x10_0000, 7], "Answer(18446744073709551614) Some(18446744073709551614)"),
    ("the largest core", 2, [0xc400_0003, u64::MAX, 0x10_0000, 7], "Answer(18446744073709551614) Some(18446744073709551614)"),
    // AFFINITY_INFO
    ("a's core is on", 0, [0xc400_0004, 0, 0, 9], "Answer(0) Some(0)"),
    ("past a's cores", 0, [0xc400_0004, 1, 0, 0], "Answer(18446744073709551614) Some(18446744073709551614)"),
    ("another level", 0, [0xc400_0004, 0, 1, 0], "Answer(18446744073709551614) Some(18446744073709551614)"),
    ("a level of 33 bits", 0, [0xc400_0004, 0, 0x1_0000_0000, 0], "Answer(18446744073709551614) Some(18446744073709551614)"),
    ("b's core is off", 1, [0xc400_0004, 1, 0, 0], "Answer(1) Some(1)"),
    ("past b's cores", 1, [0xc400_0004, 2, 0, 0], "Answer(18446744073709551614) Some(18446744073709551614)"),
    ("c's core is parked", 2, [0xc400_0004, 2, 0, 0], "Answer(0) Some(0)"),
    ("past c's cores", 2, [0xc400_0004, 3, 0, 0], "Answer(18446744073709551614) Some(18446744073709551614)"),
    ("a core of 33 bits", 2, [0xc400_0004, 0x1_0000_0001, 0, 0], "Answer(18446744073709551614) Some(18446744073709551614)"),
    // SYSTEM_OFF
    ("system off of a", 0, [0x8400_0008, 9, 9, 9], "SystemOff None"),
    ("system off of b", 1, [0x8400_0008, 0, 0, 0], "SystemOff None"),
    ("system off of c", 2, [0x8400_0008, 0, 0, 0], "SystemOff None"),
    // Ids beside these
    ("below the doorbell", 0, [0xc600_0000, 0, 0, 0], "Answer(18446744073709551615) Some(18446744073709551615)"),
    ("above the doorbell", 0, [0xc600_0002, 0, 0, 0], "Answer(18446744073709551615) Some(18446744073709551615)"),
    ("the doorbell as a 32-bit call", 0, [0x8600_0001, 0, 0, 0], "Answer(18446744073709551615) Some(18446744073709551615)"),
    ("CPU_SUSPEND", 1, [0x8400_0001, 0, 0, 0], "Answer(18446744073709551615) Some(18446744073709551615)"),
    ("CPU_OFF as a 64-bit call", 1, [0xc400_0002, 0, 0, 0], "Answer(18446744073709551615) Some(18446744073709551615)"),
    ("CPU_ON as a 32-bit call", 1, [0x8400_0003, 1, 0, 0], "Answer(18446744073709551615) Some(18446744073709551615)"),
    ("AFFINITY_INFO as a 32-bit call", 1, [0x8400_0004, 1, 0, 0], "Answer(18446744073709551615) Some(18446744073709551615)"),
    ("SYSTEM_RESET", 2, [0x8400_0009, 0, 0, 0], "Answer(18446744073709551615) Some(18446744073709551615)"),
    ("SYSTEM_OFF as a 64-bit call", 2, [0xc400_0008, 0, 0, 0], "Answer(18446744073709551615) Some(18446744073709551615)"),
    ("nothing", 2, [0, 0, 0, 0], "Answer(18446744073709551615) Some(18446744073709551615)"),
    ("all bits", 2, [u64::MAX, 0, 0, 0], "Answer(18446744073709551615) Some(18446744073709551615)"),
];

/// The outcome of a call, and what x0 becomes.
fn said_of(alloc: Global, checked: &Checked, vm: u8, regs: [u64; 4]) -> Result<String, AllocError> {
    let config = checked.config();
    if usize::from(vm) >= config.vms.len() {
        return "no such VM".to_owned(alloc);
    }
    let outcome = call(config, vm, &POWERS, regs);
    format!(in alloc; "{outcome:?} {:?}", outcome.answer())
}

#[test]
fn each_call_at_and_past_its_bounds(rt: HostRuntime) -> Result<(), AllocError> {
    let alloc = rt.alloc();
    let text = sharing(alloc, [7, 6])?;
    let Some(Ok(checked)) = checked(alloc, text.as_str()) else {
        assert!(&rt; false, "refused");
        return Ok(());
    };
    for (shows, vm, regs, expected) in CALLS.as_slice() {
        check_row(&rt, alloc, &checked, (*shows, *vm, *regs, *expected))?;
    }
    Ok(())
}

fn check_row(
    rt: &impl Abort,
    alloc: Global,
    checked: &Checked,
    (shows, vm, regs, expected): Row,
) -> Result<(), AllocError> {
    let said = said_of(alloc, checked, vm, regs)?;
    assert!(rt; said.as_str() == expected, "{shows}: {said}");
    Ok(())
}
