//! Runs of several VMs: each shows what it shows alone, in every order of their steps.

use crate::runs::{FIVE, RUN, check, image_of, shelf_of_two, told};
use crate::samples::{Change, NOTHING_SHARED, changed};
use outside::MemShelf;
use sample_configs::TWO_VMS;
use std::alloc::Global;
use std::process::Abort;
use std::test::Fail;

/// `movz x0, #7` and `b .`
pub(crate) const SEVEN: [u32; 2] = [0xd280_00e0, 0x1400_0000];

/// `movz x0, #9`, `adr x1, .`, `strb w0, [x1, #64]`, `add x1, x1, #1` and a branch back to the store: it fills its memory.
const FILLING: [u32; 5] = [
    0xd280_0120,
    0x1000_0001,
    0x3901_0020,
    0x9100_0421,
    0x17ff_fffe,
];

/// The sample of two VMs that share nothing, with these changes.
fn separate(alloc: Global, changes: &[Change]) -> Result<String, Fail> {
    let both = changed(alloc, TWO_VMS, NOTHING_SHARED.as_slice())?;
    changed(alloc, both.as_str(), changes)
}

/// What a run of both VMs leaves, with these images over the sample.
pub(crate) fn told_of_two(
    alloc: Global,
    changes: &[Change],
    words: [&[u32]; 2],
    schedule: &str,
) -> Result<String, Fail> {
    let config = separate(alloc, changes)?;
    told_of(alloc, &config, words, schedule)
}

/// What a run of two VMs leaves, with these images.
pub(crate) fn told_of(
    alloc: Global,
    config: &str,
    words: [&[u32]; 2],
    schedule: &str,
) -> Result<String, Fail> {
    let a = image_of(alloc, words[0])?;
    let b = image_of(alloc, words[1])?;
    let images = [a.as_slice(), b.as_slice()];
    let names = ["a.bin", "b.bin"];
    let mut shelf = shelf_of_two(alloc, config.as_bytes(), names, images, schedule.as_bytes())?;
    told(alloc, &RUN, &mut shelf, &[])
}

/// What a row shows, changes of the sample, the schedule, and what the run of `FIVE` and `SEVEN` leaves.
#[rattlefmt::skip]
static BOTH: [(&str, &[Change], &str, &str); 8] = [
    ("both run", &[], "s 1 0\ns 0 0\ns 1 1\n",
        "status 0 entered 3 calls 4 faults 0
vm a
core 0 on
pc 0000000000100004
pstate 000003c5
x0 0000000000000005
console 0=
m 0000000000100000 a00080d2000000140000000000000000
end a
vm b
core 0 on
pc 0000000000140004
pstate 000003c5
x0 0000000000000007
console 1=
m 0000000000140000 e00080d2000000140000000000000000
end b
done
"),
    ("the second alone runs", &[], "s 1 0\n",
        "status 0 entered 1 calls 4 faults 0
vm a
core 0 on
pc 0000000000100000
pstate 000003c5
console 0=
m 0000000000100000 a00080d2000000140000000000000000
end a
vm b
core 0 on
pc 0000000000140004
pstate 000003c5
x0 0000000000000007
console 1=
m 0000000000140000 e00080d2000000140000000000000000
end b
done
"),
    ("the cores the other way round", &[("cores = [0]", "cores = [x]"), ("cores = [1]", "cores = [0]"), ("cores = [x]", "cores = [1]")], "s 0 3\n",
        "status 0 entered 1 calls 4 faults 0
vm a
core 0 on
pc 0000000000100000
pstate 000003c5
console 0=
m 0000000000100000 a00080d2000000140000000000000000
end a
vm b
core 0 on
pc 0000000000140004
pstate 000003c5
x0 0000000000000007
console 1=
m 0000000000140000 e00080d2000000140000000000000000
end b
done
"),
    ("a count that falls from core to core", &[], "s 0 5\ns 1 4\n", "status 8 entered 0 calls 4 faults 0\nbad schedule line 2 rule 4\n"),
    ("a core past the last", &[], "s 1 0\ns 2 0\n", "status 8 entered 0 calls 4 faults 0\nbad schedule line 2 rule 2\n"),
    ("an input to a port of no dev", &[("devs = [{ port = 1, irq = 40 }]\n", "")], "s 1 0\ni 1 65\n", "status 8 entered 0 calls 4 faults 0\nbad schedule line 2 rule 3\n"),
    ("too many runs", &[("cores = [16, 16]", "cores = [16, 2]")], "",
        "status 7 entered 0 calls 1 faults 0\ntoo many runs core 1 runs 3 entries 2\n"),
    ("a rule before too many runs", &[("cores = [16, 16]", "cores = [16, 2]"), ("name = \"b\"", "name = \"a\"")], "",
        "status 6 entered 0 calls 1 faults 0\nill-formed rule 9 vm 1 item 0 0x0+0x0 0x0+0x0\n"),
];

#[test]
fn both_vms(rt: HostRuntime) -> Result<(), Fail> {
    for (shows, changes, schedule, wanted) in BOTH.as_slice() {
        let told = told_of_two(rt.alloc(), changes, [&FIVE, &SEVEN], schedule)?;
        check(&rt, shows, &told, wanted);
    }
    Ok(())
}

/// The section of the first VM that stands in what a run left.
fn first_section(told: &str) -> &str {
    let (_status, report) = told.split_once('\n').unwrap_or(("", ""));
    let (section, _others) = report.split_once("vm b\n").unwrap_or(("", ""));
    section
}

/// Images of the second VM and schedules, in all of which core 0 takes the same steps at the same counts.
#[rattlefmt::skip]
static OTHERS: [(&str, &[u32], &str); 5] = [
    ("the other after it",           &SEVEN,   "s 0 1\ns 0 2\ns 0 7\ns 1 7\ns 1 8\n"),
    ("the other before it",           &SEVEN,   "s 1 0\ns 1 0\ns 0 1\ns 0 2\ns 0 7\n"),
    ("in turn with one that stores",  &FILLING, "s 1 0\ns 0 1\ns 1 1\ns 0 2\ns 1 3\ns 1 4\ns 1 5\ns 1 6\ns 0 7\n"),
    ("the other never runs",          &FILLING, "s 0 1\ns 0 2\ns 0 7\n"),
    ("the other has no instructions", &[],      "s 0 1\ns 0 2\ns 0 7\n"),
];

/// What the first VM shows after three steps of `FIVE`.
static SECTION: &str = "vm a
core 0 on
pc 0000000000100004
pstate 000003c5
x0 0000000000000005
console 0=
m 0000000000100000 a00080d2000000140000000000000000
end a
";

#[test]
fn a_vm_shows_the_same_beside_others(rt: HostRuntime) -> Result<(), Fail> {
    for (shows, image, schedule) in OTHERS.as_slice() {
        let told = told_of_two(rt.alloc(), &[], [&FIVE, image], schedule)?;
        check(&rt, shows, first_section(&told), SECTION);
    }
    Ok(())
}

/// `movz` and three `movk` make X0 0x1122334455667788, `movz` and `movk` make X1 0x180ffc, and `str x0, [x1]`.
#[rattlefmt::skip]
static STORING: [u32; 7] = [
    0xd28e_f100, 0xf2aa_acc0, 0xf2c6_6880, 0xf2e2_2440, 0xd2a0_0301, 0xf281_ff81, 0xf900_0020,
];

/// Memory of the first VM after its window.
const AFTER: Change = (
    "regions = [{ base = 0x100000, size = 0x10000, access = \"rwx\" }]\n",
    "regions = [{ base = 0x100000, size = 0x10000, access = \"rwx\" }, { base = 0x181000, size = 0x1000, access = \"rw\" }]\n",
);

/// A guard of the second VM over the end of its window.
const GUARD: Change = (
    "irqs = [60, 61] }]\n",
    "irqs = [60, 61] }]\nguards = [{ base = 0x180fc0, size = 0x40 }]\n",
);

/// The first VM's window can only be read.
const READ_ONLY: Change = (
    "access = \"rw\", irqs = [50, 51]",
    "access = \"r\", irqs = [50, 51]",
);

/// What the first VM shows after the store.
const STORED: &str = "vm a
core 0 on
pc 000000000010001c
pstate 000003c5
x0 1122334455667788
x1 0000000000180ffc
console 0=
m 0000000000100000 00f18ed2c0acaaf28068c6f24024e2f2
m 0000000000100010 0103a0d281ff81f2200000f900000000
m 0000000000180ff0 00000000000000000000000088776655
m 0000000000181000 44332211000000000000000000000000
end a
";

/// What it shows where the window can't be written: nothing is stored, and its core is parked at the store.
const PARKED: &str = "vm a
core 0 parked 93c0804c 0000000000180ffc
pc 0000000000100018
pstate 000003c5
x0 1122334455667788
x1 0000000000180ffc
console 0=
m 0000000000100000 00f18ed2c0acaaf28068c6f24024e2f2
m 0000000000100010 0103a0d281ff81f2200000f900000000
end a
";

/// What a row shows, changes of the sample of two VMs, and what the store of the first leaves: eight bytes, of which four are
/// in the window of both.
#[rattlefmt::skip]
static WINDOWS: [(&str, &[Change], u32, u8, &str, &str); 3] = [
    // shows                          changes               steps status
    ("the other sees its window",    &[AFTER],              7,    0,      STORED,
        "vm b
core 0 on
pc 0000000000140000
pstate 000003c5
console 1=
m 0000000000140000 e00080d2000000140000000000000000
m 0000000000180ff0 00000000000000000000000088776655
end b
done
"),
    ("a guard hides the end of it",  &[AFTER, GUARD],       7,    0,      STORED,
        "vm b
core 0 on
pc 0000000000140000
pstate 000003c5
console 1=
m 0000000000140000 e00080d2000000140000000000000000
end b
done
"),
    ("a window that is only read",   &[AFTER, READ_ONLY],   7,    0,      PARKED,
        "vm b
core 0 on
pc 0000000000140000
pstate 000003c5
console 1=
m 0000000000140000 e00080d2000000140000000000000000
end b
done
"),
];

#[test]
fn windows(rt: HostRuntime) -> Result<(), Fail> {
    let alloc = rt.alloc();
    let schedule = "s 0 0\ns 0 0\ns 0 0\ns 0 0\ns 0 0\ns 0 0\ns 0 0\n";
    for (shows, changes, steps, status, first, second) in WINDOWS.as_slice() {
        let config = changed(alloc, TWO_VMS, changes)?;
        let told = told_of(alloc, &config, [&STORING, &SEVEN], schedule)?;
        let wanted = format!(in alloc;
            "status {status} entered {steps} calls 4 faults 0\n{first}{second}"
        )?;
        check(&rt, shows, &told, &wanted);
    }
    Ok(())
}

/// Attempts of the second VM, and how it is parked: its core's line, with the syndrome and the fault address.
#[rattlefmt::skip]
static HOSTILE: [(&str, &[u32], &str); 11] = [
    ("a store into the other's memory",      &[0xd2a0_0201, 0xf900_0020],              "93c08044 0000000000100000"),
    ("a store to its last byte",             &[0xd2a0_0201, 0xf29f_ffe1, 0x3900_0020], "93000044 000000000010ffff"),
    ("a store that begins before it",        &[0xd2a0_01e1, 0xf29f_ff81, 0xf900_0020], "93c08044 00000000000ffffc"),
    ("a store that begins at its last byte", &[0xd2a0_0201, 0xf29f_ffe1, 0xf900_0020], "93c08044 000000000010ffff"),
    ("a pair at its end",                    &[0xd2a0_0201, 0xf29f_ff01, 0xa900_0020], "92000044 000000000010fff8"),
    ("a load from it",                       &[0xd2a0_0201, 0xf940_0020],              "93c08004 0000000000100000"),
    ("a branch into it",                     &[0xd2a0_0201, 0xd61f_0020],              "82000004 0000000000100000"),
    ("a store to its port",                  &[0xd2b3_8121, 0x3900_0020],              "93000044 000000009c090000"),
    ("a store to the hypervisor",            &[0xd280_0001, 0xf900_0020],              "93c0804c 0000000000000000"),
    ("a store that wraps",                   &[0x9280_0061, 0xf900_0020],              "93c08044 fffffffffffffffc"),
    // PRSELR, PRBAR, PRLAR and SCTLR: a region of its own over the other's memory, and the background
    ("EL1 regions of its own over it",
        &[0xd280_0082, 0xf2a0_0202, 0xd29f_f823, 0xf2a0_0203, 0xd280_0024, 0xf2a0_0044, 0xd518_623f, 0xd518_6802,
          0xd518_6823, 0xd518_1004, 0xd2a0_0201, 0xf900_0020],
        "93c08044 0000000000100000"),
];

/// The line of the core of the second VM that stands in what a run left.
fn second_core(told: &str) -> &str {
    let (_first, section) = told.split_once("vm b\n").unwrap_or(("", ""));
    let (line, _rest) = section.split_once('\n').unwrap_or(("", ""));
    line
}

/// Whatever the second VM tries against the first, it is parked, and the first shows what it shows alone.
#[test]
fn a_hostile_vm(rt: HostRuntime) -> Result<(), Fail> {
    let alloc = rt.alloc();
    let schedule = "s 0 0\ns 1 0\n".repeat(alloc, 14)?;
    for (shows, image, parked) in HOSTILE.as_slice() {
        let told = told_of_two(alloc, &[], [&FIVE, image], &schedule)?;
        let line = second_core(&told);
        let section = first_section(&told);
        let seen = format!(in alloc; "{section}{line}")?;
        let wanted = format!(in alloc; "{SECTION}core 0 parked {parked}")?;
        check(&rt, shows, &seen, &wanted);
    }
    Ok(())
}

/// The head of a configuration with eight cores and eight ports.
static EIGHT: &str = "version = 1
[platform]
banks = [{ base = 0x0, size = 0x200000 }]
cores = [3, 3, 3, 3, 3, 3, 3, 3]
gicd = 0xaf000000
gicr = 0xaf100000
ports = [
  { id = 0, base = 0x9c090000, spi = 32 }, { id = 1, base = 0x9c090040, spi = 33 },
  { id = 2, base = 0x9c090080, spi = 34 }, { id = 3, base = 0x9c0900c0, spi = 35 },
  { id = 4, base = 0x9c090100, spi = 36 }, { id = 5, base = 0x9c090140, spi = 37 },
  { id = 6, base = 0x9c090180, spi = 38 }, { id = 7, base = 0x9c0901c0, spi = 39 },
]
[hypervisor]
base = 0x0
size = 0x10000
";

/// The table of the VM whose number stands for `#`, which has the core and the port of the number and a megabyte's sixteenth.
static VM_TABLE: &str = "[[vm]]
name = \"vm#\"
image = \"vm#.bin\"
load = 0x1#0000
room = 0x1000
entry = 0x1#0000
cores = [#]
regions = [{ base = 0x1#0000, size = 0x10000, access = \"rwx\" }]
devs = [{ port = #, irq = 40 }]
";

/// What it shows after a step of `FIVE`.
static VM_SECTION: &str = "vm vm#
core 0 on
pc 00000000001#0004
pstate 000003c5
x0 0000000000000005
console #=
m 00000000001#0000 a00080d2000000140000000000000000
end vm#
";

/// The numbers of the VMs, each a digit.
static DIGITS: [&str; 8] = ["0", "1", "2", "3", "4", "5", "6", "7"];

/// A text with the number of a VM in the place of each `#`.
fn numbered(alloc: Global, text: &str, digit: &str) -> Result<String, Fail> {
    Ok(text.replace(alloc, "#", digit)?)
}

/// A shelf with a configuration of eight VMs, of which each has an image of these words, and a schedule.
fn shelf_of_eight(
    alloc: Global,
    config: &str,
    words: &[u32],
    schedule: &str,
) -> Result<MemShelf, Fail> {
    let image = image_of(alloc, words)?;
    let names = vec![in alloc;
        String::from_str(alloc, "config.toml")?,
        String::from_str(alloc, "schedule.txt")?,
        String::from_str(alloc, "vm0.bin")?,
        String::from_str(alloc, "vm1.bin")?,
        String::from_str(alloc, "vm2.bin")?,
        String::from_str(alloc, "vm3.bin")?,
        String::from_str(alloc, "vm4.bin")?,
        String::from_str(alloc, "vm5.bin")?,
        String::from_str(alloc, "vm6.bin")?,
        String::from_str(alloc, "vm7.bin")?,
    ]?;
    let contents = vec![in alloc;
        config.as_bytes().to_vec(alloc)?,
        schedule.as_bytes().to_vec(alloc)?,
        image.as_slice().to_vec(alloc)?,
        image.as_slice().to_vec(alloc)?,
        image.as_slice().to_vec(alloc)?,
        image.as_slice().to_vec(alloc)?,
        image.as_slice().to_vec(alloc)?,
        image.as_slice().to_vec(alloc)?,
        image.as_slice().to_vec(alloc)?,
        image,
    ]?;
    Ok(MemShelf::new(alloc, names, contents, Vec::new(alloc)))
}

#[test]
fn eight_vms(rt: HostRuntime) -> Result<(), Fail> {
    let alloc = rt.alloc();
    let mut config = String::from_str(alloc, EIGHT)?;
    let mut wanted = String::from_str(alloc, "status 0 entered 8 calls 10 faults 0\n")?;
    let mut schedule = String::new(alloc);
    for digit in DIGITS.as_slice() {
        config.push_str(&numbered(alloc, VM_TABLE, digit)?)?;
        wanted.push_str(&numbered(alloc, VM_SECTION, digit)?)?;
        schedule.push_str(&numbered(alloc, "s # 0\n", digit)?)?;
    }
    wanted.push_str("done\n")?;
    let mut shelf = shelf_of_eight(alloc, &config, &FIVE, &schedule)?;
    let told = told(alloc, &RUN, &mut shelf, &[])?;
    check(&rt, "eight VMs", &told, &wanted);
    Ok(())
}

/// One shared memory for all eight VMs, whose cores have an entry more for it.
static SHARED_BY_ALL: Change = (
    "cores = [3, 3, 3, 3, 3, 3, 3, 3]\n",
    "cores = [4, 4, 4, 4, 4, 4, 4, 4]\n",
);

static MEMORY: &str = "[[shmem]]\nbase = 0x190000\nsize = 0x1000\nevents = 1\n";

static WINDOW: &str = "ipcs = [{ shmem = 0, access = \"rw\", irqs = [50] }]\n";

/// `movz` and `movk x0, #0xc6000001`, `hvc #0`, `movz x1, #0x19, lsl #16`, `movz w0, #7` and `strb w0, [x1]`: it rings the event
/// and stores to the window.
#[rattlefmt::skip]
static RINGING: [u32; 6] = [0xd280_0020, 0xf2b8_c000, 0xd400_0002, 0xd2a0_0321, 0x5280_00e0, 0x3900_0020];

/// What a VM shows after the first has rung and stored, with its registers in the place of `@`.
static SHARING: &str = "vm vm#
core 0 on
@console #=
m 00000000001#0000 200080d200c0b8f2020000d42103a0d2
m 00000000001#0010 e0008052200000390000000000000000
m 0000000000190000 07000000000000000000000000000000
end vm#
";

/// The registers of the first.
static RANG: &str =
    "pc 0000000000100018\npstate 000003c5\nx0 0000000000000007\nx1 0000000000190000\n";

/// Those of each other.
static WAITS: &str = "pc 00000000001#0000\npstate 000003c5\n";

fn sharing_section(alloc: Global, digit: &str) -> Result<String, Fail> {
    let registers = if digit == "0" { RANG } else { WAITS };
    let section = SHARING.replace(alloc, "@", registers)?;
    numbered(alloc, &section, digit)
}

#[test]
fn eight_vms_on_one_memory(rt: HostRuntime) -> Result<(), Fail> {
    let alloc = rt.alloc();
    let mut config = changed(alloc, EIGHT, &[SHARED_BY_ALL])?;
    config.push_str(MEMORY)?;
    let mut wanted = String::from_str(alloc, "status 0 entered 6 calls 10 faults 0\n")?;
    for digit in DIGITS.as_slice() {
        config.push_str(&numbered(alloc, VM_TABLE, digit)?)?;
        config.push_str(WINDOW)?;
        wanted.push_str(&sharing_section(alloc, digit)?)?;
    }
    wanted.push_str("done\n")?;
    let schedule = "s 0 0\ns 0 0\ns 0 0\ns 0 0\ns 0 0\ns 0 0\n";
    let mut shelf = shelf_of_eight(alloc, &config, &RINGING, schedule)?;
    let told = told(alloc, &RUN, &mut shelf, &[])?;
    check(&rt, "eight VMs on one memory", &told, &wanted);
    Ok(())
}
