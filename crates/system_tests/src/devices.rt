//! Guests that drive device ports, input bytes, and generated workloads, by the whole program.

use crate::runs::{FOREVER, RUN, check, image_of, shelf_of, steps, told};
use crate::samples::{Change, DEVS, REGIONS, changed};
use crate::several::{told_of, told_of_two};
use outside::MemShelf;
use sample_configs::{ONE_VM, TWO_VMS};
use std::alloc::Global;
use std::process::Abort;
use std::test::Fail;

/// The port line of the sample.
const PORTS: &str = "ports = [{ id = 0, base = 0x9c090000, spi = 32 }]";

/// The sample's port as another of the standard list: the first scratch port, or the first ticker.
const SCRATCH: &[Change] = &[
    ("id = 0, base", "id = 8, base"),
    ("port = 0, irq", "port = 8, irq"),
];

const TICKER: &[Change] = &[
    ("id = 0, base", "id = 12, base"),
    ("port = 0, irq", "port = 12, irq"),
];

/// Two scratch ports side by side.
const TWO_SCRATCH: &[Change] = &[
    (
        PORTS,
        "ports = [{ id = 8, base = 0x9c090000, spi = 32 }, { id = 9, base = 0x9c090040, spi = 33 }]",
    ),
    (
        DEVS,
        "devs = [{ port = 8, irq = 40 }, { port = 9, irq = 41 }]\n",
    ),
];

/// A scratch port right after a region.
const AFTER_MEMORY: &[Change] = &[
    (PORTS, "ports = [{ id = 8, base = 0x200000, spi = 32 }]"),
    ("port = 0, irq", "port = 8, irq"),
    (
        REGIONS,
        "regions = [{ base = 0x100000, size = 0x10000, access = \"rwx\" }, { base = 0x1f0000, size = 0x10000, access = \"rw\" }]\n",
    ),
];

const GUARDED: &[Change] = &[(
    DEVS,
    "devs = [{ port = 0, irq = 40 }]\nguards = [{ base = 0x9c090000, size = 0x40 }]\n",
)];

/// What a row shows, changes of the sample, the words of its guest, the schedule, and two parts of its report.
pub(crate) type Guest = (
    &'static str,
    &'static [Change],
    &'static [u32],
    &'static str,
    [&'static str; 2],
);

#[rattlefmt::skip]
static GUESTS: [Guest; 22] = [
    // shows                                     changes         words                                                                    schedule                                             lines of the report
    ("an input byte waits",                      &[],            &[0xd2b3_8121, 0xb940_0422],                                              "i 0 65\ns 0 0\ns 0 0\n",                            ["x2 0000000000000001", "console 0="]),
    ("it is read",                               &[],            &[0xd2b3_8121, 0xb940_0022],                                              "i 0 65\ns 0 0\ns 0 0\n",                            ["x2 0000000000000041", "pc 0000000000100008"]),
    ("and waits no longer",                      &[],            &[0xd2b3_8121, 0xb940_0023, 0xb940_0422],                                 "i 0 65\ns 0 0\ns 0 0\ns 0 0\n",                     ["x3 0000000000000041\nconsole", "pc 000000000010000c"]),
    ("bytes come in their order",                &[],            &[0xd2b3_8121, 0xb940_0022, 0xb940_0023],                                 "i 0 65\ni 0 66\ns 0 0\ns 0 0\ns 0 0\n",             ["x2 0000000000000041\nx3 0000000000000042", ""]),
    ("an input between two loads",               &[],            &[0xd2b3_8121, 0xb940_0022, 0xb940_0023],                                 "s 0 0\ns 0 0\ni 0 66\ns 0 0\n",                     ["x1 000000009c090000\nx3 0000000000000042", ""]),
    ("a pair reads in address order",            &[],            &[0xd2b3_8121, 0x2940_0c22],                                              "i 0 65\ni 0 66\ns 0 0\ns 0 0\n",                    ["x2 0000000000000041\nx3 0000000000000001", ""]),
    ("the last byte by a pair",                  &[],            &[0xd2b3_8121, 0x2940_0c22],                                              "i 0 65\ns 0 0\ns 0 0\n",                            ["x2 0000000000000041\nconsole", ""]),
    ("8 bytes read 0 and take none",             &[],            &[0xd2b3_8121, 0xf940_0022, 0xb940_0023],                                 "i 0 65\ns 0 0\ns 0 0\ns 0 0\n",                     ["x1 000000009c090000\nx3 0000000000000041", ""]),
    ("a byte is put out",                        &[],            &[0xd2b3_8121, 0xd280_0d00, 0x3900_0020],                                 "s 0 0\ns 0 0\ns 0 0\n",                             ["console 0=68\n", ""]),
    ("a pair puts out its first element",        &[],            &[0xd2b3_8121, 0x5280_0d02, 0x5280_0d23, 0x2900_0c22],                    "s 0 0\ns 0 0\ns 0 0\ns 0 0\n",                      ["console 0=68\n", "pc 0000000000100010"]),
    ("a misaligned load of a port",              &[],            &[0xd2b3_8121, 0xb840_2022, 0xb940_0022],                                 "i 0 65\ns 0 0\ns 0 0\n",                            ["esr_el1 0000000096000021\nfar_el1 000000009c090002", "x1 000000009c090000\nelr_el1 0000000000100004"]),
    ("a misaligned store puts nothing out",      &[],            &[0xd2b3_8121, 0x7800_1021],                                              "s 0 0\ns 0 0\n",                                    ["esr_el1 0000000096000061\nfar_el1 000000009c090001", "console 0=\n"]),
    ("a refused pair touches no port",           &[],            &[0xd2b3_8121, 0x293f_8c22],                                              "s 0 0\ns 0 0\n",                                    ["core 0 parked 92000044 000000009c08fffc", "console 0=\n"]),
    ("a load past the port parks",               &[],            &[0xd2b3_8121, 0xb940_4022],                                              "i 0 65\ns 0 0\ns 0 0\n",                            ["core 0 parked 93820004 000000009c090040", "console 0=\n"]),
    ("a port under a guard takes inputs",        GUARDED,        &[0xd2b3_8121, 0xb940_0022],                                              "i 0 65\ns 0 0\ns 0 0\n",                            ["core 0 parked 93820004 000000009c090000", "console 0=\n"]),
    ("nothing is executed from a port",          &[],            &[0xd2b3_8121, 0xd61f_0020],                                              "s 0 0\ns 0 0\ns 0 0\n",                             ["core 0 parked 8200000c 000000009c090000", "console 0=\n"]),
    ("a scratch port keeps a word",              SCRATCH,        &[0xd2b3_8121, 0x5280_00e2, 0xb900_3c22, 0xb940_3c23],                    "s 0 0\ns 0 0\ns 0 0\ns 0 0\n",                      ["x2 0000000000000007\nx3 0000000000000007", ""]),
    ("a ticker counts inputs",                   TICKER,         &[0xd2b3_8121, 0xb940_0022],                                              "i 12 0\ni 12 9\ni 12 0\ns 0 0\ns 0 0\n",            ["x2 0000000000000003", ""]),
    ("a pair over two ports",                    TWO_SCRATCH,    &[0xd2b3_8121, 0x5280_00e2, 0x5280_0123, 0x2907_8c22, 0xb940_3c24, 0xb940_4025], "s 0 0\ns 0 0\ns 0 0\ns 0 0\ns 0 0\ns 0 0\n", ["x4 0000000000000007\nx5 0000000000000009", ""]),
    ("a pair stored in memory and a port",       AFTER_MEMORY,   &[0xd29f_ff81, 0xf2a0_03e1, 0x5280_00e4, 0x5280_0125, 0x2900_1424, 0x2940_0c22], "s 0 0\ns 0 0\ns 0 0\ns 0 0\ns 0 0\ns 0 0\n", ["x2 0000000000000007\nx3 0000000000000009", "m 00000000001ffff0 00000000000000000000000007000000"]),
    ("a wide load from memory into a port",      AFTER_MEMORY,   &[0xd29f_ff81, 0xf2a0_03e1, 0xf940_0022],                                 "s 0 0\ns 0 0\ns 0 0\n",                             ["esr_el1 0000000096000021\nfar_el1 00000000001ffffc", "x1 00000000001ffffc\nelr_el1 0000000000100008"]),
    ("a wide store from memory into a port",     AFTER_MEMORY,   &[0xd29f_ff81, 0xf2a0_03e1, 0xf900_0021],                                 "s 0 0\ns 0 0\ns 0 0\n",                             ["esr_el1 0000000096000061\nfar_el1 00000000001ffffc", "m 0000000000100000 81ff9fd2e103a0f2210000f900000000\nend a"]),
];

pub(crate) fn check_guest(rt: &impl Abort, alloc: Global, guest: &Guest) -> Result<(), Fail> {
    let (shows, changes, words, schedule, [one, other]) = *guest;
    let config = changed(alloc, ONE_VM, changes)?;
    let image = image_of(alloc, words)?;
    let mut shelf = shelf_of(alloc, config.as_bytes(), &image, schedule.as_bytes(), &[])?;
    let told = told(alloc, &RUN, &mut shelf, &[])?;
    let found = (
        told.as_str().starts_with("status 0 "),
        told.as_str().contains(one),
        told.as_str().contains(other),
    );
    assert_eq!(rt; found, (true, true, true), "{shows}: {told}");
    Ok(())
}

#[test]
fn guests_that_drive_ports(rt: HostRuntime) -> Result<(), Fail> {
    for guest in GUESTS.as_slice() {
        check_guest(&rt, rt.alloc(), guest)?;
    }
    Ok(())
}

/// They put out `hi` and `ok`, and go on for ever.
#[rattlefmt::skip]
static TALKING: [[u32; 6]; 2] = [
    [0xd2b3_8121, 0xd280_0d00, 0x3900_0020, 0xd280_0d20, 0x3900_0020, 0x1400_0000],
    [0xd2b3_8141, 0xd280_0de0, 0x3900_0020, 0xd280_0d60, 0x3900_0020, 0x1400_0000],
];

static TALKED: &str = "status 0 entered 12 calls 4 faults 0
vm a
core 0 on
pc 0000000000100014
pstate 000003c5
x0 0000000000000069
x1 000000009c090000
console 0=6869
m 0000000000100000 2181b3d2000d80d220000039200d80d2
m 0000000000100010 20000039000000140000000000000000
end a
vm b
core 0 on
pc 0000000000140014
pstate 000003c5
x0 000000000000006b
x1 000000009c0a0000
console 1=6f6b
m 0000000000140000 4181b3d2e00d80d220000039600d80d2
m 0000000000140010 20000039000000140000000000000000
end b
done
";

/// In turn, one after the other, and with inputs to each console that nobody reads.
static TURNS: [&str; 3] = [
    "s 0 0\ns 1 1\ns 0 2\ns 1 3\ns 0 4\ns 1 5\ns 0 6\ns 1 7\ns 0 8\ns 1 9\ns 0 10\ns 1 11\n",
    "s 1 0\ns 1 0\ns 1 0\ns 1 0\ns 1 0\ns 1 0\ns 0 0\ns 0 0\ns 0 0\ns 0 0\ns 0 0\ns 0 0\n",
    "i 0 1\ns 0 0\ni 1 2\ns 0 0\ns 0 0\ns 1 0\ns 1 0\ns 1 0\ns 1 0\ni 0 3\ns 0 0\ns 0 0\ns 0 0\ns 1 0\ns 1 0\n",
];

fn check_talk(rt: &impl Abort, alloc: Global, schedule: &str) -> Result<(), Fail> {
    let words = [TALKING[0].as_slice(), TALKING[1].as_slice()];
    let told = told_of_two(alloc, &[], words, schedule)?;
    check(rt, schedule, &told, TALKED);
    let told = told_of(alloc, TWO_VMS, words, schedule)?;
    check(rt, "with a window that nobody writes", &told, TALKED);
    Ok(())
}

#[test]
fn two_vms_talk_to_their_consoles(rt: HostRuntime) -> Result<(), Fail> {
    for schedule in TURNS.as_slice() {
        check_talk(&rt, rt.alloc(), schedule)?;
    }
    Ok(())
}

/// Bytes for one VM's console are nothing to the other, whose own are read.
#[test]
fn inputs_reach_their_vm(rt: HostRuntime) -> Result<(), Fail> {
    let alloc = rt.alloc();
    let reading: [u32; 2] = [0xd2b3_8121, 0xb940_0022];
    let words = [reading.as_slice(), FOREVER.as_slice()];
    let schedule = "i 1 67\ns 0 0\ni 0 65\ni 1 66\ns 0 0\n";
    let told = told_of_two(alloc, &[], words, schedule)?;
    let found = told.as_str().contains("x2 0000000000000041\nconsole 0=\n");
    assert!(rt; found, "{told}");
    Ok(())
}

/// As many bytes as there may be events.
#[test]
fn a_million_inputs(rt: HostRuntime) -> Result<(), Fail> {
    let alloc = rt.alloc();
    let image = image_of(alloc, &FOREVER)?;
    let schedule = "i 0 65\n".repeat(alloc, 1_000_000)?;
    let mut shelf = shelf_of(alloc, ONE_VM.as_bytes(), &image, schedule.as_bytes(), &[])?;
    let wanted = "status 0 entered 0 calls 3 faults 0
vm a
core 0 on
pc 0000000000100000
pstate 000003c5
console 0=
m 0000000000100000 00000014000000000000000000000000
end a
done
";
    check(
        &rt,
        "a million",
        &told(alloc, &RUN, &mut shelf, &[])?,
        wanted,
    );
    Ok(())
}

/// The summaries of workloads: the number, how many of its events are steps, and the text. They were computed by a program
/// of another language, from what docs/formats.md says of a workload.
#[rattlefmt::skip]
static WORKLOADS: [(&str, u32, &str); 4] = [
    ("0", 187549, "vm g0 x0 000000000219ea63 out 18676 sum 00245586
vm g1 x0 0000000000f6827a out 18832 sum 0024a198
done
"),
    ("1", 187349, "vm g0 x0 000000000150c8cd out 12520 sum 00185adc
vm g1 x0 00000000022284aa out 12487 sum 0018334c
vm g2 x0 00000000006dc09a out 12460 sum 001731f8
done
"),
    ("2", 187589, "vm g0 x0 0000000000e86dc0 out 9299 sum 00121762
vm g1 x0 000000000070e49c out 9431 sum 001221a8
vm g2 x0 0000000001251ad7 out 9390 sum 0012c47a
vm g3 x0 00000000015b32e5 out 9394 sum 001246b9
done
"),
    ("4294967295", 187420, "vm g0 x0 0000000003619efd out 18761 sum 0024a56d
vm g1 x0 00000000041de47e out 18721 sum 00246a07
done
"),
];

fn told_of_workload(alloc: Global, number: &str) -> Result<String, Fail> {
    let mut shelf = MemShelf::new(alloc, Vec::new(alloc), Vec::new(alloc), Vec::new(alloc));
    told(alloc, &["gen", number], &mut shelf, &[])
}

fn check_workload(
    rt: &impl Abort,
    alloc: Global,
    number: &str,
    entered: u32,
    text: &str,
) -> Result<(), Fail> {
    let wanted = format!(in alloc; "status 0 entered {entered} calls 0 faults 0\n{text}")?;
    check(rt, number, &told_of_workload(alloc, number)?, &wanted);
    Ok(())
}

#[test]
fn workloads(rt: HostRuntime) -> Result<(), Fail> {
    for (number, entered, text) in WORKLOADS.as_slice() {
        check_workload(&rt, rt.alloc(), number, *entered, text)?;
    }
    Ok(())
}

/// The same number gives the same text again.
#[test]
fn a_workload_twice(rt: HostRuntime) -> Result<(), Fail> {
    let alloc = rt.alloc();
    let first = told_of_workload(alloc, "7")?;
    check(&rt, "again", &told_of_workload(alloc, "7")?, &first);
    Ok(())
}

/// What makes the sample that of examples/echo, whose VM has a console and a scratch port side by side.
static ECHO_PORTS: &[Change] = &[
    (
        PORTS,
        "ports = [{ id = 0, base = 0x9c090000, spi = 32 }, { id = 8, base = 0x9c090040, spi = 33 }]",
    ),
    (
        DEVS,
        "devs = [{ port = 0, irq = 40 }, { port = 8, irq = 41 }]\n",
    ),
    (
        REGIONS,
        "regions = [{ base = 0x100000, size = 0x4000, access = \"rwx\" }]\n",
    ),
    ("room = 0x8000", "room = 0x1000"),
];

/// The image of examples/echo, which answers each line with its capitals, counts lines in the scratch port, and ends at an
/// empty one with their number in X0.
#[rattlefmt::skip]
static ECHO: [u32; 62] = [
    0xd2a0_0200, 0xf288_0000, 0x9100_001f, 0x9400_0005, 0x1400_0000, 0x0000_0000,
    0x0000_0000, 0x0000_0000, 0x5280_0002, 0xd2b3_8121, 0xb940_0420, 0x3607_ffe0,
    0xb940_0026, 0x1200_1cc6, 0x7100_28df, 0x5400_0100, 0x7101_405f, 0x54ff_ff20,
    0xb000_0007, 0x9100_00e7, 0x3822_48e6, 0x1100_0442, 0x17ff_fff4, 0xd280_0809,
    0xb000_0007, 0x5280_0008, 0x9100_00e7, 0xd2b3_8121, 0xf2b3_8129, 0x3400_03a2,
    0x8b22_40e2, 0xaa07_03e5, 0x3840_14a0, 0x5101_8404, 0x5100_8003, 0x1200_1c84,
    0x1200_1c63, 0x7100_689f, 0x1a80_3060, 0xb900_0020, 0xeb05_005f, 0x54ff_fee1,
    0xb900_0026, 0x1100_0508, 0x5280_0002, 0xb900_0128, 0xb940_0420, 0x3607_ffe0,
    0xb940_0020, 0x1200_1c00, 0x7100_281f, 0x5400_00c0, 0x7101_405f, 0x54ff_ff20,
    0x3822_48e0, 0x1100_0442, 0x17ff_fff6, 0x35ff_fca2, 0xd280_0800, 0xf2b3_8120,
    0xb940_0000, 0xd65f_03c0,
];

/// A schedule with each of these bytes for the console, and a hundred steps after it.
fn typed(alloc: Global, bytes: &[u8]) -> Result<Vec<u8>, Fail> {
    let mut schedule = Vec::new(alloc);
    for byte in bytes {
        let input = format!(in alloc; "i 0 {byte}\n")?;
        schedule.extend_from_slice(input.as_bytes())?;
        schedule.extend_from_slice(&steps(alloc, 100)?)?;
    }
    Ok(schedule)
}

#[test]
fn lines_are_answered(rt: HostRuntime) -> Result<(), Fail> {
    let alloc = rt.alloc();
    let config = changed(alloc, ONE_VM, ECHO_PORTS)?;
    let image = image_of(alloc, &ECHO)?;
    let schedule = typed(alloc, b"hello\nworld 42\n\n")?;
    let mut shelf = shelf_of(alloc, config.as_bytes(), &image, &schedule, &[])?;
    let told = told(alloc, &RUN, &mut shelf, &[])?;
    let found = (
        told.as_str().contains("\nx0 0000000000000002\n"),
        told.as_str()
            .contains("\nconsole 0=48454c4c4f0a574f524c442034320a\n"),
    );
    assert_eq!(rt; found, (true, true), "{told}");
    Ok(())
}
