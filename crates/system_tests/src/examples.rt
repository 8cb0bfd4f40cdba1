//! Three of the examples: one that has nothing in common with the sample but its form, and two of two VMs.

use crate::runs::{RUN, check, image_of, named_shelf, shelf_of_two, steps, told};
use crate::samples::{Change, changed};
use std::process::Abort;
use std::test::Fail;

/// The configuration of examples/second.
static CONFIG: &str = "version = 1
[platform]
banks = [{ base = 0x40000000, size = 0x100000 }, { base = 0x80000000, size = 0x400000 }]
cores = [8, 12]
gicd = 0x10000000
gicr = 0x10100000
ports = [{ id = 3, base = 0x1c000040, spi = 41 }]
[hypervisor]
base = 0x40000000
size = 0x20000
[[vm]]
name = \"sum-2\"
image = \"sum.bin\"
load = 0x80010000
room = 0x1000
entry = 0x80010040
cores = [0, 1]
regions = [
    { base = 0x80010000, size = 0x40, access = \"r\" },
    { base = 0x80010040, size = 0xffc0, access = \"rx\" },
    { base = 0x80030000, size = 0x8000, access = \"rw\" },
]
devs = [{ port = 3, irq = 57 }]
guards = [{ base = 0x80034000, size = 0x40 }]
";

/// Its image: eight numbers, and a program that adds them.
#[rattlefmt::skip]
static SUM: [u32; 28] = [
    0x0000_0001, 0x0000_0000, 0x0000_0002, 0x0000_0000, 0x0000_0004, 0x0000_0000,
    0x0000_0008, 0x0000_0000, 0x0000_0010, 0x0000_0000, 0x0000_0020, 0x0000_0000,
    0x0000_0040, 0x0000_0000, 0x0000_0000, 0x0000_0001, 0xd2b0_0061, 0x9140_2022,
    0x9100_005f, 0x10ff_fda3, 0xd280_0104, 0xf840_8465, 0x8b05_0000, 0xf100_0484,
    0x54ff_ffa1, 0xf900_0020, 0xf81f_0fe0, 0x1400_0000,
];

/// What it leaves after 50 steps.
static REPORT: &str = "status 0 entered 50 calls 3 faults 0
vm sum-2
core 0 on
pc 000000008001006c
pstate 600003c5
sp_el1 0000000080037ff0
x0 000000010000007f
x1 0000000080030000
x2 0000000080038000
x3 0000000080010040
x5 0000000100000000
core 1 off
pc 0000000000000000
pstate 000003c5
console 3=
m 0000000080010000 01000000000000000200000000000000
m 0000000080010010 04000000000000000800000000000000
m 0000000080010020 10000000000000002000000000000000
m 0000000080010030 40000000000000000000000001000000
m 0000000080010040 6100b0d2222040915f000091a3fdff10
m 0000000080010050 040180d2658440f80000058b840400f1
m 0000000080010060 a1ffff54200000f9e00f1ff800000014
m 0000000080030000 7f000000010000000000000000000000
m 0000000080037ff0 7f000000010000000000000000000000
end sum-2
done
";

#[test]
fn the_second_example(rt: HostRuntime) -> Result<(), Fail> {
    let alloc = rt.alloc();
    let image = image_of(alloc, &SUM)?;
    let schedule = steps(alloc, 50)?;
    let mut shelf = named_shelf(alloc, CONFIG.as_bytes(), "sum.bin", &image, &schedule, &[])?;
    check(
        &rt,
        "the second example",
        &told(alloc, &RUN, &mut shelf, &[])?,
        REPORT,
    );
    Ok(())
}

/// The configuration of examples/pair.
static PAIR: &str = "version = 1
[platform]
banks = [{ base = 0x0, size = 0x200000 }]
cores = [16, 16]
gicd = 0xaf000000
gicr = 0xaf100000
ports = [{ id = 0, base = 0x9c090000, spi = 32 }, { id = 1, base = 0x9c0a0000, spi = 33 }]
[hypervisor]
base = 0x0
size = 0x10000
[[shmem]]
base = 0x180000
size = 0x1000
events = 1
[[vm]]
name = \"sender\"
image = \"sender.bin\"
load = 0x100000
room = 0x1000
entry = 0x100000
cores = [0]
regions = [{ base = 0x100000, size = 0x10000, access = \"rwx\" }]
devs = [{ port = 0, irq = 40 }]
ipcs = [{ shmem = 0, access = \"rw\", irqs = [50] }]
[[vm]]
name = \"receiver\"
image = \"receiver.bin\"
load = 0x140000
room = 0x1000
entry = 0x140000
cores = [1]
regions = [{ base = 0x140000, size = 0x10000, access = \"rwx\" }]
devs = [{ port = 1, irq = 40 }]
ipcs = [{ shmem = 0, access = \"rw\", irqs = [50] }]
";

/// Puts a message into the window, and a flag after it.
#[rattlefmt::skip]
static SENDER: [u32; 12] = [
    0xd2a0_0301, 0x1000_0122, 0xd280_0003, 0x3863_6840, 0x3823_6820, 0x9100_0463,
    0x35ff_ffa0, 0x5280_0020, 0x3901_0020, 0x1400_0000, 0x6c6c_6568, 0x0000_006f,
];

/// Waits for the flag, adds the bytes of the message, overwrites the flag, and stores into the sender's memory.
#[rattlefmt::skip]
static RECEIVER: [u32; 14] = [
    0xd2a0_0301, 0x3941_0020, 0x34ff_ffe0, 0xd280_0003, 0xd280_0004, 0x3863_6820,
    0x8b00_0084, 0x9100_0463, 0x35ff_ffa0, 0x5280_1dc0, 0x3901_0020, 0xd2a0_0205,
    0x3900_00a0, 0x1400_0000,
];

/// What they leave after 100 steps each, in turn.
static PAIR_REPORT: &str = "status 0 entered 161 calls 4 faults 0
vm sender
core 0 on
pc 0000000000100024
pstate 000003c5
x0 0000000000000001
x1 0000000000180000
x2 0000000000100028
x3 0000000000000006
console 0=
m 0000000000100000 0103a0d222010010030080d240686338
m 0000000000100010 2068233863040091a0ffff3520008052
m 0000000000100020 200001390000001468656c6c6f000000
m 0000000000180000 68656c6c6f0000000000000000000000
m 0000000000180040 ee000000000000000000000000000000
end sender
vm receiver
core 0 parked 93000044 0000000000100000
pc 0000000000140030
pstate 000003c5
x0 00000000000000ee
x1 0000000000180000
x3 0000000000000006
x4 0000000000000214
x5 0000000000100000
console 1=
m 0000000000140000 0103a0d220004139e0ffff34030080d2
m 0000000000140010 040080d2206863388400008b63040091
m 0000000000140020 a0ffff35c01d8052200001390502a0d2
m 0000000000140030 a0000039000000140000000000000000
m 0000000000180000 68656c6c6f0000000000000000000000
m 0000000000180040 ee000000000000000000000000000000
end receiver
done
";

#[test]
fn the_example_of_a_pair(rt: HostRuntime) -> Result<(), Fail> {
    let alloc = rt.alloc();
    let sender = image_of(alloc, &SENDER)?;
    let receiver = image_of(alloc, &RECEIVER)?;
    let images = [sender.as_slice(), receiver.as_slice()];
    let names = ["sender.bin", "receiver.bin"];
    let schedule = "s 0 0\ns 1 0\n".repeat(alloc, 100)?;
    let mut shelf = shelf_of_two(alloc, PAIR.as_bytes(), names, images, schedule.as_bytes())?;
    let told = told(alloc, &RUN, &mut shelf, &[])?;
    check(&rt, "the example of a pair", &told, PAIR_REPORT);
    Ok(())
}

/// What makes the configuration of examples/mail out of that of examples/pair.
static MAIL: [Change; 6] = [
    ("cores = [16, 16]", "cores = [16, 16, 16]"),
    ("\"sender\"", "\"client\""),
    ("\"sender.bin\"", "\"client.bin\""),
    ("\"receiver\"", "\"server\""),
    ("\"receiver.bin\"", "\"server.bin\""),
    ("cores = [1]", "cores = [1, 2]"),
];

/// Sends four words, prints the answers, and turns its VM off.
#[rattlefmt::skip]
static CLIENT: [u32; 98] = [
    0xd2a0_0220, 0xf280_0000, 0x9100_001f, 0x9400_0005, 0x1400_0000, 0x0000_0000,
    0x0000_0000, 0x0000_0000, 0x9000_0004, 0x9104_e084, 0xd280_0027, 0x9101_4088,
    0xd2a0_0306, 0xf2b8_c007, 0xb940_00c5, 0xb940_04c0, 0x4b00_00a0, 0x7100_0c1f,
    0x54ff_ff88, 0xd37c_04a3, 0xd280_0000, 0x9146_0063, 0x8b20_4061, 0x3860_6882,
    0x9100_0400, 0x3900_4022, 0xf100_401f, 0x54ff_ff61, 0x1100_04a5, 0xaa07_03e0,
    0xd280_0001, 0xd280_0002, 0xd280_0003, 0xb900_00c5, 0xd400_0002, 0x9100_4084,
    0xeb08_009f, 0x54ff_fd21, 0xb000_0002, 0xd280_0a05, 0x9100_0042, 0x5280_0087,
    0xf2a0_0305, 0xd2b3_8126, 0x5280_0148, 0xb940_04a4, 0xb940_00a0, 0x6b00_009f,
    0x54ff_ffa0, 0xd37c_0483, 0xd280_0000, 0x8b03_00a3, 0x8b20_4061, 0x3940_4021,
    0x3820_6841, 0x9100_0400, 0xf100_401f, 0x54ff_ff61, 0x1100_0484, 0xb900_04a4,
    0x3900_3c5f, 0xaa02_03e1, 0x3940_0040, 0x3400_0080, 0xb900_00c0, 0x3840_1c20,
    0x35ff_ffc0, 0xb900_00c8, 0x7100_04e7, 0x54ff_fd01, 0xd280_0100, 0xd280_0001,
    0xf2b0_8000, 0xd280_0002, 0xd280_0003, 0xd400_0003, 0x5280_0000, 0xd65f_03c0,
    0x7761_7264, 0x0000_7265, 0x0000_0000, 0x0000_0000, 0x6572_7473, 0x6465_7373,
    0x0000_0000, 0x0000_0000, 0x696c_6564, 0x0072_6576, 0x0000_0000, 0x0000_0000,
    0x6576_696c, 0x0000_0000, 0x0000_0000, 0x0000_0000, 0x0000_0000, 0x0000_0000,
    0x0000_0000, 0x0000_0000,
];

/// Prints each word, and answers with the word backwards, for which it turns its second core on.
#[rattlefmt::skip]
static SERVER: [u32; 139] = [
    0xd2a0_02a0, 0xf280_0000, 0x9100_001f, 0x9400_002d, 0x1400_0000, 0x0000_0000,
    0x0000_0000, 0x0000_0000, 0x3940_0001, 0x3400_0381, 0x5280_0004, 0xd503_201f,
    0x1100_0483, 0x2a04_03e2, 0xaa03_03e4, 0x3863_4801, 0x35ff_ff81, 0xb000_0006,
    0x9100_00c6, 0x8b03_00c3, 0x0b06_0042, 0xaa06_03e1, 0x3400_00e4, 0xd503_201f,
    0x4b01_0045, 0x3865_4805, 0x3800_1425, 0xeb03_003f, 0x54ff_ff81, 0xd280_0040,
    0xd280_0001, 0xf2b0_8000, 0xd280_0002, 0xd280_0003, 0x3824_48df, 0xd400_0003,
    0xd65f_03c0, 0xb000_0006, 0x9100_00c6, 0x5280_0004, 0xd280_0040, 0xd280_0001,
    0xf2b0_8000, 0xd280_0002, 0xd280_0003, 0x3824_48df, 0xd400_0003, 0xd65f_03c0,
    0xb000_0005, 0x9100_00a5, 0x9000_000d, 0xd280_006f, 0xd280_008a, 0xd280_0a07,
    0xd280_002c, 0x9100_40a4, 0x9108_31ad, 0x5280_0009, 0xd2a0_0308, 0xf2b8_800f,
    0xd2b3_814b, 0x5280_014e, 0xf2b8_800a, 0xf2a0_0307, 0xf2b8_c00c, 0xd503_201f,
    0xb940_0503, 0xb940_0100, 0x6b00_007f, 0x54ff_ffa0, 0xd37c_0462, 0xd280_0000,
    0x9146_0042, 0xd503_201f, 0x8b20_4041, 0x3940_4021, 0x3820_6881, 0x9100_0400,
    0xf100_401f, 0x54ff_ff61, 0x3940_0080, 0x1100_0463, 0xb900_0503, 0x3900_3c9f,
    0x3400_05a0, 0xaa0f_03e0, 0xaa0d_03e2, 0xaa04_03e3, 0xd280_0021, 0xd400_0003,
    0x3940_0080, 0xaa04_03e1, 0x3400_00a0, 0xd503_201f, 0xb900_0160, 0x3840_1c20,
    0x35ff_ffc0, 0xb900_016e, 0xaa0a_03e0, 0xd280_0021, 0xd280_0002, 0xd280_0003,
    0xd400_0003, 0xeb01_001f, 0x54ff_ff41, 0xb940_00e6, 0xb940_04e0, 0x4b00_00c0,
    0x7100_0c1f, 0x54ff_ff88, 0xd37c_04c3, 0xd280_0000, 0x8b03_00e3, 0xd503_201f,
    0x8b20_4061, 0x3860_68a2, 0x9100_0400, 0x3900_4022, 0xf100_401f, 0x54ff_ff61,
    0x1100_04c6, 0xaa0c_03e0, 0xd280_0001, 0xd280_0002, 0xd280_0003, 0xb900_00e6,
    0xd400_0002, 0x1100_0529, 0x17ff_ffc2, 0x2a09_03e0, 0xd65f_03c0, 0xd2a0_02a1,
    0xf280_0001, 0xd538_00a2, 0x9240_1c42, 0xcb02_3021, 0x9100_003f, 0x97ff_ff7f,
    0x1400_0000,
];

/// What they leave, in the order of the report and without the lines of their images.
static MAIL_REPORT: [&str; 3] = [
    "vm client
core 0 off
pc 000000000010012c
pstate 600003c5
sp_el1 0000000000110000
x0 0000000084000008
x4 0000000000000004
x5 0000000000180050
x6 000000009c090000
x8 000000000000000a
x30 0000000000100010
console 0=7265776172640a64657373657274730a726576696c65640a6576696c0a
",
    "
m 0000000000101000 6576696c006564000000000000000000
m 0000000000180000 05000000050000000000000000000000
m 0000000000180020 73747265737365640000000000000000
m 0000000000180030 64656c69766572000000000000000000
m 0000000000180040 6c697665000000000000000000000000
m 0000000000180050 04000000040000000000000000000000
m 0000000000180060 72657761726400000000000000000000
m 0000000000180070 64657373657274730000000000000000
m 0000000000180080 726576696c6564000000000000000000
m 0000000000180090 6576696c006564000000000000000000
end client
vm server
core 0 on
pc 0000000000140010
pstate 600003c5
sp_el1 0000000000150000
x0 0000000000000004
x2 0000000000180000
x3 0000000000000005
x4 0000000000141010
x5 0000000000141000
x6 0000000000000004
x7 0000000000180050
x8 0000000000180000
x9 0000000000000004
x10 00000000c4000004
x11 000000009c0a0000
x12 00000000c6000001
x13 000000000014020c
x14 000000000000000a
x15 00000000c4000003
x30 0000000000140010
core 1 off
pc 000000000014008c
pstate 600003c5
sp_el1 000000000014f000
x0 0000000084000002
x4 0000000000000004
x5 000000000000006c
x6 0000000000141000
x30 0000000000140228
console 1=6472617765720a73747265737365640a64656c697665720a6c6976650a
",
    "
m 0000000000141000 6576696c006564000000000000000000
m 0000000000180000 05000000050000000000000000000000
m 0000000000180020 73747265737365640000000000000000
m 0000000000180030 64656c69766572000000000000000000
m 0000000000180040 6c697665000000000000000000000000
m 0000000000180050 04000000040000000000000000000000
m 0000000000180060 72657761726400000000000000000000
m 0000000000180070 64657373657274730000000000000000
m 0000000000180080 726576696c6564000000000000000000
m 0000000000180090 6576696c006564000000000000000000
end server
done
",
];

#[test]
fn the_example_of_mail(rt: HostRuntime) -> Result<(), Fail> {
    let alloc = rt.alloc();
    let config = changed(alloc, PAIR, MAIL.as_slice())?;
    let client = image_of(alloc, &CLIENT)?;
    let server = image_of(alloc, &SERVER)?;
    let images = [client.as_slice(), server.as_slice()];
    let names = ["client.bin", "server.bin"];
    let turns = "s 0 0\ns 0 0\ns 1 0\ns 1 0\ns 1 0\ns 2 0\ns 2 0\n";
    let schedule = turns.repeat(alloc, 628)?;
    let mut shelf = shelf_of_two(alloc, config.as_bytes(), names, images, schedule.as_bytes())?;
    let told = told(alloc, &RUN, &mut shelf, &[])?;
    for part in MAIL_REPORT.as_slice() {
        assert_eq!(rt;
            told.as_str().contains(*part),
            true,
            "{part} isn't in {told}"
        );
    }
    Ok(())
}
