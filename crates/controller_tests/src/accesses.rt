//! Each register of the emulated controller by each width, at and beside its place. The expected values were worked out by
//! hand from the table of registers in docs/machine.md: a register answers at its widths, and all else reads 0 and ignores
//! what is stored.

use crate::boards::{ONE_CORE, TWO_CORES};
use crate::touches::{
    GICD, GICR, GICR_1, Ignored, SGI, SGI_1, Swept, Touched, check_all, check_ignored, check_sweeps,
};
use std::test::Fail;

#[rattlefmt::skip]
static TOUCHED: [Touched; 11] = [
    // shows, stores, loads, lines of X2 and after it
    ("the distributor's control",
        &[(4, GICD, 0xff)],
        &[(4, GICD)], "x2 0000000000000052\n"),
    ("a 1 enables, a 0 leaves",
        &[(4, GICD + 0x104, 0xf0), (4, GICD + 0x104, 0x0f), (4, GICD + 0x104, 0)],
        &[(4, GICD + 0x104), (4, GICD + 0x184), (4, GICD + 0x108)], "x2 00000000000000ff\nx3 00000000000000ff\n"),
    ("a 1 disables, a 0 leaves",
        &[(4, GICD + 0x104, 0xff), (4, GICD + 0x184, 0x3c), (4, GICD + 0x184, 0)],
        &[(4, GICD + 0x104), (4, GICD + 0x184)], "x2 00000000000000c3\nx3 00000000000000c3\n"),
    ("a 1 makes pending, a 0 leaves",
        &[(4, GICD + 0x208, 0xf0), (4, GICD + 0x208, 0x0f), (4, GICD + 0x208, 0)],
        &[(4, GICD + 0x208), (4, GICD + 0x288), (4, GICD + 0x204)], "x2 00000000000000ff\nx3 00000000000000ff\n"),
    ("a 1 ends pending, a 0 leaves",
        &[(4, GICD + 0x208, 0xff), (4, GICD + 0x288, 0x3c), (4, GICD + 0x288, 0)],
        &[(4, GICD + 0x208), (4, GICD + 0x288)], "x2 00000000000000c3\nx3 00000000000000c3\n"),
    ("a core's own: enabled",
        &[(4, SGI + 0x100, 0xff), (4, SGI + 0x180, 0x3c)],
        &[(4, SGI + 0x100), (4, SGI + 0x180)], "x2 00000000000000c3\nx3 00000000000000c3\n"),
    ("a core's own: pending",
        &[(4, SGI + 0x200, 0xff), (4, SGI + 0x280, 0x3c)],
        &[(4, SGI + 0x200), (4, SGI + 0x280)], "x2 00000000000000c3\nx3 00000000000000c3\n"),
    ("a byte of four priorities",
        &[(1, GICD + 0x429, 0xff)],
        &[(4, GICD + 0x428), (1, GICD + 0x428), (1, GICD + 0x429), (1, GICD + 0x42a)], "x2 000000000000f800\nx4 00000000000000f8\n"),
    ("four priorities at once",
        &[(4, GICD + 0x42c, 0x1234_5678)],
        &[(4, GICD + 0x42c), (1, GICD + 0x42c), (1, GICD + 0x42f)], "x2 0000000010305078\nx3 0000000000000078\nx4 0000000000000010\n"),
    ("priorities aren't enabled ids",
        &[(4, GICD + 0x428, 0xffff_ffff)],
        &[(4, GICD + 0x104), (4, GICD + 0x108), (4, GICD + 0x204), (4, GICD + 0x208)], ""),
    ("a store has the low bytes of its register",
        &[(4, GICD + 0x104, 0xffff_ffff_0000_0001), (1, GICD + 0x428, 0x1_0010)],
        &[(4, GICD + 0x104), (4, GICD + 0x428)], "x2 0000000000000001\nx3 0000000000000010\n"),
];

#[test]
fn stored_and_loaded(rt: HostRuntime) -> Result<(), Fail> {
    check_all(&rt, rt.alloc(), ONE_CORE, TOUCHED.as_slice())
}

#[rattlefmt::skip]
static SWEPT: [Swept; 49] = [
    // shows, stores, the first of eight bytes, lines of what they read: X2 to X9 by bytes, X10 to X13 by halves, X14 and X15
    // by words, X16 at once
    ("the distributor is off; its type",
        &[], GICD, "x14 0000000000000050\nx15 0000000000480002\n"),
    ("the distributor is on",
        &[(4, GICD, 0xff)], GICD, "x14 0000000000000052\nx15 0000000000480002\n"),
    ("and off again",
        &[(4, GICD, 2), (4, GICD, 0xffff_fffd)], GICD, "x14 0000000000000050\nx15 0000000000480002\n"),
    ("its type can't be written",
        &[(4, GICD + 0x4, 0xffff_ffff)], GICD, "x14 0000000000000050\nx15 0000000000480002\n"),
    ("beside its type",
        &[(4, GICD + 0x8, 0xffff_ffff), (4, GICD + 0xc, 0xffff_ffff)], GICD + 0x8, ""),
    ("32 to 63 are enabled",
        &[(4, GICD + 0x104, 0xffff_ffff), (4, GICD + 0x108, 0x8000_0001)], GICD + 0x100, "x15 00000000ffffffff\n"),
    ("64 and 95 are enabled",
        &[(4, GICD + 0x104, 0xffff_ffff), (4, GICD + 0x108, 0x8000_0001)], GICD + 0x108, "x14 0000000080000001\n"),
    ("no id is past 95",
        &[(4, GICD + 0x10c, 0xffff_ffff), (4, GICD + 0x110, 0xffff_ffff)], GICD + 0x110, ""),
    ("32 to 63, to be disabled",
        &[(4, GICD + 0x104, 0xffff_ffff), (4, GICD + 0x108, 0x8000_0001)], GICD + 0x180, "x15 00000000ffffffff\n"),
    ("64 and 95, to be disabled",
        &[(4, GICD + 0x104, 0xffff_ffff), (4, GICD + 0x108, 0x8000_0001)], GICD + 0x188, "x14 0000000080000001\n"),
    ("before the first of these",
        &[(4, GICD + 0x104, 0xffff_ffff), (4, GICD + 0x108, 0x8000_0001)], GICD + 0x178, ""),
    ("after the last of these",
        &[(4, GICD + 0x104, 0xffff_ffff), (4, GICD + 0x108, 0x8000_0001)], GICD + 0x190, ""),
    ("32 to 63 are pending",
        &[(4, GICD + 0x204, 0xffff_ffff), (4, GICD + 0x208, 0x8000_0001)], GICD + 0x200, "x15 00000000ffffffff\n"),
    ("64 and 95 are pending",
        &[(4, GICD + 0x204, 0xffff_ffff), (4, GICD + 0x208, 0x8000_0001)], GICD + 0x208, "x14 0000000080000001\n"),
    ("before the first pending",
        &[(4, GICD + 0x204, 0xffff_ffff), (4, GICD + 0x208, 0x8000_0001)], GICD + 0x1f8, ""),
    ("after the last pending",
        &[(4, GICD + 0x210, 0xffff_ffff)], GICD + 0x210, ""),
    ("32 to 63, to be pending no more",
        &[(4, GICD + 0x204, 0xffff_ffff), (4, GICD + 0x208, 0x8000_0001)], GICD + 0x280, "x15 00000000ffffffff\n"),
    ("64 and 95, to be pending no more",
        &[(4, GICD + 0x204, 0xffff_ffff), (4, GICD + 0x208, 0x8000_0001)], GICD + 0x288, "x14 0000000080000001\n"),
    ("no register of what is active",
        &[(4, GICD + 0x204, 0xffff_ffff), (4, GICD + 0x208, 0x8000_0001), (4, GICD + 0x104, 0xffff_ffff), (4, GICD + 0x108, 0x8000_0001)], GICD + 0x300, ""),
    ("no register of what is active, second word",
        &[(4, GICD + 0x204, 0xffff_ffff), (4, GICD + 0x208, 0x8000_0001), (4, GICD + 0x104, 0xffff_ffff), (4, GICD + 0x108, 0x8000_0001)], GICD + 0x308, ""),
    ("what is enabled isn't pending",
        &[(4, GICD + 0x104, 0xffff_ffff), (4, GICD + 0x108, 0x8000_0001)], GICD + 0x200, ""),
    ("what is pending isn't enabled",
        &[(4, GICD + 0x204, 0xffff_ffff), (4, GICD + 0x208, 0x8000_0001)], GICD + 0x100, ""),
    ("0 to 31 are enabled elsewhere",
        &[(4, SGI + 0x100, 0xffff_ffff), (4, GICD + 0x100, 0xffff_ffff)], GICD + 0x100, ""),
    ("the distributor has no priorities of 0 to 31",
        &[(4, GICD + 0x400, 0xffff_ffff), (4, GICD + 0x404, 0xffff_ffff)], GICD + 0x400, ""),
    ("nor of 24 to 31",
        &[(4, GICD + 0x418, 0xffff_ffff), (4, GICD + 0x41c, 0xffff_ffff)], GICD + 0x418, ""),
    ("the first priorities",
        &[(4, GICD + 0x420, 0xffff_ffff), (4, GICD + 0x424, 0x8810_2f07)], GICD + 0x420, "x2 00000000000000f8\nx3 00000000000000f8\nx4 00000000000000f8\nx5 00000000000000f8\nx7 0000000000000028\nx8 0000000000000010\nx9 0000000000000088\nx14 00000000f8f8f8f8\nx15 0000000088102800\n"),
    ("the last priorities",
        &[(4, GICD + 0x458, 0x4048_5058), (1, GICD + 0x45f, 0x1ff)], GICD + 0x458, "x2 0000000000000058\nx3 0000000000000050\nx4 0000000000000048\nx5 0000000000000040\nx9 00000000000000f8\nx14 0000000040485058\nx15 00000000f8000000\n"),
    ("no priority is past 95's",
        &[(4, GICD + 0x460, 0xffff_ffff), (1, GICD + 0x464, 0xff)], GICD + 0x460, ""),
    ("no routes of 0 to 31",
        &[(8, GICD + 0x6000, 1)], GICD + 0x6000, ""),
    ("the route of 32",
        &[(8, GICD + 0x6100, 1)], GICD + 0x6100, ""),
    ("the route of 95",
        &[(8, GICD + 0x62f8, 0x8000_0000)], GICD + 0x62f8, ""),
    ("the distributor's last bytes",
        &[(8, GICD + 0xfff8, 0xffff_ffff)], GICD + 0xfff8, ""),
    ("a core's own ids are enabled",
        &[(4, SGI + 0x100, 0xf000_000f)], SGI + 0x100, "x14 00000000f000000f\n"),
    ("and are to be disabled",
        &[(4, SGI + 0x100, 0xf000_000f)], SGI + 0x180, "x14 00000000f000000f\n"),
    ("a core's own ids are pending",
        &[(4, SGI + 0x200, 0xf000_000f)], SGI + 0x200, "x14 00000000f000000f\n"),
    ("and are to be pending no more",
        &[(4, SGI + 0x200, 0xf000_000f)], SGI + 0x280, "x14 00000000f000000f\n"),
    ("after a core's enabled ids",
        &[(4, SGI + 0x104, 0xffff_ffff), (4, SGI + 0x108, 0xffff_ffff)], SGI + 0x108, ""),
    ("before a core's priorities",
        &[(4, SGI + 0x3f8, 0xffff_ffff), (4, SGI + 0x3fc, 0xffff_ffff)], SGI + 0x3f8, ""),
    ("the first priorities of a core",
        &[(4, SGI + 0x400, 0xff80_4008), (1, SGI + 0x407, 0x7f)], SGI + 0x400, "x2 0000000000000008\nx3 0000000000000040\nx4 0000000000000080\nx5 00000000000000f8\nx9 0000000000000078\nx14 00000000f8804008\nx15 0000000078000000\n"),
    ("its last priorities",
        &[(4, SGI + 0x41c, 0xffff_ffff)], SGI + 0x418, "x6 00000000000000f8\nx7 00000000000000f8\nx8 00000000000000f8\nx9 00000000000000f8\nx15 00000000f8f8f8f8\n"),
    ("after a core's priorities",
        &[(4, SGI + 0x420, 0xffff_ffff), (1, SGI + 0x424, 0xff)], SGI + 0x420, ""),
    ("a core's second frame has no control",
        &[(4, GICD, 2), (4, SGI, 0xffff_ffff)], SGI, ""),
    ("the last bytes of a core's second frame",
        &[(8, SGI + 0xfff8, 0xffff_ffff)], SGI + 0xfff8, ""),
    ("a redistributor has no control",
        &[(4, GICD, 2), (4, GICR, 0xffff_ffff), (4, GICR + 0x4, 0xffff_ffff)], GICR, ""),
    ("the type of the one redistributor",
        &[], GICR + 0x8, "x14 0000000000000010\nx16 0000000000000010\n"),
    ("it can't be written",
        &[(4, GICR + 0x8, 0), (4, GICR + 0xc, 0xffff_ffff), (8, GICR + 0x8, 0xffff_ffff)], GICR + 0x8, "x14 0000000000000010\nx16 0000000000000010\n"),
    ("after its type",
        &[(8, GICR + 0x10, 0xffff_ffff)], GICR + 0x10, ""),
    ("its first frame has no ids",
        &[(4, SGI + 0x100, 0xffff_ffff), (4, GICR + 0x100, 0xffff_ffff)], GICR + 0x100, ""),
    ("the last bytes of its first frame",
        &[(8, GICR + 0xfff8, 0xffff_ffff)], GICR + 0xfff8, ""),
];

#[test]
fn loaded_by_each_width(rt: HostRuntime) -> Result<(), Fail> {
    check_sweeps(&rt, rt.alloc(), ONE_CORE, SWEPT.as_slice())
}

#[rattlefmt::skip]
static SWEPT_OF_TWO: [Swept; 10] = [
    // shows, stores, the first of eight bytes, lines of what they read
    ("the type of a redistributor that isn't the last",
        &[], GICR + 8, ""),
    ("the type of the last",
        &[], GICR_1 + 8, "x14 0000000000000110\nx15 0000000000000001\nx16 0000000100000110\n"),
    ("the other core's own ids",
        &[(4, SGI_1 + 0x100, 0xf0f0)], SGI_1 + 0x100, "x14 000000000000f0f0\n"),
    ("they aren't this core's",
        &[(4, SGI_1 + 0x100, 0xf0f0)], SGI + 0x100, ""),
    ("nor the distributor's",
        &[(4, SGI_1 + 0x100, 0xf0f0)], GICD + 0x100, ""),
    ("this core's aren't the other's",
        &[(4, SGI + 0x200, 0xffff_ffff)], SGI_1 + 0x200, ""),
    ("what is pending at the other core",
        &[(4, SGI_1 + 0x200, 0xffff_ffff), (4, SGI_1 + 0x280, 0xffff)], SGI_1 + 0x280, "x14 00000000ffff0000\n"),
    ("priorities of the other core",
        &[(1, SGI_1 + 0x403, 0xff)], SGI_1 + 0x400, "x5 00000000000000f8\nx14 00000000f8000000\n"),
    ("they aren't this core's priorities",
        &[(1, SGI_1 + 0x403, 0xff)], SGI + 0x400, ""),
    ("the last bytes of all frames",
        &[(8, SGI_1 + 0xfff8, 0xffff_ffff)], SGI_1 + 0xfff8, ""),
];

#[test]
fn loaded_by_each_width_from_two_redistributors(rt: HostRuntime) -> Result<(), Fail> {
    check_sweeps(&rt, rt.alloc(), TWO_CORES, SWEPT_OF_TWO.as_slice())
}

const NO_WORDS: &[u32] = &[1, 2, 8];

const HALVES: &[u32] = &[2, 8];

const ALL: &[u32] = &[1, 2, 4, 8];

#[rattlefmt::skip]
static IGNORED: [Ignored; 22] = [
    // shows, a store before, widths that are ignored, the first of eight bytes, what is stored there, two loads and their lines
    ("the control, which is off",
        (4, GICD, 0), NO_WORDS, GICD, 0xffff_ffff_ffff_ffff, [(4, GICD), (4, GICD + 0x4)], "x2 0000000000000050\nx3 0000000000480002\n"),
    ("the control, which is on",
        (4, GICD, 2), NO_WORDS, GICD, 0, [(4, GICD), (4, GICD + 0x4)], "x2 0000000000000052\nx3 0000000000480002\n"),
    ("enabling 32 to 63",
        (4, GICD, 0), NO_WORDS, GICD + 0x100, 0xffff_ffff_ffff_ffff, [(4, GICD + 0x104), (4, SGI + 0x100)], ""),
    ("enabling 64 to 95",
        (4, GICD, 0), NO_WORDS, GICD + 0x108, 0xffff_ffff_ffff_ffff, [(4, GICD + 0x108), (4, GICD + 0x10c)], ""),
    ("disabling 32 to 63",
        (4, GICD + 0x104, 0xffff_ffff), NO_WORDS, GICD + 0x180, 0xffff_ffff_ffff_ffff, [(4, GICD + 0x104), (4, GICD + 0x184)], "x2 00000000ffffffff\nx3 00000000ffffffff\n"),
    ("disabling 64 to 95",
        (4, GICD + 0x108, 0xffff_ffff), NO_WORDS, GICD + 0x188, 0xffff_ffff_ffff_ffff, [(4, GICD + 0x108), (4, GICD + 0x188)], "x2 00000000ffffffff\nx3 00000000ffffffff\n"),
    ("making 32 to 63 pending",
        (4, GICD, 0), NO_WORDS, GICD + 0x200, 0xffff_ffff_ffff_ffff, [(4, GICD + 0x204), (4, SGI + 0x200)], ""),
    ("making 64 to 95 pending",
        (4, GICD, 0), NO_WORDS, GICD + 0x208, 0xffff_ffff_ffff_ffff, [(4, GICD + 0x208), (4, GICD + 0x20c)], ""),
    ("ending 32 to 63 pending",
        (4, GICD + 0x204, 0xffff_ffff), NO_WORDS, GICD + 0x280, 0xffff_ffff_ffff_ffff, [(4, GICD + 0x204), (4, GICD + 0x284)], "x2 00000000ffffffff\nx3 00000000ffffffff\n"),
    ("ending 64 to 95 pending",
        (4, GICD + 0x208, 0xffff_ffff), NO_WORDS, GICD + 0x288, 0xffff_ffff_ffff_ffff, [(4, GICD + 0x208), (4, GICD + 0x288)], "x2 00000000ffffffff\nx3 00000000ffffffff\n"),
    ("priorities of 32 to 39",
        (4, GICD + 0x420, 0x4848_4848), HALVES, GICD + 0x420, 0xffff_ffff_ffff_ffff, [(4, GICD + 0x420), (4, GICD + 0x424)], "x2 0000000048484848\n"),
    ("priorities of 88 to 95",
        (4, GICD + 0x45c, 0x4848_4848), HALVES, GICD + 0x458, 0xffff_ffff_ffff_ffff, [(4, GICD + 0x458), (4, GICD + 0x45c)], "x3 0000000048484848\n"),
    ("priorities before 32's",
        (4, GICD + 0x420, 0x4848_4848), ALL, GICD + 0x418, 0xffff_ffff_ffff_ffff, [(4, GICD + 0x420), (4, SGI + 0x418)], "x2 0000000048484848\n"),
    ("priorities after 95's",
        (4, GICD + 0x45c, 0x4848_4848), ALL, GICD + 0x460, 0xffff_ffff_ffff_ffff, [(4, GICD + 0x45c), (4, GICD + 0x460)], "x2 0000000048484848\n"),
    ("a route",
        (4, GICD, 0), ALL, GICD + 0x6100, 0xffff_ffff_ffff_ffff, [(4, GICD + 0x6100), (4, GICD + 0x6104)], ""),
    ("enabling a core's own",
        (4, GICD, 0), NO_WORDS, SGI + 0x100, 0xffff_ffff_ffff_ffff, [(4, SGI + 0x100), (4, GICD + 0x104)], ""),
    ("disabling a core's own",
        (4, SGI + 0x100, 0xffff_ffff), NO_WORDS, SGI + 0x180, 0xffff_ffff_ffff_ffff, [(4, SGI + 0x100), (4, SGI + 0x180)], "x2 00000000ffffffff\nx3 00000000ffffffff\n"),
    ("making a core's own pending",
        (4, GICD, 0), NO_WORDS, SGI + 0x200, 0xffff_ffff_ffff_ffff, [(4, SGI + 0x200), (4, GICD + 0x204)], ""),
    ("ending a core's own pending",
        (4, SGI + 0x200, 0xffff_ffff), NO_WORDS, SGI + 0x280, 0xffff_ffff_ffff_ffff, [(4, SGI + 0x200), (4, SGI + 0x280)], "x2 00000000ffffffff\nx3 00000000ffffffff\n"),
    ("a core's own priorities",
        (4, SGI + 0x41c, 0x4848_4848), HALVES, SGI + 0x418, 0xffff_ffff_ffff_ffff, [(4, SGI + 0x418), (4, SGI + 0x41c)], "x3 0000000048484848\n"),
    ("a redistributor's type",
        (4, GICD, 0), ALL, GICR + 0x8, 0xffff_ffff_ffff_ffff, [(4, GICR + 0x8), (4, GICR + 0xc)], "x2 0000000000000010\n"),
    ("ids of a redistributor's first frame",
        (4, GICD, 0), ALL, GICR + 0x100, 0xffff_ffff_ffff_ffff, [(4, GICR + 0x100), (4, SGI + 0x100)], ""),
];

#[test]
fn ignored_widths(rt: HostRuntime) -> Result<(), Fail> {
    check_ignored(&rt, rt.alloc(), IGNORED.as_slice())
}
