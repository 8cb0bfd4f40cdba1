//! Two VMs of two cores each, side by side, whose guests program their controllers: each shows what it shows alone, in whatever
//! order the steps of the two come.

use crate::boards::{OTHER, TWO_CORES, Vm, check_part, image, told};
use std::alloc::Global;
use std::test::Fail;

/// It writes each id to the list at X19, adds them up in X21 and ends them.
/// mrs x20, icc_iar1_el1; str w20, [x19], #4; add x21, x21, x20; msr icc_eoir1_el1, x20; eret
#[rattlefmt::skip]
const KEEPING: [u32; 5] = [
    0xd538_cc14, 0xb800_4674, 0x8b14_02b5, 0xd518_cc34, 0xd69f_03e0,
];

/// It rings core 1 by SGI 3 and 12, in turn with a pending 41 and 40, and has a timer.
/// adr x9, . + 0x800; msr vbar_el1, x9; add x19, x9, #0x4, lsl #12; movz x1, #0xaf00, lsl #16; movz x4, #0xaf11, lsl #16;
/// mov w0, #2; str w0, [x1]; movz w0, #0x800, lsl #16; str w0, [x4, #0x100]; mov w0, #0x300; str w0, [x1, #0x104];
/// mov w0, #0x40; strb w0, [x1, #0x428]; mov w0, #0xf0; msr icc_pmr_el1, x0; mov w0, #1; msr icc_igrpen1_el1, x0;
/// mov x7, #60; msr cntv_cval_el0, x7; msr cntv_ctl_el0, x0; msr daifclr, #2; movz x0, #0xc400, lsl #16; movk x0, #3;
/// mov x1, #1; adr x2, . + 0x3a0; mov x3, #7; smc #0; movz x1, #0xaf00, lsl #16; movz x10, #0x300, lsl #16; movk x10, #2;
/// movz x11, #0xc00, lsl #16; movk x11, #0x100, lsl #32; mov w12, #0x200; msr icc_sgi1r_el1, x10; str w12, [x1, #0x204];
/// add x7, x7, #70; msr icc_sgi1r_el1, x11; msr cntv_cval_el0, x7; lsr w13, w12, #1; str w13, [x1, #0x204]; add x6, x6, #1;
/// b . - 32
#[rattlefmt::skip]
const RINGING: [u32; 42] = [
    0x1000_4009, 0xd518_c009, 0x9140_1133, 0xd2b5_e001, 0xd2b5_e224, 0x5280_0040, 0xb900_0020, 0x52a1_0000,
    0xb901_0080, 0x5280_6000, 0xb901_0420, 0x5280_0800, 0x3910_a020, 0x5280_1e00, 0xd518_4600, 0x5280_0020,
    0xd518_cce0, 0xd280_0787, 0xd51b_e347, 0xd51b_e320, 0xd503_42ff, 0xd2b8_8000, 0xf280_0060, 0xd280_0021,
    0x1000_1d02, 0xd280_00e3, 0xd400_0003, 0xd2b5_e001, 0xd2a0_600a, 0xf280_004a, 0xd2a1_800b, 0xf2c0_200b,
    0x5280_400c, 0xd518_cbaa, 0xb902_042c, 0x9101_18e7, 0xd518_cbab, 0xd51b_e347, 0x5301_7d8d, 0xb902_042d,
    0x9100_04c6, 0x17ff_fff8,
];

/// It takes what core 0 sends, and turns the ids that it hears off and on.
/// adr x9, . + 0x400; msr vbar_el1, x9; add x19, x9, #0x5, lsl #12; movz x4, #0xaf13, lsl #16; movz w5, #0x1008;
/// str w5, [x4, #0x100]; mov w0, #0xf8; msr icc_pmr_el1, x0; mov w0, #1; msr icc_igrpen1_el1, x0; msr daifclr, #2;
/// mov w8, #8; str w8, [x4, #0x180]; add x6, x6, #1; str w8, [x4, #0x100]; add x6, x6, #1; b . - 16
#[rattlefmt::skip]
const HEARING: [u32; 17] = [
    0x1000_2009, 0xd518_c009, 0x9140_1533, 0xd2b5_e264, 0x5282_0105, 0xb901_0085, 0x5280_1f00, 0xd518_4600,
    0x5280_0020, 0xd518_cce0, 0xd503_42ff, 0x5280_0108, 0xb901_8088, 0x9100_04c6, 0xb901_0088, 0x9100_04c6,
    0x17ff_fffc,
];

/// The other VM's core 0 has other priorities, turns its distributor off and on, and makes ids pending by itself.
/// adr x9, . + 0x800; msr vbar_el1, x9; add x19, x9, #0x4, lsl #12; movz x1, #0xaf00, lsl #16; movz x4, #0xaf11, lsl #16;
/// mov w0, #2; str w0, [x1]; movz w0, #0x800, lsl #16; movk w0, #0x8001; str w0, [x4, #0x100]; mov w0, #-1;
/// str w0, [x1, #0x104]; movz w0, #0x1020; movk w0, #0x0830, lsl #16; str w0, [x1, #0x428]; mov w0, #0x80;
/// msr icc_pmr_el1, x0; mov w0, #1; msr icc_igrpen1_el1, x0; mov x7, #45; msr cntv_cval_el0, x7; msr cntv_ctl_el0, x0;
/// msr daifclr, #2; movz x0, #0xc400, lsl #16; movk x0, #3; mov x1, #1; adr x2, . + 0x398; mov x3, #9; hvc #0;
/// movz x1, #0xaf00, lsl #16; mov w12, #0xf00; mov w13, #2; str wzr, [x1]; str w12, [x1, #0x204]; add x6, x6, #1;
/// mov w14, #0x200; str w14, [x1, #0x284]; str w13, [x1]; add x7, x7, #110; msr cntv_cval_el0, x7; b . - 32
#[rattlefmt::skip]
const SWITCHING: [u32; 41] = [
    0x1000_4009, 0xd518_c009, 0x9140_1133, 0xd2b5_e001, 0xd2b5_e224, 0x5280_0040, 0xb900_0020, 0x52a1_0000,
    0x7290_0020, 0xb901_0080, 0x1280_0000, 0xb901_0420, 0x5282_0400, 0x72a1_0600, 0xb904_2820, 0x5280_1000,
    0xd518_4600, 0x5280_0020, 0xd518_cce0, 0xd280_05a7, 0xd51b_e347, 0xd51b_e320, 0xd503_42ff, 0xd2b8_8000,
    0xf280_0060, 0xd280_0021, 0x1000_1cc2, 0xd280_0123, 0xd400_0002, 0xd2b5_e001, 0x5281_e00c, 0x5280_004d,
    0xb900_003f, 0xb902_042c, 0x9100_04c6, 0x5280_400e, 0xb902_842e, 0xb900_002d, 0x9101_b8e7, 0xd51b_e347,
    0x17ff_fff8,
];

/// Its core 1 sends id 15 to core 0 and id 0 to both, and takes its own.
/// adr x9, . + 0x400; msr vbar_el1, x9; add x19, x9, #0x5, lsl #12; movz x4, #0xaf13, lsl #16; mov w5, #1;
/// str w5, [x4, #0x100]; mov w0, #0xf8; msr icc_pmr_el1, x0; msr icc_igrpen1_el1, x5; msr daifclr, #2;
/// movz x10, #0xf00, lsl #16; movk x10, #1; mov x11, #3; msr icc_sgi1r_el1, x10; add x6, x6, #1; add x6, x6, #1;
/// add x6, x6, #1; msr icc_sgi1r_el1, x11; add x6, x6, #1; b . - 24
#[rattlefmt::skip]
const ANSWERING: [u32; 20] = [
    0x1000_2009, 0xd518_c009, 0x9140_1533, 0xd2b5_e264, 0x5280_0025, 0xb901_0085, 0x5280_1f00, 0xd518_4600,
    0xd518_cce5, 0xd503_42ff, 0xd2a1_e00a, 0xf280_002a, 0xd280_006b, 0xd518_cbaa, 0x9100_04c6, 0x9100_04c6,
    0x9100_04c6, 0xd518_cbab, 0x9100_04c6, 0x17ff_fffa,
];

/// The images of both VMs.
fn images(alloc: Global) -> Result<[Vec<u8>; 2], Fail> {
    let a = image(
        alloc,
        &[(0, &RINGING), (0x400, &HEARING), (0xa80, &KEEPING)],
    )?;
    let b = image(
        alloc,
        &[(0, &SWITCHING), (0x400, &ANSWERING), (0xa80, &KEEPING)],
    )?;
    Ok([a, b])
}

/// In each of these rounds each VM takes [`STEPS`] steps at one count, of its first and its second core in an order of its own.
const ROUNDS: u8 = 40;

const STEPS: u32 = 8;

/// The VM whose step comes next, where both have steps left in the round, by a generator's state.
fn is_first(state: u32) -> bool {
    state / (1 << 16) % 2 == 0
}

/// The next state of the generator.
fn next(state: u32) -> u32 {
    state.wrapping_mul(1_664_525).wrapping_add(1_013_904_223)
}

/// Which steps a schedule has.
#[derive(Clone, Copy)]
enum Steps {
    /// Those of the first VM.
    First,
    /// Those of the second.
    Second,
    /// Those of both, in the order that begins with this state.
    Both(u32),
}

/// The core of a step of a VM, by its number in the round: the first VM's take turns, the second's go two by two.
fn core_of(first: bool, step: u32) -> u32 {
    if first { step % 2 } else { 2 + step / 2 % 2 }
}

/// The steps of one round. Gives the generator's state.
fn push_round(lines: &mut String, alloc: Global, steps: Steps, round: u8) -> Result<u32, Fail> {
    let (mut a, mut b, mut state) = match steps {
        Steps::First => (0, STEPS, 0),
        Steps::Second => (STEPS, 0, 0),
        Steps::Both(state) => (0, 0, state),
    };
    let count = u32::from(round) * 10;
    for _ in 0..2 * STEPS {
        state = next(state);
        if a < STEPS && (b == STEPS || is_first(state)) {
            let core = core_of(true, a);
            lines.push_str(format!(in alloc; "s {core} {count}\n")?.as_str())?;
            a += 1;
        } else if b < STEPS {
            let core = core_of(false, b);
            lines.push_str(format!(in alloc; "s {core} {count}\n")?.as_str())?;
            b += 1;
        }
    }
    Ok(state)
}

fn turns(alloc: Global, steps: Steps) -> Result<String, Fail> {
    let mut lines = String::new(alloc);
    let mut steps = steps;
    for round in 0..ROUNDS {
        let state = push_round(&mut lines, alloc, steps, round)?;
        if let Steps::Both(_) = steps {
            steps = Steps::Both(state);
        }
    }
    Ok(lines)
}

/// What a VM alone shows: its report without the last line.
fn alone(alloc: Global, vm: Vm, steps: Steps) -> Result<String, Fail> {
    let [a, b] = images(alloc)?;
    let told = told(alloc, &[vm], [&a, &b], turns(alloc, steps)?.as_str())?;
    let section = told.as_str().strip_prefix("status 0\n").unwrap_or("");
    Ok(String::from_str(alloc, section.strip_suffix("done\n").unwrap_or(""))?)
}

/// What both show, in the order of a generator that begins with this state.
fn both(alloc: Global, seed: u32) -> Result<String, Fail> {
    let [a, b] = images(alloc)?;
    let turns = turns(alloc, Steps::Both(seed))?;
    told(alloc, &[TWO_CORES, OTHER], [&a, &b], turns.as_str())
}

/// The first takes its timer's interrupt before it has turned core 1 on, then 41, then the timer's before 40, since that is less
/// urgent.
const TAKEN: &str = "m 0000000000104800 1b000000290000001b00000028000000\n";

/// The second takes its timer's, 43 when the distributor is on again, and then what its core 1 sends: 15, and 0.
const TAKEN_BY_THE_OTHER: &str = "m 0000000000144800 1b0000002b0000000f00000000000000\n";

#[test]
fn twenty_orders(rt: HostRuntime) -> Result<(), Fail> {
    let alloc = rt.alloc();
    let first = alone(alloc, TWO_CORES, Steps::First)?;
    let second = alone(alloc, OTHER, Steps::Second)?;
    check_part(&rt, "the first", first.as_str(), TAKEN);
    check_part(&rt, "the second", second.as_str(), TAKEN_BY_THE_OTHER);
    let wanted = format!(in alloc; "status 0\n{first}{second}done\n")?;
    for seed in 0..20 {
        assert_eq!(rt; both(alloc, seed)?, wanted, "{seed}");
    }
    Ok(())
}
