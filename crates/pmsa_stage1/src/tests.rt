use crate::judge1;
use bao_types::{Access, NO_REGION, Region, RegionFile, Verdict};
use pmsa_regs::{write_base, write_limit, write_select};
use std::process::Abort;

/// SCTLR_EL1 with M, and with M and BR.
const ON: u64 = 0x1;

const ON_WITH_BACKGROUND: u64 = 0x20001;

/// These as regions 0 and 1, all others off, as a guest writes them.
fn regions(first: Region, second: Region) -> RegionFile {
    let mut regs = RegionFile {
        select: 0,
        regions: [NO_REGION; 16],
    };
    write_base(&mut regs, first.base);
    write_limit(&mut regs, first.limit);
    write_select(&mut regs, 1);
    write_base(&mut regs, second.base);
    write_limit(&mut regs, second.limit);
    regs
}

const REFUSED: Verdict = Verdict::Permission;

const ALLOWED: Verdict = Verdict::Allow;

#[rattlefmt::skip]
static PERMISSIONS: [(&str, u8, u8, u8, Verdict, Verdict, Verdict); 16] = [
    // shows                    level  AP    XN  read     write    execute
    ("EL1 alone",               1,     0b00, 0,  ALLOWED, ALLOWED, ALLOWED),
    ("EL1 alone, XN",           1,     0b00, 1,  ALLOWED, ALLOWED, REFUSED),
    ("both",                    1,     0b01, 0,  ALLOWED, ALLOWED, ALLOWED),
    ("both, XN",                1,     0b01, 1,  ALLOWED, ALLOWED, REFUSED),
    ("EL1 alone, read",         1,     0b10, 0,  ALLOWED, REFUSED, ALLOWED),
    ("EL1 alone, read, XN",     1,     0b10, 1,  ALLOWED, REFUSED, REFUSED),
    ("both, read",              1,     0b11, 0,  ALLOWED, REFUSED, ALLOWED),
    ("both, read, XN",          1,     0b11, 1,  ALLOWED, REFUSED, REFUSED),
    ("EL0: EL1 alone",          0,     0b00, 0,  REFUSED, REFUSED, REFUSED),
    ("EL0: EL1 alone, XN",      0,     0b00, 1,  REFUSED, REFUSED, REFUSED),
    ("EL0: both",               0,     0b01, 0,  ALLOWED, ALLOWED, ALLOWED),
    ("EL0: both, XN",           0,     0b01, 1,  ALLOWED, ALLOWED, REFUSED),
    ("EL0: EL1 alone, read",    0,     0b10, 0,  REFUSED, REFUSED, REFUSED),
    ("EL0: the same with XN",   0,     0b10, 1,  REFUSED, REFUSED, REFUSED),
    ("EL0: both, read",         0,     0b11, 0,  ALLOWED, REFUSED, ALLOWED),
    ("EL0: both, read, XN",     0,     0b11, 1,  ALLOWED, REFUSED, REFUSED),
];

/// Fails the test where the verdicts aren't those that are wanted.
fn check(rt: &impl Abort, shows: &str, verdicts: &[Verdict], wanted: &[Verdict]) {
    assert!(rt; verdicts == wanted, "{shows}");
}

#[test]
fn permission_table(rt: HostRuntime) {
    for (shows, level, permission, execute_never, read, write, execute) in PERMISSIONS.as_slice() {
        let region = Region {
            base: 0x100000 + 4 * u64::from(*permission) + 2 * u64::from(*execute_never),
            limit: 0x10ffc1,
        };
        let regs = regions(region, NO_REGION);
        let verdicts = [
            judge1(&regs, ON_WITH_BACKGROUND, *level, Access::Read, 0x104000),
            judge1(&regs, ON_WITH_BACKGROUND, *level, Access::Write, 0x104000),
            judge1(&regs, ON_WITH_BACKGROUND, *level, Access::Exec, 0x104000),
        ];
        check(&rt, shows, &verdicts, &[*read, *write, *execute]);
    }
}

const BOTH: Region = Region {
    base: 0x100004,
    limit: 0x10ffc1,
};

const GRANULE: Region = Region {
    base: 0x104004,
    limit: 0x104001,
};

const OFF: Region = Region {
    base: 0x104004,
    limit: 0x104000,
};

const REVERSED: Region = Region {
    base: 0x110004,
    limit: 0x10ffc1,
};

// The last granule that a region can name, which ends at 2^48, and all granules.
const TOP: Region = Region {
    base: 0x0000_ffff_ffff_ffc4,
    limit: 0x0000_ffff_ffff_ffc1,
};

const ALL: Region = Region {
    base: 0x4,
    limit: 0x0000_ffff_ffff_ffc1,
};

const MISSING: Verdict = Verdict::Translation;

#[rattlefmt::skip]
static REGIONS: [(&str, Region, Region, u64, Verdict, Verdict, Verdict); 14] = [
    // a read of                    region 0  region 1  byte                   EL1      EL1, BR  EL0, BR
    ("one region's byte",           BOTH,     OFF,      0x104000,              ALLOWED, ALLOWED, ALLOWED),
    ("two regions' byte",           BOTH,     GRANULE,  0x104000,              MISSING, MISSING, MISSING),
    ("two regions' last byte",      BOTH,     GRANULE,  0x10403f,              MISSING, MISSING, MISSING),
    ("the byte after the second",   BOTH,     GRANULE,  0x104040,              ALLOWED, ALLOWED, ALLOWED),
    ("the last byte",               BOTH,     OFF,      0x10ffff,              ALLOWED, ALLOWED, ALLOWED),
    ("the byte after",              BOTH,     OFF,      0x110000,              MISSING, ALLOWED, MISSING),
    ("the byte before",             BOTH,     OFF,      0x0fffff,              MISSING, ALLOWED, MISSING),
    ("a region that is off",        OFF,      OFF,      0x104000,              MISSING, ALLOWED, MISSING),
    ("base above limit",            REVERSED, OFF,      0x110000,              MISSING, ALLOWED, MISSING),
    ("the top granule's first",     TOP,      OFF,      0x0000_ffff_ffff_ffc0, ALLOWED, ALLOWED, ALLOWED),
    ("the top granule's last",      TOP,      OFF,      0x0000_ffff_ffff_ffff, ALLOWED, ALLOWED, ALLOWED),
    ("below the top granule",       TOP,      OFF,      0x0000_ffff_ffff_ffbf, MISSING, ALLOWED, MISSING),
    ("2^48",                        ALL,      OFF,      0x0001_0000_0000_0000, MISSING, ALLOWED, MISSING),
    ("the last address",            ALL,      OFF,      0xffff_ffff_ffff_ffff, MISSING, ALLOWED, MISSING),
];

#[test]
fn number_of_regions(rt: HostRuntime) {
    for (shows, first, second, at, el1, el1_background, el0_background) in REGIONS.as_slice() {
        let regs = regions(*first, *second);
        let verdicts = [
            judge1(&regs, ON, 1, Access::Read, *at),
            judge1(&regs, ON_WITH_BACKGROUND, 1, Access::Read, *at),
            judge1(&regs, ON_WITH_BACKGROUND, 0, Access::Read, *at),
            // With M clear all is allowed, BR or not.
            judge1(&regs, 0x20000, 0, Access::Write, *at),
        ];
        check(
            &rt,
            shows,
            &verdicts,
            &[*el1, *el1_background, *el0_background, ALLOWED],
        );
    }
}
