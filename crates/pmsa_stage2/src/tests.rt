use crate::judge2;
use bao_types::{Access, Region, Verdict};
use std::process::Abort;

/// The bytes 0x100000 to 0x10ffff, with this AP and XN.
const fn entry(permission: u8, execute_never: u8) -> Region {
    Region {
        base: 0x100000 + 4 * permission as u64 + 2 * execute_never as u64,
        limit: 0x10ffc1,
    }
}

const REFUSED: Verdict = Verdict::Permission;

const ALLOWED: Verdict = Verdict::Allow;

#[rattlefmt::skip]
static PERMISSIONS: [(&str, u8, u8, Verdict, Verdict, Verdict); 8] = [
    // shows                    AP    XN  read     write    execute
    ("EL2 alone",               0b00, 0,  REFUSED, REFUSED, REFUSED),
    ("EL2 alone, XN",           0b00, 1,  REFUSED, REFUSED, REFUSED),
    ("read and write",          0b01, 0,  ALLOWED, ALLOWED, ALLOWED),
    ("read and write, XN",      0b01, 1,  ALLOWED, ALLOWED, REFUSED),
    ("EL2 alone, read",         0b10, 0,  REFUSED, REFUSED, REFUSED),
    ("EL2 alone, read, XN",     0b10, 1,  REFUSED, REFUSED, REFUSED),
    ("read",                    0b11, 0,  ALLOWED, REFUSED, ALLOWED),
    ("read, XN",                0b11, 1,  ALLOWED, REFUSED, REFUSED),
];

/// Fails the test where the verdicts aren't those that are wanted.
fn check(rt: &impl Abort, shows: &str, verdicts: &[Verdict], wanted: &[Verdict]) {
    assert!(rt; verdicts == wanted, "{shows}");
}

/// The verdicts on reading, writing and executing a byte.
fn verdicts(entries: &[Region], at: u64) -> [Verdict; 3] {
    [
        judge2(entries, Access::Read, at),
        judge2(entries, Access::Write, at),
        judge2(entries, Access::Exec, at),
    ]
}

#[test]
fn permission_table(rt: HostRuntime) {
    for (shows, permission, execute_never, read, write, execute) in PERMISSIONS.as_slice() {
        let entries = [entry(*permission, *execute_never)];
        let wanted = [*read, *write, *execute];
        check(&rt, shows, &verdicts(&entries, 0x104000), &wanted);
    }
}

const GUEST: Region = Region {
    base: 0x100004,
    limit: 0x10ffc1,
};

const OFF: Region = Region {
    base: 0x100004,
    limit: 0x10ffc0,
};

const NEXT: Region = Region {
    base: 0x110004,
    limit: 0x11ffc1,
};

const GRANULE: Region = Region {
    base: 0x108004,
    limit: 0x108001,
};

// The last granule that an entry can name, which ends at 2^48, and all granules.
const TOP: Region = Region {
    base: 0x0000_ffff_ffff_ffc4,
    limit: 0x0000_ffff_ffff_ffc1,
};

const ALL: Region = Region {
    base: 0x4,
    limit: 0x0000_ffff_ffff_ffc1,
};

const REVERSED: Region = Region {
    base: 0x110004,
    limit: 0x10ffc1,
};

#[rattlefmt::skip]
static ENTRIES: [(&str, [Region; 2], u64, Verdict); 16] = [
    // shows                        entries             byte                   verdict of a read
    ("the first byte",              [GUEST, NEXT],      0x100000,              Verdict::Allow),
    ("the byte before",             [GUEST, NEXT],      0x0f_ffff,             Verdict::Translation),
    ("the limit granule's last",    [GUEST, OFF],       0x10_ffff,             Verdict::Allow),
    ("the byte after",              [GUEST, OFF],       0x11_0000,             Verdict::Translation),
    ("the neighbour",               [GUEST, NEXT],      0x11_0000,             Verdict::Allow),
    ("an entry that is off",        [OFF, OFF],         0x100000,              Verdict::Translation),
    ("two entries",                 [GUEST, GRANULE],   0x108000,              Verdict::Translation),
    ("beside the second entry",     [GUEST, GRANULE],   0x108040,              Verdict::Allow),
    ("twice the same entry",        [GUEST, GUEST],     0x100000,              Verdict::Translation),
    ("base above limit",            [REVERSED, OFF],    0x110000,              Verdict::Translation),
    ("base above limit, below",     [REVERSED, OFF],    0x10_ffff,             Verdict::Translation),
    ("the top granule's first",     [TOP, OFF],         0x0000_ffff_ffff_ffc0, Verdict::Allow),
    ("the top granule's last",      [TOP, OFF],         0x0000_ffff_ffff_ffff, Verdict::Allow),
    ("below the top granule",       [TOP, OFF],         0x0000_ffff_ffff_ffbf, Verdict::Translation),
    ("2^48",                        [ALL, OFF],         0x0001_0000_0000_0000, Verdict::Translation),
    ("the last address",            [ALL, OFF],         0xffff_ffff_ffff_ffff, Verdict::Translation),
];

#[test]
fn number_of_entries(rt: HostRuntime) {
    for (shows, entries, at, verdict) in ENTRIES.as_slice() {
        check(
            &rt,
            shows,
            &[judge2(entries, Access::Read, *at)],
            &[*verdict],
        );
    }
    let missing = [Verdict::Translation; 3];
    check(&rt, "no entry", &verdicts(&[], 0x100000), &missing);
    check(&rt, "no entry at 0", &verdicts(&[], 0), &missing);
}
