use crate::{Refusal, Table};
use arrayvec::ArrayVec;
use bao_types::{Access, Region, Verdict};
use pmsa_stage2::judge2;
use std::process::Abort;

/// The bytes 0x100000 to 0x10ffff: reading, writing and execution.
const MEMORY: Region = Region {
    base: 0x10_0004,
    limit: 0x10_ffc1,
};

/// The 64 bytes from 0x108000 on, which lie in `MEMORY` too.
const INNER: Region = Region {
    base: 0x10_8004,
    limit: 0x10_8001,
};

/// The bytes after `MEMORY`, for reading alone.
const NEXT: Region = Region {
    base: 0x11_000e,
    limit: 0x11_ffc1,
};

/// A base above its limit.
const REVERSED: Region = Region {
    base: 0x13_0004,
    limit: 0x12_ffc1,
};

/// The first granule, and the last one below 2^48.
const FIRST: Region = Region {
    base: 0x4,
    limit: 0x1,
};

const LAST: Region = Region {
    base: 0x0000_ffff_ffff_ffc4,
    limit: 0x0000_ffff_ffff_ffc1,
};

/// `MEMORY`, not enabled.
const OFF: Region = Region {
    base: 0x10_0004,
    limit: 0x10_ffc0,
};

const T: Verdict = Verdict::Translation;

const P: Verdict = Verdict::Permission;

const OK: Verdict = Verdict::Allow;

fn table_of(entries: &[Region]) -> Table {
    let mut list = ArrayVec::new();
    let _ = list.try_extend_from_slice(entries);
    Table::of(&list)
}

/// Accesses one after another on one table, so that each meets the last hit of those before it.
#[rattlefmt::skip]
static ROWS: [(&str, &[Region], &[(Access, u64, Verdict)]); 9] = [
    // shows                       entries            accesses
    ("an inner entry",             &[MEMORY, INNER],  &[(Access::Read, 0x10_7fff, OK), (Access::Read, 0x10_8000, T), (Access::Read, 0x10_8000, T), (Access::Read, 0x10_8040, OK)]),
    ("the last hit, then away",    &[MEMORY, NEXT],   &[(Access::Write, 0x10_0000, OK), (Access::Write, 0x10_ffff, OK), (Access::Write, 0x11_0000, P), (Access::Write, 0x0f_ffff, T)]),
    ("each kind by itself",        &[NEXT],           &[(Access::Read, 0x11_0000, OK), (Access::Write, 0x11_0000, P), (Access::Exec, 0x11_0000, P), (Access::Read, 0x11_ffff, OK)]),
    ("base above limit",           &[REVERSED],       &[(Access::Read, 0x12_ffff, T), (Access::Read, 0x13_0000, T)]),
    ("an entry that is off",       &[OFF],            &[(Access::Read, 0x10_0000, T)]),
    ("the ends of the space",      &[FIRST, LAST],    &[(Access::Read, 0x0, OK), (Access::Read, 0x40, T), (Access::Read, 0xffff_ffff_ffff, OK), (Access::Read, 0x1_0000_0000_0000, T), (Access::Read, u64::MAX, T)]),
    ("no entries",                 &[],               &[(Access::Exec, 0x0, T), (Access::Exec, u64::MAX, T)]),
    ("the same entry twice",       &[MEMORY, MEMORY], &[(Access::Read, 0x10_0000, T), (Access::Read, 0x11_0000, T)]),
    ("all entries alike",          &[MEMORY; 32],     &[(Access::Read, 0x10_0000, T), (Access::Read, 0x0f_ffff, T)]),
];

fn check_row(
    rt: &impl Abort,
    shows: &str,
    entries: &[Region],
    accesses: &[(Access, u64, Verdict)],
) {
    let mut table = table_of(entries);
    for (access, at, verdict) in accesses {
        let judged = table.judge(*access, *at);
        let plain = judge2(entries, *access, *at);
        assert_eq!(rt; (judged, plain), (*verdict, *verdict), "{shows}: {at:x}");
    }
}

#[test]
fn bytes(rt: HostRuntime) {
    for (shows, entries, accesses) in ROWS.as_slice() {
        check_row(&rt, shows, entries, accesses);
    }
}

/// Whole accesses over `MEMORY`, `INNER` and `NEXT`.
#[rattlefmt::skip]
static ACCESSES: [(&str, Access, u64, u8, Option<(u64, Verdict)>); 10] = [
    // shows                       access         from                   bytes refused
    ("within an entry",            Access::Read,  0x10_0000,             16,   None),
    ("up to its last byte",        Access::Write, 0x10_fff8,             8,    None),
    ("over two entries",           Access::Read,  0x10_fffc,             8,    None),
    ("the second one refuses",     Access::Write, 0x10_fffc,             8,    Some((0x11_0000, P))),
    ("the first byte",             Access::Read,  0x0f_ffff,             2,    Some((0x0f_ffff, T))),
    ("a middle byte",              Access::Read,  0x10_7ff9,             16,   Some((0x10_8000, T))),
    ("the last byte",              Access::Read,  0x11_fff9,             8,    Some((0x12_0000, T))),
    ("over the last address",      Access::Read,  0xffff_ffff_ffff_fffc, 8,    Some((0xffff_ffff_ffff_fffc, T))),
    ("all of them",                Access::Exec,  0x11_0000,             4,    Some((0x11_0000, P))),
    ("no bytes",                   Access::Read,  0x0,                   0,    None),
];

fn check_access(
    rt: &impl Abort,
    shows: &str,
    entries: &[Region],
    access: Access,
    at: u64,
    count: u8,
    refused: Option<(u64, Verdict)>,
) {
    let mut table = table_of(entries);
    let wanted = refused.map(|(at, verdict)| Refusal { at, verdict });
    assert_eq!(rt; table.judge_all(access, at, count), wanted, "{shows}");
}

#[test]
fn whole_accesses(rt: HostRuntime) {
    let entries = [MEMORY, INNER, NEXT];
    for (shows, access, at, count, refused) in ACCESSES.as_slice() {
        check_access(&rt, shows, &entries, *access, *at, *count, *refused);
    }
}

/// Three entries of 64 bytes, each right after the one before it; the last one is for reading alone.
const THREE: [Region; 3] = [
    Region {
        base: 0x20_0004,
        limit: 0x20_0001,
    },
    Region {
        base: 0x20_0044,
        limit: 0x20_0041,
    },
    Region {
        base: 0x20_008e,
        limit: 0x20_0081,
    },
];

#[rattlefmt::skip]
static OVER_THREE: [(&str, Access, u64, u8, Option<(u64, Verdict)>); 4] = [
    // shows                       access         from       bytes refused
    ("over all three",             Access::Read,  0x20_003f, 66,   None),
    ("the third one refuses",      Access::Write, 0x20_003f, 66,   Some((0x20_0080, P))),
    ("up to past the third",     Access::Read,  0x20_003f, 130,  Some((0x20_00c0, T))),
    ("all of them, and around",    Access::Read,  0x1f_ffff, 200,  Some((0x1f_ffff, T))),
];

#[test]
fn an_access_over_three_entries(rt: HostRuntime) {
    for (shows, access, at, count, refused) in OVER_THREE.as_slice() {
        check_access(&rt, shows, &THREE, *access, *at, *count, *refused);
    }
}

/// Each of the 32 has every other granule of 64 bytes from 0x400000 on.
#[test]
fn thirty_two_entries(rt: HostRuntime) {
    let mut entries = [OFF; 32];
    for i in 0..32usize {
        let from = 0x40_0000 + 0x80 * i as u64;
        entries[i] = Region {
            base: from + 4,
            limit: from + 1,
        };
    }
    let mut table = table_of(&entries);
    let first = table.judge(Access::Read, 0x40_003f);
    let between = table.judge(Access::Read, 0x40_0040);
    let last = table.judge(Access::Write, 0x40_0f80);
    let behind = table.judge(Access::Write, 0x40_0fc0);
    assert_eq!(rt; [first, between, last, behind], [OK, T, OK, T]);
}

#[test]
fn an_entry_is_set(rt: HostRuntime) {
    let mut entries = ArrayVec::new();
    entries.push(MEMORY);
    entries.push(OFF);
    let mut table = Table::of(&entries);
    let before = table.judge(Access::Read, 0x11_0000);
    table.set(1, NEXT);
    let after = table.judge(Access::Read, 0x11_0000);
    let entry = table.entries().get(1).copied();
    assert_eq!(rt; (before, after, entry), (T, OK, Some(NEXT)));
}

/// From a wrap at the last address an access goes on at 0.
#[test]
fn an_access_that_wraps(rt: HostRuntime) {
    let mut table = table_of(&[FIRST]);
    let refused = table.judge_all(Access::Read, u64::MAX, 2);
    assert_eq!(rt;
        refused,
        Some(Refusal {
            at: u64::MAX,
            verdict: T
        })
    );
}

/// A fresh table has no hit, and reading's is none of writing's.
#[test]
fn what_the_last_hit_allows(rt: HostRuntime) {
    let mut table = table_of(&[MEMORY, NEXT]);
    let fresh = table.allows(Access::Read, 0x10_0000, 8);
    let judged = table.judge(Access::Read, 0x10_0000);
    let within = table.allows(Access::Read, 0x10_ff00, 16);
    let beyond = table.allows(Access::Read, 0x10_fff9, 8);
    let written = table.allows(Access::Write, 0x10_0000, 8);
    assert_eq!(rt;
        (judged, [fresh, within, beyond, written]),
        (OK, [false, true, false, false])
    );
}
