use crate::{edge, status};
use bao_types::TimerRegs;
use std::process::Abort;

const ENABLE: u64 = 0b01;

const ENABLE_IMASK: u64 = 0b11;

fn check(rt: &impl Abort, holds: bool, shows: &str) {
    assert!(rt; holds, "{shows}");
}

#[rattlefmt::skip]
static CONDITIONS: [(&str, u64, u64, u64, bool); 11] = [
    // shows                    ctl           cval                   count                  condition
    ("before",                  ENABLE,       100,                   99,                    false),
    ("at",                      ENABLE,       100,                   100,                   true),
    ("past",                    ENABLE,       100,                   101,                   true),
    ("off",                     0b00,         100,                   101,                   false),
    ("off and masked",          0b10,         100,                   101,                   false),
    ("masked",                  ENABLE_IMASK, 100,                   100,                   true),
    ("other bits of ctl",       0xfffc,       100,                   100,                   false),
    ("compare value 0",         ENABLE,       0,                     0,                     true),
    ("before the last count",   ENABLE,       0xffff_ffff_ffff_ffff, 0xffff_ffff_ffff_fffe, false),
    ("the last count",          ENABLE,       0xffff_ffff_ffff_ffff, 0xffff_ffff_ffff_ffff, true),
    ("counts aren't signed",    ENABLE,       1,                     0x8000_0000_0000_0000, true),
];

#[test]
fn condition(rt: HostRuntime) {
    for (shows, ctl, cval, count, met) in CONDITIONS.as_slice() {
        let timer = TimerRegs {
            ctl: *ctl,
            cval: *cval,
            level: false,
        };
        check(&rt, status(&timer, *count) == *met, shows);
    }
}

// One timer, looked at row by row: the registers as they stand then, and the level that it keeps.
#[rattlefmt::skip]
static EDGES: [(&str, u64, u64, u64, bool, bool); 13] = [
    // shows                         ctl           cval                   count                  raised kept
    ("before the compare value",     ENABLE,       100,                   99,                    false, false),
    ("at the compare value",         ENABLE,       100,                   100,                   true,  true),
    ("the level stays up",           ENABLE,       100,                   100,                   false, true),
    ("masked while it holds",        ENABLE_IMASK, 100,                   101,                   false, false),
    ("masked still",                 ENABLE_IMASK, 100,                   102,                   false, false),
    ("unmasked while it holds",      ENABLE,       100,                   103,                   true,  true),
    ("off",                          0b00,         100,                   104,                   false, false),
    ("on again",                     ENABLE,       100,                   105,                   true,  true),
    ("a later compare value",        ENABLE,       200,                   106,                   false, false),
    ("its time comes",               ENABLE,       200,                   300,                   true,  true),
    ("the greatest compare value",   ENABLE,       0xffff_ffff_ffff_ffff, 0xffff_ffff_ffff_fffe, false, false),
    ("the greatest count",           ENABLE,       0xffff_ffff_ffff_ffff, 0xffff_ffff_ffff_ffff, true,  true),
    ("the greatest count again",     ENABLE,       0xffff_ffff_ffff_ffff, 0xffff_ffff_ffff_ffff, false, true),
];

#[test]
fn edges(rt: HostRuntime) {
    let mut timer = TimerRegs {
        ctl: 0,
        cval: 0,
        level: false,
    };
    for (shows, ctl, cval, count, raised, kept) in EDGES.as_slice() {
        timer.ctl = *ctl;
        timer.cval = *cval;
        let wanted = TimerRegs {
            ctl: *ctl,
            cval: *cval,
            level: *kept,
        };
        check(&rt, edge(&mut timer, *count) == *raised, shows);
        check(&rt, timer == wanted, shows);
    }
}
