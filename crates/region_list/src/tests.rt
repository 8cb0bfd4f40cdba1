use crate::{Ranges, Run};
use bao_types::{ADDRESS_SPACE_END, ByteRange, Class};
use std::alloc::Global;
use std::process::Abort;
use std::test::Fail;

const SPACE: u64 = ADDRESS_SPACE_END;

const HYP: Class = Class::Hyp;

const RAM: Class = Class::Guest {
    write: true,
    exec: true,
    port: false,
};

const ROM: Class = Class::Guest {
    write: false,
    exec: true,
    port: false,
};

const HOLE: Class = Class::Nothing;

/// Lays the ranges in turn, a range of class Nothing by `cut`, and reads the runs off.
fn check(
    rt: &impl Abort,
    alloc: Global,
    shows: &str,
    laid: &[(u64, u64, Class)],
    expected: &[(u64, u64, Class)],
) -> Result<(), Fail> {
    let mut ranges = Ranges::new(alloc);
    for (base, size, class) in laid {
        assert!(rt; *base <= SPACE && *size <= SPACE - *base);
        let range = ByteRange {
            base: *base,
            size: *size,
        };
        match class {
            Class::Nothing => ranges.cut(alloc, range)?,
            _ => ranges.insert(alloc, range, *class)?,
        }
    }
    let runs = ranges.runs(alloc)?;
    assert!(rt; are_these(&runs, expected), "{shows}: {runs:?}");
    Ok(())
}

fn are_these(runs: &[Run], expected: &[(u64, u64, Class)]) -> bool {
    for (run, (base, size, class)) in runs.iter().zip(expected) {
        let range = ByteRange {
            base: *base,
            size: *size,
        };
        let class = *class;
        if *run != (Run { range, class }) {
            return false;
        }
    }
    runs.len() == expected.len()
}

#[rattlefmt::skip]
static LAID: [(&str, &[(u64, u64, Class)], &[(u64, u64, Class)]); 24] = [
    // shows                   laid over one another: base, size, class                          runs
    ("nothing laid",           &[],                                                              &[]),
    ("one range",              &[(64, 64, HYP)],                                                 &[(64, 64, HYP)]),
    ("a hole filled again",    &[(0, 128, HYP), (64, 64, HOLE), (64, 64, HYP)],                  &[(0, 128, HYP)]),
    ("equal neighbours",       &[(0, 64, RAM), (64, 64, RAM)],                                   &[(0, 128, RAM)]),
    ("the later one in front", &[(64, 64, RAM), (0, 64, RAM)],                                   &[(0, 128, RAM)]),
    ("two joined by a third",  &[(0, 64, RAM), (128, 64, RAM), (64, 64, RAM)],                   &[(0, 192, RAM)]),
    ("unequal neighbours",     &[(0, 64, RAM), (64, 64, HYP)],                                   &[(0, 64, RAM), (64, 64, HYP)]),
    ("grants of one bit off",  &[(0, 64, RAM), (64, 64, ROM)],                                   &[(0, 64, RAM), (64, 64, ROM)]),
    ("one byte between",       &[(0, 63, RAM), (64, 64, RAM)],                                   &[(0, 63, RAM), (64, 64, RAM)]),
    ("split by another class", &[(0, 192, RAM), (64, 64, HYP)],                                  &[(0, 64, RAM), (64, 64, HYP), (128, 64, RAM)]),
    ("split by a hole",        &[(0, 192, RAM), (64, 64, HOLE)],                                 &[(0, 64, RAM), (128, 64, RAM)]),
    ("a hole of one byte",     &[(0, 192, RAM), (100, 1, HOLE)],                                 &[(0, 100, RAM), (101, 91, RAM)]),
    ("its class in its midst", &[(0, 192, RAM), (64, 64, RAM)],                                  &[(0, 192, RAM)]),
    ("overlap in front",       &[(64, 128, RAM), (0, 128, HYP)],                                 &[(0, 128, HYP), (128, 64, RAM)]),
    ("overlap after",         &[(0, 128, RAM), (64, 128, HYP)],                                 &[(0, 64, RAM), (64, 128, HYP)]),
    ("overlap, equal classes", &[(0, 128, RAM), (64, 128, RAM)],                                 &[(0, 192, RAM)]),
    ("over several runs",      &[(0, 64, RAM), (128, 64, HYP), (256, 64, RAM), (32, 256, HYP)],  &[(0, 32, RAM), (32, 256, HYP), (288, 32, RAM)]),
    ("holes at both ends",     &[(0, 256, RAM), (0, 64, HOLE), (192, 64, HOLE)],                 &[(64, 128, RAM)]),
    ("a cut of several runs",  &[(0, 64, RAM), (64, 64, HYP), (128, 64, RAM), (32, 128, HOLE)],  &[(0, 32, RAM), (160, 32, RAM)]),
    ("a cut of everything",    &[(64, 64, RAM), (128, 64, HYP), (0, 256, HOLE)],                 &[]),
    ("another in the hole",    &[(0, 192, RAM), (64, 64, HOLE), (64, 64, HYP)],                  &[(0, 64, RAM), (64, 64, HYP), (128, 64, RAM)]),
    ("no byte in the range",   &[(0, 128, RAM), (64, 0, HYP)],                                   &[(0, 128, RAM)]),
    ("the top of the space",   &[(SPACE - 64, 64, RAM)],                                         &[(SPACE - 64, 64, RAM)]),
    ("all but the last byte",  &[(0, SPACE, RAM), (SPACE - 1, 1, HOLE)],                         &[(0, SPACE - 1, RAM)]),
];

#[test]
fn maximal_runs(rt: HostRuntime) -> Result<(), Fail> {
    for (shows, laid, expected) in LAID.as_slice() {
        check(&rt, rt.alloc(), shows, laid, expected)?;
    }
    Ok(())
}

#[rattlefmt::skip]
static CLASSES: [(&str, u64, Class); 10] = [
    // shows                      byte      class
    ("the byte before",           63,       HOLE),
    ("the first byte",            64,       RAM),
    ("before the hole",           99,       RAM),
    ("the hole",                  100,      HOLE),
    ("after the hole",            101,      RAM),
    ("the last of the first one", 127,      RAM),
    ("the first of the second",   128,      HYP),
    ("the last byte",             191,      HYP),
    ("the byte after",            192,      HOLE),
    ("past the address space",    u64::MAX, HOLE),
];

#[test]
fn classes_of_bytes(rt: HostRuntime) -> Result<(), Fail> {
    let alloc = rt.alloc();
    let mut ranges = Ranges::new(alloc);
    let empty = ranges.class_at(0);
    let first = ByteRange {
        base: 64,
        size: 128,
    };
    let second = ByteRange {
        base: 128,
        size: 64,
    };
    ranges.insert(alloc, first, RAM)?;
    ranges.insert(alloc, second, HYP)?;
    ranges.cut(alloc, ByteRange { base: 100, size: 1 })?;
    for (shows, at, class) in CLASSES.as_slice() {
        check_class(&rt, shows, ranges.class_at(*at), *class);
    }
    check_class(&rt, "nothing laid", empty, HOLE);
    Ok(())
}

fn check_class(rt: &impl Abort, shows: &str, class: Class, expected: Class) {
    assert!(rt; class == expected, "{shows}");
}
