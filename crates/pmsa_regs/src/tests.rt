use crate::{read_base, read_limit, select, write_base, write_limit, write_select};
use bao_types::{NO_REGION, RegionFile};
use std::process::Abort;

fn check(rt: &impl Abort, holds: bool, shows: &str) {
    assert!(rt; holds, "{shows}");
}

/// Whether these are the selected region, its base and its limit.
fn reads(regs: &RegionFile, region: u64, base: u64, limit: u64) -> bool {
    (select(regs), read_base(regs), read_limit(regs)) == (region, base, limit)
}

#[rattlefmt::skip]
static MASKS: [(&str, u64, u64, u64); 7] = [
    // shows                      written                base read back         limit read back
    ("all bits",                  0xffff_ffff_ffff_ffff, 0x0000_ffff_ffff_fffe, 0x0000_ffff_ffff_ffdf),
    ("no bits",                   0x0,                   0x0,                   0x0),
    ("bits 63 to 48",             0xffff_0000_0000_0000, 0x0,                   0x0),
    ("bit 5: SH, reserved",       0x20,                  0x20,                  0x0),
    ("bit 0: reserved, EN",       0x1,                   0x0,                   0x1),
    ("bits 4 to 1",               0x1e,                  0x1e,                  0x1e),
    ("the lowest address bit",    0x40,                  0x40,                  0x40),
];

#[test]
fn masks(rt: HostRuntime) {
    for (shows, written, base, limit) in MASKS.as_slice() {
        let mut regs = RegionFile {
            select: 3,
            regions: [NO_REGION; 16],
        };
        write_base(&mut regs, *written);
        write_limit(&mut regs, *written);
        check(&rt, reads(&regs, 3, *base, *limit), shows);
    }
}

#[test]
fn selection(rt: HostRuntime) {
    let mut regs = RegionFile {
        select: 0,
        regions: [NO_REGION; 16],
    };
    write_select(&mut regs, 15);
    write_base(&mut regs, 0x100004);
    write_limit(&mut regs, 0x10ffc1);
    check(&rt, reads(&regs, 15, 0x100004, 0x10ffc1), "the last region");
    write_select(&mut regs, 0xffff_ffff_ffff_fff2);
    check(&rt, reads(&regs, 2, 0, 0), "bits 63 to 4 are dropped");
    write_limit(&mut regs, 0x1);
    check(&rt, reads(&regs, 2, 0, 0x1), "the limit alone");
    write_select(&mut regs, 15);
    check(&rt, reads(&regs, 15, 0x100004, 0x10ffc1), "the others kept");
}
