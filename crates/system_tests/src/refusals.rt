//! Changes of the sample that break it, with the status and the line of their check.

use crate::samples::{Change, HYPERVISOR, OWN_CORES};

#[rattlefmt::skip]
pub(crate) static BROKEN: [(&str, &[Change], &str); 19] = [
    ("a round bracket", &[("banks = [", "banks = (")], "status 5\nbad toml\n"),
    ("no closing bracket", &[("irq = 40 }]", "irq = 40 }")], "status 5\nbad toml\n"),
    ("no hypervisor", &[(HYPERVISOR, "")], "status 6\nbad shape hypervisor\n"),
    ("a VM without a core", &[(OWN_CORES, "cores = []")], "status 6\nbad shape vm[0].cores\n"),
    ("an upper-case name", &[("name = \"a\"", "name = \"A\"")], "status 6\nbad shape vm[0].name\n"),
    ("an unknown key", &[("version = 1", "version = 1\ncolour = 1")], "status 6\nbad shape document\n"),
    ("another version", &[("version = 1", "version = 2")], "status 6\nbad value version 2\n"),
    ("a negative size", &[("size = 0x10000, access", "size = -64, access")], "status 6\nbad value vm[0].regions[0].size -64\n"),
    ("an irq of 96", &[("irq = 40", "irq = 96")], "status 6\nbad value vm[0].devs[0].irq 96\n"),
    ("a bank past the end", &[("base = 0x0, size = 0x200000", "base = 0xffffffffffc0, size = 0x80")],
        "status 6\nill-formed rule 1 vm - item - 0xffffffffffc0+0x80 0x0+0x0\n"),
    ("frames that overlap", &[("gicr = 0xaf100000", "gicr = 0xaf000000")],
        "status 6\nill-formed rule 3 vm - item - 0xaf000000+0x10000 0xaf000000+0x20000\n"),
    ("a hypervisor in no bank", &[("base = 0x0\n", "base = 0x200000\n")],
        "status 6\nill-formed rule 5 vm - item - 0x200000+0x10000 0x0+0x0\n"),
    ("a core that isn't there", &[(OWN_CORES, "cores = [0, 1]")],
        "status 6\nill-formed rule 10 vm 0 item 1 0x0+0x0 0x0+0x0\n"),
    ("a core twice", &[(OWN_CORES, "cores = [0, 0]")],
        "status 6\nill-formed rule 11 vm 0 item 1 0x0+0x0 0x0+0x0\n"),
    ("a region past its bank", &[("size = 0x10000, access", "size = 0x100040, access")],
        "status 6\nill-formed rule 12 vm 0 item 0 0x100000+0x100040 0x0+0x0\n"),
    ("a region over the hypervisor", &[("base = 0x100000, size", "base = 0xffc0, size")],
        "status 6\nill-formed rule 13 vm 0 item 0 0xffc0+0x10000 0x0+0x10000\n"),
    ("a port that isn't there", &[("port = 0", "port = 1")],
        "status 6\nill-formed rule 14 vm 0 item 0 0x0+0x0 0x0+0x0\n"),
    ("a place past its region", &[("load = 0x100000", "load = 0x10c000")],
        "status 6\nill-formed rule 20 vm 0 item - 0x10c000+0x8000 0x110000+0x1\n"),
    ("an entry past its region", &[("entry = 0x100000", "entry = 0x110000")],
        "status 6\nill-formed rule 21 vm 0 item - 0x0+0x0 0x110000+0x1\n"),
];
