//! The configurations of the worked runs, as texts, for the tests crates, which read them and change them.
#![tactic(auto)]

/// One VM and one port: the configuration of `examples/first`.
pub const ONE_VM: &str = r#"version = 1
[platform]
banks = [{ base = 0x0, size = 0x200000 }]
cores = [16]
gicd = 0xaf000000
gicr = 0xaf100000
ports = [{ id = 0, base = 0x9c090000, spi = 32 }]
[hypervisor]
base = 0x0
size = 0x10000
[[vm]]
name = "a"
image = "a.bin"
load = 0x100000
room = 0x8000
entry = 0x100000
cores = [0]
regions = [{ base = 0x100000, size = 0x10000, access = "rwx" }]
devs = [{ port = 0, irq = 40 }]
"#;

/// Two VMs that share a window, and a port each.
pub const TWO_VMS: &str = r#"version = 1
[platform]
banks = [{ base = 0x0, size = 0x200000 }]
cores = [16, 16]
gicd = 0xaf000000
gicr = 0xaf100000
ports = [{ id = 0, base = 0x9c090000, spi = 32 }, { id = 1, base = 0x9c0a0000, spi = 33 }]
[hypervisor]
base = 0x0
size = 0x10000
[[shmem]]
base = 0x180000
size = 0x1000
events = 2
[[vm]]
name = "a"
image = "a.bin"
load = 0x100000
room = 0x8000
entry = 0x100000
cores = [0]
regions = [{ base = 0x100000, size = 0x10000, access = "rwx" }]
devs = [{ port = 0, irq = 40 }]
ipcs = [{ shmem = 0, access = "rw", irqs = [50, 51] }]
[[vm]]
name = "b"
image = "b.bin"
load = 0x140000
room = 0x8000
entry = 0x140000
cores = [1]
regions = [{ base = 0x140000, size = 0x10000, access = "rwx" }]
devs = [{ port = 1, irq = 40 }]
ipcs = [{ shmem = 0, access = "rw", irqs = [60, 61] }]
"#;
