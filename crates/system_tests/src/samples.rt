//! Changes of the sample configurations.

use std::alloc::Global;
use std::test::Fail;

/// An old text, and the text in its place.
pub(crate) type Change = (&'static str, &'static str);

/// The line of the platform's cores, and of the VM's.
pub(crate) const CORES: &str = "cores = [16]";

pub(crate) const OWN_CORES: &str = "cores = [0]";

pub(crate) const BANKS: &str = "banks = [{ base = 0x0, size = 0x200000 }]";

pub(crate) const HYPERVISOR: &str = "[hypervisor]\nbase = 0x0\nsize = 0x10000\n";

pub(crate) const REGIONS: &str =
    "regions = [{ base = 0x100000, size = 0x10000, access = \"rwx\" }]\n";

pub(crate) const DEVS: &str = "devs = [{ port = 0, irq = 40 }]\n";

/// What makes the sample one whose VM has a window: shared memory, and an ipc after the devs.
pub(crate) const SHMEM: Change = (
    "[[vm]]\n",
    "[[shmem]]\nbase = 0x180000\nsize = 0x1000\nevents = 2\n[[vm]]\n",
);

pub(crate) const WINDOW: Change = (
    DEVS,
    "devs = [{ port = 0, irq = 40 }]
ipcs = [{ shmem = 0, access = \"rw\", irqs = [50, 51] }]
",
);

/// What makes the sample of two VMs one whose VMs share nothing.
pub(crate) static NOTHING_SHARED: [Change; 3] = [
    (
        "[[shmem]]\nbase = 0x180000\nsize = 0x1000\nevents = 2\n",
        "",
    ),
    (
        "ipcs = [{ shmem = 0, access = \"rw\", irqs = [50, 51] }]\n",
        "",
    ),
    (
        "ipcs = [{ shmem = 0, access = \"rw\", irqs = [60, 61] }]\n",
        "",
    ),
];

/// A text with each change made, wherever its old text stands.
pub(crate) fn changed(alloc: Global, text: &str, changes: &[Change]) -> Result<String, Fail> {
    let mut text = String::from_str(alloc, text)?;
    for (old, new) in changes {
        text = text.as_str().replace(alloc, *old, new)?;
    }
    Ok(text)
}
