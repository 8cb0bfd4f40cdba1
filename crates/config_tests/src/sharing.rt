//! Three VMs that share two memories: who hears of a ring, and by which interrupt number, in every combination of windows.

use crate::samples::checked;
use bao_wellformed::{Checked, laws_of_windows};
use shared_windows::{irq_of, members};
use std::alloc::{AllocError, Global};
use std::process::Abort;

/// The VMs have one, two and three cores. Each `[vm memory]` stands for the VM's window on the memory, or for nothing.
const THREE_VMS: &str = r#"version = 1
[platform]
banks = [{ base = 0x0, size = 0x200000 }]
cores = [16, 16, 16, 16, 16, 16]
gicd = 0xaf000000
gicr = 0xaf100000
[hypervisor]
base = 0x0
size = 0x10000
[[shmem]]
base = 0x180000
size = 0x1000
events = 2
[[shmem]]
base = 0x190000
size = 0x1000
events = 3
[[vm]]
name = "a"
image = "a.bin"
load = 0x100000
room = 0x8000
entry = 0x100000
cores = [0]
regions = [{ base = 0x100000, size = 0x10000, access = "rwx" }]
ipcs = [[a 0][a 1]]
[[vm]]
name = "b"
image = "b.bin"
load = 0x120000
room = 0x8000
entry = 0x120000
cores = [1, 2]
regions = [{ base = 0x120000, size = 0x10000, access = "rwx" }]
ipcs = [[b 1][b 0]]
[[vm]]
name = "c"
image = "c.bin"
load = 0x140000
room = 0x8000
entry = 0x140000
cores = [3, 4, 5]
regions = [{ base = 0x140000, size = 0x10000, access = "rwx" }]
ipcs = [[c 0][c 1]]
"#;

/// A window as the text of a configuration has it: the memory, the VM's bit in a mask, the mark and the window.
type Window = (usize, u8, &'static str, &'static str);

#[rattlefmt::skip]
static WINDOWS: [Window; 6] = [
    (0, 1, "[a 0]", "{ shmem = 0, access = \"rw\", irqs = [50, 51] },"),
    (1, 1, "[a 1]", "{ shmem = 1, access = \"r\", irqs = [52, 53, 54] },"),
    (0, 2, "[b 0]", "{ shmem = 0, access = \"rw\", irqs = [60, 61] },"),
    (1, 2, "[b 1]", "{ shmem = 1, access = \"rw\", irqs = [62, 63, 64] },"),
    (0, 4, "[c 0]", "{ shmem = 0, access = \"r\", irqs = [70, 71] },"),
    (1, 4, "[c 1]", "{ shmem = 1, access = \"rw\", irqs = [72, 73, 74] },"),
];

/// The configuration in which these VMs, bit by bit, list each of the two memories.
pub(crate) fn sharing(alloc: Global, users: [u8; 2]) -> Result<String, AllocError> {
    let mut text = THREE_VMS.to_owned(alloc)?;
    for (memory, vm, mark, window) in WINDOWS.as_slice() {
        let lists = *memory < 2 && users[*memory] & *vm != 0;
        let new = if lists { *window } else { "" };
        text = text.as_str().replace(alloc, *mark, new)?;
    }
    Ok(text)
}

/// The number by which a VM hears of an event, where both are there.
fn number(checked: &Checked, vm: u8, shmem: u8, event: u8) -> Option<u16> {
    let config = checked.config();
    laws_of_windows();
    if usize::from(vm) >= config.vms.len() || usize::from(shmem) >= config.shmems.len() {
        return None;
    }
    irq_of(config, vm, shmem, event)
}

/// Who hears of a VM's ring on each memory, as masks, and by which numbers the VM hears of the events of each, at and
/// past their bounds.
fn told_of(alloc: Global, checked: &Checked, vm: u8) -> Result<String, AllocError> {
    let config = checked.config();
    let first = members(config, 0, vm);
    let second = members(config, 1, vm);
    let mut text = format!(in alloc; "{first} {second}")?;
    for (shmem, event) in [
        (0, 0),
        (0, 1),
        (0, 2),
        (0, 255),
        (1, 0),
        (1, 1),
        (1, 2),
        (1, 3),
    ] {
        let word = match number(checked, vm, shmem, event) {
            Some(irq) => format!(in alloc; " {irq}")?,
            None => " -".to_owned(alloc)?,
        };
        text.push_str(word.as_str())?;
    }
    Ok(text)
}

/// The numbers of a VM's events of each memory, where it lists the memory.
static NUMBERS: [[&str; 2]; 3] = [
    [" 50 51 - -", " 52 53 54 -"],
    [" 60 61 - -", " 62 63 64 -"],
    [" 70 71 - -", " 72 73 74 -"],
];

/// What is to be told of a VM: of each memory its other users, and the numbers of the VM if it is a user.
fn wanted_of(alloc: Global, users: [u8; 2], vm: u8) -> Result<String, AllocError> {
    let own = match vm {
        0 => 1,
        1 => 2,
        _ => 4,
    };
    let numbers = &NUMBERS[usize::from(vm % 3)];
    let none = " - - - -";
    let first = if users[0] & own != 0 {
        numbers[0]
    } else {
        none
    };
    let second = if users[1] & own != 0 {
        numbers[1]
    } else {
        none
    };
    format!(in alloc; "{} {}{first}{second}", users[0] & !own, users[1] & !own)
}

fn check_vms(rt: &impl Abort, alloc: Global, users: [u8; 2]) -> Result<(), AllocError> {
    let text = sharing(alloc, users)?;
    let Some(Ok(checked)) = checked(alloc, text.as_str()) else {
        assert!(rt; false, "refused: {users:?}");
        return Ok(());
    };
    for vm in 0..3 {
        let said = told_of(alloc, &checked, vm)?;
        let wanted = wanted_of(alloc, users, vm)?;
        assert!(rt; said == wanted, "{users:?} vm {vm}: {said}");
    }
    Ok(())
}

#[test]
fn two_memories_shared_by_three_vms_in_every_combination(
    rt: HostRuntime,
) -> Result<(), AllocError> {
    for combination in 0..64 {
        check_vms(&rt, rt.alloc(), [combination % 8, combination / 8])?;
    }
    Ok(())
}
