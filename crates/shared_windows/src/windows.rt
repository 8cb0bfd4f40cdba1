ghost use Rattle.std.specs.Prelude.{◌≡◌, ◌<◌, ◌↔◌, ◌&&◌, ℕ, IsTrue, Some, is_some, length, nat_lt, slice_get};
ghost use Rattle.std.specs.Int.{IsBitSet};
ghost use Rattle.bao_config.specs.Config.{config_data};
ghost use Rattle.bao_config.specs.Data.{vm_data};
ghost use Rattle.bao_wellformed.specs.Windows.{HasSoundWindows};
ghost use Rattle.shared_windows.specs.Windows.{HearsBy, events_of, irq_in, irq_of, is_member, is_on, lists};
ghost use Rattle.std.specs.List.{list_any};

use bao_config::{Config, Ipc, Vm};

/// The most VMs that a configuration has.
const VMS: u8 = 8;

/// The VMs that hear of a ring of the caller's, by its place, on a shared memory: bit v stands for the VM at place v.
pub fn members(config: &Config, shmem: u8, caller: u8) -> u8
    ensures { (v : ℕ) → IsBitSet result v ↔ IsTrue (is_member (config_data config.now) shmem caller v) }
{
    let mut mask = 0;
    for v in 0..VMS {
        if is_member(config, shmem, caller, v) {
            mask |= 1 << v;
        }
    }
    mask
}

/// Whether the VM at a place hears of a ring of the caller's, by its place, on a shared memory: it isn't the caller, and has a
/// window on the memory.
pub fn is_member(config: &Config, shmem: u8, caller: u8, v: u8) -> bool
    ensures { result ≡ is_member (config_data config.now) shmem caller v }
{
    v != caller && lists(config, v, shmem)
}

fn lists(config: &Config, v: u8, shmem: u8) -> bool
    ensures { result ≡ lists (config_data config.now) v shmem }
{
    match config.vms.get(usize::from(v)) {
        Some(vm) => has_window(vm, shmem),
        None => false,
    }
}

fn has_window(vm: &Vm, shmem: u8) -> bool
    ensures { result ≡ list_any (is_on shmem) (vm_data vm.now).ipcs }
{
    for window in vm.ipcs.as_slice() {
        if window.shmem == shmem {
            return true;
        }
    }
    false
}

/// The interrupt number by which the VM at a place hears of an event of a shared memory. None exactly where it doesn't
/// list the memory, or the memory doesn't have the event.
pub fn irq_of(config: &Config, vm: u8, shmem: u8, event: u8) -> Option<u16>
    requires vm { vm < length (config_data config.now).vms }
    requires shmem { shmem < length (config_data config.now).shmems }
    requires sound { HasSoundWindows (config_data config.now) }
    ensures value { result ≡ irq_of (config_data config.now) vm shmem event }
    ensures some { let cfg = config_data config.now in
        is_some result ≡ (lists cfg vm shmem && nat_lt event (events_of cfg shmem)) }
    ensures heard { (irq : ℕ) → (result ≡ Some irq) ↔ HearsBy (config_data config.now) vm shmem event irq }
{
    irq_in(&config.vms[usize::from(vm)], shmem, event)
}

fn irq_in(vm: &Vm, shmem: u8, event: u8) -> Option<u16>
    ensures { result ≡ irq_in shmem event (vm_data vm.now) }
{
    for window in vm.ipcs.as_slice() {
        if window.shmem == shmem {
            return number_in(window, event);
        }
    }
    None
}

fn number_in(window: &Ipc, event: u8) -> Option<u16>
    ensures { result ≡ slice_get window.now.irqs.items event }
{
    window.irqs.as_slice().get(usize::from(event)).copied()
}
