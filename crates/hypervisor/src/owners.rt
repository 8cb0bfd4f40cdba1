//! Which VM has a core, and as which of its own.
ghost use Rattle.std.specs.Prelude.{◌≡◌, ◌<◌, length, map, slice_get, Some};
ghost use Rattle.std.specs.Option.{option_map};
ghost use Rattle.bao_config.specs.Config.{config_data};
ghost use Rattle.bao_config.specs.Data.{vm_data};
ghost use Rattle.bao_wellformed.specs.Map.{owner};
ghost use Rattle.vm_model.specs.Cores.{place_of, virtual_core};

use bao_config::{Config, Vm};
use bao_wellformed::has_core;

/// The VM that has this physical core, if one has it.
pub fn owner(config: &Config, core: u8) -> Option<&Vm>
    ensures { option_map (λ vm. vm_data vm.now) result ≡ owner (config_data config.now) core }
{
    for vm in config.vms.as_slice() {
        if has_core(vm, core) {
            return Some(vm);
        }
    }
    None
}

/// The place of the VM that has this physical core, if one has it.
pub(crate) fn place(config: &Config, core: u8) -> Option<u8>
    ensures { result ≡ place_of (config_data config.now) core }
{
    for (place, vm) in config.vms.as_slice().iter().enumerate() {
        if has_core(vm, core) {
            return Some(place as u8);
        }
    }
    None
}

/// The VM at a place.
pub(crate) fn vm_at(config: &Config, place: u8) -> &Vm
    requires { place < length (config_data config.now).vms }
    ensures { slice_get (config_data config.now).vms place ≡ Some (vm_data result.now) }
{
    &config.vms[usize::from(place)]
}

/// The number that a VM's physical core has in it: its place among the VM's cores.
pub fn virtual_core(vm: &Vm, core: u8) -> Option<u8>
    ensures { result ≡ virtual_core (vm_data vm.now) core }
{
    for (place, own) in vm.cores.as_slice().iter().enumerate() {
        if *own == core {
            return Some(place as u8);
        }
    }
    None
}
