//! What a configuration says of the numbers in a schedule.
ghost use Rattle.std.specs.Prelude.{◌≡◌};
ghost use Rattle.bao_config.specs.Config.{config_data};
ghost use Rattle.bao_config.specs.Data.{vm_data};
ghost use Rattle.bao_wellformed.specs.Map.{has_port};
ghost use Rattle.hypervisor.specs.Event.{is_core, is_assigned};
ghost use Rattle.schedule.specs.Rules.{if_so};

use bao_config::{Config, Vm};

/// The core of this number, where the platform has it.
pub(crate) fn core_of(config: &Config, core: u64) -> Option<u8>
    ensures { result ≡ if_so (is_core (config_data config.now) core) core }
{
    let core = u8::try_from(core).ok()?;
    if usize::from(core) < config.platform.cores.len() {
        Some(core)
    } else {
        None
    }
}

/// The port of this number, where a VM is given it.
pub(crate) fn port_of(config: &Config, port: u64) -> Option<u8>
    ensures { result ≡ if_so (is_assigned (config_data config.now) port) port }
{
    for vm in config.vms.as_slice() {
        if let Some(port) = port_in(vm, port) {
            return Some(port);
        }
    }
    None
}

/// The port of this number, where this VM is given it.
fn port_in(vm: &Vm, port: u64) -> Option<u8>
    ensures { result ≡ if_so (has_port port (vm_data vm.now)) port }
{
    for dev in vm.devs.as_slice() {
        if u64::from(dev.port) == port {
            return Some(dev.port);
        }
    }
    None
}
