//! Virtual cores, and which of them has an interrupt.
ghost use Rattle.std.specs.Prelude.{◌≡◌, ◌<◌, ◌==◌, IfSome, is_some, length, slice_get, Some};
ghost use Rattle.std.specs.List.{find};
ghost use Rattle.std.specs.Option.{option_map};
ghost use Rattle.bao_config.specs.Config.{config_data};
ghost use Rattle.bao_config.specs.Data.{VmData, vm_data};
ghost use Rattle.bao_wellformed.specs.Map.{owner};
ghost use Rattle.vm_model.specs.Interrupts.{irq_of_port};
ghost use Rattle.hypervisor.specs.Seat.{holder_of, irq_of_line, IsSeat, IsSeatOf};

use crate::owners::{place, virtual_core, vm_at};
use bao_config::{Config, Vm};

/// The interrupt of a core's timer, as a line and as an id of its VM.
const TIMER: u16 = 27;

/// The ids of a core alone lie below this; those from here on are the VM's, and belong to its first core.
const OWN_END: u16 = 32;

/// A virtual core.
#[derive(Clone, Copy, Debug, PartialEq, Eq)]
pub(crate) struct Seat {
    /// The place of its VM.
    pub vm: u8,
    /// Its number in the VM.
    pub own: u8,
    /// The physical core on which it runs.
    pub core: u8,
}

/// The virtual core that runs on a physical core, if a VM has that.
pub(crate) fn seat_of(config: &Config, core: u8) -> Option<Seat>
    ensures there { is_some result ≡ is_some (owner (config_data config.now) core) }
    ensures seat { IfSome result (λ seat. IsSeatOf (config_data config.now) core seat) }
{
    let Some(vm) = place(config, core) else {
        return None;
    };
    let own = virtual_core(vm_at(config, vm), core).unwrap_or(0);
    Some(Seat { vm, own, core })
}

/// A virtual core of a VM, by its number.
pub(crate) fn seat_at(config: &Config, vm: u8, own: u8) -> Seat
    requires vm { vm < length (config_data config.now).vms }
    requires own { (vm_is : VmData) → slice_get (config_data config.now).vms vm ≡ Some vm_is → own < length vm_is.cores }
    ensures seat { IsSeat (config_data config.now) result }
    ensures vm { result.vm ≡ vm }
    ensures own { result.own ≡ own }
{
    let core = vm_at(config, vm).cores.as_slice()[usize::from(own)];
    Seat { vm, own, core }
}

/// The virtual core of a VM that has an interrupt of one of its cores.
pub(crate) fn holder(config: &Config, seat: Seat, id: u16) -> Seat
    requires seat { IsSeat (config_data config.now) seat }
    ensures seat { IsSeat (config_data config.now) result }
    ensures vm { result.vm ≡ seat.vm }
    ensures own { result.own ≡ holder_of seat.own id }
{
    if id < OWN_END {
        seat
    } else {
        seat_at(config, seat.vm, 0)
    }
}

/// The id that a raised line has in a VM. None for the line of a port that the VM isn't given.
pub(crate) fn irq_of_line(config: &Config, vm: &Vm, intid: u16) -> Option<u16>
    ensures { result ≡ irq_of_line (config_data config.now) (vm_data vm.now) intid }
{
    if intid == TIMER {
        return Some(TIMER);
    }
    match port_of_line(config, intid) {
        Some(port) => irq_of_port(vm, port),
        None => None,
    }
}

/// The port of the platform with this interrupt number, if it has one.
fn port_of_line(config: &Config, intid: u16) -> Option<u8>
    ensures { result ≡ option_map (λ port. port.id) (find (λ port. port.spi == intid) (config_data config.now).platform.ports) }
{
    let ports = config.platform.ports.as_slice();
    let port = ports.iter().find(|port| port.spi == intid)?;
    Some(port.id)
}

/// The id that a port has in a VM which is given it.
fn irq_of_port(vm: &Vm, port: u8) -> Option<u16>
    ensures { result ≡ irq_of_port (vm_data vm.now) port }
{
    let dev = vm.devs.as_slice().iter().find(|dev| dev.port == port)?;
    Some(dev.irq)
}
