ghost use Rattle.std.specs.Prelude.{◌≡◌, ◌≢◌, ◌+◌, ◌^◌, ◌≤◌, ◌<◌, ◌++◌, All, length, map, sum};
ghost use Rattle.std.specs.List.{AllPairs, enumerate_from, find};
ghost use Rattle.bao_types.specs.Shape.{event_limit, shape_data};
ghost use Rattle.bao_config.specs.Config.{config_data};
ghost use Rattle.bao_config.specs.Data.{vm_data};
ghost use Rattle.bao_wellformed.specs.Checked.{checked_data};
ghost use Rattle.bao_wellformed.specs.Map.{has_port, owner};
ghost use Rattle.board.specs.Machine.{IsFittable};
ghost use Rattle.vm_model.specs.Cores.{affinity_of};
ghost use Rattle.hypervisor.specs.Shape.{core_mask, core_place, port_spot, shape_of, used_ranges};

use arrayvec::ArrayVec;
use bao_config::{Config, MapRegion, Shmem, Vm};
use bao_types::{ByteRange, CorePlace, PortSpot, Shape};
use bao_wellformed::Checked;
use hypervisor::{owner, virtual_core};

/// The shape of the board that a configuration asks for, for this many events.
pub fn shape_for(checked: &Checked, events: u32) -> Shape
    requires { events ≤ event_limit }
    ensures shape { shape_data result ≡ shape_of (checked_data checked.now) events }
    ensures fittable { IsFittable (shape_data result) }
{
    let config = checked.config();
    Shape {
        banks: banks(config),
        cores: core_places(config),
        ports: port_spots(checked),
        used: used_ranges(config),
        events,
    }
}

fn banks(config: &Config) -> ArrayVec<ByteRange, 8>
    ensures { result.items ≡ (config_data config.now).platform.banks }
{
    let mut banks = ArrayVec::new();
    for bank in config.platform.banks.as_slice() {
        banks.push(*bank);
    }
    banks
}

/// The cores, each with its number of entries and the number that its guest sees.
fn core_places(config: &Config) -> ArrayVec<CorePlace, 8>
    ensures { let cfg = config_data config.now in
        result.items ≡ map (λ place. core_place cfg place.0 place.1) (enumerate_from 0 cfg.platform.cores) }
{
    let mut places = ArrayVec::new();
    for (core, entries) in config.platform.cores.as_slice().iter().enumerate() {
        places.push(CorePlace {
            entries: *entries,
            affinity: affinity_of(config, core as u8),
        });
    }
    places
}

/// The number that a core's guest sees as its own: 0 for a core of no VM.
fn affinity_of(config: &Config, core: u8) -> u8
    ensures { result ≡ affinity_of (owner (config_data config.now) core) core }
{
    match owner(config, core) {
        Some(vm) => virtual_core(vm, core).unwrap_or(0),
        None => 0,
    }
}

/// The ports, each with the cores of its VM.
fn port_spots(checked: &Checked) -> ArrayVec<PortSpot, 16>
    ensures { let cfg = checked_data checked.now in result.items ≡ map (port_spot cfg) cfg.platform.ports }
{
    let mut spots = ArrayVec::new();
    for port in checked.config().platform.ports.as_slice() {
        spots.push(PortSpot {
            id: port.id,
            base: port.base,
            spi: port.spi,
            cores: port_mask(checked, port.id),
        });
    }
    spots
}

/// The cores of the VM that is given a port, one bit each.
fn port_mask(checked: &Checked, port: u8) -> u8
    ensures { result ≡ core_mask (find (has_port port) (checked_data checked.now).vms) }
{
    for vm in checked.config().vms.as_slice() {
        if has_port(vm, port) {
            return core_mask(vm.cores.as_slice());
        }
    }
    0
}

/// Whether the VM is given this port.
fn has_port(vm: &Vm, port: u8) -> bool
    ensures { result ≡ has_port port (vm_data vm.now) }
{
    vm.devs.iter().any(|dev| dev.port == port)
}

/// These cores, one bit each.
fn core_mask(cores: &[u8]) -> u8
    requires distinct { AllPairs (λ one other. one ≢ other) cores.now }
    requires low { All (λ core. core < 8) cores.now }
    ensures { result ≡ sum (map (λ core. 2 ^ core) cores.now) }
{
    let mut mask = 0;
    for core in cores {
        mask += 1 << *core;
    }
    mask
}

/// Memory in use: the VMs' regions, then the shared memories.
fn used_ranges(config: &Config) -> ArrayVec<ByteRange, 136>
    ensures { result.items ≡ used_ranges (config_data config.now) }
{
    let mut used = ArrayVec::new();
    for vm in config.vms.as_slice() {
        push_regions(&mut used, vm.regions.as_slice());
    }
    push_shmems(&mut used, config.shmems.as_slice());
    used
}

fn push_regions(used: &mut ArrayVec<ByteRange, 136>, regions: &[MapRegion])
    requires { length used.old.items + length regions.now ≤ 136 }
    ensures items { used.new.items ≡ used.old.items ++ map (λ region. region.range) regions.now }
    ensures len { length used.new.items ≡ length used.old.items + length regions.now }
{
    for region in regions {
        used.push(region.range);
    }
}

fn push_shmems(used: &mut ArrayVec<ByteRange, 136>, shmems: &[Shmem])
    requires { length used.old.items + length shmems.now ≤ 136 }
    ensures { used.new.items ≡ used.old.items ++ map (λ shmem. shmem.range) shmems.now }
{
    for shmem in shmems {
        used.push(shmem.range);
    }
}
