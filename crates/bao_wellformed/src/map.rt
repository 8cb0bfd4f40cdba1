//! The map of a VM as a list of entries.
ghost use Rattle.std.specs.Prelude.{◌≡◌, ◌+◌, ◌<◌, ◌≤◌, ◌++◌, length, map, filter_map, option_to_list};
ghost use Rattle.bao_config.specs.Config.{config_data};
ghost use Rattle.bao_config.specs.Data.{vm_data, ipc_data};
ghost use Rattle.bao_wellformed.specs.Map.{map_of, region_entry, dev_entry, ipc_entry, guard_entry, grant, has_core};
ghost use Rattle.bao_wellformed.specs.ByteRules.{cover, kind_in};

use crate::ranges::port_range;
use arrayvec::ArrayVec;
use bao_config::{Config, Dev, Ipc, MapRegion, Vm};
use bao_types::{ByteRange, Class};

/// The most entries that a map has: 16 regions, 16 devs, 8 windows and 16 guards.
pub const MAP_ENTRIES: usize = 56;

/// What a byte is in the map of a VM.
#[derive(Clone, Copy, Debug, Default, PartialEq, Eq)]
pub enum Kind {
    /// Memory of the VM's own, which it may read.
    Ram { write: bool, exec: bool },
    /// A device port, by its id.
    Port { id: u8 },
    /// A window on a shared memory, by its place in the configuration.
    Window { shmem: u8, write: bool },
    /// Not there.
    #[default]
    Hole,
}

/// An entry of the map of a VM. Where two share a byte, the later one decides.
#[derive(Clone, Copy, Debug, Default, PartialEq, Eq)]
pub struct MapEntry {
    pub range: ByteRange,
    pub kind: Kind,
}

/// What a guest may do with a byte of this kind.
pub fn grant(kind: Kind) -> Class
    ensures { result ≡ grant kind }
{
    match kind {
        Kind::Ram { write, exec } => Class::Guest {
            write,
            exec,
            port: false,
        },
        Kind::Port { id: _ } => Class::Guest {
            write: true,
            exec: false,
            port: true,
        },
        Kind::Window { shmem: _, write } => Class::Guest {
            write,
            exec: false,
            port: false,
        },
        Kind::Hole => Class::Nothing,
    }
}

/// The entries of the map of a VM, in the order in which they apply.
pub fn map_of(config: &Config, vm: &Vm) -> ArrayVec<MapEntry, MAP_ENTRIES>
    ensures { result.items ≡ map_of (config_data config.now) (vm_data vm.now) }
{
    let mut entries = ArrayVec::new();
    push_regions(&mut entries, vm.regions.as_slice());
    push_devs(&mut entries, config, vm.devs.as_slice());
    push_ipcs(&mut entries, config, vm.ipcs.as_slice());
    push_guards(&mut entries, vm.guards.as_slice());
    entries
}

fn push_regions(entries: &mut ArrayVec<MapEntry, MAP_ENTRIES>, regions: &[MapRegion])
    requires { length entries.old.items + length regions.now ≤ 56 }
    ensures items { entries.new.items ≡ entries.old.items ++ map region_entry regions.now }
    ensures room { length entries.new.items ≤ length entries.old.items + length regions.now }
{
    for region in regions {
        entries.push(MapEntry {
            range: region.range,
            kind: Kind::Ram {
                write: region.write,
                exec: region.exec,
            },
        });
    }
}

fn push_devs(entries: &mut ArrayVec<MapEntry, MAP_ENTRIES>, config: &Config, devs: &[Dev])
    requires { length entries.old.items + length devs.now ≤ 56 }
    ensures items { entries.new.items
        ≡ entries.old.items ++ filter_map (dev_entry (config_data config.now)) devs.now }
    ensures room { length entries.new.items ≤ length entries.old.items + length devs.now }
{
    for dev in devs {
        push_some(entries, dev_entry(config, dev));
    }
}

fn push_some(entries: &mut ArrayVec<MapEntry, MAP_ENTRIES>, entry: Option<MapEntry>)
    requires { length entries.old.items < 56 }
    ensures items { entries.new.items ≡ entries.old.items ++ option_to_list entry }
    ensures room { length entries.new.items ≤ length entries.old.items + 1 }
{
    if let Some(entry) = entry {
        entries.push(entry);
    }
}

/// The bytes of the port that the dev names: of the first with its id.
fn dev_entry(config: &Config, dev: &Dev) -> Option<MapEntry>
    ensures { result ≡ dev_entry (config_data config.now) dev.now }
{
    for port in config.platform.ports.as_slice() {
        if port.id == dev.port {
            return Some(MapEntry {
                range: port_range(port),
                kind: Kind::Port { id: dev.port },
            });
        }
    }
    None
}

fn push_ipcs(entries: &mut ArrayVec<MapEntry, MAP_ENTRIES>, config: &Config, ipcs: &[Ipc])
    requires { length entries.old.items + length ipcs.now ≤ 56 }
    ensures items { entries.new.items
        ≡ entries.old.items ++ filter_map (ipc_entry (config_data config.now)) (map ipc_data ipcs.now) }
    ensures room { length entries.new.items ≤ length entries.old.items + length ipcs.now }
{
    for ipc in ipcs {
        push_some(entries, ipc_entry(config, ipc));
    }
}

/// The window that the ipc asks for, where there is its shared memory.
fn ipc_entry(config: &Config, ipc: &Ipc) -> Option<MapEntry>
    ensures { result ≡ ipc_entry (config_data config.now) (ipc_data ipc.now) }
{
    match config.shmems.as_slice().get(usize::from(ipc.shmem)) {
        Some(shmem) => Some(MapEntry {
            range: shmem.range,
            kind: Kind::Window {
                shmem: ipc.shmem,
                write: ipc.write,
            },
        }),
        None => None,
    }
}

fn push_guards(entries: &mut ArrayVec<MapEntry, MAP_ENTRIES>, guards: &[ByteRange])
    requires { length entries.old.items + length guards.now ≤ 56 }
    ensures { entries.new.items ≡ entries.old.items ++ map guard_entry guards.now }
{
    for guard in guards {
        entries.push(MapEntry {
            range: *guard,
            kind: Kind::Hole,
        });
    }
}

/// Whether the VM has this physical core among its own.
pub fn has_core(vm: &Vm, core: u8) -> bool
    ensures { result ≡ has_core core (vm_data vm.now) }
{
    vm.cores.iter().any(|own| *own == core)
}

/// The last of the entries that contains the byte.
#[tactic(auto, using(crate::proofs::MapLemmas::reverse_more))]
pub(crate) fn cover(entries: &[MapEntry], at: u64) -> Option<MapEntry>
    ensures { result ≡ cover entries.now at }
{
    let mut found = None;
    for entry in entries {
        if entry.range.contains(at) {
            found = Some(*entry);
        }
    }
    found
}

/// What the byte is in a map of these entries.
pub fn kind_in(entries: &[MapEntry], at: u64) -> Kind
    ensures { result ≡ kind_in entries.now at }
{
    match cover(entries, at) {
        Some(entry) => entry.kind,
        None => Kind::Hole,
    }
}
