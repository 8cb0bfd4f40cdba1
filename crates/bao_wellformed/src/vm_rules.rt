//! The rules on each VM by itself: 10, 12, 13, 14, 16 and 18.
ghost use Rattle.std.specs.Prelude.{◌≡◌, slice_get};
ghost use Rattle.bao_config.specs.Config.{config_data};
ghost use Rattle.bao_config.specs.Data.{ipc_data};
ghost use Rattle.bao_wellformed.specs.Break.{first, in_each_vm};
ghost use Rattle.bao_wellformed.specs.Rules.{names_a_port, lacks_irqs};

use crate::Ill;
use crate::ranges::lies_in_a_bank;
use bao_config::{Config, Dev, Ipc, Vm};

/// A rule on each VM by itself.
pub(crate) trait VmRule {
    ghost use Rattle.std.specs.Prelude.{ℕ, List};
    ghost use Rattle.bao_config.specs.Data.{ConfigData, VmData, vm_data};
    ghost use Rattle.bao_config.specs.Fits.{VmFits};
    ghost use Rattle.bao_wellformed.specs.declared.ill.Ill.{Ill};

    /// What breaks the rule in the VM at this place.
    ghost breaks: { ConfigData → ℕ → VmData → List Ill };

    /// The first of these breaks.
    fn first_break(config: &Config, place: u8, vm: &Vm) -> Option<Ill>
        requires { VmFits (vm_data vm.now) }
        ensures { result ≡ first (breaks (config_data config.now) place (vm_data vm.now)) };
}

/// The first break of the rule in a VM, VM by VM.
pub(crate) fn first_of_vms<R: VmRule>(config: &Config) -> Option<Ill>
    ensures { result ≡ first (in_each_vm (R.breaks (config_data config.now)) (config_data config.now)) }
{
    for (place, vm) in config.vms.iter().enumerate() {
        let found = R::first_break(config, place as u8, vm);
        if found.is_some() {
            return found;
        }
    }
    None
}

/// 10: each core of a VM is one of the platform.
pub(crate) struct CoresExist;

impl VmRule for CoresExist {
    ghost use Rattle.bao_wellformed.specs.Rules.{foreign_cores};

    ghost breaks = { foreign_cores };

    fn first_break(config: &Config, place: u8, vm: &Vm) -> Option<Ill> {
        for (item, core) in vm.cores.as_slice().iter().enumerate() {
            if usize::from(*core) >= config.platform.cores.len() {
                return Some(Ill {
                    vm: place,
                    item: item as u8,
                    ..Ill::of(10)
                });
            }
        }
        None
    }
}

/// 12: each region lies in one bank.
pub(crate) struct RegionsInBanks;

impl VmRule for RegionsInBanks {
    ghost use Rattle.bao_wellformed.specs.Rules.{regions_outside};

    ghost breaks = { regions_outside };

    fn first_break(config: &Config, place: u8, vm: &Vm) -> Option<Ill> {
        for (item, region) in vm.regions.as_slice().iter().enumerate() {
            if !lies_in_a_bank(config, &region.range) {
                return Some(Ill {
                    vm: place,
                    item: item as u8,
                    first: region.range,
                    ..Ill::of(12)
                });
            }
        }
        None
    }
}

/// 13: no region overlaps the hypervisor's range.
pub(crate) struct RegionsOffHypervisor;

impl VmRule for RegionsOffHypervisor {
    ghost use Rattle.bao_wellformed.specs.Rules.{regions_of_the_hypervisor};

    ghost breaks = { regions_of_the_hypervisor };

    fn first_break(config: &Config, place: u8, vm: &Vm) -> Option<Ill> {
        for (item, region) in vm.regions.as_slice().iter().enumerate() {
            if region.range.overlaps(&config.hyp) {
                return Some(Ill {
                    vm: place,
                    item: item as u8,
                    first: region.range,
                    second: config.hyp,
                    ..Ill::of(13)
                });
            }
        }
        None
    }
}

/// 14: each dev names a port of the platform.
pub(crate) struct DevsHavePorts;

impl VmRule for DevsHavePorts {
    ghost use Rattle.bao_wellformed.specs.Rules.{devs_without_port};

    ghost breaks = { devs_without_port };

    fn first_break(config: &Config, place: u8, vm: &Vm) -> Option<Ill> {
        for (item, dev) in vm.devs.as_slice().iter().enumerate() {
            if !names_a_port(config, dev) {
                return Some(Ill {
                    vm: place,
                    item: item as u8,
                    ..Ill::of(14)
                });
            }
        }
        None
    }
}

/// Whether a port of the platform has the id that the dev names.
fn names_a_port(config: &Config, dev: &Dev) -> bool
    ensures { result ≡ names_a_port (config_data config.now) dev.now }
{
    config.platform.ports.iter().any(|port| port.id == dev.port)
}

/// 16: each ipc names a shared memory.
pub(crate) struct IpcsHaveShmems;

impl VmRule for IpcsHaveShmems {
    ghost use Rattle.bao_wellformed.specs.Rules.{ipcs_without_shmem};

    ghost breaks = { ipcs_without_shmem };

    fn first_break(config: &Config, place: u8, vm: &Vm) -> Option<Ill> {
        for (item, ipc) in vm.ipcs.as_slice().iter().enumerate() {
            if usize::from(ipc.shmem) >= config.shmems.len() {
                return Some(Ill {
                    vm: place,
                    item: item as u8,
                    ..Ill::of(16)
                });
            }
        }
        None
    }
}

/// 18: an ipc has one interrupt number for each event.
pub(crate) struct IpcsHaveIrqs;

impl VmRule for IpcsHaveIrqs {
    ghost use Rattle.bao_wellformed.specs.Rules.{ipcs_without_irqs};

    ghost breaks = { ipcs_without_irqs };

    fn first_break(config: &Config, place: u8, vm: &Vm) -> Option<Ill> {
        for (item, ipc) in vm.ipcs.as_slice().iter().enumerate() {
            if lacks_irqs(config, ipc) {
                return Some(Ill {
                    vm: place,
                    item: item as u8,
                    ..Ill::of(18)
                });
            }
        }
        None
    }
}

/// Whether the ipc has another number of interrupt numbers than its shared memory has events.
fn lacks_irqs(config: &Config, ipc: &Ipc) -> bool
    ensures { let cfg = config_data config.now in let asked = ipc_data ipc.now in
        result ≡ lacks_irqs (slice_get cfg.shmems asked.shmem) asked }
{
    match config.shmems.as_slice().get(usize::from(ipc.shmem)) {
        Some(shmem) => ipc.irqs.len() != usize::from(shmem.events),
        None => false,
    }
}
