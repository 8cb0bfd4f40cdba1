//! The rules on each two VMs.
ghost use Rattle.std.specs.Prelude.{◌≡◌, ◌+◌, ◌<◌, length, map, drop};
ghost use Rattle.std.specs.List.{flat_map, enumerate_from};
ghost use Rattle.bao_config.specs.Config.{config_data};
ghost use Rattle.bao_config.specs.Data.{vm_data};
ghost use Rattle.bao_config.specs.Fits.{VmFits};
ghost use Rattle.bao_wellformed.specs.Break.{first, in_each_two_vms};

use crate::Ill;
use bao_config::{Config, Vm};

/// A rule on each two VMs.
pub(crate) trait VmPairRule {
    ghost use Rattle.std.specs.Prelude.{ℕ, List};
    ghost use Rattle.bao_config.specs.Data.{ConfigData, VmData, vm_data};
    ghost use Rattle.bao_wellformed.specs.declared.ill.Ill.{Ill};

    /// How the VM at the one place and the VM at the other, later one break the rule.
    ghost breaks: { ConfigData → ℕ → VmData → ℕ → VmData → List Ill };

    /// The first of these breaks.
    fn first_break(config: &Config, place: u8, vm: &Vm, later: u8, other: &Vm) -> Option<Ill>
        requires vm { VmFits (vm_data vm.now) }
        requires other { VmFits (vm_data other.now) }
        ensures { result ≡ first
            (breaks (config_data config.now) place (vm_data vm.now) later (vm_data other.now)) };
}

/// The first break of the rule: the one of the least earlier VM, and for that of the least later VM.
pub(crate) fn first_of_vm_pairs<R: VmPairRule>(config: &Config) -> Option<Ill>
    ensures { result
        ≡ first (in_each_two_vms (R.breaks (config_data config.now)) (config_data config.now)) }
{
    for (place, vm) in config.vms.iter().enumerate() {
        let found = first_with::<R>(config, place, vm);
        if found.is_some() {
            return found;
        }
    }
    None
}

/// The first break of the rule by the VM at this place with a later one.
fn first_with<R: VmPairRule>(config: &Config, place: usize, vm: &Vm) -> Option<Ill>
    requires place { place < length config.now.vms.items }
    requires vm { VmFits (vm_data vm.now) }
    ensures { result ≡ first
        (flat_map (λ (w, other). R.breaks (config_data config.now) place (vm_data vm.now) w other)
        (enumerate_from (place + 1) (map vm_data (drop (place + 1) config.now.vms.items)))) }
{
    let mut later = place + 1;
    while later < config.vms.len() {
        let found = R::first_break(config, place as u8, vm, later as u8, &config.vms[later]);
        if found.is_some() {
            return found;
        }
        later += 1;
    }
    None
}

/// 9: no two VMs have one name.
pub(crate) struct NamesDiffer;

impl VmPairRule for NamesDiffer {
    ghost use Rattle.bao_wellformed.specs.Rules.{names_alike};

    ghost breaks = { names_alike };

    fn first_break(_config: &Config, place: u8, vm: &Vm, later: u8, other: &Vm) -> Option<Ill> {
        if vm.name == other.name {
            return Some(Ill {
                vm: later,
                item: place,
                ..Ill::of(9)
            });
        }
        None
    }
}
