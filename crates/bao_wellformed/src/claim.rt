//! What VMs claim for themselves, and the rules by which nothing is claimed twice: 11, 15, 17 and 19.
ghost use Rattle.std.specs.Prelude.{◌≡◌, ◌≤◌, ◌++◌, length, map, IfOk, OnOk};
ghost use Rattle.bao_config.specs.Config.{config_data};
ghost use Rattle.bao_config.specs.Data.{vm_data};
ghost use Rattle.bao_wellformed.specs.declared.claim.Claim.{Claim};
ghost use Rattle.bao_wellformed.specs.Break.{first, indexed};
ghost use Rattle.bao_wellformed.specs.Claims.{claims, numbers_of};
ghost use Rattle.bao_wellformed.specs.Rules.{rule_11, rule_15, rule_17, rule_19};

use crate::Ill;
use crate::pair_rules::{PairRule, first_of_pairs};
use bao_config::{Config, Vm};
use std::alloc::{AllocError, Global};

/// What is claimed.
#[derive(Clone, Copy, Debug, PartialEq, Eq)]
pub(crate) enum Claimed {
    Cores,
    /// The ports of the devs.
    Ports,
    /// The shared memories of the ipcs.
    Shmems,
    /// The interrupt numbers, of the devs first and then of the ipcs.
    Irqs,
}

/// A number that a VM claims for itself.
#[derive(Clone, Copy, Debug, PartialEq, Eq)]
pub(crate) struct Claim {
    /// The VM's place in the configuration.
    pub(crate) vm: u8,
    /// The number's place in the VM's list.
    pub(crate) item: u8,
    pub(crate) number: u16,
}

/// The numbers that the VM claims, in order.
fn numbers_of(alloc: Global, claimed: Claimed, vm: &Vm) -> Result<Vec<u16>, AllocError>
    ensures { IfOk result (λ numbers. numbers.items ≡ numbers_of claimed (vm_data vm.now)) }
{
    match claimed {
        Claimed::Cores => vm.cores.iter().map(|core| u16::from(*core)).collect(alloc),
        Claimed::Ports => vm.devs.iter().map(|dev| u16::from(dev.port)).collect(alloc),
        Claimed::Shmems => shmems_of(alloc, vm),
        Claimed::Irqs => irqs_of(alloc, vm),
    }
}

/// The shared memories of the VM's ipcs.
fn shmems_of(alloc: Global, vm: &Vm) -> Result<Vec<u16>, AllocError>
    ensures { IfOk result (λ shmems. shmems.items ≡ numbers_of Claimed.Shmems (vm_data vm.now)) }
{
    let mut shmems = Vec::new(alloc);
    for ipc in vm.ipcs.as_slice() {
        shmems.push(u16::from(ipc.shmem))?;
    }
    Ok(shmems)
}

/// The interrupt numbers of the VM: those of its devs, then those of its ipcs.
fn irqs_of(alloc: Global, vm: &Vm) -> Result<Vec<u16>, AllocError>
    ensures { IfOk result (λ irqs. irqs.items ≡ numbers_of Claimed.Irqs (vm_data vm.now)) }
{
    let mut irqs: Vec<u16> = vm.devs.iter().map(|dev| dev.irq).collect(alloc)?;
    for ipc in vm.ipcs.as_slice() {
        irqs.extend_from_slice(ipc.irqs.as_slice())?;
    }
    Ok(irqs)
}

/// What all VMs claim.
fn claims(alloc: Global, claimed: Claimed, config: &Config) -> Result<Vec<Claim>, AllocError>
    ensures { IfOk result (λ all. all.items ≡ claims claimed (config_data config.now)) }
{
    let mut all = Vec::new(alloc);
    for (place, vm) in config.vms.iter().enumerate() {
        let numbers = numbers_of(alloc, claimed, vm)?;
        push_claims(&mut all, place as u8, numbers.as_slice())?;
    }
    Ok(all)
}

/// Adds the claims of the VM at this place to those of the VMs before.
fn push_claims(all: &mut Vec<Claim>, place: u8, numbers: &[u16]) -> Result<(), AllocError>
    requires { length numbers.now ≤ 256 }
    ensures { OnOk result (all.new.items ≡ all.old.items
        ++ map (λ (j, number). record { vm = place; item = j; number = number }) (indexed numbers.now)) }
{
    for (item, number) in numbers.iter().enumerate() {
        all.push(Claim {
            vm: place,
            item: item as u8,
            number: *number,
        })?;
    }
    Ok(())
}

/// A rule that nothing is claimed twice: by two VMs or by one, or only by one of them.
struct ClaimedOnce {
    rule: u8,
    /// Whether two VMs may claim one number.
    in_each_vm: bool,
}

impl PairRule<Claim> for ClaimedOnce {
    ghost use Rattle.bao_wellformed.specs.Break.{broken};
    ghost use Rattle.std.specs.Prelude.{if◌then◌else◌};
    ghost use Rattle.bao_wellformed.specs.Rules.{are_one, are_one_in_vm};

    ghost is_broken = { λ rule one other. if rule.in_each_vm then are_one_in_vm one other else are_one one other };

    ghost report = { λ rule one other. record (broken rule.rule) { vm = other.vm; item = other.item } };

    fn judge(&self, one: &Claim, other: &Claim) -> Option<Ill> {
        let is_same_vm = !self.in_each_vm || one.vm == other.vm;
        if is_same_vm && one.number == other.number {
            return Some(Ill {
                vm: other.vm,
                item: other.item,
                ..Ill::of(self.rule)
            });
        }
        None
    }
}

/// 11: no core is claimed twice.
pub(crate) fn rule_11(alloc: Global, config: &Config) -> Result<Option<Ill>, AllocError>
    ensures { IfOk result (λ found. found ≡ first (rule_11 (config_data config.now))) }
{
    let all = claims(alloc, Claimed::Cores, config)?;
    Ok(first_of_pairs(
        &ClaimedOnce {
            rule: 11,
            in_each_vm: false,
        },
        all.as_slice(),
    ))
}

/// 15: no port is claimed twice.
pub(crate) fn rule_15(alloc: Global, config: &Config) -> Result<Option<Ill>, AllocError>
    ensures { IfOk result (λ found. found ≡ first (rule_15 (config_data config.now))) }
{
    let all = claims(alloc, Claimed::Ports, config)?;
    Ok(first_of_pairs(
        &ClaimedOnce {
            rule: 15,
            in_each_vm: false,
        },
        all.as_slice(),
    ))
}

/// 17: no VM has two windows on one shared memory.
pub(crate) fn rule_17(alloc: Global, config: &Config) -> Result<Option<Ill>, AllocError>
    ensures { IfOk result (λ found. found ≡ first (rule_17 (config_data config.now))) }
{
    let all = claims(alloc, Claimed::Shmems, config)?;
    Ok(first_of_pairs(
        &ClaimedOnce {
            rule: 17,
            in_each_vm: true,
        },
        all.as_slice(),
    ))
}

/// 19: no interrupt number stands twice in a VM.
pub(crate) fn rule_19(alloc: Global, config: &Config) -> Result<Option<Ill>, AllocError>
    ensures { IfOk result (λ found. found ≡ first (rule_19 (config_data config.now))) }
{
    let all = claims(alloc, Claimed::Irqs, config)?;
    Ok(first_of_pairs(
        &ClaimedOnce {
            rule: 19,
            in_each_vm: true,
        },
        all.as_slice(),
    ))
}
