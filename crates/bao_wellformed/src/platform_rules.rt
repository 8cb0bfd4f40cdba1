//! The rules on platform and shared memories, 1 to 8.
ghost use Rattle.std.specs.Prelude.{◌≡◌, ◌++◌, map, filter, flat_map, nat_lt, IfOk, OnOk};
ghost use Rattle.bao_types.specs.ByteRange.{address_space_end, end};
ghost use Rattle.bao_types.specs.Shape.{port_range};
ghost use Rattle.bao_config.specs.Config.{config_data};
ghost use Rattle.bao_config.specs.Data.{vm_data};
ghost use Rattle.bao_wellformed.specs.Break.{broken, first};
ghost use Rattle.bao_wellformed.specs.Rules.{all_ranges, vm_ranges, rule_1, rule_2, rule_5, rule_6, rule_7};

use crate::Ill;
use crate::ranges::{distributor, lies_in_a_bank, port_range, redistributors};
use bao_config::{Config, PortPlace, Shmem, Vm};
use bao_types::{ADDRESS_SPACE_END, ByteRange, MEMORY_LIMIT};
use std::alloc::{AllocError, Global};

/// 1: no range ends above 2^48.
pub(crate) fn rule_1(alloc: Global, config: &Config) -> Result<Option<Ill>, AllocError>
    ensures { IfOk result (λ found. found ≡ first (rule_1 (config_data config.now))) }
{
    let ranges = all_ranges(alloc, config)?;
    Ok(first_outside(ranges.as_slice()))
}

/// The first of these ranges that ends above 2^48.
fn first_outside(ranges: &[ByteRange]) -> Option<Ill>
    ensures { result ≡ first (map (λ range. record (broken 1) { first = range })
        (filter (λ range. nat_lt address_space_end (end range)) ranges.now)) }
{
    for range in ranges {
        if range.base > ADDRESS_SPACE_END || range.size > ADDRESS_SPACE_END - range.base {
            return Some(Ill {
                first: *range,
                ..Ill::of(1)
            });
        }
    }
    None
}

/// All ranges of the configuration, in the order of the rule.
fn all_ranges(alloc: Global, config: &Config) -> Result<Vec<ByteRange>, AllocError>
    ensures { IfOk result (λ ranges. ranges.items ≡ all_ranges (config_data config.now)) }
{
    let mut ranges = Vec::new(alloc);
    ranges.extend_from_slice(config.platform.banks.as_slice())?;
    ranges.push(distributor(config))?;
    ranges.push(redistributors(config))?;
    push_ports(&mut ranges, config.platform.ports.as_slice())?;
    ranges.push(config.hyp)?;
    push_shmems(&mut ranges, config.shmems.as_slice())?;
    push_vms(&mut ranges, config.vms.as_slice())?;
    Ok(ranges)
}

fn push_ports(ranges: &mut Vec<ByteRange>, ports: &[PortPlace]) -> Result<(), AllocError>
    ensures { OnOk result (ranges.new.items
        ≡ ranges.old.items ++ map (λ port. port_range port.base) ports.now) }
{
    for port in ports {
        ranges.push(port_range(port))?;
    }
    Ok(())
}

fn push_shmems(ranges: &mut Vec<ByteRange>, shmems: &[Shmem]) -> Result<(), AllocError>
    ensures { OnOk result (ranges.new.items
        ≡ ranges.old.items ++ map (λ shmem. shmem.range) shmems.now) }
{
    for shmem in shmems {
        ranges.push(shmem.range)?;
    }
    Ok(())
}

fn push_vms(ranges: &mut Vec<ByteRange>, vms: &[Vm]) -> Result<(), AllocError>
    ensures { OnOk result (ranges.new.items
        ≡ ranges.old.items ++ flat_map vm_ranges (map vm_data vms.now)) }
{
    for vm in vms {
        push_vm(ranges, vm)?;
    }
    Ok(())
}

fn push_vm(ranges: &mut Vec<ByteRange>, vm: &Vm) -> Result<(), AllocError>
    ensures { OnOk result (ranges.new.items ≡ ranges.old.items ++ vm_ranges (vm_data vm.now)) }
{
    ranges.push(vm.place)?;
    for region in vm.regions.as_slice() {
        ranges.push(region.range)?;
    }
    ranges.extend_from_slice(vm.guards.as_slice())
}

/// 2: the banks have at most 64 MiB together.
pub(crate) fn rule_2(config: &Config) -> Option<Ill>
    ensures { result ≡ first (rule_2 (config_data config.now)) }
{
    let mut total = 0;
    for bank in config.platform.banks.as_slice() {
        total += bank.size;
        if total > MEMORY_LIMIT {
            return Some(Ill {
                first: *bank,
                ..Ill::of(2)
            });
        }
    }
    None
}

/// 5: the hypervisor's range lies in one bank.
pub(crate) fn rule_5(config: &Config) -> Option<Ill>
    ensures { result ≡ first (rule_5 (config_data config.now)) }
{
    if lies_in_a_bank(config, &config.hyp) {
        return None;
    }
    Some(Ill {
        first: config.hyp,
        ..Ill::of(5)
    })
}

/// 6: each shared memory lies in one bank.
pub(crate) fn rule_6(config: &Config) -> Option<Ill>
    ensures { result ≡ first (rule_6 (config_data config.now)) }
{
    for shmem in config.shmems.as_slice() {
        if !lies_in_a_bank(config, &shmem.range) {
            return Some(Ill {
                first: shmem.range,
                ..Ill::of(6)
            });
        }
    }
    None
}

/// 7: no shared memory overlaps the hypervisor's range.
pub(crate) fn rule_7(config: &Config) -> Option<Ill>
    ensures { result ≡ first (rule_7 (config_data config.now)) }
{
    for shmem in config.shmems.as_slice() {
        if shmem.range.overlaps(&config.hyp) {
            return Some(Ill {
                first: shmem.range,
                second: config.hyp,
                ..Ill::of(7)
            });
        }
    }
    None
}
