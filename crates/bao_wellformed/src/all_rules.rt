ghost use Rattle.std.specs.Prelude.{◌≡◌, IfOk, IfErr};
ghost use Rattle.bao_config.specs.Config.{config_data};
ghost use Rattle.bao_wellformed.specs.Break.{first};
ghost use Rattle.bao_wellformed.specs.Checked.{checked_data, TellsFirst};
ghost use Rattle.bao_wellformed.specs.WellFormed.{IsWellFormed, first_ill, platform_breaks, memory_breaks, vm_breaks, device_breaks, byte_breaks};

use crate::byte_rules::{MapsApart, PlaceIsRam, StartIsExecutable};
use crate::claim::{rule_11, rule_15, rule_17, rule_19};
use crate::pair_rules::{rule_4, rule_8};
use crate::piece::rule_3;
use crate::platform_rules::{rule_1, rule_2, rule_5, rule_6, rule_7};
use crate::vm_pair_rules::{NamesDiffer, first_of_vm_pairs};
use crate::vm_rules::{
    CoresExist, DevsHavePorts, IpcsHaveIrqs, IpcsHaveShmems, RegionsInBanks, RegionsOffHypervisor,
    first_of_vms,
};
use crate::{CheckError, Checked, Ill};
use bao_config::Config;
use std::alloc::{AllocError, Global};

/// Whether the configuration is well formed. If it isn't, the refusal tells the first break of the first rule that is
/// broken, and the configuration is dropped.
pub fn check(alloc: Global, config: Config) -> Result<Checked, CheckError>
    ensures ok { IfOk result (λ checked. checked_data checked ≡ config_data config) }
    ensures well_formed { IfOk result (λ checked. IsWellFormed (config_data config)) }
    ensures refused { IfErr result (TellsFirst (config_data config)) }
{
    match first_ill(alloc, &config) {
        Ok(None) => Ok(Checked { config }),
        Ok(Some(ill)) => Err(CheckError::Ill(ill)),
        Err(_) => Err(CheckError::OutOfMemory),
    }
}

/// The first break of the first rule that is broken.
#[tactic(auto, using(crate::proofs::Firsts::stops, crate::proofs::Firsts::goes_on), unfolding(crate::specs::WellFormed::breaks))]
fn first_ill(alloc: Global, config: &Config) -> Result<Option<Ill>, AllocError>
    ensures { IfOk result (λ found. found ≡ first_ill (config_data config.now)) }
{
    let found = platform_ill(alloc, config)?;
    if found.is_some() {
        return Ok(found);
    }
    let found = memory_ill(config);
    if found.is_some() {
        return Ok(found);
    }
    let found = vm_ill(alloc, config)?;
    if found.is_some() {
        return Ok(found);
    }
    let found = device_ill(alloc, config)?;
    if found.is_some() {
        return Ok(found);
    }
    Ok(byte_ill(config))
}

#[tactic(auto, using(crate::proofs::Firsts::stops, crate::proofs::Firsts::goes_on))]
fn platform_ill(alloc: Global, config: &Config) -> Result<Option<Ill>, AllocError>
    ensures { IfOk result (λ found. found ≡ first (platform_breaks (config_data config.now))) }
{
    let found = rule_1(alloc, config)?;
    if found.is_some() {
        return Ok(found);
    }
    let found = rule_2(config);
    if found.is_some() {
        return Ok(found);
    }
    let found = rule_3(alloc, config)?;
    if found.is_some() {
        return Ok(found);
    }
    Ok(rule_4(config))
}

#[tactic(auto, using(crate::proofs::Firsts::stops, crate::proofs::Firsts::goes_on))]
fn memory_ill(config: &Config) -> Option<Ill>
    ensures { result ≡ first (memory_breaks (config_data config.now)) }
{
    let found = rule_5(config);
    if found.is_some() {
        return found;
    }
    let found = rule_6(config);
    if found.is_some() {
        return found;
    }
    let found = rule_7(config);
    if found.is_some() {
        return found;
    }
    rule_8(config)
}

#[tactic(auto, using(crate::proofs::Firsts::stops, crate::proofs::Firsts::goes_on))]
fn vm_ill(alloc: Global, config: &Config) -> Result<Option<Ill>, AllocError>
    ensures { IfOk result (λ found. found ≡ first (vm_breaks (config_data config.now))) }
{
    let found = first_of_vm_pairs::<NamesDiffer>(config);
    if found.is_some() {
        return Ok(found);
    }
    let found = first_of_vms::<CoresExist>(config);
    if found.is_some() {
        return Ok(found);
    }
    let found = rule_11(alloc, config)?;
    if found.is_some() {
        return Ok(found);
    }
    let found = first_of_vms::<RegionsInBanks>(config);
    if found.is_some() {
        return Ok(found);
    }
    Ok(first_of_vms::<RegionsOffHypervisor>(config))
}

#[tactic(auto, using(crate::proofs::Firsts::stops, crate::proofs::Firsts::goes_on))]
fn device_ill(alloc: Global, config: &Config) -> Result<Option<Ill>, AllocError>
    ensures { IfOk result (λ found. found ≡ first (device_breaks (config_data config.now))) }
{
    let found = first_of_vms::<DevsHavePorts>(config);
    if found.is_some() {
        return Ok(found);
    }
    let found = rule_15(alloc, config)?;
    if found.is_some() {
        return Ok(found);
    }
    let found = first_of_vms::<IpcsHaveShmems>(config);
    if found.is_some() {
        return Ok(found);
    }
    let found = rule_17(alloc, config)?;
    if found.is_some() {
        return Ok(found);
    }
    let found = first_of_vms::<IpcsHaveIrqs>(config);
    if found.is_some() {
        return Ok(found);
    }
    rule_19(alloc, config)
}

#[tactic(auto, using(crate::proofs::Firsts::stops, crate::proofs::Firsts::goes_on))]
fn byte_ill(config: &Config) -> Option<Ill>
    ensures { result ≡ first (byte_breaks (config_data config.now)) }
{
    let found = first_of_vms::<PlaceIsRam>(config);
    if found.is_some() {
        return found;
    }
    let found = first_of_vms::<StartIsExecutable>(config);
    if found.is_some() {
        return found;
    }
    first_of_vm_pairs::<MapsApart>(config)
}
