ghost use Rattle.std.specs.Prelude.{◌≡◌, IfOk, IfErr};
ghost use Rattle.outside.specs.Use.{shelf_use};
ghost use Rattle.bao_wellformed.specs.Checked.{checked_data};
ghost use Rattle.report.specs.declared.status.Status.{Status};
ghost use Rattle.vm_create.specs.Boot.{ArePlans};
ghost use Rattle.bao_run.specs.Reading.{IsConfigAnswer, IsOverfull, IsPackable, IsPackedAnswer, packing_status};
ghost use Rattle.bao_run.specs.Ruling.{status_of};

use crate::fetch::fetch;
use bao_config::{ConfigError, read_config};
use bao_wellformed::{CheckError, Checked, check};
use mpu_packer::{PackError, Plan, pack};
use outside::Shelf;
use report::{FileId, Status, Why};
use std::alloc::Global;

/// How many bytes a configuration may have.
const CONFIG_LIMIT: u32 = 65_536;

/// A well-formed configuration with the packings of its cores, in their order.
#[derive(Drop)]
pub struct Packed {
    pub checked: Checked,
    pub plans: Vec<Plan>,
}

/// Reads the configuration of this name.
pub fn read_checked<S: Shelf>(alloc: Global, shelf: &mut S, config: &str) -> Result<Checked, Status>
    ensures held { S.held shelf.new ≡ S.held shelf.old }
    ensures answer { IsConfigAnswer (shelf_use S.held S.faults S.culprit shelf.old shelf.new) config.now result }
{
    let file = FileId::Config;
    let text = fetch(alloc, shelf, file, file, config, CONFIG_LIMIT)?;
    let config = match read_config(alloc, &text) {
        Ok(config) => config,
        Err(fault) => return Err(status_of(fault)),
    };
    match check(alloc, config) {
        Ok(checked) => Ok(checked),
        Err(CheckError::Ill(ill)) => Err(Status::IllConfig {
            why: Why::Rule { ill },
        }),
        Err(CheckError::OutOfMemory) => Err(Status::OutOfMemory),
    }
}

/// The status of a fault in the text of a configuration.
fn status_of(fault: ConfigError) -> Status
    ensures { result ≡ status_of fault }
{
    match fault {
        ConfigError::BadToml => Status::BadToml,
        ConfigError::BadShape { spot } => Status::IllConfig {
            why: Why::Shape { spot },
        },
        ConfigError::BadValue { spot, value } => Status::IllConfig {
            why: Why::Value { spot, value },
        },
        ConfigError::OutOfMemory => Status::OutOfMemory,
    }
}

/// Packs the cores of a configuration.
pub fn pack_checked(alloc: Global, checked: Checked) -> Result<Packed, Status>
    ensures { IsPackedAnswer (checked_data checked) result }
{
    match pack_all(alloc, &checked) {
        Ok(plans) => Ok(Packed { checked, plans }),
        Err((core, fault)) => Err(packing_status(core, fault)),
    }
}

/// The status of a core that has no packing.
fn packing_status(core: u8, fault: PackError) -> Status
    ensures { result ≡ packing_status core fault }
{
    match fault {
        PackError::TooMany { runs, entries } => Status::TooMany {
            core,
            runs,
            entries,
        },
        PackError::OutOfMemory => Status::OutOfMemory,
    }
}

/// The packings of all cores, in their order; or the first core that has none, and why.
pub fn pack_all(alloc: Global, checked: &Checked) -> Result<Vec<Plan>, (u8, PackError)>
    ensures plans { IfOk result (λ plans. ArePlans (checked_data checked.now) plans.items) }
    ensures packable { IfOk result (λ plans. IsPackable (checked_data checked.now)) }
    ensures overfull { IfErr result (λ e. IsOverfull (checked_data checked.now) e.0 e.1) }
{
    let mut plans = Vec::new(alloc);
    for core in 0..checked.config().platform.cores.len() {
        let core = core as u8;
        let plan = match pack(alloc, checked, core) {
            Ok(plan) => plan,
            Err(fault) => return Err((core, fault)),
        };
        if plans.push(plan).is_err() {
            return Err((core, PackError::OutOfMemory));
        }
    }
    Ok(plans)
}
