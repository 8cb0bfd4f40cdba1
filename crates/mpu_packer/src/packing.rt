ghost use Rattle.std.specs.Prelude.{◌≡◌, ◌<◌, IfOk, IfErr, length};
ghost use Rattle.bao_wellformed.specs.Checked.{checked_data};
ghost use Rattle.bao_wellformed.specs.Map.{class_of};
ghost use Rattle.mpu_packer.specs.Packing.{Realises};
ghost use Rattle.mpu_packer.specs.Plan.{CountsRuns, IsPacking, TellsTooMany};
ghost use Rattle.mpu_packer.specs.Runs.{packing_of};

use crate::entries::{Plan, plan_of};
use crate::runs::runs_of;
use bao_types::OutOfMemory;
use bao_wellformed::Checked;
use std::alloc::Global;
use thiserror::Error;

/// Why a core has no packing.
#[derive(Clone, Copy, Debug, PartialEq, Eq, Error)]
pub enum PackError {
    /// The core has more runs than entries.
    #[error("too many runs for the entries of the core")]
    TooMany { runs: u32, entries: u8 },
    #[error("out of memory")]
    OutOfMemory,
}

/// The packing of the core: one entry for each of its maximal runs. It is refused where there are more runs than the core
/// has entries.
pub fn pack(alloc: Global, checked: &Checked, core: u8) -> Result<Plan, PackError>
    requires { core < length (checked_data checked.now).platform.cores }
    ensures packing { IfOk result (IsPacking (checked_data checked.now) core) }
    ensures realises { IfOk result (λ plan.
        Realises plan.entries.items (class_of (checked_data checked.now) core)) }
    ensures entries { IfOk result (λ plan. plan.entries.items ≡ packing_of (checked_data checked.now) core) }
    ensures refused { IfErr result (TellsTooMany (checked_data checked.now) core) }
    ensures counted { IfErr result (CountsRuns (checked_data checked.now) core) }
{
    let runs = match runs_of(alloc, checked, core) {
        Ok(runs) => runs,
        Err(OutOfMemory) => return Err(PackError::OutOfMemory),
    };
    let entries = checked.config().platform.cores[usize::from(core)];
    if runs.len() <= usize::from(entries) {
        return Ok(plan_of(core, runs.as_slice()));
    }
    // A list of 2^32 runs is never had: it would take 160 GiB.
    match u32::try_from(runs.len()) {
        Ok(runs) => Err(PackError::TooMany { runs, entries }),
        Err(_) => Err(PackError::OutOfMemory),
    }
}
